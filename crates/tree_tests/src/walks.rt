//! Drafts carried over to later versions of their file, each written by an update of its own.
ghost use Rattle.std.specs.Prelude.{◌≡◌, ◌+◌, ◌<◌, ◌^◌, length, OnOk, IfOk, IfSome};
ghost use Rattle.draft_model.specs.Flush.{IsPlaced};

use super::trees::steps;
use super::versions::updates::{new_file, planned};
use afs_base::{BlockNo, Path, Steps};
use draft_tree::{BoxDraft, Draft};
use joint_walk::{PathClash, Settled, Walk};
use page_codec::{Members, Page, VersionPage, decode_page, decode_version};
use page_merge::Done;
use std::alloc::Global;
use std::test::Fail;
use tree_model::{Reply, Step};
use version_chain::Flush;

mod chance;
mod meetings;

/// A version that was written, and its page `/`.
#[derive(Drop)]
pub struct Version {
    at: BlockNo,
    page: VersionPage,
}

/// The pages below `/` that were written, and how many blocks were.
#[derive(Drop)]
pub struct Written {
    pages: Vec<(BlockNo, Page)>,
    blocks: u32,
}

/// The page in a block, where its level is that of the path.
pub fn page_at(written: &Written, at: &Path, block: BlockNo) -> Option<Page>
    ensures { IfSome result (λ page. page.level ≡ length at.now) }
{
    for (number, page) in &written.pages {
        if number.get() == block.get() && page.level as usize == at.len() {
            return Some(*page);
        }
    }
    None
}

/// Feeds what a step needs, and does it.
pub fn run(draft: &mut BoxDraft, written: &Written, step: &Step) -> Result<Reply, Fail>
    requires { ⟦<BoxDraft as Draft>⟧.fed_of draft.old ≡ 0 }
    ensures { OnOk result (⟦<BoxDraft as Draft>⟧.fed_of draft.new ≡ 0) }
{
    if draft.count() == 128 {
        return Err(Fail::new("too many steps"));
    }
    for _fed in 0..7u32 {
        match draft.need(step) {
            Some((at, block)) => {
                draft.feed(&at, &page_at(written, &at, block).ok_or("no page")?)?;
            }
            None => return Ok(draft.step(step)?),
        }
    }
    Err(Fail::new("too deep"))
}

/// A draft on a version that has done these steps.
pub fn draft_on(
    alloc: Global,
    version: &Version,
    written: &Written,
    steps: &[Step],
) -> Result<BoxDraft, Fail>
    ensures { IfOk result (λ d. ⟦<BoxDraft as Draft>⟧.fed_of d ≡ 0) }
{
    if version.at.get() == 0 {
        return Err(Fail::new("no block"));
    }
    let mut draft = BoxDraft::begin(alloc, version.at, &version.page)?;
    for step in steps {
        run(&mut draft, written, step)?;
    }
    Ok(draft)
}

/// Takes the blocks out of a flush, the version page last.
fn take_blocks<D: Draft>(
    draft: &D,
    flush: &mut Flush,
    written: &mut Written,
) -> Result<Version, Fail>
    requires ready { D.is_ready draft.now }
    requires serial { D.serial_of draft.now + 1 < 2 ^ 64 }
    requires placed { IsPlaced (D.view draft.now) flush.old.placed }
{
    let mut bytes = [0; 1024];
    for _turn in 0..200u32 {
        let at = flush.next(draft, &mut bytes).ok_or("no version page")?;
        written.blocks = written.blocks.checked_add(1).ok_or("too many blocks")?;
        match decode_version(&bytes) {
            Ok(page) => return Ok(Version { at, page }),
            Err(_) => {
                let page = decode_page(&bytes).ok().ok_or("no page")?;
                written.pages.push((at, page))?;
            }
        }
    }
    Err(Fail::new("too many pages"))
}

/// Writes the version of a draft.
pub fn commit(alloc: Global, draft: &BoxDraft, written: &mut Written) -> Result<Version, Fail> {
    if draft.serial() == u64::MAX {
        return Err(Fail::new("worn"));
    }
    let plan = planned(alloc, draft, written.blocks, 0, Members::none());
    let mut flush = plan.ok_or("no plan")?;
    take_blocks(draft, &mut flush, written)
}

/// Writes the version that these steps make of another one.
pub fn update(
    alloc: Global,
    version: &Version,
    written: &mut Written,
    steps: &[Step],
) -> Result<Version, Fail> {
    let draft = draft_on(alloc, version, written, steps)?;
    commit(alloc, &draft, written)
}

/// A new file in block 1, with the version that these steps make.
pub fn begun(alloc: Global, steps: &[Step]) -> Result<(Version, Written), Fail> {
    let first = Version {
        at: BlockNo::of(1)?,
        page: new_file(),
    };
    let mut written = Written {
        pages: Vec::new(alloc),
        blocks: 1,
    };
    let version = update(alloc, &first, &mut written, steps)?;
    Ok((version, written))
}

/// What is offered to a walk for the job of each pair.
#[derive(Clone, Copy)]
pub enum Offers {
    Nothing,
    TheOutcome,
    AnotherOutcome,
}

/// What is offered for the pair that waits.
fn offered(walk: &Walk, offers: Offers) -> Option<Done> {
    let mut job = *walk.job()?;
    match offers {
        Offers::Nothing => None,
        Offers::TheOutcome => Some(Done::of(job)),
        Offers::AnotherOutcome => {
            job.kept ^= 1;
            Some(Done::of(job))
        }
    }
}

/// How a walk went: the clash, where one was found, how many pages were read, and how many pairs the walk merged by itself.
#[derive(Clone, Copy)]
pub struct Walked {
    clash: Option<PathClash>,
    feeds: u64,
    own: u32,
}

/// One more pair, where the walk merged one by itself.
fn counted(own: u32, settled: Settled) -> u32 {
    match settled {
        Settled::ByWalk => own.saturating_add(1),
        Settled::NoPair | Settled::ByOffer => own,
    }
}

/// Reads the page that a walk needs; false where none is needed.
fn fed(
    walk: &mut Walk,
    draft: &mut BoxDraft,
    written: &Written,
    offers: Offers,
    walked: &mut Walked,
    ticks: &mut Steps,
) -> Result<bool, Fail> {
    match walk.need() {
        None => Ok(false),
        Some((at, block)) => {
            let offer = offered(walk, offers);
            let page = page_at(written, &at, block).ok_or("no page")?;
            let settled = walk.feed(draft, &page, offer.as_ref(), ticks);
            walked.own = counted(walked.own, settled);
            Ok(true)
        }
    }
}

/// Merges the last pair, and ends the walk.
fn ended(
    mut walk: Walk,
    draft: &mut BoxDraft,
    offers: Offers,
    walked: &mut Walked,
) -> Result<Option<PathClash>, Fail> {
    let offer = offered(&walk, offers);
    if walk.job().is_some() {
        let settled = walk.settle(draft, offer.as_ref());
        walked.own = counted(walked.own, settled);
    }
    if walk.job().is_some() || walk.need().is_some() {
        return Err(Fail::new("the walk goes on"));
    }
    Ok(walk.finish(draft).err())
}

/// Carries a draft over to the next version.
pub fn carry(
    draft: &mut BoxDraft,
    later: &Version,
    written: &Written,
    offers: Offers,
) -> Result<Walked, Fail> {
    let base = later.page.base.ok_or("no base")?;
    if base.get() != draft.root().get() || later.at.get() == 0 || draft.count() == 0 {
        return Err(Fail::new("no walk"));
    }
    let mut walked = Walked {
        clash: None,
        feeds: 0,
        own: 0,
    };
    let mut ticks = Steps::new();
    let mut walk = Walk::start(draft, later.at, &later.page, &mut ticks);
    for _turn in 0..200u32 {
        if !fed(&mut walk, draft, written, offers, &mut walked, &mut ticks)? {
            break;
        }
    }
    walked.clash = ended(walk, draft, offers, &mut walked)?;
    walked.feeds = ticks.count();
    Ok(walked)
}
