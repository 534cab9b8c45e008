//! A base, and a draft of each kind on it.
ghost use Rattle.std.specs.Prelude.{◌≡◌, ◌<◌, length, IfOk, IfSome, OnOk};
ghost use Rattle.frame_pool.specs.Leasing.{left, IsOf};
ghost use Rattle.pool_draft.specs.Sets.{roots_of};

use super::texts::step;
use afs_base::{BlockNo, PageData, Path};
use draft_tree::{BoxDraft, Draft};
use frame_pool::{Lease, Pool};
use page_codec::{Members, Page, Reference, VersionPage};
use pool_draft::{PoolDraft, PoolSet, Row};
use ref_flags::Flags;
use std::alloc::Global;
use std::process::Abort;
use std::test::Fail;
use tree_model::{Reply, Step};

/// A reference to a block without marks; none to block 0.
fn reference(block: u32) -> Option<Reference> {
    let block = BlockNo::of(block).ok()?;
    if block.get() == 0 {
        return None;
    }
    Some(Reference {
        flags: Flags::none(),
        block: Some(block),
    })
}

/// A page of a level below 7, whose first eight slots name one block.
fn half(level: u8, block: u32) -> Option<Page> {
    if level >= 7 {
        return None;
    }
    let mut refs = [reference(block)?; 16];
    for slot in 8..16 {
        refs[slot] = Reference::empty();
    }
    let mut page = Page::empty(level);
    page.bytes = PageData::of(&[level]);
    page.refs = refs;
    Some(page)
}

/// The page of the base in a block: one of level n in block 100 + n.
fn stored(block: u32) -> Option<Page> {
    match block {
        100..=106 => half((block - 100) as u8, block + 1),
        107 => Some(Page::empty(7)),
        _ => None,
    }
}

/// The page of the base in a block where its level is that of the path.
pub fn stored_at(at: &Path, block: BlockNo) -> Option<Page>
    ensures { IfSome result (λ page. page.level ≡ length at.now) }
{
    let page = stored(block.get())?;
    if page.level as usize != at.len() {
        return None;
    }
    Some(page)
}

/// The base's version page. Each page of the base has pages in its slots 0 to 7, down to level 7.
pub fn base() -> Option<VersionPage> {
    let page = stored(100)?;
    if page.level != 0 {
        return None;
    }
    Some(VersionPage {
        root: Flags::none(),
        page,
        object: 5,
        serial: 9,
        commit: None,
        base: None,
        members: Members::none(),
    })
}

/// A draft in memory, on the base in block 3.
pub fn box_draft(alloc: Global) -> Result<BoxDraft, Fail>
    ensures { IfOk result (λ d. ⟦<BoxDraft as Draft>⟧.fed_of d ≡ 0) }
{
    let version = base().ok_or("no version")?;
    Ok(BoxDraft::begin(alloc, BlockNo::at(3), &version)?)
}

/// The frames of one client, none of which is out.
fn frames(alloc: Global) -> Result<(Pool, Lease<Row>), Fail>
    ensures { IfOk result (λ r. IsOf r.1.run (length r.0) × (left r.1.run ≡ 1024)) }
{
    let (pool, mut leases) = Pool::make(alloc, 1)?;
    let lease = leases.next().ok_or("no lease")?;
    Ok((pool, lease))
}

/// A draft in frames, on the base in block 3.
pub fn pool_draft(alloc: Global) -> Result<PoolDraft, Fail>
    ensures { IfOk result (λ d. ⟦<PoolDraft as Draft>⟧.fed_of d ≡ 0) }
{
    let version = base().ok_or("no version")?;
    let (pool, lease) = frames(alloc)?;
    Ok(PoolDraft::begin(pool, lease, BlockNo::at(3), &version))
}

/// Seventeen drafts in frames, on the base in block 3. The one of a number is picked.
pub fn pool_set(alloc: Global, k: u8) -> Result<PoolSet, Fail>
    requires { k < 17 }
    ensures roots { IfOk result (λ s. roots_of s ≡ 17) }
    ensures ready { IfOk result (λ s. ⟦<PoolSet as Draft>⟧.is_ready s) }
    ensures fed { IfOk result (λ s. ⟦<PoolSet as Draft>⟧.fed_of s ≡ 0) }
{
    let version = base().ok_or("no version")?;
    let (pool, lease) = frames(alloc)?;
    let mut set = PoolSet::over(pool, lease);
    for _root in 0..17u32 {
        if !set.add(BlockNo::at(3), &version) {
            return Err(Fail::new("no room"));
        }
    }
    set.pick(k);
    Ok(set)
}

/// Feeds what a step needs, and does it.
fn run_on<D: Draft>(rt: &impl Abort, draft: &mut D, step: &Step) -> Result<Reply, Fail>
    requires ready { D.is_ready draft.old }
    requires none { D.fed_of draft.old ≡ 0 }
    ensures ready { D.is_ready draft.new }
    ensures none { OnOk result (D.fed_of draft.new ≡ 0) }
{
    assert!(rt; draft.count() < 128);
    for _fed in 0..7u32 {
        match draft.need(step) {
            Some((at, block)) => draft.feed(&at, &stored_at(&at, block).ok_or("no page")?)?,
            None => return Ok(draft.step(step)?),
        }
    }
    Err(Fail::new("too deep"))
}

/// Does the steps of a text, parted by semicolons.
pub fn run_all<D: Draft>(rt: &impl Abort, draft: &mut D, text: &str) -> Result<(), Fail>
    requires ready { D.is_ready draft.old }
    requires none { D.fed_of draft.old ≡ 0 }
    ensures ready { D.is_ready draft.new }
    ensures none { OnOk result (D.fed_of draft.new ≡ 0) }
{
    for word in text.split(';') {
        run_on(rt, draft, &step(word).ok_or("no step")?)?;
    }
    Ok(())
}
