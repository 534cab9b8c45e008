//! Drafts on a hand-made base.
ghost use Rattle.std.specs.Prelude.{◌≡◌, length, OnOk, IfOk, IfSome};

use super::texts::{path, step};
use afs_base::{BlockNo, PageData, Path};
use arrayvec::ArrayVec;
use draft_tree::{BoxDraft, Draft, SlotMarks};
use page_codec::{Members, Page, Reference, VersionPage};
use ref_flags::Flags;
use std::alloc::Global;
use std::process::Abort;
use std::test::Fail;
use tree_model::{Reply, Step};

mod marks;
mod walks;

/// A reference to a block without marks; none to block 0.
fn reference(block: u32) -> Option<Reference> {
    let block = BlockNo::of(block).ok()?;
    if block.get() == 0 {
        return None;
    }
    Some(Reference {
        flags: Flags::none(),
        block: Some(block),
    })
}

/// The page with a block in a slot; none where its level is 7 or that is no slot or no block.
fn with_block(page: &Page, slot: usize, block: u32) -> Option<Page>
    ensures { IfSome result (λ p. p.level ≡ page.now.level) }
{
    if page.level >= 7 || slot >= 16 {
        return None;
    }
    let mut changed = *page;
    changed.refs[slot] = reference(block)?;
    Some(changed)
}

/// A page of a level below 7 with one byte and one child.
fn with_child(level: u8, byte: u8, slot: usize, block: u32) -> Option<Page> {
    if level >= 7 {
        return None;
    }
    let mut page = Page::empty(level);
    page.bytes = PageData::of(&[byte]);
    with_block(&page, slot, block)
}

/// A page of a level below 7 whose slots all name one block.
fn wide(level: u8, block: u32) -> Option<Page>
    ensures { IfSome result (λ p. p.level ≡ level) }
{
    if level >= 7 {
        return None;
    }
    let refs = [reference(block)?; 16];
    let mut page = Page::empty(level);
    page.refs = refs;
    Some(page)
}

/// The page in a block of the base: `/0` in block 4 with `/0/1` in block 5, and below slot 7 one page at each level, that of level n in block
/// 10 + n. In block 100 + n lies a page of level n whose slots all name the block of the next level, down to level 6.
fn made(block: u32) -> Option<Page> {
    match block {
        4 => with_child(1, b'b', 1, 5),
        5 => with_child(2, b'c', 0, 9),
        9 => Some(Page::empty(3)),
        11..=16 => with_child((block - 10) as u8, b'd', 7, block + 1),
        17 => Some(Page::empty(7)),
        101..=105 => wide((block - 100) as u8, block + 1),
        106 => Some(Page::empty(6)),
        _ => None,
    }
}

/// The page in a block of the base where its level is that of the path.
fn stored_at(at: &Path, block: BlockNo) -> Option<Page>
    ensures { IfSome result (λ page. page.level ≡ length at.now) }
{
    let page = made(block.get())?;
    if page.level as usize != at.len() {
        return None;
    }
    Some(page)
}

/// A version page.
fn version(page: Page) -> Option<VersionPage> {
    if page.level != 0 {
        return None;
    }
    Some(VersionPage {
        root: Flags::none(),
        page,
        object: 5,
        serial: 9,
        commit: None,
        base: None,
        members: Members::none(),
    })
}

/// The base's version page: `/` with `/0` and `/7`.
fn base() -> Option<VersionPage> {
    version(with_block(&with_child(0, b'a', 0, 4)?, 7, 11)?)
}

/// A version page that names the page of level 1 in block 101 in all its slots.
pub fn wide_base() -> Option<VersionPage> {
    version(wide(0, 101)?)
}

/// A draft on a version in block 3.
pub fn begun(alloc: Global, version: Option<VersionPage>) -> Result<BoxDraft, Fail>
    ensures { IfOk result (λ d. ⟦<BoxDraft as Draft>⟧.fed_of d ≡ 0) }
{
    let version = version.ok_or("no version")?;
    let at = BlockNo::of(3).ok().ok_or("no block")?;
    Ok(BoxDraft::begin(alloc, at, &version)?)
}

/// Feeds what a step needs, and does it.
pub fn run(rt: &impl Abort, draft: &mut BoxDraft, step: &Step) -> Result<Reply, Fail>
    requires { ⟦<BoxDraft as Draft>⟧.fed_of draft.old ≡ 0 }
    ensures { OnOk result (⟦<BoxDraft as Draft>⟧.fed_of draft.new ≡ 0) }
{
    assert!(rt; draft.count() < 128);
    for _fed in 0..7u32 {
        match draft.need(step) {
            Some((at, block)) => draft.feed(&at, &stored_at(&at, block).ok_or("no page")?)?,
            None => return Ok(draft.step(step)?),
        }
    }
    Err(Fail::new("too deep"))
}
