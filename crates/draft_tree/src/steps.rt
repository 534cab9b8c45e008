//! What each step does to the pages, and which page of the base it wants.
ghost use Rattle.std.specs.Prelude.{◌≡◌, ℕ, ◌+◌, ◌^◌, ◌<◌, ◌≤◌, List, [], ◌∷◌, ◌++◌, length, IfOk, OnOk, OnErr, IsOk, MatchOption, true};
ghost use Rattle.std.specs.Map.{keys_of};
ghost use Rattle.afs_base.specs.Path.{are_slots};
ghost use Rattle.tree_model.specs.Accesses.{target};
ghost use Rattle.tree_model.specs.Trees.{IsMake};
ghost use Rattle.tree_model.specs.declared.step.Step.TheVariants.{DropAt, ListAt, MakeAt, ReadAt, WriteAt};
ghost use Rattle.draft_model.specs.Steps.{made, reply_in, stepped, there_bit, there_bits};
ghost use Rattle.draft_model.specs.Told.{are_rising};
ghost use Rattle.draft_model.specs.Views.{copies, Wants, WantsNone};
ghost use Rattle.draft_model.specs.Entries.{shown};
ghost use Rattle.draft_tree.specs.Pages.{put, searched_to, Shows};

use crate::change::Change;
use crate::copied_page::CopiedPage;
use crate::page_list::PageList;
use crate::queries::{data, has_child, is_live, wanted_block, was_read};
use afs_base::{BlockNo, Memory, PageData, Path, Slot};
use tree_model::{Child, Reply, Step};

/// Marks the slots on the way to the path as read, of the pages that are there.
fn search_way<P: PageList>(pages: &mut P, at: &Path)
    ensures view { Shows (P.entries pages.new)
        (searched_to (shown (P.entries pages.old)) at.now) }
    ensures keys { keys_of (P.entries pages.new) ≡ keys_of (P.entries pages.old) }
    ensures others { P.others pages.new ≡ P.others pages.old }
{
    let mut above = Path::root();
    for i in 0..at.len() {
        let slot = at.slot(i);
        pages.change(&above, &Change::Search(slot));
        above = above.below(slot);
    }
}

/// The shallowest page of the base on the way to a path that is wanted and not copied, and its block.
pub fn need<P: PageList>(pages: &P, end: &Path) -> Option<(Path, BlockNo)>
    ensures { MatchOption result
        (WantsNone (copies (shown (P.entries pages.now))) end.now)
        (λ x. Wants (copies (shown (P.entries pages.now))) end.now x.0 x.1) }
{
    let mut above = Path::root();
    for i in 0..end.len() {
        let slot = end.slot(i);
        let path = above.below(slot);
        if let Some(block) = wanted_block(pages, &above, slot) {
            return Some((path, block));
        }
        above = path;
    }
    None
}

/// The bit of a slot where the page at the path has a page in it, else 0.
fn bit<P: PageList>(pages: &P, at: &Path, slot: u8) -> u16
    requires { slot < 16 }
    ensures { result ≡ there_bit (copies (shown (P.entries pages.now))) at.now slot }
{
    if has_child(pages, at, Slot::at(slot)) {
        1 << slot
    } else {
        0
    }
}

/// One bit for each slot of the page at the path that has a page in it.
fn child_bits<P: PageList>(pages: &P, at: &Path) -> u16
    ensures { result ≡ there_bits (copies (shown (P.entries pages.now))) at.now }
{
    let mut bits = 0u16;
    for slot in 0..16u8 {
        bits += bit(pages, at, slot);
    }
    bits
}

/// The answer to a list.
fn list<P: PageList>(pages: &P, at: &Path) -> Reply
    ensures { result ≡ reply_in (copies (shown (P.entries pages.now))) (ListAt at.now) }
{
    if is_live(pages, at) {
        Reply::Slots(child_bits(pages, at))
    } else {
        Reply::Absent
    }
}

/// Does a read.
pub fn read_step<P: PageList>(pages: &mut P, at: &Path) -> Reply
    ensures view { Shows (P.entries pages.new)
        (stepped (shown (P.entries pages.old)) (ReadAt at.now)) }
    ensures reply { result ≡ reply_in (copies (shown (P.entries pages.old))) (ReadAt at.now) }
    ensures keys { keys_of (P.entries pages.new) ≡ keys_of (P.entries pages.old) }
    ensures others { P.others pages.new ≡ P.others pages.old }
{
    let reply = data(pages, at);
    pages.change(at, &Change::Read);
    search_way(pages, at);
    reply
}

/// Does a list.
pub fn list_step<P: PageList>(pages: &mut P, at: &Path) -> Reply
    ensures view { Shows (P.entries pages.new)
        (stepped (shown (P.entries pages.old)) (ListAt at.now)) }
    ensures reply { result ≡ reply_in (copies (shown (P.entries pages.old))) (ListAt at.now) }
    ensures keys { keys_of (P.entries pages.new) ≡ keys_of (P.entries pages.old) }
    ensures others { P.others pages.new ≡ P.others pages.old }
{
    let reply = list(pages, at);
    pages.change(at, &Change::SearchAll);
    search_way(pages, at);
    reply
}

/// Does a write.
pub fn write_step<P: PageList>(pages: &mut P, at: &Path, bytes: &PageData) -> Reply
    ensures view { Shows (P.entries pages.new)
        (stepped (shown (P.entries pages.old)) (WriteAt at.now bytes.now)) }
    ensures reply { result
        ≡ reply_in (copies (shown (P.entries pages.old))) (WriteAt at.now bytes.now) }
    ensures keys { keys_of (P.entries pages.new) ≡ keys_of (P.entries pages.old) }
    ensures others { P.others pages.new ≡ P.others pages.old }
{
    let reply = if is_live(pages, at) {
        Reply::Done
    } else {
        Reply::Absent
    };
    pages.change(at, &Change::Write(*bytes));
    search_way(pages, at);
    reply
}

/// Puts a page without data at the path, written in all its parts. Want of memory changes nothing.
fn put_made<P: PageList>(pages: &mut P, path: &Path) -> Result<(), Memory>
    ensures put { OnOk result (Shows (P.entries pages.new)
        (put (shown (P.entries pages.old)) path.now
        (made (length path.now) (shown (P.entries pages.old) path.now)))) }
    ensures err { OnErr result (P.entries pages.new ≡ P.entries pages.old) }
    ensures len { length (P.entries pages.new) ≤ length (P.entries pages.old) + 1 }
    ensures others { P.others pages.new ≡ P.others pages.old }
    ensures succeeds { P.never_refuses
        → length (P.entries pages.old) < P.space (P.others pages.old) → IsOk result }
    ensures order { OnOk result (are_rising (keys_of (P.entries pages.new)) ≡ true) }
{
    let read = was_read(pages, path);
    pages.put(path, CopiedPage::made(path.len() as u8, read))
}

/// Does a make. Want of memory changes nothing.
pub fn make_step<P: PageList>(pages: &mut P, at: &Child) -> Result<Reply, Memory>
    ensures view { OnOk result
        (Shows (P.entries pages.new)
        (stepped (shown (P.entries pages.old)) (MakeAt at.now))) }
    ensures reply { IfOk result
        (λ reply. reply ≡ reply_in (copies (shown (P.entries pages.old))) (MakeAt at.now)) }
    ensures err { OnErr result (P.entries pages.new ≡ P.entries pages.old) }
    ensures len { length (P.entries pages.new) ≤ length (P.entries pages.old) + 1 }
    ensures others { P.others pages.new ≡ P.others pages.old }
    ensures succeeds { P.never_refuses
        → length (P.entries pages.old) < P.space (P.others pages.old) → IsOk result }
    ensures order { are_rising (keys_of (P.entries pages.old)) ≡ true
        → are_rising (keys_of (P.entries pages.new)) ≡ true }
{
    let path = at.path();
    if !is_live(pages, &at.above()) {
        search_way(pages, &path);
        return Ok(Reply::Absent);
    }
    if has_child(pages, &at.above(), at.last()) {
        search_way(pages, &path);
        return Ok(Reply::Present);
    }
    put_made(pages, &path)?;
    pages.change(&at.above(), &Change::MakeChild(at.last()));
    search_way(pages, &path);
    Ok(Reply::Done)
}

/// Does a drop.
pub fn drop_step<P: PageList>(pages: &mut P, at: &Child) -> Reply
    ensures view { Shows (P.entries pages.new)
        (stepped (shown (P.entries pages.old)) (DropAt at.now)) }
    ensures reply { result ≡ reply_in (copies (shown (P.entries pages.old))) (DropAt at.now) }
    ensures keys { keys_of (P.entries pages.new) ≡ keys_of (P.entries pages.old) }
    ensures others { P.others pages.new ≡ P.others pages.old }
{
    let path = at.path();
    if !has_child(pages, &at.above(), at.last()) {
        search_way(pages, &path);
        return Reply::Absent;
    }
    pages.change(&at.above(), &Change::DropChild(at.last()));
    pages.cut_below(&path);
    search_way(pages, &path);
    Reply::Done
}

/// Does a step. Want of memory, which only a make can have, changes nothing.
pub fn step<P: PageList>(pages: &mut P, step: &Step) -> Result<Reply, Memory>
    ensures view { OnOk result
        (Shows (P.entries pages.new)
        (stepped (shown (P.entries pages.old)) step.now)) }
    ensures reply { IfOk result
        (λ reply. reply ≡ reply_in (copies (shown (P.entries pages.old))) step.now) }
    ensures err { OnErr result (P.entries pages.new ≡ P.entries pages.old) }
    ensures cause { OnErr result (IsMake step.now) }
    ensures len { length (P.entries pages.new) ≤ length (P.entries pages.old) + 1 }
    ensures others { P.others pages.new ≡ P.others pages.old }
    ensures succeeds { P.never_refuses
        → length (P.entries pages.old) < P.space (P.others pages.old) → IsOk result }
    ensures no_more { (IsMake step.now → ⊥)
        → length (P.entries pages.new) ≡ length (P.entries pages.old) }
    ensures order { are_rising (keys_of (P.entries pages.old)) ≡ true
        → are_rising (keys_of (P.entries pages.new)) ≡ true }
    ensures slots { are_slots (target step.now) ≡ true }
{
    // A path that is looked at is known to have slots below 16.
    let _depth = step.target().len();
    match step {
        Step::ReadAt { at } => Ok(read_step(pages, at)),
        Step::ListAt { at } => Ok(list_step(pages, at)),
        Step::WriteAt { at, bytes } => Ok(write_step(pages, at, bytes)),
        Step::MakeAt { at } => make_step(pages, at),
        Step::DropAt { at } => Ok(drop_step(pages, at)),
    }
}
