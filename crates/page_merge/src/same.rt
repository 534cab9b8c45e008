ghost use Rattle.std.specs.Prelude.{◌≡◌, ◌↔◌, IsTrue, length};

use crate::job::Job;
use afs_base::{BlockNo, PageData, SLOTS};
use page_codec::{Page, Reference};
use ref_flags::Flags;

/// Whether the flags are the same.
fn is_same_flags(a: Flags, b: Flags) -> bool
    ensures { IsTrue result ↔ (a ≡ b) }
{
    a == b
}

/// Whether the blocks are the same, or there is none in both.
fn is_same_block(a: Option<BlockNo>, b: Option<BlockNo>) -> bool
    ensures { IsTrue result ↔ (a ≡ b) }
{
    a == b
}

/// Whether the data is the same.
fn is_same_data(a: &PageData, b: &PageData) -> bool
    ensures { IsTrue result ↔ (a.now ≡ b.now) }
{
    a == b
}

/// Whether the slots name the same block with the same marks.
fn is_same_slot(a: &Reference, b: &Reference) -> bool
    ensures { IsTrue result ↔ (a.now ≡ b.now) }
{
    is_same_flags(a.flags, b.flags) & is_same_block(a.block, b.block)
}

/// Whether all slots are the same.
fn is_same_slots(a: &[Reference], b: &[Reference]) -> bool
    requires a { length a.now ≡ SLOTS }
    requires b { length b.now ≡ SLOTS }
    ensures { IsTrue result ↔ (a.now ≡ b.now) }
{
    for slot in 0..SLOTS {
        if !is_same_slot(&a[slot], &b[slot]) {
            return false;
        }
    }
    true
}

/// Whether the pages are the same.
fn is_same_page(a: &Page, b: &Page) -> bool
    ensures { IsTrue result ↔ (a.now ≡ b.now) }
{
    (a.level == b.level)
        & (a.modified == b.modified)
        & is_same_data(&a.bytes, &b.bytes)
        & is_same_slots(&a.refs, &b.refs)
}

/// Whether the jobs are the same.
pub fn is_same_job(a: &Job, b: &Job) -> bool
    ensures { IsTrue result ↔ (a.now ≡ b.now) }
{
    is_same_page(&a.mine, &b.mine)
        & is_same_page(&a.theirs, &b.theirs)
        & is_same_flags(a.marks, b.marks)
        & is_same_flags(a.changed, b.changed)
        & (a.searched == b.searched)
        & (a.modified == b.modified)
        & (a.kept == b.kept)
}
