//! What the slots of a page make of the marks.
ghost use Rattle.std.specs.Prelude.{◌≡◌, ◌<◌, ◌≤◌, ◌+◌, ℕ, true, false, not, length};
ghost use Rattle.prune_sweep.specs.declared.mark.Mark.TheVariants.{Next, Wanted};
ghost use Rattle.prune_sweep.specs.Marks.{mark_at, left_of};
ghost use Rattle.prune_sweep.specs.Slots.{new_blocks, shared_blocks, are_within};
ghost use Rattle.prune_sweep.specs.Causes.{has_seen};
ghost use Rattle.prune_sweep.specs.Reading.{named_at, shared_at};
ghost use Rattle.prune_sweep.specs.Naming.{Stays};

use crate::mark::Mark;
use crate::marks::Marks;
use crate::slots::{Following, new_block, shared_block};
use page_codec::Reference;

/// Marks each block that a slot names as a new place as a page of this level that is to be read. It stops at one that was
/// named before, and tells whether there was none.
pub fn name_new(marks: &mut Marks, refs: &[Reference], following: Following, level: u8) -> bool
    requires { are_within following (length marks.old) refs.now ≡ true }
    ensures new { result ≡ not (has_seen marks.old (new_blocks following refs.now)) }
    ensures marks { result ≡ true → (n : ℕ) → mark_at marks.new n
        ≡ named_at (Wanted level) (new_blocks following refs.now) (mark_at marks.old) n }
    ensures stays { Stays marks.old marks.new }
{
    'slots: for reference in refs {
        if let Some(block) = new_block(reference, following) {
            if !marks.name(block, Mark::Wanted(level)) {
                return false;
            }
        }
    }
    true
}

/// Marks each block that a slot names as a page of the version before, of this level, as one that is to be read again.
pub fn share_all(marks: &mut Marks, refs: &[Reference], following: Following, level: u8)
    requires { are_within following (length marks.old) refs.now ≡ true }
    ensures marks { (n : ℕ) → mark_at marks.new n
        ≡ shared_at level (shared_blocks following refs.now) (mark_at marks.old) n }
    ensures stays { Stays marks.old marks.new }
{
    'slots: for reference in refs {
        if let Some(block) = shared_block(reference, following) {
            marks.share(block, level);
        }
    }
}
