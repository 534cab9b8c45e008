ghost use Rattle.std.specs.Prelude.{◌≡◌, ℕ, ◌+◌, ◌<◌, ◌≤◌, List, length, None, Some, true, IsOk, MatchOption, OnErr, OnOk};
ghost use Rattle.std.specs.Map.{keys_of};
ghost use Rattle.afs_base.specs.Path.{are_slots};
ghost use Rattle.draft_model.specs.Entries.{Entry, shown};
ghost use Rattle.draft_model.specs.Told.{are_rising};
ghost use Rattle.draft_model.specs.Views.{Copied};
ghost use Rattle.draft_tree.specs.Looking.{looked};
ghost use Rattle.draft_tree.specs.Marking.{after_change, FitsPage};
ghost use Rattle.draft_tree.specs.Pages.{changed, put, cut_below, IsShort, Shows};

use crate::change::Change;
use crate::copied_page::CopiedPage;
use crate::look::Look;
use afs_base::{Memory, Path};

/// The pages that an update copied or made, by their paths, however they are kept. All that a step does to a draft goes through these calls.
pub trait PageList {
    /// The paths and their pages, in the order of the paths.
    ghost entries: { Self → List Entry };

    /// What the list keeps beside its pages.
    ghost Others: { Type 0 };

    /// No call changes it.
    ghost others: { Self → Others };

    /// How many pages the list has room for without taking memory.
    ghost space: { Others → ℕ };

    /// Whether a page is put always where there is room for it.
    ghost never_refuses: { Type 0 };

    /// A look at the page at a path, dropped or not. None exactly where none was copied or made.
    fn look(&self, at: &Path) -> Option<Look<'_>>
        ensures look { MatchOption result (shown (entries self.now) at.now ≡ None)
            (λ l. shown (entries self.now) at.now ≡ Some (looked l)) }
        ensures short { IsShort (entries self.now) };

    /// Puts a page at a path, in place of the one that stands there. Want of memory changes nothing.
    fn put(&mut self, at: &Path, copied: CopiedPage) -> Result<(), Memory>
        ensures put { OnOk result
            (Shows (entries self.new) (put (shown (entries self.old)) at.now copied)) }
        ensures err { OnErr result (entries self.new ≡ entries self.old) }
        ensures len { length (entries self.new) ≤ length (entries self.old) + 1 }
        ensures order { OnOk result (are_rising (keys_of (entries self.new)) ≡ true) }
        ensures slots { are_slots at.now ≡ true }
        ensures others { others self.new ≡ others self.old }
        ensures succeeds { never_refuses
            → length (entries self.old) < space (others self.old) → IsOk result };

    /// Does a change of the page at a path, where one stands there.
    fn change(&mut self, at: &Path, change: &Change)
        requires { (c : Copied) → shown (entries self.old) at.now ≡ Some c → FitsPage change.now c }
        ensures view { Shows (entries self.new)
            (changed (shown (entries self.old)) at.now (after_change change.now)) }
        ensures keys { keys_of (entries self.new) ≡ keys_of (entries self.old) }
        ensures others { others self.new ≡ others self.old };

    /// Takes away the pages at and below a path. Their marks stay.
    fn cut_below(&mut self, at: &Path)
        ensures view { Shows (entries self.new)
            (cut_below (shown (entries self.old)) at.now) }
        ensures keys { keys_of (entries self.new) ≡ keys_of (entries self.old) }
        ensures others { others self.new ≡ others self.old };
}
