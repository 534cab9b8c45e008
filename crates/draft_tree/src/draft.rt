ghost use Rattle.std.specs.Prelude.{◌≡◌, ℕ, ◌+◌, ◌<◌, ◌≤◌, ◌↔◌, List, [], length, slice_get, Some, IsTrue, true, false, IfOk, IsOk, OnOk, OnErr, MatchOption};
ghost use Rattle.tree_model.specs.Accesses.{end_of};
ghost use Rattle.tree_model.specs.Trees.{IsMake};
ghost use Rattle.draft_model.specs.Views.{View, copies, live, Wants, WantsNone, IsWanted};
ghost use Rattle.draft_model.specs.Steps.{stepped, reply_in, fed};
ghost use Rattle.draft_model.specs.Stands.{Runs, Feeds};
ghost use Rattle.draft_model.specs.Told.{flags_of, searched_of, modified_of, Wrote, AreFresh, TellsFlags, TellsMasks, TellsWrites, TellsFresh};
ghost use Rattle.draft_tree.specs.declared.draft.TheConstants.{MAX_FRESH};
ghost use Rattle.draft_tree.specs.Drafts.{live_page, CanMerge, merged_at, accessed_pages, HasLevels};

use crate::slot_marks::SlotMarks;
use afs_base::{BlockNo, Memory, Path};
use arrayvec::ArrayVec;
use page_codec::Page;
use ref_flags::Flags;
use tree_model::{Reply, Step};

/// The most fresh paths of a draft: `/`, seven for each of 128 steps, and seven.
pub const MAX_FRESH: usize = 904;

/// An update at work on a version: the pages that it accessed are copied from that version, its base, as they are needed; all other
/// pages are the base's own.
///
/// What a draft stands for is a relation between what it shows, the blocks, the base's tree and the steps. A draft keeps neither the base
/// nor the steps. Each call says what it does to what the draft shows, and beside it what this means for that relation.
pub trait Draft {
    /// What the draft shows: at each path the page that was copied or made there, dropped or not, with its marks.
    ghost view: { Self → View };

    /// The block of the base's version page.
    ghost root_of: { Self → ℕ };

    /// The file of the base.
    ghost object_of: { Self → ℕ };

    /// The serial of the base.
    ghost serial_of: { Self → ℕ };

    /// How many steps were done.
    ghost count_of: { Self → ℕ };

    /// How many pages were fed since the draft began or since its last step.
    ghost fed_of: { Self → ℕ };

    /// The fresh paths, in order: those of live pages on or below which something was written.
    ghost fresh_of: { Self → List (List ℕ) };

    /// Whether calls may be made. Of several drafts in one value, one has to be picked first.
    ghost is_ready: { Self → Type 0 } = { λ _. Unit {0} };

    /// What a value keeps beside this draft: other drafts, and the room that they share.
    ghost Rest: { Type 0 };

    /// No call of this draft changes it.
    ghost rest_of: { Self → Rest };

    /// Whether `feed` and `step` answer Ok always.
    ghost never_refuses: { Type 0 } = { ⊥ };

    /// The block of the base's version page, never 0.
    fn root(&self) -> BlockNo
        requires { is_ready self.now }
        ensures value { result ≡ root_of self.now }
        ensures named { 0 < result };

    /// The file of the base, at least 1.
    fn object(&self) -> u32
        requires { is_ready self.now }
        ensures value { result ≡ object_of self.now }
        ensures some { 0 < result };

    /// The serial of the base.
    fn serial(&self) -> u64
        requires { is_ready self.now }
        ensures { result ≡ serial_of self.now };

    /// How many steps were done, at most 128.
    fn count(&self) -> u32
        requires { is_ready self.now }
        ensures value { result ≡ count_of self.now }
        ensures most { result ≤ 128 };

    /// Whether some step wrote anything: data, or a slot.
    fn has_writes(&self) -> bool
        requires { is_ready self.now }
        ensures value { IsTrue result ↔ Wrote (view self.now) }
        ensures tells { TellsWrites (view self.now) result };

    /// How many fresh paths there are: live pages on or below which something was written, dropped pages below them included.
    fn fresh_count(&self) -> u32
        requires { is_ready self.now }
        ensures count { result ≡ length (fresh_of self.now) }
        ensures tells { TellsFresh (view self.now) (fresh_of self.now) };

    /// The fresh path at place k, from 0. Paths are ordered as lists.
    fn fresh(&self, k: u32) -> Path
        requires ready { is_ready self.now }
        requires below { k < length (fresh_of self.now) }
        ensures { slice_get (fresh_of self.now) k ≡ Some result };

    /// Lists the fresh paths, in order.
    fn list_fresh(&self, into: &mut ArrayVec<Path, MAX_FRESH>)
        requires ready { is_ready self.now }
        requires empty { into.old.items ≡ [] }
        ensures { into.new.items ≡ fresh_of self.now };

    /// The marks of a path, those of dropped pages too; none where no page was copied or made.
    fn flags(&self, at: &Path) -> Flags
        requires { is_ready self.now }
        ensures value { result ≡ flags_of (view self.now at.now) }
        ensures tells { TellsFlags (view self.now) at.now result };

    /// The slots of the page at a path that were read, and those that were written; of dropped pages too.
    fn slots(&self, at: &Path) -> SlotMarks
        requires { is_ready self.now }
        ensures searched { result.searched ≡ searched_of (view self.now at.now) }
        ensures modified { result.modified ≡ modified_of (view self.now at.now) }
        ensures tells { TellsMasks (view self.now) at.now result.searched result.modified };

    /// Copies out the page that is live at a path. False exactly where none is, and then `into` stays as it was. The page's mask is that of
    /// the slots that were written; its slots name blocks of the base alone, with the marks that they have there.
    fn page(&self, at: &Path, into: &mut Page) -> bool
        requires { is_ready self.now }
        ensures { MatchOption (live_page (copies (view self.now) at.now))
            ((result ≡ false) × (into.new ≡ into.old))
            (λ page. (result ≡ true) × (into.new ≡ page)) };

    /// A page of the base on the step's way that is not copied yet, below one that is, and its block; none exactly where no page is wanted.
    fn need(&self, step: &Step) -> Option<(Path, BlockNo)>
        requires { is_ready self.now }
        ensures { MatchOption result
            (WantsNone (copies (view self.now)) (end_of step.now))
            (λ x. Wants (copies (view self.now)) (end_of step.now) x.0 x.1) };

    /// Copies the base's page at a path that some step needs, which has the level of that path. At most seven pages are fed from one step to
    /// the next. Want of memory leaves the draft as it was.
    fn feed(&mut self, at: &Path, page: &Page) -> Result<(), Memory>
        requires ready { is_ready self.old }
        requires wanted { IsWanted (copies (view self.old)) at.now }
        requires level { page.now.level ≡ length at.now }
        requires few { fed_of self.old < 7 }
        ensures fed { OnOk result (view self.new ≡ fed (view self.old) at.now page.now) }
        ensures feeds { OnOk result (Feeds (view self.old) (view self.new) at.now page.now) }
        ensures more { OnOk result (fed_of self.new ≡ fed_of self.old + 1) }
        ensures err { OnErr result
            ((view self.new ≡ view self.old) × (fed_of self.new ≡ fed_of self.old)) }
        ensures succeeds { never_refuses → IsOk result }
        ensures count { count_of self.new ≡ count_of self.old }
        ensures same { (root_of self.new ≡ root_of self.old)
            × (object_of self.new ≡ object_of self.old)
            × (serial_of self.new ≡ serial_of self.old) }
        ensures rest { rest_of self.new ≡ rest_of self.old }
        ensures ready { is_ready self.new };

    /// Does a step that needs no page, and answers as the tree does. There are at most 128 steps, and before a make at most six pages are
    /// fed. Only a make can want memory, which leaves the draft as it was.
    fn step(&mut self, step: &Step) -> Result<Reply, Memory>
        requires ready { is_ready self.old }
        requires none { WantsNone (copies (view self.old)) (end_of step.now) }
        requires room { count_of self.old < 128 }
        requires few { IsMake step.now → fed_of self.old < 7 }
        ensures stepped { OnOk result (view self.new ≡ stepped (view self.old) step.now) }
        ensures reply { IfOk result (λ reply. reply ≡ reply_in (copies (view self.old)) step.now) }
        ensures runs { IfOk result (λ reply. Runs (view self.old) (view self.new) step.now reply) }
        ensures count { OnOk result (count_of self.new ≡ count_of self.old + 1) }
        ensures fed { OnOk result (fed_of self.new ≡ 0) }
        ensures err { OnErr result ((view self.new ≡ view self.old)
            × (count_of self.new ≡ count_of self.old)
            × (fed_of self.new ≡ fed_of self.old)) }
        ensures cause { OnErr result (IsMake step.now) }
        ensures succeeds { never_refuses → IsOk result }
        ensures same { (root_of self.new ≡ root_of self.old)
            × (object_of self.new ≡ object_of self.old)
            × (serial_of self.new ≡ serial_of self.old) }
        ensures rest { rest_of self.new ≡ rest_of self.old }
        ensures ready { is_ready self.new };

    /// Gives the page that is live at a path the slots and the data of a merged page of the same level. Its mask and its marks stay, and so
    /// does every other page.
    fn take_merged(&mut self, at: &Path, merged: &Page)
        requires ready { is_ready self.old }
        requires there { CanMerge (view self.old) at.now merged.now }
        ensures merged { view self.new ≡ merged_at (view self.old) at.now merged.now }
        ensures count { (count_of self.new ≡ count_of self.old)
            × (fed_of self.new ≡ fed_of self.old) }
        ensures same { (root_of self.new ≡ root_of self.old)
            × (object_of self.new ≡ object_of self.old)
            × (serial_of self.new ≡ serial_of self.old) }
        ensures rest { rest_of self.new ≡ rest_of self.old }
        ensures ready { is_ready self.new };

    /// From here on the base is the version with this serial whose page lies in block `root`, which is not 0. A page that was copied and
    /// never accessed is let go: another version may have other data there. Nothing else changes.
    fn rebase(&mut self, root: BlockNo, serial: u64)
        requires ready { is_ready self.old }
        requires named { 0 < root }
        ensures root { root_of self.new ≡ root }
        ensures serial { serial_of self.new ≡ serial }
        ensures view { view self.new ≡ accessed_pages (view self.old) }
        ensures count { (count_of self.new ≡ count_of self.old)
            × (fed_of self.new ≡ fed_of self.old) }
        ensures object { object_of self.new ≡ object_of self.old }
        ensures rest { rest_of self.new ≡ rest_of self.old }
        ensures ready { is_ready self.new };

    /// The page `/` is live.
    ghost top: { (d : Self) → is_ready d → live (copies (view d)) [] ≡ true };

    /// Each page has the level of its path.
    ghost levels: { (d : Self) → is_ready d → HasLevels (view d) };

    /// A draft has at most 128 steps.
    ghost most: { (d : Self) → is_ready d → count_of d ≤ 128 };

    /// The fresh paths are those of the live pages on or below which something was written, in order.
    ghost are_fresh: { (d : Self) → is_ready d → AreFresh (view d) (fresh_of d) };

    /// The fresh paths are at most `/`, seven for each step, and seven more that were fed.
    ghost few: { (d : Self) → is_ready d → length (fresh_of d) ≤ MAX_FRESH };
}
