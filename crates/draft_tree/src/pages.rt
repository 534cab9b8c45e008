ghost use Rattle.std.specs.Prelude.{◌≡◌, ℕ, ◌≤◌, ◌↔◌, List, [], length, filter, IsTrue, slice_get, if◌then◌else◌, true};
ghost use Rattle.std.specs.List.{list_any, take_while, count_by};
ghost use Rattle.std.specs.List.Sorted.{IsStrictlySortedBy};
ghost use Rattle.std.specs.Map.{keys_of};
ghost use Rattle.std.specs.BTreeMap.Range.{entries_between};
ghost use Rattle.std.specs.declared.ops.Bound.TheVariants.{Included, Unbounded};
ghost use Rattle.afs_base.specs.Path.{is_prefix, path_cmp};
ghost use Rattle.draft_model.specs.Told.{are_rising, Wrote};
ghost use Rattle.draft_model.specs.Entries.{shown, is_written, is_touched, is_fresh, fresh_paths};
ghost use Rattle.draft_tree.specs.Drafts.{accessed_pages};
ghost use Rattle.draft_tree.specs.Marking.{taken_away};
ghost use Rattle.draft_tree.specs.Pages.{is_kept};

use crate::change::Change;
use crate::copied_page::CopiedPage;
use crate::draft::MAX_FRESH;
use crate::look::Look;
use crate::page_list::PageList;
use afs_base::{Memory, Path};
use arrayvec::ArrayVec;
use std::alloc::Global;
use std::collections::BTreeMap;
use std::marker::Model;

/// Takes the page away where its path is `at` or lies below it. True always.
fn take_away_below(at: &Path, path: &Path, copied: &mut CopiedPage) -> bool
    ensures page { copied.new
        ≡ (if is_prefix at.now path.now then taken_away copied.old else copied.old) }
    ensures kept { result ≡ true }
{
    if at.is_prefix_of(path) {
        copied.take_away();
    }
    true
}

/// Whether the page stays when the base changes: it is `/`, or the update accessed it.
fn is_kept(path: &Path, copied: &CopiedPage) -> bool
    ensures { result ≡ is_kept path.now copied.now }
{
    path.is_empty() || copied.is_accessed()
}

/// The pages that an update copied or made, by their paths. Contracts see the list of the paths and pages, in order of the paths.
#[derive(Drop)]
pub struct Pages {
    list: BTreeMap<Path, CopiedPage>,
}

impl Model for Pages {
    ghost use Rattle.std.specs.Prelude.{List, ℕ};
    ghost use Rattle.draft_model.specs.Views.{Copied};
    ghost use Rattle.draft_tree.specs.Pages.{IsShort};

    ghost Value = { List (List ℕ × Copied) };

    ghost view = { λ p. p.list.entries };

    ghost invariant = { λ p. IsShort p.list.entries };
}

impl Pages {
    /// No pages.
    pub fn new(alloc: Global) -> Self
        ensures { result ≡ [] }
    {
        Pages {
            list: BTreeMap::new(alloc),
        }
    }

    /// Lets go of the pages that do not stay, and tells what is left entry by entry.
    fn retain_accessed(&mut self)
        ensures entries { self.new ≡ filter (λ e. is_kept e.0 e.1) self.old }
        ensures was_ordered { IsStrictlySortedBy path_cmp (keys_of self.old) }
        ensures order { are_rising (keys_of self.new) ≡ true }
    {
        self.list.retain(|path, copied| is_kept(path, copied));
    }

    /// Lets go of the pages that were copied and never accessed. `/` stays.
    pub fn keep_accessed(&mut self)
        ensures view { (p : List ℕ) → shown self.new p ≡ accessed_pages (shown self.old) p }
        ensures len { length self.new ≤ length self.old }
        ensures order { are_rising (keys_of self.new) ≡ true }
    {
        self.retain_accessed();
    }

    /// Whether something was written at or below the path, looking from its place on.
    fn touches_from(&self, at: &Path) -> bool
        ensures value { result
            ≡ list_any (λ e. is_written e.1) (take_while (λ e. is_prefix at.now e.0)
            (entries_between path_cmp (Included at.now) Unbounded self.now)) }
        ensures ordered { IsStrictlySortedBy path_cmp (keys_of self.now) }
    {
        self.list
            .range(*at..)
            .take_while(|(path, _)| at.is_prefix_of(path))
            .any(|(_, copied)| copied.is_written())
    }

    /// Whether something was written at or below the path.
    fn touches(&self, at: &Path) -> bool
        ensures { result ≡ is_touched self.now at.now }
    {
        self.touches_from(at)
    }

    /// Whether some page was written.
    fn any_written(&self) -> bool
        ensures value { result ≡ list_any (λ e. is_written e.1) self.now }
        ensures ordered { IsStrictlySortedBy path_cmp (keys_of self.now) }
    {
        self.list.iter().any(|(_, copied)| copied.is_written())
    }

    /// Whether something was written anywhere.
    pub fn has_writes(&self) -> bool
        ensures { IsTrue result ↔ Wrote (shown self.now) }
    {
        self.any_written()
    }

    /// Whether the page is live and something was written on or below it.
    fn is_fresh(&self, at: &Path, copied: &CopiedPage) -> bool
        ensures { result ≡ is_fresh self.now (at.now, copied.now) }
    {
        copied.marks.live && self.touches(at)
    }

    /// How many pages are live and have something written on or below them.
    pub fn fresh_count(&self) -> usize
        ensures { result ≡ count_by (is_fresh self.now) self.now }
    {
        self.list
            .iter()
            .filter(|(at, copied)| self.is_fresh(at, copied))
            .count()
    }

    /// Lists the paths of these pages, in order.
    pub fn list_fresh(&self, into: &mut ArrayVec<Path, MAX_FRESH>)
        requires empty { into.old.items ≡ [] }
        requires room { length self.now ≤ MAX_FRESH }
        ensures { into.new.items ≡ fresh_paths self.now }
    {
        for (at, copied) in self.list.iter() {
            if self.is_fresh(at, copied) {
                into.push(*at);
            }
        }
    }

    /// The path of the k-th of these pages, from 0.
    pub fn fresh(&self, k: usize) -> Option<Path>
        ensures { result ≡ slice_get (fresh_paths self.now) k }
    {
        match self
            .list
            .iter()
            .filter(|(at, copied)| self.is_fresh(at, copied))
            .nth(k)
        {
            Some((at, _)) => Some(*at),
            None => None,
        }
    }
}

impl PageList for Pages {
    ghost entries = { λ p. p };

    ghost Others = { Unit {0} };

    ghost others = { λ _. tt };

    ghost space = { λ _. 0 };

    ghost never_refuses = { ⊥ };

    fn look(&self, at: &Path) -> Option<Look<'_>> {
        match self.list.get(at) {
            Some(copied) => Some(copied.look()),
            None => None,
        }
    }

    fn put(&mut self, at: &Path, copied: CopiedPage) -> Result<(), Memory> {
        // A path that is looked at is known to have at most seven slots.
        let _depth = at.len();
        self.list.insert(*at, copied)?;
        Ok(())
    }

    fn change(&mut self, at: &Path, change: &Change) {
        if let Some(copied) = self.list.get_mut(at) {
            copied.change(change);
        }
    }

    fn cut_below(&mut self, at: &Path) {
        self.list
            .retain(|path, copied| take_away_below(at, path, copied));
    }
}
