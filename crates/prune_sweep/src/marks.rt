ghost use Rattle.std.specs.Prelude.{count_by, ◌≡◌, ◌<◌, ◌≤◌, ◌+◌, ℕ, true, false, [], ◌∷◌, drop, length, replicate, slice_set, Some, IfOk, MatchOption, if◌then◌else◌};
ghost use Rattle.prune_sweep.specs.declared.mark.Mark.TheVariants.{Unseen};
ghost use Rattle.prune_sweep.specs.Marks.{mark_at, is_open, is_unseen, is_found, as_shared, found_from};
ghost use Rattle.prune_sweep.specs.Searching.{IsLeastOpen, NoneOpen};

use crate::mark::{Mark, as_shared, is_found, is_open, is_unseen};
use afs_base::{BlockNo, MAX_BLOCKS, MIN_BLOCKS, Memory};
use std::alloc::Global;
use std::marker::Model;

/// The mark of each block of a store, block 0 first. Contracts see the list of them.
#[derive(Drop)]
pub struct Marks {
    list: Vec<Mark>,
    /// No block below this one is open.
    from: usize,
    /// Nor is one from here on.
    to: usize,
}

impl Model for Marks {
    ghost use Rattle.std.specs.Prelude.{List};
    ghost use Rattle.prune_sweep.specs.declared.mark.Mark.{Mark};
    ghost use Rattle.prune_sweep.specs.Searching.{AreBetween};

    ghost Value = { List Mark };

    ghost view = { λ m. m.list.items };

    ghost invariant = { λ m. AreBetween m.list.items m.from m.to };
}

impl Marks {
    /// The marks of so many blocks, of which none was seen.
    pub fn make(alloc: Global, blocks: u32) -> Result<Marks, Memory>
        requires least { MIN_BLOCKS ≤ blocks }
        requires most { blocks ≤ MAX_BLOCKS }
        ensures { IfOk result (λ m. m ≡ replicate blocks Unseen) }
    {
        let list = vec![in alloc; Mark::Unseen; blocks as usize]?;
        let from = list.len();
        Ok(Marks { list, from, to: 0 })
    }

    /// No block was seen.
    pub fn clear(&mut self)
        ensures { self.new ≡ replicate (length self.old) Unseen }
    {
        clear_all(&mut self.list);
        self.from = self.list.len();
        self.to = 0;
    }

    /// The number of blocks, 2 to 65,536.
    pub fn blocks(&self) -> u32
        ensures value { result ≡ length self.now }
        ensures least { MIN_BLOCKS ≤ result }
        ensures most { result ≤ MAX_BLOCKS }
    {
        self.list.len() as u32
    }

    /// The mark of a block.
    pub fn get(&self, n: BlockNo) -> Mark
        requires { n < length self.now }
        ensures { result ≡ mark_at self.now n }
    {
        self.list[n.get() as usize]
    }

    /// Gives a block another mark.
    pub fn set(&mut self, n: BlockNo, mark: Mark)
        requires { n < length self.old }
        ensures { self.new ≡ slice_set self.old n mark }
    {
        let at = n.get() as usize;
        self.list[at] = mark;
        if is_open(mark) {
            self.from = self.from.min(at);
            self.to = self.to.max(at + 1);
        }
    }

    /// Gives a block a mark, where it was not seen, and tells whether that is so.
    pub fn name(&mut self, n: BlockNo, mark: Mark) -> bool
        requires { n < length self.old }
        ensures new { result ≡ is_unseen (mark_at self.old n) }
        ensures marks { self.new
            ≡ (if is_unseen (mark_at self.old n) then slice_set self.old n mark else self.old) }
    {
        let unseen = is_unseen(self.get(n));
        if unseen {
            self.set(n, mark);
        }
        unseen
    }

    /// Marks a block as a page of this level that the version that stays shares with an earlier one.
    pub fn share(&mut self, n: BlockNo, level: u8)
        requires { n < length self.old }
        ensures { self.new ≡ slice_set self.old n (as_shared level (mark_at self.old n)) }
    {
        let mark = as_shared(level, self.get(n));
        self.set(n, mark);
    }

    /// The least block that is open. It looks at no block below the last one that was answered and those named since, nor
    /// at one behind all that were named since none was open.
    pub fn least_open(&mut self) -> Option<BlockNo>
        ensures same { self.new ≡ self.old }
        ensures least { MatchOption result (NoneOpen self.old) (λ n. IsLeastOpen self.old n) }
    {
        match first_open(&self.list, self.from, self.to) {
            Some(at) => {
                self.from = at;
                Some(BlockNo::at(at as u32))
            }
            None => {
                self.from = self.list.len();
                self.to = 0;
                None
            }
        }
    }

    /// How many blocks were found.
    pub fn found(&self) -> u32
        ensures { result ≡ length (found_from 0 self.now) }
    {
        count_found(&self.list) as u32
    }

    /// The least block from a place on that was found.
    pub fn found_behind(&self, from: usize) -> Option<BlockNo>
        ensures found { MatchOption result (found_from from (drop from self.now) ≡ [])
            (λ n. found_from from (drop from self.now)
            ≡ n ∷ found_from (n + 1) (drop (n + 1) self.now)) }
        ensures within { MatchOption result (Unit {0}) (λ n. n < length self.now) }
    {
        let at = first_found(&self.list, from)?;
        Some(BlockNo::at(at as u32))
    }
}

/// Marks each block as not seen.
fn clear_all(marks: &mut [Mark])
    ensures { marks.new ≡ replicate (length marks.old) Unseen }
{
    for mark in marks.iter_mut() {
        *mark = Mark::Unseen;
    }
}

/// How many blocks were found.
fn count_found(marks: &[Mark]) -> usize
    ensures count { result ≡ count_by is_found marks.now }
    ensures most { result ≤ length marks.now }
{
    marks.iter().filter(|mark| is_found(**mark)).count()
}

/// The least open block of a range.
fn first_open(marks: &[Mark], from: usize, to: usize) -> Option<usize>
    requires { to ≤ length marks.now }
    ensures none { MatchOption result
        ((k : ℕ) → from ≤ k → k < to → is_open (mark_at marks.now k) ≡ false)
        (λ n. (n < to) × (is_open (mark_at marks.now n) ≡ true)
        × ((k : ℕ) → from ≤ k → k < n → is_open (mark_at marks.now k) ≡ false)) }
{
    'search: for at in from..to {
        if is_open(marks[at]) {
            return Some(at);
        }
    }
    None
}

/// The least block from a place on that was found.
fn first_found(marks: &[Mark], from: usize) -> Option<usize>
    ensures found { MatchOption result (found_from from (drop from marks.now) ≡ [])
        (λ n. found_from from (drop from marks.now)
        ≡ n ∷ found_from (n + 1) (drop (n + 1) marks.now)) }
    ensures within { MatchOption result (Unit {0}) (λ n. n < length marks.now) }
{
    'search: for at in from..marks.len() {
        if is_found(marks[at]) {
            return Some(at);
        }
    }
    None
}
