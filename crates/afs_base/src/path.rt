ghost use Rattle.std.specs.Prelude.{◌≡◌, ℕ, ◌+◌, ◌<◌, ◌≤◌, ◌↔◌, ◌++◌, [], ◌∷◌, length, Some, IsErr, IfOk, IsTrue, MatchOption, slice_index, nat_eq, true, refl};
ghost use Rattle.std.specs.Ordering.{nat_cmp};
ghost use Rattle.std.specs.Cmp.Lexicographic.{texts_po, texts_ties};
ghost use Rattle.std.proofs.lemmas.Cmp.{nat_list_cmp_total, nat_list_eq_equiv};
ghost use lib.Pointwise.{pointwise};
ghost use Rattle.afs_base.specs.Path.{are_slots, is_prefix, path_cmp};

use crate::limits::MAX_DEPTH;
use crate::slot::Slot;
use std::cmp::Ordering;
use std::marker::Model;
use thiserror::Error;

/// The way from a version's root to one of its pages: a list of at most seven slots. The root's is empty.
/// Contracts see the list of the slots' numbers. Paths are ordered as lists.
#[derive(Clone, Copy, Debug)]
pub struct Path {
    // The places from `len` on are slot 0.
    slots: [Slot; MAX_DEPTH],
    len: usize,
}

impl Model for Path {
    ghost use Rattle.std.specs.Prelude.{◌≡◌, List, ℕ, length, take, true};
    ghost use Rattle.afs_base.specs.declared.limits.TheConstants.{MAX_DEPTH};
    ghost use Rattle.afs_base.specs.Filled.{filled, IsFilled};
    ghost use Rattle.afs_base.specs.FilledBack.{filled-take, length-used};
    ghost use Rattle.afs_base.specs.Path.{are_slots};

    ghost Value = { List ℕ };

    ghost view = { λ p. take p.len p.slots };

    ghost invariant = { λ p. IsFilled MAX_DEPTH p.len p.slots × (are_slots p.slots ≡ true) };

    ghost inverse = { λ xs. record { slots = filled MAX_DEPTH xs; len = length xs } };

    ghost inverse_ok = { λ p h i. record {
      slots = filled-take MAX_DEPTH p.len p.slots h.0 i;
      len =
          length-used MAX_DEPTH p.len p.slots h.0 i;
    } };
}

/// The path has seven slots already, so it has no child.
#[derive(Clone, Copy, Debug, PartialEq, Eq, Error)]
#[error("a path has at most seven slots")]
pub struct TooDeep;

impl Path {
    /// The empty path, `/`.
    pub fn root() -> Path
        ensures { result ≡ [] }
    {
        Path {
            slots: [Slot::first(); MAX_DEPTH],
            len: 0,
        }
    }

    /// How many slots the path has, 0 to 7.
    pub fn len(&self) -> usize
        ensures value { result ≡ length self.now }
        ensures short { result ≤ MAX_DEPTH }
        ensures slots { are_slots self.now ≡ true }
    {
        self.len
    }

    /// Whether this is `/`.
    pub fn is_empty(&self) -> bool
        ensures { IsTrue result ↔ (self.now ≡ []) }
    {
        self.len == 0
    }

    /// The slots from the root on.
    pub fn as_slice(&self) -> &[Slot]
        ensures { result.now ≡ self.now }
    {
        &self.slots[..self.len]
    }

    /// The slot at place `i`, 0 being the root's.
    pub fn slot(&self, i: usize) -> Slot
        requires { i < length self.now }
        ensures { result ≡ slice_index self.now i }
    {
        self.slots[i]
    }

    /// The path of the page in a slot of this path's page; refused exactly at seven slots.
    pub fn child(&self, slot: Slot) -> Result<Path, TooDeep>
        ensures child { IfOk result (λ p. p ≡ self.now ++ slot ∷ []) }
        ensures deep { IsErr result ↔ (length self.now ≡ MAX_DEPTH) }
    {
        if self.len() == MAX_DEPTH {
            return Err(TooDeep);
        }
        Ok(self.below(slot))
    }

    /// The path of the page in a slot of this path's page, where this path has fewer than seven slots.
    pub fn below(&self, slot: Slot) -> Path
        requires { length self.now < MAX_DEPTH }
        ensures { result ≡ self.now ++ slot ∷ [] }
    {
        // A slot that is read is known to be below 16.
        let _number = slot.get();
        let mut below = *self;
        below.slots[self.len] = slot;
        below.len = self.len + 1;
        below
    }

    /// The path without its last slot; none exactly for `/`.
    pub fn parent(&self) -> Option<Path>
        ensures { MatchOption result (self.now ≡ [])
            (λ p. (last : ℕ) × (p ++ last ∷ [] ≡ self.now)) }
    {
        if self.len == 0 {
            return None;
        }
        let mut parent = *self;
        parent.len = self.len - 1;
        parent.slots[parent.len] = Slot::first();
        Some(parent)
    }

    /// Whether `other` is this path or lies below it.
    pub fn is_prefix_of(&self, other: &Path) -> bool
        ensures { result ≡ is_prefix self.now other.now }
    {
        other.as_slice().starts_with(self.as_slice())
    }
}

/// The empty path, `/`.
impl Default for Path {
    ghost is_default = { λ p. p ≡ [] };

    fn default() -> Path {
        Path::root()
    }
}

impl PartialEq for Path {
    ghost use Rattle.std.specs.Cmp.{partial_equiv_from_equiv};

    ghost eq = { pointwise nat_eq };

    ghost laws = { partial_equiv_from_equiv nat_list_eq_equiv };

    fn eq(&self, other: &Path) -> bool {
        self.as_slice() == other.as_slice()
    }
}

impl Eq for Path {
    ghost laws = { nat_list_eq_equiv };
}

impl PartialOrd for Path {
    ghost partial_cmp = { λ p q. Some (path_cmp p q) };

    ghost laws = { texts_po };

    fn partial_cmp(&self, other: &Path) -> Option<Ordering> {
        Some(self.cmp(other))
    }
}

impl Ord for Path {
    ghost cmp = { path_cmp };

    ghost total = { nat_list_cmp_total };

    ghost matches_partial_cmp = { λ p q. refl };

    ghost matches_eq = { texts_ties };

    fn cmp(&self, other: &Path) -> Ordering {
        self.as_slice().cmp(other.as_slice())
    }
}
