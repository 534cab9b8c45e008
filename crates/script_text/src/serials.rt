ghost use Rattle.std.specs.Prelude.{◌≡◌, ◌<◌, ◌≤◌, ◌++◌, ◌∷◌, ◌↔◌, [], length, IsTrue, slice_get, Some};

use afs_base::MAX_FILES;
use arrayvec::ArrayVec;
use std::marker::Model;

/// The serials of an update's files, in the order in which it named them: at most seventeen. Contracts see the list.
#[derive(Debug, Drop)]
pub struct Serials {
    list: ArrayVec<u64, MAX_FILES>,
}

impl Model for Serials {
    ghost use Rattle.std.specs.Prelude.{List, ℕ, length, ◌≤◌};
    ghost use Rattle.afs_base.specs.declared.limits.TheConstants.{MAX_FILES};

    ghost Value = { List ℕ };

    ghost view = { λ s. s.list.items };

    ghost invariant = { λ s. length s.list.items ≤ MAX_FILES };
}

impl Serials {
    /// No serial.
    pub fn none() -> Serials
        ensures { result ≡ [] }
    {
        Serials {
            list: ArrayVec::new(),
        }
    }

    /// One more serial, at the end.
    pub fn push(&mut self, serial: u64)
        requires { length self.old < MAX_FILES }
        ensures { self.new ≡ self.old ++ serial ∷ [] }
    {
        self.list.push(serial);
    }

    /// How many serials there are, at most 17.
    pub fn len(&self) -> usize
        ensures value { result ≡ length self.now }
        ensures most { result ≤ MAX_FILES }
    {
        self.list.len()
    }

    /// Whether there is no serial.
    pub fn is_empty(&self) -> bool
        ensures { IsTrue result ↔ (self.now ≡ []) }
    {
        self.list.is_empty()
    }

    /// The serial at place `i`, from 0.
    pub fn get(&self, i: usize) -> u64
        requires { i < length self.now }
        ensures { slice_get self.now i ≡ Some result }
    {
        self.list[i]
    }

    /// The serials, at most 17.
    pub fn as_slice(&self) -> &[u64]
        ensures value { result.now ≡ self.now }
        ensures most { length result.now ≤ MAX_FILES }
    {
        self.list.as_slice()
    }
}

impl PartialEq for Serials {
    ghost use Rattle.std.specs.Prelude.{nat_eq};
    ghost use Rattle.std.specs.Cmp.{partial_equiv_from_equiv};
    ghost use Rattle.std.proofs.lemmas.Cmp.{nat_list_eq_equiv};
    ghost use lib.Pointwise.{pointwise};

    ghost eq = { pointwise nat_eq };

    ghost laws = { partial_equiv_from_equiv nat_list_eq_equiv };

    fn eq(&self, other: &Serials) -> bool {
        self.as_slice() == other.as_slice()
    }
}

impl Eq for Serials {
    ghost use Rattle.std.proofs.lemmas.Cmp.{nat_list_eq_equiv};

    ghost laws = { nat_list_eq_equiv };
}
