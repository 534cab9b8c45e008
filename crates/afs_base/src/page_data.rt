ghost use Rattle.std.specs.Prelude.{◌≡◌, ℕ, ◌≤◌, [], length, nat_eq};
ghost use Rattle.std.proofs.lemmas.Cmp.{nat_list_eq_equiv};
ghost use lib.Pointwise.{pointwise};

use crate::limits::MAX_DATA;
use std::marker::Model;

/// The data of a page: at most 800 bytes. Contracts see the list of the bytes.
#[derive(Clone, Copy, Debug)]
pub struct PageData {
    // The places from `len` on are 0.
    places: [u8; MAX_DATA],
    len: usize,
}

impl Model for PageData {
    ghost use Rattle.std.specs.Prelude.{List, ℕ, length, take};
    ghost use Rattle.afs_base.specs.declared.limits.TheConstants.{MAX_DATA};
    ghost use Rattle.afs_base.specs.Filled.{filled, IsFilled};
    ghost use Rattle.afs_base.specs.FilledBack.{filled-take, length-used};

    ghost Value = { List ℕ };

    ghost view = { λ d. take d.len d.places };

    ghost invariant = { λ d. IsFilled MAX_DATA d.len d.places };

    ghost inverse = { λ xs. record { places = filled MAX_DATA xs; len = length xs } };

    ghost inverse_ok = { λ d h i. record {
      places = filled-take MAX_DATA d.len d.places h i;
      len =
          length-used MAX_DATA d.len d.places h i;
    } };
}

impl PageData {
    /// No data.
    pub fn empty() -> PageData
        ensures { result ≡ [] }
    {
        PageData {
            places: [0; MAX_DATA],
            len: 0,
        }
    }

    /// These bytes, at most 800.
    pub fn of(bytes: &[u8]) -> PageData
        requires { length bytes.now ≤ MAX_DATA }
        ensures { result ≡ bytes.now }
    {
        let mut places = [0; MAX_DATA];
        places[..bytes.len()].copy_from_slice(bytes);
        PageData {
            places,
            len: bytes.len(),
        }
    }

    /// The bytes, at most 800.
    pub fn bytes(&self) -> &[u8]
        ensures value { result.now ≡ self.now }
        ensures short { length result.now ≤ MAX_DATA }
    {
        &self.places[..self.len]
    }
}

impl PartialEq for PageData {
    ghost use Rattle.std.specs.Cmp.{partial_equiv_from_equiv};

    ghost eq = { pointwise nat_eq };

    ghost laws = { partial_equiv_from_equiv nat_list_eq_equiv };

    fn eq(&self, other: &PageData) -> bool {
        self.bytes() == other.bytes()
    }
}

impl Eq for PageData {
    ghost laws = { nat_list_eq_equiv };
}
