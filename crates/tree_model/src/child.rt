ghost use Rattle.std.specs.Prelude.{◌≡◌, ◌≤◌, ◌<◌, [], length, MatchOption, true};
ghost use Rattle.afs_base.specs.Path.{are_slots};
ghost use Rattle.tree_model.specs.Children.{path_of};

use afs_base::{Path, Slot};
use std::marker::Model;

/// A page other than `/`, named by the path of the page above it and its slot there.
/// Contracts see the pair of both.
#[derive(Clone, Copy, Debug, PartialEq, Eq)]
pub struct Child {
    above: Path,
    last: Slot,
}

impl Model for Child {
    ghost use Rattle.std.specs.Prelude.{◌≡◌, List, ℕ, ◌<◌, length, true};
    ghost use Rattle.afs_base.specs.Path.{are_slots};
    ghost use Rattle.tree_model.specs.Children.{path_of};

    ghost Value = { List ℕ × ℕ };

    ghost view = { λ c. (c.above, c.last) };

    ghost invariant = { λ c.
        (length c.above < 7) × (are_slots (path_of (c.above, c.last)) ≡ true) };

    ghost inverse = { λ c. record { above = c.0; last = c.1 } };
}

impl Child {
    /// The page at this path; none exactly for `/`.
    pub fn of(path: &Path) -> Option<Child>
        ensures { MatchOption result (path.now ≡ []) (λ c. path_of c ≡ path.now) }
    {
        let above = path.parent()?;
        let last = path.slot(path.len() - 1);
        Some(Child { above, last })
    }

    /// The path of the page above.
    pub fn above(&self) -> Path
        ensures above { result ≡ self.now.0 }
        ensures short { length result < 7 }
    {
        self.above
    }

    /// The slot of the page above that names this one.
    pub fn last(&self) -> Slot
        ensures { result ≡ self.now.1 }
    {
        self.last
    }

    /// The page's own path.
    pub fn path(&self) -> Path
        ensures path { result ≡ path_of self.now }
        ensures short { length result ≤ 7 }
        ensures slots { are_slots result ≡ true }
    {
        match self.above.child(self.last) {
            Ok(path) => path,
            Err(_) => unreachable!(),
        }
    }
}
