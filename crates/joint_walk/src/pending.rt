ghost use Rattle.std.specs.Prelude.{◌≡◌, ℕ, ◌+◌, ◌-◌, ◌*◌, ◌<◌, ◌≤◌, [], ◌∷◌, ◌++◌, length, reverse, MatchOption, IfSome, Some};
ghost use Rattle.arrayvec.specs.ArrayVec.{array_vec_len};
ghost use Rattle.joint_walk.specs.Calls.{first_of};

use afs_base::{BlockNo, Path};
use arrayvec::ArrayVec;
use ref_flags::Flags;
use std::marker::Model;

/// Of each level sixteen pages may wait to be read, and one for the version page.
pub const MOST: usize = 113;

/// A page of the later version that is to be read: its path, its block, and its marks in the slot that names it.
#[derive(Clone, Copy, Debug)]
pub struct PendingPage {
    pub path: Path,
    pub block: BlockNo,
    pub flags: Flags,
}

impl Model for PendingPage {
    ghost use Rattle.joint_walk.specs.Walks.{Pending};

    ghost Value = { Pending };

    ghost view = { λ p. record { path = p.path; block = p.block; flags = p.flags } };

    ghost inverse = { λ p. record { path = p.path; block = p.block; flags = p.flags } };
}

/// What an unused place holds.
impl Default for PendingPage {
    fn default() -> PendingPage {
        PendingPage {
            path: Path::root(),
            block: BlockNo::at(1),
            flags: Flags::none(),
        }
    }
}

/// The pages to be read, in the order of their paths. The first stands last in the list.
#[derive(Debug, Drop)]
pub struct PendingList {
    list: ArrayVec<PendingPage, MOST>,
}

impl Model for PendingList {
    ghost use Rattle.std.specs.Prelude.{◌≡◌, List, reverse, true};
    ghost use Rattle.joint_walk.specs.Walks.{Pending};
    ghost use Rattle.joint_walk.specs.Calls.{is_bounded};

    ghost Value = { List Pending };

    ghost view = { λ p. reverse p.list.items };

    ghost invariant = { λ p. is_bounded (reverse p.list.items) ≡ true };
}

impl PendingList {
    /// No page.
    pub fn none() -> Self
        ensures { result ≡ [] }
    {
        PendingList {
            list: ArrayVec::new(),
        }
    }

    /// The first page.
    pub fn first(&self) -> Option<PendingPage>
        ensures { result ≡ first_of self.now }
    {
        self.list.as_slice().last().copied()
    }

    /// Puts a page before all others, of which there are few enough for its path.
    pub fn push(&mut self, page: PendingPage)
        requires { length self.old ≤ 16 * length page.path }
        ensures { self.new ≡ page ∷ self.old }
    {
        // A path that is looked at is known to have at most seven slots.
        let _depth = page.path.len();
        self.list.push(page);
    }

    /// Takes the first page away.
    pub fn pop(&mut self) -> Option<PendingPage>
        ensures value { MatchOption result ((self.old ≡ []) × (self.new ≡ []))
            (λ x. self.old ≡ x ∷ self.new) }
        ensures few { IfSome result (λ x. length self.new ≤ 16 * length x.path) }
    {
        self.list.pop()
    }
}
