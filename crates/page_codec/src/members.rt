ghost use Rattle.std.specs.Prelude.{◌≡◌, ◌==◌, ◌<◌, ◌≤◌, [], ◌∷◌, ◌++◌, length, slice_get, Some};

use crate::member::Member;
use afs_base::{BlockNo, MAX_MEMBERS};
use arrayvec::ArrayVec;
use std::marker::Model;

/// What an unused place holds.
impl Default for Member {
    fn default() -> Member {
        Member {
            object: 1,
            block: BlockNo::at(1),
        }
    }
}

/// At most sixteen members, in order.
#[derive(Debug, Drop)]
pub struct Members {
    list: ArrayVec<Member, MAX_MEMBERS>,
}

impl Model for Members {
    ghost use Rattle.std.specs.Prelude.{List};
    ghost use Rattle.page_codec.specs.Values.{MemberValue};

    ghost Value = { List MemberValue };

    ghost view = { λ m. m.list.items };
}

impl Members {
    /// No members.
    pub fn none() -> Self
        ensures { result ≡ [] }
    {
        Members {
            list: ArrayVec::new(),
        }
    }

    /// Adds a member at the end.
    pub fn push(&mut self, member: Member)
        requires { length self.old < MAX_MEMBERS }
        ensures { self.new ≡ self.old ++ member ∷ [] }
    {
        self.list.push(member);
    }

    pub fn len(&self) -> usize
        ensures value { result ≡ length self.now }
        ensures most { result ≤ MAX_MEMBERS }
    {
        self.list.as_slice().len()
    }

    pub fn is_empty(&self) -> bool
        ensures { result ≡ (length self.now == 0) }
    {
        self.list.as_slice().is_empty()
    }

    /// The member at place i, from 0.
    pub fn get(&self, i: usize) -> Member
        requires { i < length self.now }
        ensures { slice_get self.now i ≡ Some result }
    {
        self.list.as_slice()[i]
    }

    /// All of them, in order.
    pub fn as_slice(&self) -> &[Member]
        ensures value { result.now ≡ self.now }
        ensures most { length result.now ≤ MAX_MEMBERS }
    {
        self.list.as_slice()
    }
}
