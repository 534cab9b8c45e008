ghost use Rattle.std.specs.Prelude.{◌≡◌, [], ◌∷◌, MatchOption};

use afs_base::MAX_MEMBERS;
use arrayvec::ArrayVec;
use page_codec::{Member, Members};
use std::marker::Model;

/// The links of a commit that are still to be set: the members of the version that committed, in their order.
#[derive(Debug, Drop)]
pub struct Links {
    members: ArrayVec<Member, MAX_MEMBERS>,
    next: usize,
}

impl Model for Links {
    ghost use Rattle.std.specs.Prelude.{List, drop};
    ghost use Rattle.page_codec.specs.Values.{MemberValue};

    ghost Value = { List MemberValue };

    ghost view = { λ l. drop l.next l.members.items };
}

impl Links {
    /// The links of all these members.
    pub fn of(members: &Members) -> Links
        ensures { result ≡ members.now }
    {
        let mut list = ArrayVec::new();
        for member in members.as_slice() {
            list.push(*member);
        }
        Links {
            members: list,
            next: 0,
        }
    }

    /// The next member whose link is to be set; none when there is no further one.
    pub fn next(&mut self) -> Option<Member>
        ensures { MatchOption result ((self.old ≡ []) × (self.new ≡ []))
            (λ member. self.old ≡ member ∷ self.new) }
    {
        let member = self.members.as_slice().get(self.next).copied()?;
        self.next += 1;
        Some(member)
    }
}
