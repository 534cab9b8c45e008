ghost use Rattle.std.specs.Prelude.{◌≡◌, ◌≤◌};

use afs_base::BlockNo;
use std::marker::Model;

/// Another file whose version page is to be linked together with the one that names it. Neither number is 0.
#[derive(Clone, Copy, Debug, PartialEq, Eq)]
pub struct Member {
    pub object: u32,
    pub block: BlockNo,
}

impl Model for Member {
    ghost use Rattle.page_codec.specs.Values.{MemberValue};
    ghost use Rattle.page_codec.specs.Bounds.{IsSoundMember};

    ghost Value = { MemberValue };

    ghost view = { λ m. record { object = m.object; block = m.block } };

    ghost invariant = { λ m. IsSoundMember (record { object = m.object; block = m.block }) };

    ghost inverse = { λ m. record { object = m.object; block = m.block } };
}
