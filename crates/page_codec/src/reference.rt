ghost use Rattle.std.specs.Prelude.{◌≡◌};
ghost use Rattle.page_codec.specs.Blank.{empty_reference};

use afs_base::BlockNo;
use ref_flags::Flags;
use std::marker::Model;

/// A slot of a page: the block of the page below, and the marks of the update that wrote it. Block 0 is never
/// named, and an empty slot has no marks.
#[derive(Clone, Copy, Debug, PartialEq, Eq)]
pub struct Reference {
    pub flags: Flags,
    pub block: Option<BlockNo>,
}

impl Model for Reference {
    ghost use Rattle.page_codec.specs.Values.{ReferenceValue};
    ghost use Rattle.page_codec.specs.Bounds.{IsSoundReference};

    ghost Value = { ReferenceValue };

    ghost view = { λ r. record { flags = r.flags; block = r.block } };

    ghost invariant = { λ r. IsSoundReference (record { flags = r.flags; block = r.block }) };

    ghost inverse = { λ r. record { flags = r.flags; block = r.block } };
}

impl Reference {
    /// An empty slot.
    pub fn empty() -> Self
        ensures { result ≡ empty_reference }
    {
        Reference {
            flags: Flags::none(),
            block: None,
        }
    }
}
