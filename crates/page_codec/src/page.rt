ghost use Rattle.std.specs.Prelude.{◌≡◌, ◌≤◌};
ghost use Rattle.page_codec.specs.Blank.{empty_slots, empty_page};

use crate::reference::Reference;
use afs_base::{MAX_DEPTH, PageData, SLOTS};
use std::marker::Model;

/// A page of a tree: its level, that is, the length of its path, 0 to 7; the mask of the slots that its update
/// modified, bit k for slot k; sixteen slots; and its data. A page of level 7 has no slot in use.
#[derive(Clone, Copy, Debug, PartialEq, Eq)]
pub struct Page {
    pub level: u8,
    pub modified: u16,
    pub refs: [Reference; SLOTS],
    pub bytes: PageData,
}

impl Model for Page {
    ghost use Rattle.page_codec.specs.Values.{PageValue};
    ghost use Rattle.page_codec.specs.Bounds.{IsSoundPage};

    ghost Value = { PageValue };

    ghost view = { λ p. record {
      level = p.level;
      modified = p.modified;
      refs = p.refs;
      bytes = p.bytes;
    } };

    ghost invariant = { λ p. IsSoundPage (record {
      level = p.level;
      modified = p.modified;
      refs = p.refs;
      bytes = p.bytes;
    }) };

    ghost inverse = { λ p. record {
      level = p.level;
      modified = p.modified;
      refs = p.refs;
      bytes = p.bytes;
    } };
}

/// Sixteen empty slots.
#[tactic(auto, unfolding(crate::specs::Blank::empty_slots))]
pub fn no_slots() -> [Reference; SLOTS]
    ensures { result ≡ empty_slots }
{
    [Reference::empty(); SLOTS]
}

impl Page {
    /// A page with no data and no slots in use; its level is 0 to 7.
    #[tactic(auto, unfolding(crate::specs::Blank::empty_slots))]
    pub fn empty(level: u8) -> Self
        requires { level ≤ MAX_DEPTH }
        ensures { result ≡ empty_page level }
    {
        Page {
            level,
            modified: 0,
            refs: no_slots(),
            bytes: PageData::empty(),
        }
    }
}
