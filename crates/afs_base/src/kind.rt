ghost use Rattle.std.specs.Prelude.{◌≡◌, ◌==◌};
ghost use Rattle.std.proofs.Common.{rules};
ghost use Rattle.std.specs.Cmp.Rules.{comparing};
ghost use Rattle.std.specs.Cmp.{partial_order_from_own_ties};
ghost use Rattle.std.specs.Ordering.{as_partial_cmp, nat_cmp, on};
ghost use Rattle.afs_base.specs.Kind.{kind_place};

use crate::slot::Slot;
use std::cmp::Ordering;

/// What an access of a page touches: its data, or one of its slots. The data stands before every slot.
#[derive(Clone, Copy, Debug)]
pub enum Kind {
    Data,
    Slot(Slot),
}

impl Kind {
    /// The place among the kinds of one page: 0 for the data, the slot's number plus one for a slot.
    fn place(self) -> u8
        ensures { result ≡ kind_place self }
    {
        match self {
            Kind::Data => 0,
            Kind::Slot(slot) => slot.get() + 1,
        }
    }
}

impl PartialEq for Kind {
    ghost eq = { on kind_place ◌==◌ };

    ghost laws = { Prim.search (comparing, rules) };

    fn eq(&self, other: &Kind) -> bool {
        self.place() == other.place()
    }
}

impl Eq for Kind {
    ghost laws = { Prim.search (comparing, rules) };
}

impl Ord for Kind {
    ghost cmp = { on kind_place nat_cmp };

    ghost total = { Prim.search (comparing, rules) };

    ghost matches_partial_cmp = { Prim.search (comparing, rules) };

    ghost matches_eq = { Prim.search (comparing, rules) };

    fn cmp(&self, other: &Kind) -> Ordering {
        self.place().cmp(&other.place())
    }
}

impl PartialOrd for Kind {
    ghost partial_cmp = { as_partial_cmp (on kind_place nat_cmp) };

    ghost laws = { partial_order_from_own_ties (Prim.search (comparing, rules))
        (Prim.search (comparing, rules)) };

    fn partial_cmp(&self, other: &Kind) -> Option<Ordering> {
        Some(self.cmp(other))
    }
}
