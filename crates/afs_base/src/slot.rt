ghost use Rattle.std.specs.Prelude.{◌≡◌, ℕ, ◌<◌, ◌≤◌, IfOk, IfErr, MatchResult};

use crate::limits::SLOTS;
use std::marker::Model;
use thiserror::Error;

/// One of a page's sixteen slots, 0 to 15. Contracts see its number.
#[derive(Clone, Copy, Debug, PartialEq, Eq, PartialOrd, Ord, Hash)]
pub struct Slot {
    number: u8,
}

impl Model for Slot {
    ghost use Rattle.std.specs.Prelude.{ℕ, ◌<◌};
    ghost use Rattle.afs_base.specs.declared.limits.TheConstants.{SLOTS};

    ghost Value = { ℕ };

    ghost view = { λ s. s.number };

    ghost invariant = { λ s. s.number < SLOTS };

    ghost inverse = { λ n. record { number = n } };
}

/// The number is 16 or more, so it names no slot.
#[derive(Clone, Copy, Debug, PartialEq, Eq, Error)]
#[error("{n} is not a slot from 0 to 15")]
pub struct SlotRange {
    pub n: u8,
}

impl Slot {
    /// The slot of this number, 0 to 15; any other number is refused.
    pub fn of(n: u8) -> Result<Slot, SlotRange>
        ensures { MatchResult result (λ s. (n < SLOTS) × (s ≡ n)) (λ e. (SLOTS ≤ n) × (e.n ≡ n)) }
    {
        if usize::from(n) < SLOTS {
            Ok(Slot { number: n })
        } else {
            Err(SlotRange { n })
        }
    }

    /// The slot of this number, which is below 16.
    pub fn at(n: u8) -> Slot
        requires { n < SLOTS }
        ensures { result ≡ n }
    {
        Slot { number: n }
    }

    /// Slot 0.
    pub fn first() -> Slot
        ensures { result ≡ 0 }
    {
        Slot { number: 0 }
    }

    /// The slot's number, 0 to 15.
    pub fn get(self) -> u8
        ensures value { result ≡ self }
        ensures range { result < SLOTS }
    {
        self.number
    }
}
