ghost use Rattle.std.specs.Prelude.{◌≡◌, ℕ, ◌^◌, ◌<◌, ◌≤◌, MatchResult};

use crate::limits::BLOCK_NUMBERS;
use std::marker::Model;
use thiserror::Error;

/// The number of a block, below 2^28: what the lower 28 bits of a reference can name. Contracts see the number.
#[derive(Clone, Copy, Debug, PartialEq, Eq, PartialOrd, Ord, Hash)]
pub struct BlockNo {
    number: u32,
}

impl Model for BlockNo {
    ghost use Rattle.std.specs.Prelude.{ℕ, ◌<◌};
    ghost use Rattle.afs_base.specs.declared.limits.TheConstants.{BLOCK_NUMBERS};

    ghost Value = { ℕ };

    ghost view = { λ b. b.number };

    ghost invariant = { λ b. b.number < BLOCK_NUMBERS };

    ghost inverse = { λ n. record { number = n } };
}

/// The number is 2^28 or more, so it names no block.
#[derive(Clone, Copy, Debug, PartialEq, Eq, Error)]
#[error("{n} is no block number below 2^28")]
pub struct BlockRange {
    pub n: u32,
}

impl BlockNo {
    /// The block of this number, below 2^28; any other number is refused.
    pub fn of(n: u32) -> Result<BlockNo, BlockRange>
        ensures { MatchResult result (λ b. (n < BLOCK_NUMBERS) × (b ≡ n))
            (λ e. (BLOCK_NUMBERS ≤ n) × (e.n ≡ n)) }
    {
        if n < BLOCK_NUMBERS {
            Ok(BlockNo { number: n })
        } else {
            Err(BlockRange { n })
        }
    }

    /// The block of this number, which is below 2^28.
    pub fn at(n: u32) -> BlockNo
        requires { n < BLOCK_NUMBERS }
        ensures { result ≡ n }
    {
        BlockNo { number: n }
    }

    /// The block's number, below 2^28.
    pub fn get(self) -> u32
        ensures value { result ≡ self }
        ensures range { result < BLOCK_NUMBERS }
    {
        self.number
    }
}
