// Why a walk over the blocks of a store gave no answer.
ghost use Rattle.std.specs.Prelude.{◌≡◌};
ghost use Rattle.store_check.specs.declared.refused.WalkRefused.TheVariants.{Memory};

use afs_base::{BlockNo, Memory as NoMemory};
use drives::Half;
use page_codec::Why;
use std::alloc::{AllocError, AllocFailed};
use thiserror::Error;

/// Why a walk over the blocks of a store gave no answer, or that the store is not lawful.
#[derive(Clone, Copy, Debug, PartialEq, Eq, Error)]
pub enum WalkRefused {
    /// The half failed in a read, and no open half was read in its place.
    #[error("half {half:?} failed in a read")]
    ReadFault { half: Half },
    /// The store is not lawful: the first cause, and its block.
    #[error("bad store: block {}: {why:?}", .block.get())]
    BadStore { block: BlockNo, why: Why },
    /// There is not enough memory.
    #[error("out of memory")]
    Memory,
}

impl From<NoMemory> for WalkRefused {
    ghost from_gives = { λ _ e. e ≡ Memory };

    fn from(_e: NoMemory) -> WalkRefused {
        WalkRefused::Memory
    }
}

impl From<AllocError> for WalkRefused {
    ghost from_gives = { λ _ e. e ≡ Memory };

    fn from(_e: AllocError) -> WalkRefused {
        WalkRefused::Memory
    }
}

impl<T: Drop> From<AllocFailed<T>> for WalkRefused {
    ghost from_gives = { λ _ e. e ≡ Memory };

    fn from(_e: AllocFailed<T>) -> WalkRefused {
        WalkRefused::Memory
    }
}
