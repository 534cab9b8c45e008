// Why a store is not opened.
ghost use Rattle.std.specs.Prelude.{◌≡◌};
ghost use Rattle.recovery.specs.Opening.{refused_call, refused_check};
ghost use Rattle.recovery.specs.declared.refused.OpenRefused.TheVariants.{Memory};

use afs_base::BlockNo;
use drives::Half;
use page_codec::Why;
use pair_store::PairFault;
use std::alloc::{AllocError, AllocFailed};
use store_check::WalkRefused;
use thiserror::Error;

/// Why a store was not opened.
#[derive(Clone, Copy, Debug, PartialEq, Eq, Error)]
pub enum OpenRefused {
    /// The half failed in a read, and nothing could be read in its place.
    #[error("half {half:?} failed in a read")]
    ReadFault { half: Half },
    /// The half failed in a write.
    #[error("half {half:?} failed in a write")]
    WriteFault { half: Half },
    /// The blocks are those of no store: the first cause, and its block.
    #[error("bad store: block {}: {why:?}", .block.get())]
    BadStore { block: BlockNo, why: Why },
    /// There is not enough memory.
    #[error("out of memory")]
    Memory,
}

impl From<WalkRefused> for OpenRefused {
    ghost from_gives = { λ refused e. e ≡ refused_check refused };

    fn from(refused: WalkRefused) -> OpenRefused {
        match refused {
            WalkRefused::ReadFault { half } => OpenRefused::ReadFault { half },
            WalkRefused::BadStore { block, why } => OpenRefused::BadStore { block, why },
            WalkRefused::Memory => OpenRefused::Memory,
        }
    }
}

impl From<PairFault> for OpenRefused {
    ghost from_gives = { λ fault e. e ≡ refused_call fault };

    fn from(fault: PairFault) -> OpenRefused {
        match fault {
            PairFault::ReadFault { half } => OpenRefused::ReadFault { half },
            PairFault::WriteFault { half } => OpenRefused::WriteFault { half },
            PairFault::BothClosed { block } => OpenRefused::BadStore {
                block,
                why: Why::Closed,
            },
            PairFault::BadPage { block, why } => OpenRefused::BadStore { block, why },
        }
    }
}

impl From<AllocError> for OpenRefused {
    ghost from_gives = { λ _ e. e ≡ Memory };

    fn from(_e: AllocError) -> OpenRefused {
        OpenRefused::Memory
    }
}

impl<T: Drop> From<AllocFailed<T>> for OpenRefused {
    ghost from_gives = { λ _ e. e ≡ Memory };

    fn from(_e: AllocFailed<T>) -> OpenRefused {
        OpenRefused::Memory
    }
}
