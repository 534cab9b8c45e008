// Why a call on a block may fail.
use afs_base::BlockNo;
use drives::Half;
use page_codec::Why;
use thiserror::Error;

/// Why a call on a block gave up.
#[derive(Clone, Copy, Debug, PartialEq, Eq, Error)]
pub enum PairFault {
    /// The half failed in a read, and the other half failed too or has no content.
    #[error("half {half:?} failed in a read")]
    ReadFault { half: Half },
    /// The half failed in a write. The block has its old content or the new one, and has to be
    /// mended.
    #[error("half {half:?} failed in a write")]
    WriteFault { half: Half },
    /// The block has no content: it is closed on both halves.
    #[error("block {} is closed on both halves", .block.get())]
    BothClosed { block: BlockNo },
    /// The content is no version page, for this cause first.
    #[error("block {} is no version page: {why:?}", .block.get())]
    BadPage { block: BlockNo, why: Why },
}
