use crate::block_no::BlockNo;

/// What is known of a file's versions without reading them: the block of the last one, the serials of the first and the last one that are
/// kept, and how many blocks the kept ones hold.
#[derive(Clone, Copy, Debug, PartialEq, Eq)]
pub struct Head {
    pub block: BlockNo,
    pub first: u64,
    pub serial: u64,
    pub kept: u32,
}
