//! A place in memory for a block.
use afs_base::BlockNo;
use pair_store::Block;

/// A place in memory: whose bytes lie there, if any block's, and the bytes.
#[derive(Drop)]
pub struct Frame {
    pub block: Option<BlockNo>,
    pub bytes: Block,
}
