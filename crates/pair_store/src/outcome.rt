// What calls on a block answer.
use afs_base::BlockNo;
use drives::Half;

/// What a test-and-set found.
#[derive(Clone, Copy, Debug, PartialEq, Eq)]
pub enum Tas {
    /// The commit reference was nil, and is set now.
    Set,
    /// The commit reference names this block, and nothing was written.
    Taken { by: BlockNo },
}

/// What mending a block did.
#[derive(Clone, Copy, Debug, PartialEq, Eq)]
pub enum Mended {
    /// Both halves were open and equal.
    Same,
    /// The block of this half gave the content, and the other half has it now too.
    Copied { from: Half },
    /// The block was closed on both halves.
    Nothing,
}
