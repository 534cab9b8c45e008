// What a turn comes to.

use afs_base::BlockNo;
use drives::Half;
use page_codec::Why;
use page_merge::Job;

/// Why a run stops.
#[derive(Clone, Copy, Debug, PartialEq, Eq)]
pub enum Fault {
    /// The half failed.
    Drive { half: Half },
    /// The block does not hold what its place says. This never comes where contents are told.
    Bad { block: BlockNo, why: Why },
}

/// What a turn of a client came to.
#[derive(Clone, Copy, Debug)]
pub enum Turned {
    /// The line with this number was answered, after at most one operation on a block.
    Line { line: u32 },
    /// The line goes on. One operation on a block was made.
    Again,
    /// The line goes on, and these two pages wait to be merged: whoever merges them may offer the outcome at
    /// the next turn. One operation on a block was made.
    Work(Job),
    /// All lines of the client are answered.
    Finished,
    /// The run has stopped.
    Stopped { fault: Fault },
}
