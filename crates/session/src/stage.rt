// How far a client has come within a line.

use afs_base::BlockNo;
use joint_walk::Walk;
use version_chain::Flush;

/// How far a client has come within a line.
#[derive(Debug, Drop)]
pub enum Stage {
    /// It is between two lines, or reads pages for a step.
    Resting,
    /// It commits, and the version after those that its draft is merged with lies in this block.
    Naming { next: BlockNo },
    /// It commits, and walks over the version after those that its draft is merged with.
    Walking { walk: Walk },
    /// It commits, and writes the pages of its new version into the blocks that it holds.
    Writing { flush: Flush },
}
