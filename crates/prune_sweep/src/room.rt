ghost use Rattle.std.specs.Prelude.{◌≡◌, ◌≤◌, IfOk};

use crate::marks::Marks;
use afs_base::{MAX_BLOCKS, MIN_BLOCKS, Memory};
use std::alloc::Global;
use std::marker::Model;

/// Room for a sweep over a store of so many blocks: a mark for each block. Contracts see the number of blocks.
#[derive(Drop)]
pub struct SweepRoom {
    pub(crate) marks: Marks,
}

impl Model for SweepRoom {
    ghost use Rattle.std.specs.Prelude.{ℕ, length};

    ghost Value = { ℕ };

    ghost view = { λ r. length r.marks };
}

impl SweepRoom {
    /// Room for a store of 2 to 65,536 blocks. It takes two bytes a block; a sweep in it takes no more memory.
    pub fn make(alloc: Global, blocks: u32) -> Result<SweepRoom, Memory>
        requires least { MIN_BLOCKS ≤ blocks }
        requires most { blocks ≤ MAX_BLOCKS }
        ensures { IfOk result (λ room. room ≡ blocks) }
    {
        let marks = Marks::make(alloc, blocks)?;
        Ok(SweepRoom { marks })
    }
}
