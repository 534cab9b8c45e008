// Writing the blocks of a new store: version pages and parts first, and the table last.
ghost use Rattle.std.specs.Prelude.{◌≡◌, ◌⊎◌, ℕ, ◌+◌, ◌-◌, ◌^◌, ◌<◌, ◌≤◌, List, Option, IfErr, IsErrOf, OnOk};
ghost use Rattle.drives.specs.declared.device.Half.{Half};
ghost use Rattle.drives.specs.Changes.{Changes};
ghost use Rattle.pair_store.specs.declared.fault.PairFault.{PairFault};
ghost use Rattle.pair_store.specs.Answers.{IsWriteFault};
ghost use Rattle.pair_store.specs.Faults.{IsStopped, LaterFaults};
ghost use Rattle.new_store.specs.Formatting.{AreWritten, IsFilled, IsFilling, IsOuter, SameBeyond};
ghost use Rattle.new_store.specs.Layout.{HasNewStore};
ghost use Rattle.new_store.specs.Sizes.{used_blocks};

use crate::block::encode_block;
use crate::store::NewStore;
use afs_base::BlockNo;
use pair_store::{Blocks, PairFault};

/// Writes the version page of file i into block i, and then the parts of the table, each with a
/// stable write.
fn write_pages<B: Blocks>(blocks: &mut B, store: &NewStore) -> Result<(), PairFault>
    requires { store.now.blocks ≤ B.size blocks.old }
    ensures only { IfErr result IsWriteFault }
    ensures stopped { (h : Half) → IsErrOf result (PairFault.WriteFault h)
        → IsStopped (B.faults blocks.old) (B.faults blocks.new) (B.last_fault blocks.new)
        (B.moment blocks.new) h }
    ensures written { B.tells
        → OnOk result (AreWritten store.now (used_blocks store.now.files) (B.content blocks.new)
        (B.settled blocks.new) (B.settled_always blocks.new)
        (B.may_leave blocks.new (B.moment blocks.new))) }
    ensures outer { B.tells → IsFilling store.now.files (B.content blocks.old)
        (B.content blocks.new) }
    ensures kept_always { OnOk result ((k : ℕ) → IsOuter store.now.files k
        → B.settled_always blocks.old k → B.settled_always blocks.new k) }
    ensures images { Changes B.moment B.may_leave blocks.old blocks.new
        (IsFilling store.now.files) }
    ensures size { B.size blocks.new ≡ B.size blocks.old }
    ensures later { LaterFaults (B.faults blocks.old) (B.faults blocks.new)
        (B.last_fault blocks.old) (B.last_fault blocks.new) }
{
    let mut block = [0; 1024];
    for n in 1..store.used_blocks() {
        encode_block(store, n, &mut block);
        blocks.write(BlockNo::at(n), &block)?;
    }
    Ok(())
}

/// Writes all blocks of the new store, block 0 last.
pub fn write_store<B: Blocks>(blocks: &mut B, store: &NewStore) -> Result<(), PairFault>
    requires { store.now.blocks ≤ B.size blocks.old }
    ensures only { IfErr result IsWriteFault }
    ensures stopped { (h : Half) → IsErrOf result (PairFault.WriteFault h)
        → IsStopped (B.faults blocks.old) (B.faults blocks.new) (B.last_fault blocks.new)
        (B.moment blocks.new) h }
    ensures done { B.tells → OnOk result (HasNewStore store.now (B.content blocks.new)) }
    ensures beyond { B.tells → SameBeyond store.now.files (B.content blocks.old)
        (B.content blocks.new) }
    ensures settles { B.tells → OnOk result ((n : ℕ) → n < used_blocks store.now.files
        → B.settled blocks.new n) }
    ensures settles_always { B.tells → OnOk result ((n : ℕ) → n < used_blocks store.now.files
        → B.settled_always blocks.new n) }
    ensures kept_always { OnOk result ((k : ℕ) → used_blocks store.now.files ≤ k
        → B.settled_always blocks.old k → B.settled_always blocks.new k) }
    ensures images { B.tells → B.settled_always blocks.old 0
        → Changes B.moment B.may_leave blocks.old blocks.new (IsFilled store.now) }
    ensures images_beyond { Changes B.moment B.may_leave blocks.old blocks.new
        (SameBeyond store.now.files) }
    ensures images_done { B.tells
        → OnOk result ((f : ℕ → Option (List ℕ)) → B.may_leave blocks.new (B.moment blocks.new) f
        → HasNewStore store.now f) }
    ensures rest { B.tells → OnOk result (B.rest blocks.new) }
    ensures size { B.size blocks.new ≡ B.size blocks.old }
    ensures later { LaterFaults (B.faults blocks.old) (B.faults blocks.new)
        (B.last_fault blocks.old) (B.last_fault blocks.new) }
{
    write_pages(blocks, store)?;
    let mut table = [0; 1024];
    encode_block(store, 0, &mut table);
    blocks.write(BlockNo::at(0), &table)
}
