// A block write on one half: the gate is closed on the disk before the bytes change, and opened
// after they are there.
ghost use Rattle.std.specs.Prelude.{◌≡◌, ℕ, ◌+◌, ◌*◌, ◌<◌, ◌≤◌, List, length, slice_index, OnOk};
ghost use Rattle.drives.specs.Half.{other};
ghost use Rattle.drives.specs.declared.device.Half.{Half};
ghost use Rattle.drives.specs.Crash.{LeavesOnly};
ghost use Rattle.drives.specs.Faults.{HasFault, SameFaults};
ghost use Rattle.drives.specs.Changes.{Changes, HalvesLeft, OnHalves};
ghost use Rattle.pair_store.specs.Stages.{At, HasBody, IsStage, SameElsewhere, IsKnownGate};

use crate::Block;
use crate::gates::close_gate;
use crate::steps::write_synced;
use afs_base::OPEN_GATE;
use drives::{Drives, Failed, Half};

// All bytes but the gate.
fn behind_gate(body: &[u8]) -> &[u8]
    requires { 1 ≤ length body.now }
    ensures length { length result.now + 1 ≡ length body.now }
    ensures bytes { (i : ℕ) → slice_index result.now i ≡ slice_index body.now (i + 1) }
{
    &body[1..]
}

/// Writes a block with an open gate on one half: seven device calls where the gate was open, five
/// where it was closed.
pub fn write_half<V: Drives>(drives: &mut V, half: Half, n: u32, body: &Block) -> Result<(), Failed>
    requires block { n < V.size drives.old }
    requires open { slice_index body.now 0 ≡ 165 }
    ensures written { V.tells → OnOk result (HasBody n body.now (V.seen drives.new half)) }
    ensures range { V.tells → SameElsewhere n (V.seen drives.old half) (V.seen drives.new half) }
    ensures other_same { V.tells → V.seen drives.new (other half) ≡ V.seen drives.old (other half) }
    ensures durable { V.tells
        → OnOk result (LeavesOnly (V.seen drives.new half)
        (V.may_leave drives.new half (V.moment drives.new))) }
    ensures changes { Changes V.moment (HalvesLeft V.may_leave) drives.old drives.new
        (OnHalves (At half (SameElsewhere n))) }
    ensures stages { V.tells → IsKnownGate V.seen V.moment V.may_leave drives.old half n
        → Changes V.moment (HalvesLeft V.may_leave) drives.old drives.new
        (OnHalves (At half (λ x y. SameElsewhere n x y × IsStage n body.now x y))) }
    ensures seen_stages { V.tells
        → IsStage n body.now (V.seen drives.old half) (V.seen drives.new half) }
    ensures size { V.size drives.new ≡ V.size drives.old }
    ensures cause { HasFault (V.faults drives.old half) (V.faults drives.new half)
        (V.last_fault drives.old half) (V.last_fault drives.new half) (V.moment drives.new) result }
    ensures other { SameFaults (V.faults drives.old) (V.faults drives.new) (V.last_fault drives.old)
        (V.last_fault drives.new) (other half) }
{
    let gate = 1024 * n as u64;
    close_gate(drives, half, n)?;
    write_synced(drives, half, gate + 1, behind_gate(body))?;
    write_synced(drives, half, gate, &[OPEN_GATE])
}
