// The gate of a block on a half: its first byte. A crash shows a block on this half only where the
// gate is open.
ghost use Rattle.std.specs.Prelude.{◌≡◌, ◌≢◌, ◌↔◌, ◌⊎◌, ℕ, ◌+◌, ◌*◌, ◌<◌, ◌≤◌, List, length, IfOk, IsTrue, OnOk};
ghost use Rattle.drives.specs.Half.{other};
ghost use Rattle.drives.specs.declared.device.Half.{Half};
ghost use Rattle.drives.specs.Crash.{LeavesSame, Torn};
ghost use Rattle.drives.specs.Faults.{HasFault, SameFaults};
ghost use Rattle.drives.specs.Changes.{Changes, HalvesLeft, OnHalves};
ghost use Rattle.pair_store.specs.Content.{gate, IsOpen};
ghost use Rattle.pair_store.specs.Stages.{At, Kept, SameBlock, IsKnownGate};

use crate::steps::{read_bytes, write_synced};
use afs_base::OPEN_GATE;
use drives::{Drives, Failed, Half};

// A closed gate; every byte but `OPEN_GATE` is one.
const CLOSED: u8 = 0;

/// Whether a block's gate on a half is open.
pub fn read_gate<V: Drives>(drives: &mut V, half: Half, n: u32) -> Result<bool, Failed>
    requires { n < V.size drives.old }
    ensures open { V.tells
        → IfOk result (λ is_open. IsTrue is_open ↔ IsOpen (V.seen drives.old half) n) }
    ensures same { V.tells → (h : Half) → V.seen drives.new h ≡ V.seen drives.old h }
    ensures changes { Changes V.moment (HalvesLeft V.may_leave) drives.old drives.new
        (OnHalves Kept) }
    ensures left { (h : Half) → LeavesSame (V.may_leave drives.old h (V.moment drives.old))
        (V.may_leave drives.new h (V.moment drives.new)) }
    ensures size { V.size drives.new ≡ V.size drives.old }
    ensures cause { HasFault (V.faults drives.old half) (V.faults drives.new half)
        (V.last_fault drives.old half) (V.last_fault drives.new half) (V.moment drives.new) result }
    ensures other { SameFaults (V.faults drives.old) (V.faults drives.new) (V.last_fault drives.old)
        (V.last_fault drives.new) (other half) }
{
    let mut byte = [0];
    read_bytes(drives, half, 1024 * n as u64, &mut byte)?;
    Ok(byte[0] == OPEN_GATE)
}

/// Closes a block's gate on a half. A gate that is closed already is not written, since a torn
/// write could open it.
pub fn close_gate<V: Drives>(drives: &mut V, half: Half, n: u32) -> Result<(), Failed>
    requires { n < V.size drives.old }
    ensures closed { V.tells → OnOk result (gate (V.seen drives.new half) n ≢ 165) }
    ensures range { V.tells → Torn (1024 * n) 1 (V.seen drives.old half) (V.seen drives.new half) }
    ensures other_same { V.tells → V.seen drives.new (other half) ≡ V.seen drives.old (other half) }
    ensures changes { Changes V.moment (HalvesLeft V.may_leave) drives.old drives.new
        (OnHalves (At half (Torn (1024 * n) 1))) }
    ensures stages { V.tells → IsKnownGate V.seen V.moment V.may_leave drives.old half n
        → Changes V.moment (HalvesLeft V.may_leave) drives.old drives.new
        (OnHalves (At half (λ x y. Torn (1024 * n) 1 x y × ((gate y n ≢ 165) ⊎ SameBlock n x y)))) }
    ensures seen_stages { V.tells → (gate (V.seen drives.new half) n ≢ 165)
        ⊎ SameBlock n (V.seen drives.old half) (V.seen drives.new half) }
    ensures left_closed { V.tells → IsKnownGate V.seen V.moment V.may_leave drives.old half n
        → OnOk result ((c : List ℕ) → V.may_leave drives.new half (V.moment drives.new) c
        → gate c n ≢ 165) }
    ensures size { V.size drives.new ≡ V.size drives.old }
    ensures cause { HasFault (V.faults drives.old half) (V.faults drives.new half)
        (V.last_fault drives.old half) (V.last_fault drives.new half) (V.moment drives.new) result }
    ensures other { SameFaults (V.faults drives.old) (V.faults drives.new) (V.last_fault drives.old)
        (V.last_fault drives.new) (other half) }
{
    if !read_gate(drives, half, n)? {
        return Ok(());
    }
    write_synced(drives, half, 1024 * n as u64, &[CLOSED])
}
