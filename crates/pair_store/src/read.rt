// A read of a block: half B, and half A where B failed or is closed there.
ghost use Rattle.std.specs.Prelude.{◌≡◌, ◌≢◌, ◌⊎◌, ◌↔◌, Some, ℕ, ◌*◌, ◌<◌, ◌≤◌, min, ◌+◌, ◌-◌, ◌^◌, IfOk, IsErrOf, IsTrue, OnOk};
ghost use Rattle.drives.specs.Half.{other};
ghost use Rattle.drives.specs.declared.device.Half.{Half};
ghost use Rattle.drives.specs.Crash.{LeavesSame, Ticks};
ghost use Rattle.drives.specs.Faults.{HasFailed, HasFault, SameFaults};
ghost use Rattle.drives.specs.Changes.{Changes, HalvesLeft, OnHalves, halves_seen};
ghost use Rattle.pair_store.specs.Content.{IsOpen, IsSettled, block_on, content_of, gate};
ghost use Rattle.pair_store.specs.Found.{IsFound};
ghost use Rattle.pair_store.specs.Stages.{HasBody, Kept};
ghost use Rattle.pair_store.specs.Faults.{LaterFaults};

use crate::Block;
use crate::steps::read_bytes;
use afs_base::OPEN_GATE;
use drives::{Drives, Failed, Half};

/// Reads a block of one half, and tells whether its gate is open.
pub fn read_half<V: Drives>(
    drives: &mut V,
    half: Half,
    n: u32,
    into: &mut Block,
) -> Result<bool, Failed>
    requires { n < V.size drives.old }
    ensures open { V.tells
        → IfOk result (λ is_open. IsTrue is_open ↔ IsOpen (V.seen drives.old half) n) }
    ensures bytes { V.tells → OnOk result (HasBody n into.new (V.seen drives.old half)) }
    ensures same { V.tells → (h : Half) → V.seen drives.new h ≡ V.seen drives.old h }
    ensures changes { Changes V.moment (HalvesLeft V.may_leave) drives.old drives.new
        (OnHalves Kept) }
    ensures time { Ticks (V.moment drives.old) (V.moment drives.new) }
    ensures left { (h : Half) → LeavesSame (V.may_leave drives.old h (V.moment drives.old))
        (V.may_leave drives.new h (V.moment drives.new)) }
    ensures size { V.size drives.new ≡ V.size drives.old }
    ensures cause { HasFault (V.faults drives.old half) (V.faults drives.new half)
        (V.last_fault drives.old half) (V.last_fault drives.new half) (V.moment drives.new) result }
    ensures other { SameFaults (V.faults drives.old) (V.faults drives.new) (V.last_fault drives.old)
        (V.last_fault drives.new) (other half) }
{
    read_bytes(drives, half, 1024 * n as u64, into)?;
    Ok(into[0] == OPEN_GATE)
}

/// Reads a block, and tells whether it has content. B is read first, and A where B failed or is
/// closed there. The half of the error is the one whose failure left nothing to read: A where A
/// failed, else B.
pub fn read_both<V: Drives>(drives: &mut V, n: u32, into: &mut Block) -> Result<bool, Half>
    requires { n < V.size drives.old }
    ensures found { V.tells
        → IfOk result (λ has. IsFound has n into.new (halves_seen V.seen drives.old)
        (HasFailed (V.faults drives.old Half.B) (V.faults drives.new Half.B)
        (V.last_fault drives.new Half.B))) }
    ensures unread { V.tells → IsErrOf result Half.B → gate (V.seen drives.old Half.A) n ≢ 165 }
    ensures same { V.tells → (h : Half) → V.seen drives.new h ≡ V.seen drives.old h }
    ensures changes { Changes V.moment (HalvesLeft V.may_leave) drives.old drives.new
        (OnHalves Kept) }
    ensures left { (h : Half) → LeavesSame (V.may_leave drives.old h (V.moment drives.old))
        (V.may_leave drives.new h (V.moment drives.new)) }
    ensures size { V.size drives.new ≡ V.size drives.old }
    ensures later { LaterFaults (V.faults drives.old) (V.faults drives.new)
        (V.last_fault drives.old) (V.last_fault drives.new) }
    ensures cause { (h : Half) → IsErrOf result h
        → HasFailed (V.faults drives.old h) (V.faults drives.new h) (V.last_fault drives.new h) }
    // Half B failed too, or was found closed.
    ensures shut_b { IsErrOf result Half.A
        → HasFailed (V.faults drives.old Half.B) (V.faults drives.new Half.B)
        (V.last_fault drives.new Half.B) ⊎ (V.tells → gate (V.seen drives.old Half.B) n ≢ 165) }
    ensures last_a { IsErrOf result Half.A → V.last_fault drives.new Half.A ≡ V.moment drives.new }
    // Half A was read after half B failed, and found closed.
    ensures last_b { IsErrOf result Half.B
        → V.moment drives.new ≡ min (V.last_fault drives.new Half.B + 1) (2 ^ 64 - 1) }
{
    match read_half(drives, Half::B, n, into) {
        Ok(true) => Ok(true),
        Ok(false) => match read_half(drives, Half::A, n, into) {
            Ok(true) => Ok(true),
            Ok(false) => Ok(false),
            Err(_) => Err(Half::A),
        },
        Err(_) => match read_half(drives, Half::A, n, into) {
            Ok(true) => Ok(true),
            Ok(false) => Err(Half::B),
            Err(_) => Err(Half::A),
        },
    }
}
