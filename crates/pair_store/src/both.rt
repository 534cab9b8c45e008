// A stable write: half B whole, and then half A, so that one of them can be read at every moment.
ghost use Rattle.std.specs.Prelude.{◌≡◌, ◌⊎◌, ℕ, ◌*◌, ◌<◌, ◌≤◌, slice_index, IfErr, IsErrOf, OnOk};
ghost use Rattle.drives.specs.declared.device.Half.{Half};
ghost use Rattle.drives.specs.Faults.{HasFailed};
ghost use Rattle.drives.specs.Changes.{Changes, Halves, HalvesLeft, IsAtRest, OnHalves, halves_seen};
ghost use Rattle.pair_store.specs.Content.{ContentsLeft, IsSettled, IsSettledAlways, content_of};
ghost use Rattle.pair_store.specs.Stages.{HasBody, SameElsewhere};
ghost use Rattle.pair_store.specs.Blocks.{OldOrNew};
ghost use Rattle.pair_store.specs.Faults.{LaterFaults};

use crate::Block;
use crate::fault::PairFault;
use crate::half_write::write_half;
use drives::{Drives, Half};

/// Writes a block with an open gate on both halves. Its content is the old one or the new one in
/// each image, where it was settled in every image, and so it is in what reads give, where it was
/// settled there; all other blocks are as they were, whether it was or not.
pub fn write_both<V: Drives>(drives: &mut V, n: u32, body: &Block) -> Result<(), PairFault>
    requires block { n < V.size drives.old }
    requires open { slice_index body.now 0 ≡ 165 }
    ensures only { IfErr result (λ e. (e ≡ PairFault.WriteFault Half.A)
        ⊎ (e ≡ PairFault.WriteFault Half.B)) }
    ensures images { V.tells → IsSettledAlways V.may_leave drives.old (V.moment drives.old) n
        → Changes V.moment (ContentsLeft V.may_leave) drives.old drives.new (OldOrNew n body.now) }
    ensures either { V.tells → IsSettled n (halves_seen V.seen drives.old)
        → OldOrNew n body.now (content_of (halves_seen V.seen drives.old))
        (content_of (halves_seen V.seen drives.new)) }
    ensures elsewhere { Changes V.moment (HalvesLeft V.may_leave) drives.old drives.new
        (OnHalves (λ h x y. SameElsewhere n x y)) }
    ensures done { V.tells → OnOk result ((x : Halves)
        → HalvesLeft V.may_leave drives.new (V.moment drives.new) x → HasBody n body.now x.a
        × HasBody n body.now x.b) }
    ensures seen { V.tells → OnOk result ((h : Half) → HasBody n body.now (V.seen drives.new h)) }
    ensures range { V.tells → (h : Half)
        → SameElsewhere n (V.seen drives.old h) (V.seen drives.new h) }
    // Half A is not touched before half B is done.
    ensures first { V.tells → IsErrOf result (PairFault.WriteFault Half.B)
        → V.seen drives.new Half.A ≡ V.seen drives.old Half.A }
    ensures second { V.tells → IsErrOf result (PairFault.WriteFault Half.A)
        → HasBody n body.now (V.seen drives.new Half.B) }
    // Each half was synced last, so nothing is pending on either, whatever was before.
    ensures rest { V.tells → OnOk result (IsAtRest V.seen V.moment V.may_leave drives.new) }
    ensures size { V.size drives.new ≡ V.size drives.old }
    ensures later { LaterFaults (V.faults drives.old) (V.faults drives.new)
        (V.last_fault drives.old) (V.last_fault drives.new) }
    ensures cause { (h : Half) → IsErrOf result (PairFault.WriteFault h)
        → HasFailed (V.faults drives.old h) (V.faults drives.new h) (V.moment drives.new)
        × (V.last_fault drives.new h ≡ V.moment drives.new) }
{
    match write_half(drives, Half::B, n, body) {
        Ok(()) => {}
        Err(_) => return Err(PairFault::WriteFault { half: Half::B }),
    }
    match write_half(drives, Half::A, n, body) {
        Ok(()) => Ok(()),
        Err(_) => Err(PairFault::WriteFault { half: Half::A }),
    }
}
