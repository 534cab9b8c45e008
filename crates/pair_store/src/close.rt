// Closing a block: half A, and then half B, so that it has its old content until it has none.
ghost use Rattle.std.specs.Prelude.{◌≡◌, ◌≢◌, ◌⊎◌, ◌↔◌, List, Option, None, ℕ, ◌*◌, ◌<◌, ◌≤◌, IfErr, IsErrOf, OnOk};
ghost use Rattle.drives.specs.declared.device.Half.{Half};
ghost use Rattle.drives.specs.Changes.{Changes, Halves, HalvesLeft, OnHalves, halves_seen};
ghost use Rattle.pair_store.specs.declared.fault.PairFault.{PairFault};
ghost use Rattle.pair_store.specs.Answers.{IsWriteFault};
ghost use Rattle.pair_store.specs.Blocks.{SameOthers};
ghost use Rattle.pair_store.specs.Closing.{IsShutting, OldOrNone};
ghost use Rattle.pair_store.specs.Content.{ContentsLeft, IsSettled, IsSettledAlways, content_of, gate};
ghost use Rattle.pair_store.specs.Faults.{IsStopped, LaterFaults};
ghost use Rattle.pair_store.specs.Stages.{IsKnownGate, SameElsewhere};
ghost use Rattle.drives.specs.Faults.{SameFaults};

use crate::fault::PairFault;
use crate::gates::close_gate;
use afs_base::BlockNo;
use drives::{Drives, Half};

/// Closes a block's gate on half A, and then on half B.
fn close_both<V: Drives>(drives: &mut V, n: u32) -> Result<(), PairFault>
    requires { n < V.size drives.old }
    ensures only { IfErr result IsWriteFault }
    ensures closed { V.tells → OnOk result ((h : Half) → gate (V.seen drives.new h) n ≢ 165) }
    ensures seen { V.tells → IsShutting n (halves_seen V.seen drives.old)
        (halves_seen V.seen drives.new) }
    ensures shutting { V.tells → ((h : Half)
        → IsKnownGate V.seen V.moment V.may_leave drives.old h n)
        → Changes V.moment (HalvesLeft V.may_leave) drives.old drives.new (IsShutting n) }
    ensures shut { V.tells → ((h : Half) → IsKnownGate V.seen V.moment V.may_leave drives.old h n)
        → OnOk result ((x : Halves) → HalvesLeft V.may_leave drives.new (V.moment drives.new) x
        → (gate x.a n ≢ 165) × (gate x.b n ≢ 165)) }
    ensures elsewhere { Changes V.moment (HalvesLeft V.may_leave) drives.old drives.new
        (OnHalves (λ h x y. SameElsewhere n x y)) }
    ensures size { V.size drives.new ≡ V.size drives.old }
    ensures later { LaterFaults (V.faults drives.old) (V.faults drives.new)
        (V.last_fault drives.old) (V.last_fault drives.new) }
    ensures unfailed { (h : Half) → (IsErrOf result (PairFault.WriteFault h) → ⊥)
        → SameFaults (V.faults drives.old) (V.faults drives.new) (V.last_fault drives.old)
        (V.last_fault drives.new) h }
    ensures stopped { (h : Half) → IsErrOf result (PairFault.WriteFault h)
        → IsStopped (V.faults drives.old) (V.faults drives.new) (V.last_fault drives.new)
        (V.moment drives.new) h }
{
    match close_gate(drives, Half::A, n) {
        Ok(()) => {}
        Err(_) => return Err(PairFault::WriteFault { half: Half::A }),
    }
    match close_gate(drives, Half::B, n) {
        Ok(()) => Ok(()),
        Err(_) => Err(PairFault::WriteFault { half: Half::B }),
    }
}

/// Closes a block: it has no content then. Its gate is read on half A and closed there where it is
/// open, and then on half B.
///
/// The only fault is `WriteFault` of the half that failed, in a read or in a write, at the last
/// call of the drives; the block then has the content that it had, or none. What is said of images
/// holds where each image has the gates of this block that reads give, as it does where nothing is
/// pending, and where the block is settled in every image. A gate that is closed is not written, so
/// closing may be cut off and begun anew.
pub fn close_block<V: Drives>(drives: &mut V, n: BlockNo) -> Result<(), PairFault>
    requires { n < V.size drives.old }
    ensures only { IfErr result IsWriteFault }
    ensures stopped { (h : Half) → IsErrOf result (PairFault.WriteFault h)
        → IsStopped (V.faults drives.old) (V.faults drives.new) (V.last_fault drives.new)
        (V.moment drives.new) h }
    ensures unfailed { (h : Half) → (IsErrOf result (PairFault.WriteFault h) → ⊥)
        → SameFaults (V.faults drives.old) (V.faults drives.new) (V.last_fault drives.old)
        (V.last_fault drives.new) h }

    ensures closed { V.tells → OnOk result (content_of (halves_seen V.seen drives.new) n ≡ None) }
    ensures contents { V.tells → OldOrNone n (content_of (halves_seen V.seen drives.old))
        (content_of (halves_seen V.seen drives.new)) }
    ensures settles { V.tells → OnOk result (IsSettled n (halves_seen V.seen drives.new)) }
    ensures kept { V.tells → (k : ℕ) → k ≢ n
        → IsSettled k (halves_seen V.seen drives.new) ↔ IsSettled k
        (halves_seen V.seen drives.old) }
    ensures kept_always { (k : ℕ) → k ≢ n
        → IsSettledAlways V.may_leave drives.old (V.moment drives.old) k
        → IsSettledAlways V.may_leave drives.new (V.moment drives.new) k }

    ensures images { V.tells → ((h : Half) → IsKnownGate V.seen V.moment V.may_leave drives.old h n)
        → Changes V.moment (ContentsLeft V.may_leave) drives.old drives.new (OldOrNone n) }
    ensures images_done { V.tells
        → ((h : Half) → IsKnownGate V.seen V.moment V.may_leave drives.old h n)
        → OnOk result ((f : ℕ → Option (List ℕ))
        → ContentsLeft V.may_leave drives.new (V.moment drives.new) f → f n ≡ None) }
    ensures settles_always { V.tells
        → ((h : Half) → IsKnownGate V.seen V.moment V.may_leave drives.old h n)
        → OnOk result (IsSettledAlways V.may_leave drives.new (V.moment drives.new) n) }
    // This holds whatever the images are.
    ensures images_others { Changes V.moment (ContentsLeft V.may_leave) drives.old drives.new
        (SameOthers n) }

    ensures size { V.size drives.new ≡ V.size drives.old }
    ensures later { LaterFaults (V.faults drives.old) (V.faults drives.new)
        (V.last_fault drives.old) (V.last_fault drives.new) }
{
    close_both(drives, n.get())
}
