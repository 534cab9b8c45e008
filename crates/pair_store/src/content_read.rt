// A read of a block's content.
ghost use Rattle.std.specs.Prelude.{◌≡◌, ◌≢◌, ◌⊎◌, ◌↔◌, None, Some, ℕ, ◌*◌, ◌<◌, ◌≤◌, IfErr, IsErrOf, OnOk};
ghost use Rattle.drives.specs.declared.device.Half.{Half};
ghost use Rattle.drives.specs.Faults.{HasFailed};
ghost use Rattle.drives.specs.Crash.{LeavesSame};
ghost use Rattle.drives.specs.Changes.{Changes, HalvesLeft, OnHalves, halves_seen};
ghost use Rattle.pair_store.specs.declared.fault.PairFault.{PairFault};
ghost use Rattle.pair_store.specs.Answers.{IsReadFault};
ghost use Rattle.pair_store.specs.Blocks.{SameContents};
ghost use Rattle.pair_store.specs.Content.{ContentsLeft, IsSettled, IsSettledAlways, content_of};
ghost use Rattle.pair_store.specs.Faults.{IsUnread, LaterFaults};
ghost use Rattle.pair_store.specs.Found.{IsPairRead};

use crate::Block;
use crate::fault::PairFault;
use crate::read::read_both;
use afs_base::BlockNo;
use drives::Drives;

/// Reads the content of a block. After an error the buffer holds anything.
pub fn read_content<V: Drives>(
    drives: &mut V,
    n: BlockNo,
    into: &mut Block,
) -> Result<(), PairFault>
    requires { n < V.size drives.old }
    ensures only { IfErr result (IsReadFault n) }
    ensures given { V.tells → IsSettled n (halves_seen V.seen drives.old)
        → OnOk result (content_of (halves_seen V.seen drives.old) n ≡ Some into.new) }
    ensures reads { V.tells → IsPairRead n (halves_seen V.seen drives.old)
        (λ h. HasFailed (V.faults drives.old h) (V.faults drives.new h) (V.last_fault drives.new h))
        result into.new }
    ensures closed { V.tells → IsErrOf result (PairFault.BothClosed n)
        → content_of (halves_seen V.seen drives.old) n ≡ None }
    ensures unread { (h : Half) → IsErrOf result (PairFault.ReadFault h)
        → IsUnread (V.faults drives.old) (V.faults drives.new) (V.last_fault drives.new)
        (V.moment drives.new) (V.tells → IsSettled n (halves_seen V.seen drives.old)
        → content_of (halves_seen V.seen drives.old) n ≡ None) h }
    ensures seen { V.tells → (h : Half) → V.seen drives.new h ≡ V.seen drives.old h }
    ensures same { V.tells → SameContents (content_of (halves_seen V.seen drives.old))
        (content_of (halves_seen V.seen drives.new)) }
    ensures kept { V.tells → (k : ℕ)
        → IsSettled k (halves_seen V.seen drives.new) ↔ IsSettled k
        (halves_seen V.seen drives.old) }
    ensures kept_always { (k : ℕ)
        → IsSettledAlways V.may_leave drives.new (V.moment drives.new) k ↔ IsSettledAlways
        V.may_leave drives.old (V.moment drives.old) k }
    ensures images { Changes V.moment (ContentsLeft V.may_leave) drives.old drives.new
        SameContents }
    ensures left { (h : Half) → LeavesSame (V.may_leave drives.old h (V.moment drives.old))
        (V.may_leave drives.new h (V.moment drives.new)) }
    ensures size { V.size drives.new ≡ V.size drives.old }
    ensures later { LaterFaults (V.faults drives.old) (V.faults drives.new)
        (V.last_fault drives.old) (V.last_fault drives.new) }
{
    match read_both(drives, n.get(), into) {
        Ok(true) => Ok(()),
        Ok(false) => Err(PairFault::BothClosed { block: n }),
        Err(half) => Err(PairFault::ReadFault { half }),
    }
}
