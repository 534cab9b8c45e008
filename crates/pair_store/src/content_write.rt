// A stable write, in terms of contents.
ghost use Rattle.std.specs.Prelude.{◌≡◌, ◌≢◌, ◌↔◌, List, Option, Some, ℕ, ◌*◌, ◌<◌, ◌≤◌, slice_index, IfErr, IsErrOf, OnOk};
ghost use Rattle.drives.specs.declared.device.Half.{Half};
ghost use Rattle.drives.specs.Changes.{Changes, IsAtRest, halves_seen};
ghost use Rattle.pair_store.specs.declared.fault.PairFault.{PairFault};
ghost use Rattle.pair_store.specs.Answers.{IsWriteFault};
ghost use Rattle.pair_store.specs.Blocks.{OldOrNew, SameOthers};
ghost use Rattle.pair_store.specs.Content.{ContentsLeft, IsSettled, IsSettledAlways, content_of};
ghost use Rattle.pair_store.specs.Faults.{IsStopped, LaterFaults};

use crate::Block;
use crate::both::write_both;
use crate::fault::PairFault;
use afs_base::BlockNo;
use drives::Drives;

/// Writes a block with an open gate as its content.
pub fn write_content<V: Drives>(drives: &mut V, n: BlockNo, body: &Block) -> Result<(), PairFault>
    requires block { n < V.size drives.old }
    requires open { slice_index body.now 0 ≡ 165 }
    ensures only { IfErr result IsWriteFault }
    ensures stopped { (h : Half) → IsErrOf result (PairFault.WriteFault h)
        → IsStopped (V.faults drives.old) (V.faults drives.new) (V.last_fault drives.new)
        (V.moment drives.new) h }
    ensures written { V.tells
        → OnOk result (content_of (halves_seen V.seen drives.new) n ≡ Some body.now) }
    ensures either { V.tells → IsSettled n (halves_seen V.seen drives.old)
        → OldOrNew n body.now (content_of (halves_seen V.seen drives.old))
        (content_of (halves_seen V.seen drives.new)) }
    ensures others { V.tells → SameOthers n (content_of (halves_seen V.seen drives.old))
        (content_of (halves_seen V.seen drives.new)) }
    ensures settles { V.tells → OnOk result (IsSettled n (halves_seen V.seen drives.new)) }
    ensures settles_always { V.tells
        → OnOk result (IsSettledAlways V.may_leave drives.new (V.moment drives.new) n) }
    ensures kept { V.tells → (k : ℕ) → k ≢ n
        → IsSettled k (halves_seen V.seen drives.new) ↔ IsSettled k
        (halves_seen V.seen drives.old) }
    ensures kept_always { (k : ℕ) → k ≢ n
        → IsSettledAlways V.may_leave drives.old (V.moment drives.old) k
        → IsSettledAlways V.may_leave drives.new (V.moment drives.new) k }
    ensures images { V.tells → IsSettledAlways V.may_leave drives.old (V.moment drives.old) n
        → Changes V.moment (ContentsLeft V.may_leave) drives.old drives.new (OldOrNew n body.now) }
    ensures images_others { Changes V.moment (ContentsLeft V.may_leave) drives.old drives.new
        (SameOthers n) }
    ensures images_done { V.tells
        → OnOk result ((f : ℕ → Option (List ℕ))
        → ContentsLeft V.may_leave drives.new (V.moment drives.new) f → f n ≡ Some body.now) }
    ensures rest { V.tells → OnOk result (IsAtRest V.seen V.moment V.may_leave drives.new) }
    ensures size { V.size drives.new ≡ V.size drives.old }
    ensures later { LaterFaults (V.faults drives.old) (V.faults drives.new)
        (V.last_fault drives.old) (V.last_fault drives.new) }
{
    write_both(drives, n.get(), body)
}
