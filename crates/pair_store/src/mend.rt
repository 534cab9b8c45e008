// Mending: a block is read on both halves, and where they differ, the half that a read would not
// give is written anew.
ghost use Rattle.std.specs.Prelude.{◌≡◌, ◌≢◌, ◌⊎◌, ◌↔◌, Err, Ok, ℕ, ◌+◌, ◌-◌, ◌*◌, ◌^◌, ◌<◌, ◌≤◌, min, List, slice_index, IfErr, IfOk, IsErrOf, OnErr, OnOk};
ghost use Rattle.drives.specs.Half.{other};
ghost use Rattle.drives.specs.declared.device.Half.{Half};
ghost use Rattle.drives.specs.Crash.{LeavesSame, Ticks};
ghost use Rattle.drives.specs.Faults.{HasFailed, SameFaults};
ghost use Rattle.drives.specs.Changes.{Changes, HalvesLeft, IsAtRest, OnHalves, halves_seen};
ghost use Rattle.pair_store.specs.declared.outcome.Mended.{Mended};
ghost use Rattle.pair_store.specs.Blocks.{SameContents, SameOthers};
ghost use Rattle.pair_store.specs.Content.{ContentsLeft, IsSettled, IsSettledAlways, block_on, content_of};
ghost use Rattle.pair_store.specs.Faults.{IsStopped, LaterFaults};
ghost use Rattle.pair_store.specs.Mending.{Copies, IsCopy, IsFaultOf, IsHalfFault, IsMended, IsPlan, WroteNothing};
ghost use Rattle.pair_store.specs.Stages.{Kept};

use crate::Block;
use crate::fault::PairFault;
use crate::half_write::write_half;
use crate::outcome::Mended;
use crate::read::read_half;
use afs_base::OPEN_GATE;
use drives::{Drives, Half};

// What is to be done with the bytes of a block on both halves, those of half B in `body`, where the
// bytes to be copied are then.
fn plan(a: &Block, body: &mut Block) -> Mended
    ensures { IsPlan a.now body.old body.new result }
{
    if body[0] == OPEN_GATE {
        if *a == *body {
            Mended::Same
        } else {
            Mended::Copied { from: Half::B }
        }
    } else if a[0] == OPEN_GATE {
        *body = *a;
        Mended::Copied { from: Half::A }
    } else {
        Mended::Nothing
    }
}

/// Reads a block on half B and then on half A, and tells what mending has to do. The error is the
/// half that failed.
pub fn inspect<V: Drives>(drives: &mut V, n: u32, body: &mut Block) -> Result<Mended, Half>
    requires { n < V.size drives.old }
    ensures found { V.tells
        → IfOk result (IsPlan (block_on (V.seen drives.old Half.A) n)
        (block_on (V.seen drives.old Half.B) n) body.new) }
    ensures opened { IfOk result (λ m. Copies m → slice_index body.new 0 ≡ 165) }
    ensures same { V.tells → (h : Half) → V.seen drives.new h ≡ V.seen drives.old h }
    ensures changes { Changes V.moment (HalvesLeft V.may_leave) drives.old drives.new
        (OnHalves Kept) }
    ensures left { (h : Half) → LeavesSame (V.may_leave drives.old h (V.moment drives.old))
        (V.may_leave drives.new h (V.moment drives.new)) }
    ensures time { OnOk result (V.moment drives.new ≡ min (V.moment drives.old + 2) (2 ^ 64 - 1)) }
    ensures size { V.size drives.new ≡ V.size drives.old }
    ensures later { LaterFaults (V.faults drives.old) (V.faults drives.new)
        (V.last_fault drives.old) (V.last_fault drives.new) }
    ensures unfailed { OnOk result ((h : Half)
        → SameFaults (V.faults drives.old) (V.faults drives.new) (V.last_fault drives.old)
        (V.last_fault drives.new) h) }
    ensures stopped { (h : Half) → IsErrOf result h
        → IsStopped (V.faults drives.old) (V.faults drives.new) (V.last_fault drives.new)
        (V.moment drives.new) h }
    ensures other { (h : Half) → IsErrOf result h
        → SameFaults (V.faults drives.old) (V.faults drives.new) (V.last_fault drives.old)
        (V.last_fault drives.new) (other h) }
{
    match read_half(drives, Half::B, n, body) {
        Ok(_) => {}
        Err(_) => return Err(Half::B),
    }
    let mut a = [0; 1024];
    match read_half(drives, Half::A, n, &mut a) {
        Ok(_) => Ok(plan(&a, body)),
        Err(_) => Err(Half::A),
    }
}

/// Writes the bytes that a block has on one half on the other half too.
pub fn copy<V: Drives>(
    drives: &mut V,
    from: Half,
    n: u32,
    body: &Block,
) -> Result<Mended, PairFault>
    requires block { n < V.size drives.old }
    requires open { slice_index body.now 0 ≡ 165 }
    ensures answer { IsCopy from result }
    ensures source { V.tells → V.seen drives.new from ≡ V.seen drives.old from }
    ensures contents { V.tells → IsPlan (block_on (V.seen drives.old Half.A) n)
        (block_on (V.seen drives.old Half.B) n) body.now (Mended.Copied from)
        → SameContents (content_of (halves_seen V.seen drives.old))
        (content_of (halves_seen V.seen drives.new)) }
    ensures settles { V.tells → IsPlan (block_on (V.seen drives.old Half.A) n)
        (block_on (V.seen drives.old Half.B) n) body.now (Mended.Copied from)
        → OnOk result (IsSettled n (halves_seen V.seen drives.new)) }
    ensures kept { V.tells → (k : ℕ) → k ≢ n
        → IsSettled k (halves_seen V.seen drives.new) ↔ IsSettled k
        (halves_seen V.seen drives.old) }
    ensures kept_always { (k : ℕ) → k ≢ n
        → IsSettledAlways V.may_leave drives.old (V.moment drives.old) k
        → IsSettledAlways V.may_leave drives.new (V.moment drives.new) k }
    ensures images { V.tells → IsAtRest V.seen V.moment V.may_leave drives.old
        → IsPlan (block_on (V.seen drives.old Half.A) n) (block_on (V.seen drives.old Half.B) n)
        body.now (Mended.Copied from)
        → Changes V.moment (ContentsLeft V.may_leave) drives.old drives.new SameContents }
    ensures images_others { Changes V.moment (ContentsLeft V.may_leave) drives.old drives.new
        (SameOthers n) }
    ensures rest { V.tells → IsAtRest V.seen V.moment V.may_leave drives.old
        → OnOk result (IsAtRest V.seen V.moment V.may_leave drives.new) }
    ensures size { V.size drives.new ≡ V.size drives.old }
    ensures later { LaterFaults (V.faults drives.old) (V.faults drives.new)
        (V.last_fault drives.old) (V.last_fault drives.new) }
    ensures unfailed { OnOk result ((h : Half)
        → SameFaults (V.faults drives.old) (V.faults drives.new) (V.last_fault drives.old)
        (V.last_fault drives.new) h) }
    ensures stopped { OnErr result (IsStopped (V.faults drives.old) (V.faults drives.new)
        (V.last_fault drives.new) (V.moment drives.new) (other from)) }
    ensures unfailed_source { SameFaults (V.faults drives.old) (V.faults drives.new)
        (V.last_fault drives.old) (V.last_fault drives.new) from }
{
    let to = from.other();
    match write_half(drives, to, n, body) {
        Ok(()) => Ok(Mended::Copied { from }),
        Err(_) => Err(PairFault::WriteFault { half: to }),
    }
}

/// Mends a block on two halves.
pub fn mend_block<V: Drives>(drives: &mut V, n: u32) -> Result<Mended, PairFault>
    requires { n < V.size drives.old }
    ensures only { IfErr result IsHalfFault }
    ensures answer { V.tells → IsMended n (halves_seen V.seen drives.old) result }
    ensures stopped { (h : Half) → IsFaultOf h result
        → IsStopped (V.faults drives.old) (V.faults drives.new) (V.last_fault drives.new)
        (V.moment drives.new) h }
    ensures unfailed { (h : Half) → (IsFaultOf h result → ⊥)
        → SameFaults (V.faults drives.old) (V.faults drives.new) (V.last_fault drives.old)
        (V.last_fault drives.new) h }
    ensures contents { V.tells → SameContents (content_of (halves_seen V.seen drives.old))
        (content_of (halves_seen V.seen drives.new)) }
    ensures source { V.tells → (from : Half) → IsCopy from result
        → V.seen drives.new from ≡ V.seen drives.old from }
    ensures unwritten { WroteNothing result → (h : Half)
        → (V.tells → V.seen drives.new h ≡ V.seen drives.old h)
        × LeavesSame (V.may_leave drives.old h (V.moment drives.old))
        (V.may_leave drives.new h (V.moment drives.new)) }
    ensures reads { WroteNothing result
        → OnOk result (V.moment drives.new ≡ min (V.moment drives.old + 2) (2 ^ 64 - 1)) }
    ensures settles { V.tells → OnOk result (IsSettled n (halves_seen V.seen drives.new)) }
    ensures settles_always { V.tells → IsAtRest V.seen V.moment V.may_leave drives.old
        → OnOk result (IsSettledAlways V.may_leave drives.new (V.moment drives.new) n) }
    ensures kept { V.tells → (k : ℕ) → (k ≢ n) ⊎ WroteNothing result
        → IsSettled k (halves_seen V.seen drives.new) ↔ IsSettled k
        (halves_seen V.seen drives.old) }
    ensures kept_always { (k : ℕ) → (k ≢ n) ⊎ WroteNothing result
        → IsSettledAlways V.may_leave drives.old (V.moment drives.old) k
        → IsSettledAlways V.may_leave drives.new (V.moment drives.new) k }
    ensures images { V.tells → IsAtRest V.seen V.moment V.may_leave drives.old
        → Changes V.moment (ContentsLeft V.may_leave) drives.old drives.new SameContents }
    ensures images_unwritten { WroteNothing result
        → Changes V.moment (ContentsLeft V.may_leave) drives.old drives.new SameContents }
    ensures images_others { Changes V.moment (ContentsLeft V.may_leave) drives.old drives.new
        (SameOthers n) }
    ensures rest { V.tells → IsAtRest V.seen V.moment V.may_leave drives.old
        → OnOk result (IsAtRest V.seen V.moment V.may_leave drives.new) }
    ensures size { V.size drives.new ≡ V.size drives.old }
    ensures later { LaterFaults (V.faults drives.old) (V.faults drives.new)
        (V.last_fault drives.old) (V.last_fault drives.new) }
{
    let mut body = [0; 1024];
    match inspect(drives, n, &mut body) {
        Ok(Mended::Same) => Ok(Mended::Same),
        Ok(Mended::Copied { from }) => copy(drives, from, n, &body),
        Ok(Mended::Nothing) => Ok(Mended::Nothing),
        Err(half) => Err(PairFault::ReadFault { half }),
    }
}
