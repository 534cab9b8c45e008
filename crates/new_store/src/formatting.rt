// Formatting: the store that was there is closed, and the new one is written over it.
ghost use Rattle.std.specs.Prelude.{◌≡◌, ◌⊎◌, ℕ, ◌<◌, ◌≤◌, List, Option, None, Ok, IfErr, IfOk};
ghost use Rattle.drives.specs.declared.device.Half.{Half};
ghost use Rattle.drives.specs.Changes.{Changes, IsAtRest, halves_seen};
ghost use Rattle.pair_store.specs.declared.fault.PairFault.{PairFault};
ghost use Rattle.pair_store.specs.Answers.{IsWriteFault};
ghost use Rattle.pair_store.specs.Content.{ContentsLeft, IsSettled, IsSettledAlways, content_of};
ghost use Rattle.pair_store.specs.Faults.{IsStopped, LaterFaults};
ghost use Rattle.store_model.specs.Found.{found};
ghost use Rattle.new_store.specs.Formatting.{IsFilled, IsFormatting, SameBeyond, drives_in};
ghost use Rattle.new_store.specs.Fresh.{OldNoneOrNew, new_state};
ghost use Rattle.new_store.specs.Layout.{HasNewStore};
ghost use Rattle.new_store.specs.Sizes.{used_blocks};

use crate::store::NewStore;
use crate::unformatted::Unformatted;
use crate::write::write_store;
use afs_base::BlockNo;
use drives::{Drives, Half};
use pair_store::{Pair, PairFault, close_block};

/// The half that failed.
fn half_of(fault: PairFault) -> Half
    requires { IsWriteFault fault }
    ensures { fault ≡ PairFault.WriteFault result }
{
    match fault {
        PairFault::WriteFault { half } => half,
        _ => unreachable!(),
    }
}

/// Writes all blocks of the new store on two halves whose block 0 is closed.
fn write_halves<V: Drives>(drives: V, store: &NewStore) -> Result<V, Unformatted<V>>
    requires { store.now.blocks ≤ V.size drives }
    ensures stopped { IfErr result (λ e. IsStopped (V.faults drives) (V.faults e.drives)
        (V.last_fault e.drives) (V.moment e.drives) e.half) }
    ensures done { V.tells
        → IfOk result (λ d. HasNewStore store.now (content_of (halves_seen V.seen d))) }
    ensures beyond { V.tells → SameBeyond store.now.files (content_of (halves_seen V.seen drives))
        (content_of (halves_seen V.seen (drives_in result))) }
    ensures settles { V.tells → IfOk result (λ d. (n : ℕ) → n < used_blocks store.now.files
        → IsSettled n (halves_seen V.seen d)) }
    ensures settles_always { V.tells → IfOk result (λ d. (n : ℕ) → n < used_blocks store.now.files
        → IsSettledAlways V.may_leave d (V.moment d) n) }
    ensures kept_always { IfOk result (λ d. (k : ℕ) → used_blocks store.now.files ≤ k
        → IsSettledAlways V.may_leave drives (V.moment drives) k
        → IsSettledAlways V.may_leave d (V.moment d) k) }
    ensures images { V.tells → IsSettledAlways V.may_leave drives (V.moment drives) 0
        → Changes V.moment (ContentsLeft V.may_leave) drives (drives_in result)
        (IsFilled store.now) }
    ensures images_beyond { Changes V.moment (ContentsLeft V.may_leave) drives (drives_in result)
        (SameBeyond store.now.files) }
    ensures images_done { V.tells
        → IfOk result (λ d. (f : ℕ → Option (List ℕ)) → ContentsLeft V.may_leave d (V.moment d) f
        → HasNewStore store.now f) }
    ensures rest { V.tells → IfOk result (IsAtRest V.seen V.moment V.may_leave) }
    ensures size { V.size (drives_in result) ≡ V.size drives }
    ensures later { LaterFaults (V.faults drives) (V.faults (drives_in result))
        (V.last_fault drives) (V.last_fault (drives_in result)) }
{
    let mut pair = Pair::over(drives);
    match write_store(&mut pair, store) {
        Ok(()) => Ok(pair.into_drives()),
        Err(fault) => Err(Unformatted {
            drives: pair.into_drives(),
            half: half_of(fault),
        }),
    }
}

/// Makes a new store on two halves, over whatever they hold.
///
/// Block 0 is closed on half A and then on half B; then each file's version page and each part of
/// the table is written, and at last block 0, each with a stable write. So, where nothing is
/// pending as the call begins, a crash within it leaves the store that was there, or none, or the
/// new one, never a mix of both. The call takes no memory beyond its buffers of one block. Where a
/// half fails, the drives come back with that half, which failed at the last call of them that was
/// made; what they hold then is one of these three, and a later call may make the new store all the
/// same.
pub fn format<V: Drives>(drives: V, store: &NewStore) -> Result<V, Unformatted<V>>
    requires { store.now.blocks ≤ V.size drives }
    ensures stopped { IfErr result (λ e. IsStopped (V.faults drives) (V.faults e.drives)
        (V.last_fault e.drives) (V.moment e.drives) e.half) }

    ensures done { V.tells
        → IfOk result (λ d. HasNewStore store.now (content_of (halves_seen V.seen d))) }
    ensures found { V.tells
        → IfOk result (λ d. found (content_of (halves_seen V.seen d)) (V.size drives) ≡ Ok
        (new_state store.now)) }
    ensures beyond { V.tells → SameBeyond store.now.files (content_of (halves_seen V.seen drives))
        (content_of (halves_seen V.seen (drives_in result))) }
    ensures settles { V.tells → IfOk result (λ d. (n : ℕ) → n < used_blocks store.now.files
        → IsSettled n (halves_seen V.seen d)) }
    ensures settles_always { V.tells → IfOk result (λ d. (n : ℕ) → n < used_blocks store.now.files
        → IsSettledAlways V.may_leave d (V.moment d) n) }
    ensures kept_always { IfOk result (λ d. (k : ℕ) → used_blocks store.now.files ≤ k
        → IsSettledAlways V.may_leave drives (V.moment drives) k
        → IsSettledAlways V.may_leave d (V.moment d) k) }

    // These two hold where nothing is pending as the call begins.
    ensures images { V.tells → IsAtRest V.seen V.moment V.may_leave drives
        → Changes V.moment (ContentsLeft V.may_leave) drives (drives_in result)
        (IsFormatting store.now) }
    ensures stands { V.tells → IsAtRest V.seen V.moment V.may_leave drives
        → Changes V.moment (ContentsLeft V.may_leave) drives (drives_in result)
        (OldNoneOrNew store.now (V.size drives)) }
    // These three hold whatever is pending as the call begins. After `Ok` nothing is pending.
    ensures images_beyond { Changes V.moment (ContentsLeft V.may_leave) drives (drives_in result)
        (SameBeyond store.now.files) }
    ensures images_done { V.tells
        → IfOk result (λ d. (f : ℕ → Option (List ℕ)) → ContentsLeft V.may_leave d (V.moment d) f
        → HasNewStore store.now f) }
    ensures rest { V.tells → IfOk result (IsAtRest V.seen V.moment V.may_leave) }

    ensures size { V.size (drives_in result) ≡ V.size drives }
    ensures later { LaterFaults (V.faults drives) (V.faults (drives_in result))
        (V.last_fault drives) (V.last_fault (drives_in result)) }
{
    let mut drives = drives;
    match close_block(&mut drives, BlockNo::at(0)) {
        Ok(()) => write_halves(drives, store),
        Err(fault) => Err(Unformatted {
            drives,
            half: half_of(fault),
        }),
    }
}
