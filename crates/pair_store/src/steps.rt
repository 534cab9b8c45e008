// A read, and a write with its sync, and what a crash within them may leave.
ghost use Rattle.std.specs.Prelude.{◌≡◌, ℕ, ◌+◌, ◌*◌, ◌≤◌, length, OnOk};
ghost use Rattle.drives.specs.Half.{other};
ghost use Rattle.drives.specs.declared.device.Half.{Half};
ghost use Rattle.drives.specs.Crash.{HasAt, LeavesOnly, LeavesSame, Ticks, Torn};
ghost use Rattle.drives.specs.Faults.{HasFault, SameFaults};
ghost use Rattle.drives.specs.Changes.{Changes, HalvesLeft, LeavesNow, OnHalves};
ghost use Rattle.pair_store.specs.Stages.{At, Kept};

use drives::{Drives, Failed, Half};

/// Reads a range of a half.
pub fn read_bytes<V: Drives>(
    drives: &mut V,
    half: Half,
    at: u64,
    buf: &mut [u8],
) -> Result<(), Failed>
    requires { at + length buf.old ≤ 1024 * V.size drives.old }
    ensures read { V.tells → OnOk result (HasAt at buf.new (V.seen drives.old half)) }
    ensures same { V.tells → (h : Half) → V.seen drives.new h ≡ V.seen drives.old h }
    ensures changes { Changes V.moment (HalvesLeft V.may_leave) drives.old drives.new
        (OnHalves Kept) }
    ensures time { Ticks (V.moment drives.old) (V.moment drives.new) }
    ensures left { (h : Half) → LeavesSame (V.may_leave drives.old h (V.moment drives.old))
        (V.may_leave drives.new h (V.moment drives.new)) }
    ensures size { V.size drives.new ≡ V.size drives.old }
    ensures cause { HasFault (V.faults drives.old half) (V.faults drives.new half)
        (V.last_fault drives.old half) (V.last_fault drives.new half) (V.moment drives.new) result }
    ensures other { SameFaults (V.faults drives.old) (V.faults drives.new) (V.last_fault drives.old)
        (V.last_fault drives.new) (other half) }
{
    drives.read(half, at, buf)
}

/// Writes over a range of a half, and syncs that half.
pub fn write_synced<V: Drives>(
    drives: &mut V,
    half: Half,
    at: u64,
    bytes: &[u8],
) -> Result<(), Failed>
    requires { at + length bytes.now ≤ 1024 * V.size drives.old }
    ensures written { V.tells → OnOk result (HasAt at bytes.now (V.seen drives.new half)) }
    ensures range { V.tells → Torn at (length bytes.now) (V.seen drives.old half)
        (V.seen drives.new half) }
    ensures other_same { V.tells → V.seen drives.new (other half) ≡ V.seen drives.old (other half) }
    ensures durable { V.tells
        → OnOk result (LeavesOnly (V.seen drives.new half)
        (V.may_leave drives.new half (V.moment drives.new))) }
    ensures changes { Changes V.moment (HalvesLeft V.may_leave) drives.old drives.new
        (OnHalves (At half (Torn at (length bytes.now)))) }
    ensures size { V.size drives.new ≡ V.size drives.old }
    ensures cause { HasFault (V.faults drives.old half) (V.faults drives.new half)
        (V.last_fault drives.old half) (V.last_fault drives.new half) (V.moment drives.new) result }
    ensures other { SameFaults (V.faults drives.old) (V.faults drives.new) (V.last_fault drives.old)
        (V.last_fault drives.new) (other half) }
{
    drives.write(half, at, bytes)?;
    drives.sync(half)
}
