// The two halves as the layers above see them: what a read gives, and what a crash at each moment
// may leave.
ghost use Rattle.std.specs.Prelude.{◌≡◌, ℕ, ◌+◌, ◌-◌, ◌*◌, ◌^◌, ◌<◌, ◌≤◌, List, length, OnOk, OnErr, IsErr, IsOk, nat_eq};
ghost use Rattle.std.proofs.Common.{rules};
ghost use Rattle.std.specs.Cmp.Rules.{comparing};
ghost use Rattle.std.specs.Ordering.{on};
ghost use Rattle.drives.specs.declared.device.Half.{Half};
ghost use Rattle.drives.specs.Half.{other, half_place};
ghost use Rattle.drives.specs.Bytes.{IsBytes};
ghost use Rattle.drives.specs.Crash.{HasAt, Torn, LeavesTorn, LeavesEachTorn, LeavesNoMore, LeavesOnly, LeavesSame, SamePast, Ticks};
ghost use Rattle.drives.specs.Faults.{HasFault, SameFaults};

use afs_base::Failed;

/// One of the two halves. A store keeps each block on both.
#[derive(Clone, Copy, Debug)]
pub enum Half {
    A,
    B,
}

impl Half {
    /// The half that this one is not.
    pub fn other(self) -> Half
        ensures { result ≡ other self }
    {
        match self {
            Half::A => Half::B,
            Half::B => Half::A,
        }
    }

    fn place(self) -> u8
        ensures { result ≡ half_place self }
    {
        match self {
            Half::A => 0,
            Half::B => 1,
        }
    }
}

impl PartialEq for Half {
    ghost eq = { on half_place nat_eq };

    ghost laws = { Prim.search (comparing, rules) };

    fn eq(&self, other: &Half) -> bool {
        self.place() == other.place()
    }
}

impl Eq for Half {
    ghost laws = { Prim.search (comparing, rules) };
}

/// Two halves of `1024 * blocks()` bytes each, which may crash.
///
/// A moment is a value of `now()`. A crash within a write counts as the moment after it, a crash
/// within a sync as the moment before it. Between two syncs of a half each range that a write
/// named, failed writes included, may hold any bytes.
pub trait Drives {
    /// Whether the halves tell their bytes: always in memory, never over files.
    ghost tells: { Type 0 };

    /// How many blocks of 1024 bytes each half has.
    ghost size: { Self → ℕ };

    /// How many of the calls have returned.
    ghost moment: { Self → ℕ };

    /// The bytes that reads of a half give.
    ghost seen: { Self → Half → List ℕ };

    /// The bytes of a half that a crash at a moment may leave.
    ghost may_leave: { Self → Half → ℕ → List ℕ → Type 0 };

    /// How often a half has failed, a number that stands still at its last value.
    ghost faults: { Self → Half → ℕ };

    /// The moment of a half's last fault, 0 before the first.
    ghost last_fault: { Self → Half → ℕ };

    /// Whether the next call is known to fail. By default nothing is known.
    ghost refuses: { Self → Type 0 } = { λ _. ⊥ };

    /// Whether the next call is known to succeed where it is a read. By default nothing is known.
    ghost serves_reads: { Self → Type 0 } = { λ _. ⊥ };

    /// The number of blocks of each half, at least 1. It never changes.
    fn blocks(&self) -> u32
        ensures { result ≡ size self.now };

    /// How many calls of `read`, `write` and `sync` have returned; at 18446744073709551615 each of
    /// them fails.
    fn now(&self) -> u64
        ensures { result ≡ moment self.now };

    /// Fills `buf` with the bytes of a half from offset `at` on. After `Failed` the buffer holds
    /// anything.
    fn read(&mut self, half: Half, at: u64, buf: &mut [u8]) -> Result<(), Failed>
        requires { at + length buf.old ≤ 1024 * size self.old }
        ensures read { tells → OnOk result (HasAt at buf.new (seen self.old half)) }
        ensures same { tells → (h : Half) → seen self.new h ≡ seen self.old h }
        ensures crash { (h : Half) → LeavesSame (may_leave self.old h (moment self.old))
            (may_leave self.new h (moment self.new)) }
        ensures time { Ticks (moment self.old) (moment self.new) }
        ensures past { SamePast (moment self.new) (may_leave self.old) (may_leave self.new) }
        ensures ends { moment self.old ≡ 2 ^ 64 - 1 → IsErr result }
        ensures refused { refuses self.old → IsErr result }
        ensures served { serves_reads self.old → IsOk result }
        ensures size { size self.new ≡ size self.old }
        ensures cause { HasFault (faults self.old half) (faults self.new half)
            (last_fault self.old half) (last_fault self.new half) (moment self.new) result }
        ensures other { SameFaults (faults self.old) (faults self.new) (last_fault self.old)
            (last_fault self.new) (other half) };

    /// Writes over the bytes of a half from offset `at` on. After `Failed` the range is as after a
    /// write with no sync.
    fn write(&mut self, half: Half, at: u64, bytes: &[u8]) -> Result<(), Failed>
        requires { at + length bytes.now ≤ 1024 * size self.old }
        ensures written { tells → OnOk result (HasAt at bytes.now (seen self.new half)) }
        ensures range { tells → Torn at (length bytes.now) (seen self.old half)
            (seen self.new half) }
        ensures crash { LeavesTorn at (length bytes.now) (may_leave self.old half (moment self.old))
            (may_leave self.new half (moment self.new)) }
        // No image is missing: each way in which bytes may be torn in the range is one.
        ensures crash_all { LeavesEachTorn at (length bytes.now)
            (may_leave self.old half (moment self.old))
            (may_leave self.new half (moment self.new)) }
        ensures other_same { tells → seen self.new (other half) ≡ seen self.old (other half) }
        ensures other_crash { LeavesSame (may_leave self.old (other half) (moment self.old))
            (may_leave self.new (other half) (moment self.new)) }
        ensures time { Ticks (moment self.old) (moment self.new) }
        ensures past { SamePast (moment self.new) (may_leave self.old) (may_leave self.new) }
        ensures ends { moment self.old ≡ 2 ^ 64 - 1 → IsErr result }
        ensures refused { refuses self.old → IsErr result }
        ensures size { size self.new ≡ size self.old }
        ensures cause { HasFault (faults self.old half) (faults self.new half)
            (last_fault self.old half) (last_fault self.new half) (moment self.new) result }
        ensures other { SameFaults (faults self.old) (faults self.new) (last_fault self.old)
            (last_fault self.new) (other half) };

    /// After `Ok` a crash leaves on this half what reads give. After `Failed` it leaves what it
    /// might have left before.
    fn sync(&mut self, half: Half) -> Result<(), Failed>
        ensures durable { tells
            → OnOk result (LeavesOnly (seen self.old half)
            (may_leave self.new half (moment self.new))) }
        ensures same { tells → (h : Half) → seen self.new h ≡ seen self.old h }
        ensures crash { LeavesNoMore (may_leave self.old half (moment self.old))
            (may_leave self.new half (moment self.new)) }
        ensures crash_failed { OnErr result (LeavesSame (may_leave self.old half (moment self.old))
            (may_leave self.new half (moment self.new))) }
        ensures other_crash { LeavesSame (may_leave self.old (other half) (moment self.old))
            (may_leave self.new (other half) (moment self.new)) }
        ensures time { Ticks (moment self.old) (moment self.new) }
        ensures past { SamePast (moment self.new) (may_leave self.old) (may_leave self.new) }
        ensures ends { moment self.old ≡ 2 ^ 64 - 1 → IsErr result }
        ensures refused { refuses self.old → IsErr result }
        ensures size { size self.new ≡ size self.old }
        ensures cause { HasFault (faults self.old half) (faults self.new half)
            (last_fault self.old half) (last_fault self.new half) (moment self.new) result }
        ensures other { SameFaults (faults self.old) (faults self.new) (last_fault self.old)
            (last_fault self.new) (other half) };

    /// There is a block.
    ghost some: { (d : Self) → 0 < size d };

    /// The clock fits its word.
    ghost clock: { (d : Self) → moment d < 2 ^ 64 };

    /// No fault was later than now.
    ghost fault_past: { (d : Self) (h : Half) → last_fault d h ≤ moment d };

    /// Where the halves tell their bytes, both are whole.
    ghost whole: { (d : Self) (h : Half) → tells → length (seen d h) ≡ 1024 * size d };

    /// A crash leaves halves of that length.
    ghost left_whole: { (d : Self) (h : Half) (c : List ℕ)
        → may_leave d h (moment d) c → length c ≡ 1024 * size d };

    /// What the halves tell is bytes.
    ghost seen_bytes: { (d : Self) (h : Half) → tells → IsBytes (seen d h) };

    /// And what a crash at any moment leaves is bytes.
    ghost left_bytes: { (d : Self) (h : Half) (t : ℕ) (c : List ℕ)
        → may_leave d h t c → IsBytes c };

    /// A crash may leave what reads give.
    ghost left_read: { (d : Self) (h : Half) → tells → may_leave d h (moment d) (seen d h) };
}
