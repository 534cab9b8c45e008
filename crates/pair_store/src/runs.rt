// Runs of blocks: many blocks are read by one call of each half.
ghost use Rattle.std.specs.Prelude.{◌≡◌, ℕ, ◌+◌, ◌-◌, ◌*◌, ◌^◌, ◌<◌, ◌≤◌, min, List, length, take, drop, slice_index, IfOk, IsErrOf, IsTrue, ◌↔◌, OnOk};
ghost use Rattle.drives.specs.Half.{other};
ghost use Rattle.drives.specs.declared.device.Half.{Half};
ghost use Rattle.drives.specs.Crash.{HasAt, LeavesSame};
ghost use Rattle.drives.specs.Faults.{SameFaults};
ghost use Rattle.drives.specs.Changes.{Changes, HalvesLeft, OnHalves, halves_seen};
ghost use Rattle.pair_store.specs.Content.{block_on};
ghost use Rattle.pair_store.specs.Faults.{IsStopped, LaterFaults};
ghost use Rattle.pair_store.specs.Runs.{AreSettling, IsSettledRun};
ghost use Rattle.pair_store.specs.Stages.{Kept};

use crate::steps::read_bytes;
use afs_base::OPEN_GATE;
use drives::{Drives, Half};

/// The most blocks that one read takes.
pub const RUN_BLOCKS: u32 = 64;

/// Room for a run of blocks of each half, made once and used for many runs.
#[derive(Drop)]
pub struct Run {
    a: [u8; 65536],
    b: [u8; 65536],
}

impl Run {
    /// Room with nothing read yet.
    pub fn new() -> Run {
        Run {
            a: [0; 65536],
            b: [0; 65536],
        }
    }
}

// Whether a block that has these bytes on its halves needs no mending.
fn is_settled(a: &[u8], b: &[u8]) -> bool
    requires a { 0 < length a.now }
    requires b { 0 < length b.now }
    ensures { IsTrue result ↔ AreSettling a.now b.now }
{
    if b[0] == OPEN_GATE {
        a == b
    } else {
        a[0] != OPEN_GATE
    }
}

// A block of these bytes.
fn block_in(bytes: &[u8], n: u32) -> &[u8]
    requires { 1024 * n + 1024 ≤ length bytes.now }
    ensures block { result.now ≡ block_on bytes.now n }
    ensures full { length result.now ≡ 1024 }
{
    let from = 1024 * n as usize;
    &bytes[from..from + 1024]
}

// How many blocks need no mending, before one that does.
fn count_in(a: &[u8], b: &[u8], count: u32) -> u32
    requires a { length a.now ≡ 1024 * count }
    requires b { length b.now ≡ 1024 * count }
    ensures { IsSettledRun 0 count result (record { a = a.now; b = b.now }) }
{
    'blocks: for n in 0..count {
        if !is_settled(block_in(a, n), block_in(b, n)) {
            return n;
        }
    }
    count
}

/// How many of `count` blocks, from `first` on, need no mending, before one that does. The error is
/// the half that failed.
pub fn count_settled<V: Drives>(
    drives: &mut V,
    first: u32,
    count: u32,
    run: &mut Run,
) -> Result<u32, Half>
    requires high { first + count ≤ V.size drives.old }
    requires few { count ≤ 64 }
    ensures settled { V.tells → IfOk result (λ k. IsSettledRun first count k
        (halves_seen V.seen drives.old)) }
    ensures most { IfOk result (λ k. k ≤ count) }
    ensures same { V.tells → (h : Half) → V.seen drives.new h ≡ V.seen drives.old h }
    ensures changes { Changes V.moment (HalvesLeft V.may_leave) drives.old drives.new
        (OnHalves Kept) }
    ensures left { (h : Half) → LeavesSame (V.may_leave drives.old h (V.moment drives.old))
        (V.may_leave drives.new h (V.moment drives.new)) }
    ensures time { OnOk result (V.moment drives.new ≡ min (V.moment drives.old + 2) (2 ^ 64 - 1)) }
    ensures size { V.size drives.new ≡ V.size drives.old }
    ensures later { LaterFaults (V.faults drives.old) (V.faults drives.new)
        (V.last_fault drives.old) (V.last_fault drives.new) }
    ensures unfailed { OnOk result ((h : Half)
        → SameFaults (V.faults drives.old) (V.faults drives.new) (V.last_fault drives.old)
        (V.last_fault drives.new) h) }
    ensures stopped { (h : Half) → IsErrOf result h
        → IsStopped (V.faults drives.old) (V.faults drives.new) (V.last_fault drives.new)
        (V.moment drives.new) h }
    ensures other { (h : Half) → IsErrOf result h
        → SameFaults (V.faults drives.old) (V.faults drives.new) (V.last_fault drives.old)
        (V.last_fault drives.new) (other h) }
{
    let at = 1024 * first as u64;
    let bytes = 1024 * count as usize;
    match read_bytes(drives, Half::B, at, &mut run.b[..bytes]) {
        Ok(()) => {}
        Err(_) => return Err(Half::B),
    }
    match read_bytes(drives, Half::A, at, &mut run.a[..bytes]) {
        Ok(()) => Ok(count_in(&run.a[..bytes], &run.b[..bytes], count)),
        Err(_) => Err(Half::A),
    }
}
