// Halves in memory whose calls can be made to fail, and whose images can be had.
ghost use Rattle.std.specs.Prelude.{◌≡◌, ◌≢◌, ◌⊎◌, ◌↔◌, ℕ, ◌+◌, ◌-◌, ◌*◌, ◌^◌, ◌<◌, ◌≤◌, min, List, [], length, vec_len, IfOk, IsTrue, Contains};
ghost use Rattle.drives.specs.Crash.{Ticks};
ghost use Rattle.drives.specs.New.{IsHalfLength, IsNew, blank_bytes};

use crate::Failed;
use crate::call::Pick;
use crate::device::{Drives, Half};
use crate::mem_half::MemHalf;
use afs_base::Memory;
use std::alloc::Global;

/// Two halves in memory with a list of the call numbers that fail.
#[derive(Drop)]
pub struct MemDrives {
    alloc: Global,
    a: MemHalf,
    b: MemHalf,
    blocks: u32,
    time: u64,
    failing: Vec<u64>,
    ghost some: { 0 < blocks },
    ghost most: { blocks ≤ 65536 },
    ghost clock: { time < 2 ^ 64 },
    ghost whole_a: { length a.bytes.items ≡ 1024 * blocks },
    ghost whole_b: { length b.bytes.items ≡ 1024 * blocks },
    ghost moment_a: { min (length a.events) (2 ^ 64 - 1) ≡ time },
    ghost moment_b: { min (length b.events) (2 ^ 64 - 1) ≡ time },
    ghost last_a: { a.faults.last ≤ time },
    ghost last_b: { b.faults.last ≤ time },
}

// A moment passes, and the call of its number fails where it is listed, or where the clock has
// ended.
fn tick(time: &mut u64, failing: &Vec<u64>) -> bool
    ensures time { Ticks time.old time.new }
    ensures refused { IsTrue result ↔ ((time.old ≡ 2 ^ 64 - 1)
        ⊎ Contains failing.now.items (time.old + 1)) }
{
    if *time == u64::MAX {
        return true;
    }
    *time += 1;
    failing.contains(time)
}

impl MemDrives {
    ghost use Rattle.drives.specs.declared.device.Half.{Half};
    ghost use Rattle.drives.specs.Left.{failing_calls, mem_half, recorded_at};
    ghost use Rattle.drives.specs.Replay.{IsPicked};

    /// Halves of `blocks` blocks of zeros. No call fails until `fail_at` says so.
    pub fn blank(alloc: Global, blocks: u32) -> Result<MemDrives, Memory>
        requires some { 1 ≤ blocks }
        requires most { blocks ≤ 65536 }
        ensures size { IfOk result (λ d. ⟦<MemDrives as Drives>⟧.size d ≡ blocks) }
        ensures fresh { IfOk result (IsNew ⟦<MemDrives as Drives>⟧.size
            ⟦<MemDrives as Drives>⟧.moment ⟦<MemDrives as Drives>⟧.seen
            ⟦<MemDrives as Drives>⟧.may_leave ⟦<MemDrives as Drives>⟧.faults
            ⟦<MemDrives as Drives>⟧.last_fault (blank_bytes blocks) (blank_bytes blocks)) }
        ensures unlisted { IfOk result (λ d. failing_calls d ≡ []) }
    {
        let len = 1024 * blocks as usize;
        let a = vec![in alloc; 0; len]?;
        let b = vec![in alloc; 0; len]?;
        MemDrives::of_halves(alloc, a, b)
    }

    /// Halves of these bytes, all of them synced. No call fails until `fail_at` says so.
    pub fn of_halves(alloc: Global, a: Vec<u8>, b: Vec<u8>) -> Result<MemDrives, Memory>
        requires equal { vec_len b ≡ vec_len a }
        requires whole { IsHalfLength (vec_len a) }
        ensures fresh { IfOk result (IsNew ⟦<MemDrives as Drives>⟧.size
            ⟦<MemDrives as Drives>⟧.moment ⟦<MemDrives as Drives>⟧.seen
            ⟦<MemDrives as Drives>⟧.may_leave ⟦<MemDrives as Drives>⟧.faults
            ⟦<MemDrives as Drives>⟧.last_fault a.items b.items) }
        ensures unlisted { IfOk result (λ d. failing_calls d ≡ []) }
    {
        let blocks = (a.len() / 1024) as u32;
        Ok(MemDrives {
            alloc,
            a: MemHalf::new(alloc, a)?,
            b: MemHalf::new(alloc, b)?,
            blocks,
            time: 0,
            failing: Vec::new(alloc),
        })
    }

    /// The bytes that reads of a half give.
    pub fn half_bytes(&self, half: Half) -> &[u8]
        ensures { result.now ≡ ⟦<MemDrives as Drives>⟧.seen self.now half }
    {
        match half {
            Half::A => self.a.bytes(),
            Half::B => self.b.bytes(),
        }
    }

    /// New halves that hold what a crash at a moment might have left: in each range that was
    /// written and not synced by then, what the pick says. A failed write counts as one that left
    /// the bytes as they were. No call of the new halves fails until `fail_at` says so.
    pub fn image(&self, moment: u64, pick: Pick) -> Result<MemDrives, Memory>
        requires { moment ≤ ⟦<MemDrives as Drives>⟧.moment self.now }
        ensures fresh { IfOk result (λ d. IsNew ⟦<MemDrives as Drives>⟧.size
            ⟦<MemDrives as Drives>⟧.moment ⟦<MemDrives as Drives>⟧.seen
            ⟦<MemDrives as Drives>⟧.may_leave ⟦<MemDrives as Drives>⟧.faults
            ⟦<MemDrives as Drives>⟧.last_fault (⟦<MemDrives as Drives>⟧.seen d Half.A)
            (⟦<MemDrives as Drives>⟧.seen d Half.B) d) }
        ensures unlisted { IfOk result (λ d. failing_calls d ≡ []) }
        ensures size { IfOk result
            (λ d. ⟦<MemDrives as Drives>⟧.size d ≡ ⟦<MemDrives as Drives>⟧.size self.now) }
        ensures left { IfOk result (λ d. (h : Half)
            → ⟦<MemDrives as Drives>⟧.may_leave self.now h moment
            (⟦<MemDrives as Drives>⟧.seen d h)) }
        ensures picked { IfOk result (λ d. (h : Half)
            → IsPicked pick (recorded_at (mem_half self.now h) moment)
            (⟦<MemDrives as Drives>⟧.seen d h)) }
    {
        MemDrives::of_halves(
            self.alloc,
            self.a.image(moment, pick)?,
            self.b.image(moment, pick)?,
        )
    }

    /// From now on the calls of these numbers fail, and no others.
    pub fn fail_at(&mut self, calls: Vec<u64>)
        ensures listed { failing_calls self.new ≡ calls.items }
        ensures halves { (h : Half) → mem_half self.new h ≡ mem_half self.old h }
        ensures size { ⟦<MemDrives as Drives>⟧.size self.new ≡ ⟦<MemDrives as Drives>⟧.size
            self.old }
        ensures moment { ⟦<MemDrives as Drives>⟧.moment self.new ≡ ⟦<MemDrives as Drives>⟧.moment
            self.old }
    {
        self.failing = calls;
    }
}

impl Drives for MemDrives {
    ghost use Rattle.drives.specs.Left.{failing_calls, mem_half, IsMemLeft};

    ghost tells = { Unit {0} };

    ghost size = { λ d. d.blocks };

    ghost moment = { λ d. d.time };

    ghost seen = { λ d h. (mem_half d h).bytes.items };

    ghost may_leave = { λ d h t c. IsMemLeft (mem_half d h) t c };

    ghost faults = { λ d h. (mem_half d h).faults.count };

    ghost last_fault = { λ d h. (mem_half d h).faults.last };

    ghost refuses = { λ d. Contains (failing_calls d) (d.time + 1) };

    ghost serves_reads = { λ d. (d.time ≢ 2 ^ 64 - 1) × ¬ Contains (failing_calls d) (d.time + 1) };

    fn blocks(&self) -> u32 {
        self.blocks
    }

    fn now(&self) -> u64 {
        self.time
    }

    fn read(&mut self, half: Half, at: u64, buf: &mut [u8]) -> Result<(), Failed> {
        let refused = tick(&mut self.time, &self.failing);
        match half {
            Half::A => {
                self.b.idle();
                self.a.read(self.time, refused, at, buf)
            }
            Half::B => {
                self.a.idle();
                self.b.read(self.time, refused, at, buf)
            }
        }
    }

    fn write(&mut self, half: Half, at: u64, bytes: &[u8]) -> Result<(), Failed> {
        let refused = tick(&mut self.time, &self.failing);
        match half {
            Half::A => {
                self.b.idle();
                self.a.write(self.time, refused, at, bytes)
            }
            Half::B => {
                self.a.idle();
                self.b.write(self.time, refused, at, bytes)
            }
        }
    }

    fn sync(&mut self, half: Half) -> Result<(), Failed> {
        let refused = tick(&mut self.time, &self.failing);
        match half {
            Half::A => {
                self.b.idle();
                self.a.sync(self.time, refused)
            }
            Half::B => {
                self.a.idle();
                self.b.sync(self.time, refused)
            }
        }
    }

    ghost use Rattle.std.proofs.Common.{rules};
    ghost use Rattle.std.proofs.lemmas.Grind.{common_steps};

    ghost some = { Prim.search (rules, common_steps) };

    ghost clock = { Prim.search (rules, common_steps) };

    ghost fault_past = { Prim.search (rules, common_steps) };

    ghost whole = { Prim.search (rules, common_steps) };

    ghost use Rattle.drives.specs.LeftLaws.{length-left, left_seen, seen_fits};

    ghost left_whole = { λ d h c left. length-left d h c left };

    ghost left_read = { λ d h _. left_seen d h };

    ghost seen_bytes = { λ d h _. seen_fits d h };

    ghost left_bytes = { λ d h t c left. left.fits };
}
