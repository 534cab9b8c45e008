// Halves in memory whose calls never fail but at the clock's end.
ghost use Rattle.std.specs.Prelude.{◌≡◌, ℕ, ◌+◌, ◌-◌, ◌*◌, ◌^◌, ◌<◌, ◌≤◌, List, [], ◌∷◌, length, vec_len, OnOk, OnErr, IfOk, IsOk};
ghost use Rattle.drives.specs.Half.{other};
ghost use Rattle.drives.specs.Bytes.{IsBytes};
ghost use Rattle.drives.specs.Crash.{HasAt, LeavesEachTorn, LeavesOnly, LeavesTorn, Torn};
ghost use Rattle.drives.specs.Images.{IsImage};
ghost use Rattle.drives.specs.New.{IsHalfLength, IsNew, blank_bytes};

use crate::Failed;
use crate::bytes::{copy_out, write_over};
use crate::device::{Drives, Half};
use crate::history::{Remembered, Span};
use afs_base::Memory;
use std::alloc::Global;
use std::snapshot::Snapshot;

/// A half as it was at a moment.
#[derive(Drop)]
pub struct Moment {
    bytes: Snapshot<Vec<u8>>,
    spans: Snapshot<Remembered<Span>>,
}

/// A half: its bytes, the ranges written since its last sync, its past moments, and the moment of
/// its last fault.
#[derive(Drop)]
pub struct SureHalf {
    bytes: Vec<u8>,
    spans: Remembered<Span>,
    past: Remembered<Moment>,
    last: u64,
}

/// Two halves in memory that take no memory for what they remember, and whose calls fail at the
/// clock's end alone.
#[derive(Drop)]
pub struct SureDrives {
    a: SureHalf,
    b: SureHalf,
    blocks: u32,
    time: u64,
    ghost some: { 0 < blocks },
    ghost clock: { time < 2 ^ 64 },
    ghost whole_a: { length a.bytes.items ≡ 1024 * blocks },
    ghost whole_b: { length b.bytes.items ≡ 1024 * blocks },
    ghost known_a: { length a.past ≡ time },
    ghost known_b: { length b.past ≡ time },
    ghost last_a: { a.last ≤ time },
    ghost last_b: { b.last ≤ time },
    ghost fits_a: { IsBytes a.bytes.items },
    ghost fits_b: { IsBytes b.bytes.items },
}

impl SureHalf {
    ghost use Rattle.drives.specs.Sure.{IsLeft, Remembers};

    fn new(bytes: Vec<u8>) -> SureHalf
        ensures bytes { result.bytes.items ≡ bytes.items }
        ensures fits { IsBytes result.bytes.items }
        ensures spans { result.spans ≡ [] }
        ensures past { result.past ≡ [] }
        ensures last { result.last ≡ 0 }
        ensures only { LeavesOnly bytes.items (IsLeft result 0) }
    {
        SureHalf {
            bytes,
            spans: Remembered::nothing(),
            past: Remembered::nothing(),
            last: 0,
        }
    }

    // Keeps the present moment as one that has passed.
    fn remember(&mut self)
        ensures { Remembers self.old self.new }
    {
        let present = Moment {
            bytes: Snapshot::of(&self.bytes),
            spans: Snapshot::of(&self.spans),
        };
        self.past.push(Snapshot::of(&present));
    }

    // Names a range that holds anything until the next sync.
    fn tear(&mut self, at: u64, len: u64)
        requires { IsBytes self.old.bytes.items }
        ensures spans { (s : Span) × (self.new.spans ≡ s ∷ self.old.spans) × (s.at ≡ at)
            × (s.len ≡ len) }
        ensures crash { LeavesTorn at len (IsImage self.old.spans self.old.bytes.items)
            (IsImage self.new.spans self.new.bytes.items) }
        ensures crash_all { LeavesEachTorn at len (IsImage self.old.spans self.old.bytes.items)
            (IsImage self.new.spans self.new.bytes.items) }
        ensures bytes { self.new.bytes ≡ self.old.bytes }
        ensures past { self.new.past ≡ self.old.past }
        ensures last { self.new.last ≡ self.old.last }
    {
        self.spans.push(Snapshot::of(&Span { at, len }));
    }

    fn put(&mut self, at: u64, bytes: &[u8])
        requires range { at + length bytes.now ≤ length self.old.bytes.items }
        requires fits { IsBytes self.old.bytes.items }
        ensures fits { IsBytes self.new.bytes.items }
        ensures written { HasAt at bytes.now self.new.bytes.items }
        ensures range { Torn at (length bytes.now) self.old.bytes.items self.new.bytes.items }
        ensures spans { (s : Span) × (self.new.spans ≡ s ∷ self.old.spans) × (s.at ≡ at)
            × (s.len ≡ length bytes.now) }
        ensures crash { LeavesTorn at (length bytes.now)
            (IsImage self.old.spans self.old.bytes.items)
            (IsImage self.new.spans self.new.bytes.items) }
        ensures crash_all { LeavesEachTorn at (length bytes.now)
            (IsImage self.old.spans self.old.bytes.items)
            (IsImage self.new.spans self.new.bytes.items) }
        ensures past { self.new.past ≡ self.old.past }
        ensures last { self.new.last ≡ self.old.last }
    {
        let len = bytes.len() as u64;
        self.spans.push(Snapshot::of(&Span { at, len }));
        write_over(&mut self.bytes, at, bytes);
    }

    // The bytes are all that a crash may leave.
    fn settle(&mut self)
        ensures spans { self.new.spans ≡ [] }
        ensures bytes { self.new.bytes ≡ self.old.bytes }
        ensures past { self.new.past ≡ self.old.past }
        ensures last { self.new.last ≡ self.old.last }
    {
        self.spans = Remembered::nothing();
    }
}

impl SureDrives {
    ghost use Rattle.drives.specs.Sure.{sure_half, Remembers};

    /// Halves of `blocks` blocks of zeros.
    pub fn blank(alloc: Global, blocks: u32) -> Result<SureDrives, Memory>
        requires some { 1 ≤ blocks }
        requires most { blocks ≤ 65536 }
        ensures size { IfOk result (λ d. ⟦<SureDrives as Drives>⟧.size d ≡ blocks) }
        ensures fresh { IfOk result (IsNew ⟦<SureDrives as Drives>⟧.size
            ⟦<SureDrives as Drives>⟧.moment ⟦<SureDrives as Drives>⟧.seen
            ⟦<SureDrives as Drives>⟧.may_leave ⟦<SureDrives as Drives>⟧.faults
            ⟦<SureDrives as Drives>⟧.last_fault (blank_bytes blocks) (blank_bytes blocks)) }
    {
        let len = 1024 * blocks as usize;
        let a = vec![in alloc; 0; len]?;
        let b = vec![in alloc; 0; len]?;
        SureDrives::of_halves(alloc, a, b)
    }

    /// Halves of these bytes, all of them synced. It takes no memory.
    pub fn of_halves(_alloc: Global, a: Vec<u8>, b: Vec<u8>) -> Result<SureDrives, Memory>
        requires equal { vec_len b ≡ vec_len a }
        requires whole { IsHalfLength (vec_len a) }
        ensures memory { IsOk result }
        ensures fresh { IfOk result (IsNew ⟦<SureDrives as Drives>⟧.size
            ⟦<SureDrives as Drives>⟧.moment ⟦<SureDrives as Drives>⟧.seen
            ⟦<SureDrives as Drives>⟧.may_leave ⟦<SureDrives as Drives>⟧.faults
            ⟦<SureDrives as Drives>⟧.last_fault a.items b.items) }
    {
        let blocks = (a.len() / 1024) as u32;
        Ok(SureDrives {
            a: SureHalf::new(a),
            b: SureHalf::new(b),
            blocks,
            time: 0,
        })
    }

    /// The bytes that reads of a half give.
    pub fn half_bytes(&self, half: Half) -> &[u8]
        ensures { result.now ≡ ⟦<SureDrives as Drives>⟧.seen self.now half }
    {
        match half {
            Half::A => &self.a.bytes,
            Half::B => &self.b.bytes,
        }
    }

    // A moment passes. There is none to pass at the clock's end, and the half fails there.
    fn tick(&mut self, half: Half) -> Result<(), Failed>
        ensures remembers_a { OnOk result (Remembers self.old.a self.new.a) }
        ensures remembers_b { OnOk result (Remembers self.old.b self.new.b) }
        ensures time { OnOk result (self.new.time ≡ self.old.time + 1) }
        ensures early { OnOk result (self.old.time < 2 ^ 64 - 1) }
        ensures ends { OnErr result ((self.old.time ≡ 2 ^ 64 - 1)
            × (self.new.time ≡ self.old.time)) }
        ensures fault { OnErr result (sure_half self.new half ≡ record (sure_half self.old half)
            { last = self.old.time }) }
        ensures other { OnErr result (sure_half self.new (other half) ≡ sure_half self.old
            (other half)) }
        ensures size { self.new.blocks ≡ self.old.blocks }
    {
        if self.time == u64::MAX {
            match half {
                Half::A => self.a.last = self.time,
                Half::B => self.b.last = self.time,
            }
            return Err(Failed);
        }
        self.a.remember();
        self.b.remember();
        self.time += 1;
        Ok(())
    }
}

impl Drives for SureDrives {
    ghost use Rattle.drives.specs.Sure.{sure_half, IsLeft};

    ghost tells = { Unit {0} };

    ghost size = { λ d. d.blocks };

    ghost moment = { λ d. d.time };

    ghost seen = { λ d h. (sure_half d h).bytes.items };

    ghost may_leave = { λ d h t c. IsLeft (sure_half d h) t c };

    ghost faults = { λ d h. 0 };

    ghost last_fault = { λ d h. (sure_half d h).last };

    ghost serves_reads = { λ d. d.time < 2 ^ 64 - 1 };

    fn blocks(&self) -> u32 {
        self.blocks
    }

    fn now(&self) -> u64 {
        self.time
    }

    fn read(&mut self, half: Half, at: u64, buf: &mut [u8]) -> Result<(), Failed> {
        self.tick(half)?;
        match half {
            Half::A => copy_out(&self.a.bytes, at, buf),
            Half::B => copy_out(&self.b.bytes, at, buf),
        }
        Ok(())
    }

    fn write(&mut self, half: Half, at: u64, bytes: &[u8]) -> Result<(), Failed> {
        let ticked = self.tick(half);
        match (ticked, half) {
            (Ok(()), Half::A) => self.a.put(at, bytes),
            (Ok(()), Half::B) => self.b.put(at, bytes),
            (Err(_), Half::A) => self.a.tear(at, bytes.len() as u64),
            (Err(_), Half::B) => self.b.tear(at, bytes.len() as u64),
        }
        ticked
    }

    fn sync(&mut self, half: Half) -> Result<(), Failed> {
        self.tick(half)?;
        match half {
            Half::A => self.a.settle(),
            Half::B => self.b.settle(),
        }
        Ok(())
    }

    ghost use Rattle.std.proofs.Common.{rules};
    ghost use Rattle.std.proofs.lemmas.Grind.{common_steps};

    ghost some = { Prim.search (rules, common_steps) };

    ghost clock = { Prim.search (rules, common_steps) };

    ghost fault_past = { Prim.search (rules, common_steps) };

    ghost whole = { Prim.search (rules, common_steps) };

    ghost left_whole = { Prim.search (rules, common_steps) };

    ghost left_read = { Prim.search (rules, common_steps) };

    ghost use Rattle.drives.specs.SureLaws.{left_fits, seen_fits};

    ghost seen_bytes = { λ d h _. seen_fits d h };

    ghost left_bytes = { λ d h t c left. left_fits d h t c left };
}
