// A half in memory with a record of its calls.
ghost use Rattle.std.specs.Prelude.{◌≡◌, ◌↔◌, ℕ, ◌+◌, ◌-◌, ◌*◌, ◌^◌, ◌<◌, ◌≤◌, min, true, List, [], ◌∷◌, ◌++◌, length, vec_len, OnOk, OnErr, IfOk, IsErr, IsOk, IsTrue};
ghost use Rattle.drives.specs.Bytes.{IsBytes};
ghost use Rattle.drives.specs.Crash.{HasAt, LeavesEachTorn, LeavesOnly, LeavesNoMore, LeavesSame, LeavesTorn, Torn};
ghost use Rattle.drives.specs.Faults.{HasFault};
ghost use Rattle.drives.specs.Replay.{state, recorded, calls_fit, next_call, IsPicked, IsWriteOf};

use crate::Failed;
use crate::bytes::{copy_out, write_over};
use crate::call::{Call, Event, Pick, What};
use crate::history::Remembered;
use crate::image::image_at;
use afs_base::Memory;
use std::alloc::Global;
use std::snapshot::Snapshot;

/// How often a half has failed, and the moment of its last fault, 0 before the first.
#[derive(Drop)]
pub struct FaultCount {
    count: u64,
    last: u64,
    ghost fits: { count < 2 ^ 64 },
}

impl FaultCount {
    // The half fails at this moment. The count stands still at its last value.
    fn rise(&mut self, when: u64)
        ensures count { self.new.count ≡ min (self.old.count + 1) (2 ^ 64 - 1) }
        ensures last { self.new.last ≡ when }
    {
        self.count = self.count.saturating_add(1);
        self.last = when;
    }
}

/// A half: the bytes it began with, its bytes now, the record of its calls, and its faults.
#[derive(Drop)]
pub struct MemHalf {
    alloc: Global,
    first: Vec<u8>,
    bytes: Vec<u8>,
    calls: Vec<Call>,
    events: Remembered<Event>,
    faults: FaultCount,
    ghost whole: { length first.items ≡ length bytes.items },
    ghost known: { (state first.items events).bytes ≡ bytes.items },
    ghost made: { recorded events ≡ calls.items },
    ghost within: { calls_fit (length bytes.items) calls.items ≡ true },
    ghost bytes_fit: { IsBytes bytes.items },
}

// Puts a call into the record, and tells what it did.
fn record_call(calls: &mut Vec<Call>, when: u64, what: What) -> Result<Snapshot<What>, Memory>
    ensures told { IfOk result (λ w. w.value ≡ what) }
    ensures ok { IfOk result (λ w. calls.new.items ≡ calls.old.items ++ record
        { when = when; what = w.value } ∷ []) }
    ensures err { OnErr result (calls.new.items ≡ calls.old.items) }
{
    let told = Snapshot::of(&what);
    calls.push(Call { when, what })?;
    Ok(told)
}

// Puts a write into the record.
fn record_write(
    alloc: Global,
    calls: &mut Vec<Call>,
    when: u64,
    at: u64,
    bytes: &[u8],
) -> Result<Snapshot<What>, Memory>
    ensures told { IfOk result (λ w. IsWriteOf at bytes.now w.value) }
    ensures ok { IfOk result (λ w. calls.new.items ≡ calls.old.items ++ record
        { when = when; what = w.value } ∷ []) }
    ensures err { OnErr result (calls.new.items ≡ calls.old.items) }
{
    let bytes = bytes.to_vec(alloc)?;
    record_call(calls, when, What::Write { at, bytes })
}

impl MemHalf {
    ghost use Rattle.drives.specs.Left.{IsMemLeft, IsMemLeftNow, SameMemPast, recorded_at};

    /// A half with these bytes, all of them synced.
    pub fn new(alloc: Global, bytes: Vec<u8>) -> Result<MemHalf, Memory>
        ensures bytes { IfOk result (λ half. half.bytes.items ≡ bytes.items) }
        ensures events { IfOk result (λ half. half.events ≡ []) }
        ensures only { IfOk result (λ half. LeavesOnly bytes.items (IsMemLeft half 0)) }
        ensures unfailed { IfOk result (λ half. (half.faults.count ≡ 0) × (half.faults.last ≡ 0)) }
    {
        Ok(MemHalf {
            alloc,
            first: bytes.to_vec(alloc)?,
            bytes,
            calls: Vec::new(alloc),
            events: Remembered::nothing(),
            faults: FaultCount { count: 0, last: 0 },
        })
    }

    /// The bytes that reads give.
    pub fn bytes(&self) -> &[u8]
        ensures { result.now ≡ self.now.bytes.items }
    {
        &self.bytes
    }

    /// An image of this half at a moment: what the pick says in each range that was written and not
    /// synced by then.
    pub fn image(&self, moment: u64, pick: Pick) -> Result<Vec<u8>, Memory>
        ensures left { IfOk result (λ image. IsMemLeft self.now moment image.items) }
        ensures picked { IfOk result (λ image. IsPicked pick (recorded_at self.now moment)
            image.items) }
        ensures length { IfOk result (λ image. vec_len image ≡ length self.now.bytes.items) }
    {
        image_at(self.alloc, &self.first, &self.calls, moment, pick)
    }

    /// A call that did nothing to this half.
    pub fn idle(&mut self)
        ensures bytes { self.new.bytes ≡ self.old.bytes }
        ensures length { length self.new.events ≡ length self.old.events + 1 }
        ensures faults { self.new.faults ≡ self.old.faults }
        ensures same { LeavesSame (IsMemLeftNow self.old) (IsMemLeftNow self.new) }
        ensures past { SameMemPast self.old self.new }
    {
        self.events.push(Snapshot::of(&Event::Idle));
    }

    // A write that left any bytes in its range, and for whose record there was no memory.
    fn lose(&mut self, at: u64, len: u64)
        ensures bytes { self.new.bytes ≡ self.old.bytes }
        ensures length { length self.new.events ≡ length self.old.events + 1 }
        ensures faults { self.new.faults ≡ self.old.faults }
        ensures crash { LeavesTorn at len (IsMemLeftNow self.old) (IsMemLeftNow self.new) }
        ensures crash_all { LeavesEachTorn at len (IsMemLeftNow self.old) (IsMemLeftNow self.new) }
        ensures past { SameMemPast self.old self.new }
    {
        self.events.push(Snapshot::of(&Event::Lost { at, len }));
    }

    // A failed write: the range holds anything.
    fn tear(&mut self, when: u64, at: u64, len: u64)
        requires call { when ≡ next_call (length self.old.events) }
        requires range { at + len ≤ length self.old.bytes.items }
        ensures bytes { self.new.bytes ≡ self.old.bytes }
        ensures length { length self.new.events ≡ length self.old.events + 1 }
        ensures faults { self.new.faults ≡ self.old.faults }
        ensures crash { LeavesTorn at len (IsMemLeftNow self.old) (IsMemLeftNow self.new) }
        ensures crash_all { LeavesEachTorn at len (IsMemLeftNow self.old) (IsMemLeftNow self.new) }
        ensures past { SameMemPast self.old self.new }
    {
        match record_call(&mut self.calls, when, What::Tear { at, len }) {
            Ok(what) => self.events.push(Snapshot::of(&Event::Made(what))),
            Err(_) => self.lose(at, len),
        }
    }

    // A write, or a failed one where there is no memory for its record.
    fn put(&mut self, when: u64, at: u64, bytes: &[u8]) -> Result<(), Memory>
        requires call { when ≡ next_call (length self.old.events) }
        requires range { at + length bytes.now ≤ length self.old.bytes.items }
        ensures written { OnOk result (HasAt at bytes.now self.new.bytes.items) }
        ensures torn { Torn at (length bytes.now) self.old.bytes.items self.new.bytes.items }
        ensures length { length self.new.events ≡ length self.old.events + 1 }
        ensures faults { self.new.faults ≡ self.old.faults }
        ensures crash { LeavesTorn at (length bytes.now) (IsMemLeftNow self.old)
            (IsMemLeftNow self.new) }
        ensures crash_all { LeavesEachTorn at (length bytes.now) (IsMemLeftNow self.old)
            (IsMemLeftNow self.new) }
        ensures past { SameMemPast self.old self.new }
    {
        match record_write(self.alloc, &mut self.calls, when, at, bytes) {
            Ok(what) => {
                self.events.push(Snapshot::of(&Event::Made(what)));
                write_over(&mut self.bytes, at, bytes);
                Ok(())
            }
            Err(_) => {
                self.lose(at, bytes.len() as u64);
                Err(Memory)
            }
        }
    }

    // A sync, which does nothing where there is no memory for its record.
    fn settle(&mut self, when: u64) -> Result<(), Memory>
        requires { when ≡ next_call (length self.old.events) }
        ensures bytes { self.new.bytes ≡ self.old.bytes }
        ensures length { length self.new.events ≡ length self.old.events + 1 }
        ensures faults { self.new.faults ≡ self.old.faults }
        ensures durable { OnOk result (LeavesOnly self.old.bytes.items (IsMemLeftNow self.new)) }
        ensures crash { LeavesNoMore (IsMemLeftNow self.old) (IsMemLeftNow self.new) }
        ensures crash_failed { OnErr result
            (LeavesSame (IsMemLeftNow self.old) (IsMemLeftNow self.new)) }
        ensures past { SameMemPast self.old self.new }
    {
        match record_call(&mut self.calls, when, What::Sync) {
            Ok(what) => {
                self.events.push(Snapshot::of(&Event::Made(what)));
                Ok(())
            }
            Err(_) => {
                self.idle();
                Err(Memory)
            }
        }
    }

    /// Reads at the call of number `when`, which fails where it is refused.
    pub fn read(&mut self, when: u64, refused: bool, at: u64, buf: &mut [u8]) -> Result<(), Failed>
        requires past { self.old.faults.last ≤ when }
        requires range { at + length buf.old ≤ length self.old.bytes.items }
        ensures read { OnOk result (HasAt at buf.new self.old.bytes.items) }
        ensures bytes { self.new.bytes ≡ self.old.bytes }
        ensures length { length self.new.events ≡ length self.old.events + 1 }
        ensures same { LeavesSame (IsMemLeftNow self.old) (IsMemLeftNow self.new) }
        ensures past { SameMemPast self.old self.new }
        ensures cause { HasFault self.old.faults.count self.new.faults.count self.old.faults.last
            self.new.faults.last when result }
        ensures refused { IsErr result ↔ IsTrue refused }
        ensures served { ¬ IsTrue refused → IsOk result }
    {
        self.idle();
        if refused {
            self.faults.rise(when);
            return Err(Failed);
        }
        copy_out(&self.bytes, at, buf);
        Ok(())
    }

    /// Writes at the call of number `when`, which fails where it is refused, or where memory is
    /// out.
    pub fn write(&mut self, when: u64, refused: bool, at: u64, bytes: &[u8]) -> Result<(), Failed>
        requires call { when ≡ next_call (length self.old.events) }
        requires past { self.old.faults.last ≤ when }
        requires range { at + length bytes.now ≤ length self.old.bytes.items }
        ensures written { OnOk result (HasAt at bytes.now self.new.bytes.items) }
        ensures torn { Torn at (length bytes.now) self.old.bytes.items self.new.bytes.items }
        ensures length { length self.new.events ≡ length self.old.events + 1 }
        ensures crash { LeavesTorn at (length bytes.now) (IsMemLeftNow self.old)
            (IsMemLeftNow self.new) }
        ensures crash_all { LeavesEachTorn at (length bytes.now) (IsMemLeftNow self.old)
            (IsMemLeftNow self.new) }
        ensures past { SameMemPast self.old self.new }
        ensures cause { HasFault self.old.faults.count self.new.faults.count self.old.faults.last
            self.new.faults.last when result }
        ensures refused { IsTrue refused → IsErr result }
    {
        if refused {
            self.tear(when, at, bytes.len() as u64);
            self.faults.rise(when);
            return Err(Failed);
        }
        match self.put(when, at, bytes) {
            Ok(()) => Ok(()),
            Err(_) => {
                self.faults.rise(when);
                Err(Failed)
            }
        }
    }

    /// Syncs at the call of number `when`, which fails where it is refused, or where memory is out.
    pub fn sync(&mut self, when: u64, refused: bool) -> Result<(), Failed>
        requires call { when ≡ next_call (length self.old.events) }
        requires past { self.old.faults.last ≤ when }
        ensures bytes { self.new.bytes ≡ self.old.bytes }
        ensures length { length self.new.events ≡ length self.old.events + 1 }
        ensures durable { OnOk result (LeavesOnly self.old.bytes.items (IsMemLeft self.new when)) }
        ensures crash { LeavesNoMore (IsMemLeftNow self.old) (IsMemLeftNow self.new) }
        ensures crash_failed { OnErr result
            (LeavesSame (IsMemLeftNow self.old) (IsMemLeft self.new when)) }
        ensures past { SameMemPast self.old self.new }
        ensures cause { HasFault self.old.faults.count self.new.faults.count self.old.faults.last
            self.new.faults.last when result }
        ensures refused { IsTrue refused → IsErr result }
    {
        if refused {
            self.idle();
            self.faults.rise(when);
            return Err(Failed);
        }
        match self.settle(when) {
            Ok(()) => Ok(()),
            Err(_) => {
                self.faults.rise(when);
                Err(Failed)
            }
        }
    }
}
