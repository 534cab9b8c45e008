// Images by their picks, both implementations side by side, and halves that tell nothing.
ghost use Rattle.std.specs.Prelude.{◌≡◌, ◌↔◌, ℕ, ◌+◌, ◌-◌, ◌*◌, ◌^◌, ◌<◌, ◌≤◌, min, [], IsErr, OnErr, OnOk};

use drives::*;
use std::alloc::{AllocError, Global};
use std::process::Abort;
use std::test::Fail;

// Halves as they stand over files: they count, and tell no bytes.
#[derive(Drop)]
struct Untold {
    time: u64,
    last_a: u64,
    last_b: u64,
    ghost clock: { time < 2 ^ 64 },
    ghost past_a: { last_a ≤ time },
    ghost past_b: { last_b ≤ time },
}

fn untold_at(time: u64) -> Untold {
    Untold {
        time,
        last_a: 0,
        last_b: 0,
    }
}

impl Untold {
    ghost use Rattle.drives.specs.Half.{one_of};

    fn tick(&mut self, half: Half) -> Result<(), Failed>
        ensures time { self.new.time ≡ min (self.old.time + 1) (2 ^ 64 - 1) }
        ensures ends { IsErr result ↔ (self.old.time ≡ 2 ^ 64 - 1) }
        ensures same { OnOk result ((self.new.last_a ≡ self.old.last_a) × (self.new.last_b ≡ self.old.last_b)) }
        ensures last_a { OnErr result (self.new.last_a ≡ one_of self.new.time self.old.last_a half) }
        ensures last_b { OnErr result (self.new.last_b ≡ one_of self.old.last_b self.new.time half) }
    {
        if self.time == u64::MAX {
            match half {
                Half::A => self.last_a = self.time,
                Half::B => self.last_b = self.time,
            }
            return Err(Failed);
        }
        self.time += 1;
        Ok(())
    }
}

impl Drives for Untold {
    ghost use Rattle.drives.specs.Half.{one_of};

    ghost tells = { ⊥ };

    ghost size = { λ d. 4 };

    ghost moment = { λ d. d.time };

    ghost seen = { λ d h. [] };

    ghost may_leave = { λ d h t c. ⊥ };

    ghost faults = { λ d h. 0 };

    ghost last_fault = { λ d h. one_of d.last_a d.last_b h };

    fn blocks(&self) -> u32 {
        4
    }

    fn now(&self) -> u64 {
        self.time
    }

    fn read(&mut self, half: Half, _at: u64, _buf: &mut [u8]) -> Result<(), Failed> {
        self.tick(half)
    }

    fn write(&mut self, half: Half, _at: u64, _bytes: &[u8]) -> Result<(), Failed> {
        self.tick(half)
    }

    fn sync(&mut self, half: Half) -> Result<(), Failed> {
        self.tick(half)
    }

    ghost use Rattle.std.proofs.Common.{rules};

    ghost some = { Prim.search rules };

    ghost clock = { Prim.search rules };

    ghost fault_past = { Prim.search rules };

    ghost whole = { λ d h told. absurd told };

    ghost left_whole = { λ d h c left. absurd left };

    ghost seen_bytes = { λ d h told. absurd told };

    ghost left_bytes = { λ d h t c left. absurd left };

    ghost left_read = { λ d h told. absurd told };
}

// A write and a sync, a second write, and one that may fail: how many of the four calls succeeded.
fn run<V: Drives>(drives: &mut V) -> u8 {
    let mut done = 0;
    if drives.write(Half::A, 10, &[1, 2, 3]).is_ok() {
        done += 1;
    }
    if drives.sync(Half::A).is_ok() {
        done += 1;
    }
    if drives.write(Half::A, 11, &[9]).is_ok() {
        done += 1;
    }
    if drives.write(Half::A, 12, &[7, 7]).is_ok() {
        done += 1;
    }
    done
}

// The bytes from 10 on, where the calls write, as one number.
fn four(half: &[u8]) -> u32 {
    if half.len() < 14 {
        return u32::MAX;
    }
    u32::from_be_bytes([half[10], half[11], half[12], half[13]])
}

fn one(alloc: Global, call: u64) -> Result<Vec<u64>, AllocError> {
    let mut calls = Vec::new(alloc);
    calls.push(call)?;
    Ok(calls)
}

// Halves on which the last of the calls failed.
fn torn(alloc: Global) -> Result<MemDrives, Memory> {
    let calls = one(alloc, 4)?;
    let mut drives = MemDrives::blank(alloc, 1)?;
    drives.fail_at(calls);
    run(&mut drives);
    Ok(drives)
}

fn shown(drives: &MemDrives, moment: u64, pick: Pick) -> Result<u32, Memory> {
    if moment > drives.now() {
        return Ok(u32::MAX);
    }
    let image = drives.image(moment, pick)?;
    Ok(four(image.half_bytes(Half::A)))
}

fn ran_sure(alloc: Global) -> Result<(u8, u32), Memory> {
    let mut drives = SureDrives::blank(alloc, 1)?;
    Ok((run(&mut drives), four(drives.half_bytes(Half::A))))
}

fn ran_memory(alloc: Global) -> Result<(u8, u32), Memory> {
    let mut drives = MemDrives::blank(alloc, 1)?;
    Ok((run(&mut drives), four(drives.half_bytes(Half::A))))
}

// A moment, a pick, and the four bytes that the image has then.
const IMAGES: [(u64, Pick, u32); 11] = [
    (0, Pick::New, 0),
    (1, Pick::Old, 0),
    (1, Pick::New, 0x0102_0300),
    (1, Pick::Fill(0x5a), 0x5a5a_5a00),
    (2, Pick::Old, 0x0102_0300),
    (2, Pick::Fill(0x5a), 0x0102_0300),
    (3, Pick::New, 0x0109_0300),
    (3, Pick::Fill(0x5a), 0x015a_0300),
    (4, Pick::Old, 0x0102_0300),
    (4, Pick::New, 0x0109_0300),
    (4, Pick::Fill(0x5a), 0x015a_5a5a),
];

fn has_images(rt: &impl Abort, drives: &MemDrives) -> Result<(), Memory> {
    for (moment, pick, want) in IMAGES {
        assert_eq!(rt; shown(drives, moment, pick)?, want);
    }
    Ok(())
}

#[test]
fn each_moment_has_its_images(rt: HostRuntime) -> Result<(), Fail> {
    has_images(&rt, &torn(rt.alloc())?)?;
    Ok(())
}

#[test]
fn both_implementations_give_the_same_bytes(rt: HostRuntime) -> Result<(), Fail> {
    assert_eq!(rt; ran_sure(rt.alloc())?, (4, 0x0109_0707));
    assert_eq!(rt; ran_memory(rt.alloc())?, (4, 0x0109_0707));
    Ok(())
}

#[test]
fn halves_that_tell_nothing_count(rt: HostRuntime) {
    assert_eq!(rt; run(&mut untold_at(0)), 4);
    assert_eq!(rt; run(&mut untold_at(u64::MAX)), 0);
}
