// Two halves in files.
ghost use Rattle.std.specs.Prelude.{◌≡◌, ℕ, ◌+◌, ◌-◌, ◌*◌, ◌^◌, ◌<◌, ◌≤◌, List, [], length, min, IfOk, IfErr};
ghost use Rattle.drives.specs.declared.device.Half.{Half};
ghost use Rattle.drives.specs.Half.{other, one_of};
ghost use Rattle.drives.specs.Faults.{HasFault};
ghost use Rattle.drives.specs.Bytes.{IsBytes};
ghost use Rattle.drives.specs.Crash.{Ticks};

use crate::file_half::FileHalf;
use afs_base::{Failed, MAX_BLOCKS};
use drives::{Drives, Half};
use std::fs::{File, Files};
use thiserror::Error;

/// The file of this half could not be opened; half A is tried first. So it is where the file is no
/// file that can be put on the disk, where another process has it as a half, and where both halves
/// are one file, which half B is then refused for.
#[derive(Clone, Copy, Debug, Error)]
#[error("the file of half {half:?} cannot be opened")]
pub struct NoFile {
    pub half: Half,
}

/// Two halves in files, each from its file's first byte on. They tell no bytes: what a real file
/// holds is not claimed.
#[derive(Drop)]
pub struct FileDrives {
    a: FileHalf,
    b: FileHalf,
    time: u64,
    ghost clock: { time < 2 ^ 64 },
    ghost past_a: { a.last ≤ time },
    ghost past_b: { b.last ≤ time },
}

impl FileDrives {
    /// Opens the files of these names, which are two files. A file that is not there is made, with
    /// no bytes. Nothing is pending on them then: what an earlier process left is put on the disk.
    pub fn open<R: Files<File = File>>(rt: &R, a: &str, b: &str) -> Result<FileDrives, NoFile>
        ensures fresh { IfOk result (λ d. (⟦<FileDrives as Drives>⟧.moment d ≡ 0)
            × ((h : Half) → ⟦<FileDrives as Drives>⟧.faults d h ≡ 0)) }
    {
        let a = FileHalf::open(rt, a, None).map_err(|_| NoFile { half: Half::A })?;
        let b = FileHalf::open(rt, b, Some(a.id())).map_err(|_| NoFile { half: Half::B })?;
        Ok(FileDrives { a, b, time: 0 })
    }

    // A call of a half has returned; a moment passes, but at the clock's end.
    fn count(&mut self, half: Half, done: Result<(), Failed>)
        ensures time { Ticks self.old.time self.new.time }
        ensures cause { HasFault (one_of self.old.a.faults self.old.b.faults half)
            (one_of self.new.a.faults self.new.b.faults half)
            (one_of self.old.a.last self.old.b.last half)
            (one_of self.new.a.last self.new.b.last half) self.new.time done }
        ensures other { one_of self.new.a self.new.b (other half) ≡ one_of self.old.a self.old.b
            (other half) }
    {
        self.time = self.time.saturating_add(1);
        match half {
            Half::A => self.a.count(self.time, done),
            Half::B => self.b.count(self.time, done),
        }
    }
}

impl Drives for FileDrives {
    ghost tells = { ⊥ };

    ghost size = { λ d. 65536 };

    ghost moment = { λ d. d.time };

    ghost seen = { λ d h. [] };

    ghost may_leave = { λ d h t c. (length c ≡ 1024 * 65536) × IsBytes c };

    ghost faults = { λ d h. one_of d.a.faults d.b.faults h };

    ghost last_fault = { λ d h. one_of d.a.last d.b.last h };

    // As many as a half has at the most: files grow as they are written.
    fn blocks(&self) -> u32 {
        MAX_BLOCKS
    }

    fn now(&self) -> u64 {
        self.time
    }

    fn read(&mut self, half: Half, at: u64, buf: &mut [u8]) -> Result<(), Failed> {
        let done = match (self.time, half) {
            (u64::MAX, _) => Err(Failed),
            (_, Half::A) => self.a.read(at, buf),
            (_, Half::B) => self.b.read(at, buf),
        };
        self.count(half, done);
        done
    }

    fn write(&mut self, half: Half, at: u64, bytes: &[u8]) -> Result<(), Failed> {
        let done = match (self.time, half) {
            (u64::MAX, _) => Err(Failed),
            (_, Half::A) => self.a.write(at, bytes),
            (_, Half::B) => self.b.write(at, bytes),
        };
        self.count(half, done);
        done
    }

    fn sync(&mut self, half: Half) -> Result<(), Failed> {
        let done = match (self.time, half) {
            (u64::MAX, _) => Err(Failed),
            (_, Half::A) => self.a.sync(),
            (_, Half::B) => self.b.sync(),
        };
        self.count(half, done);
        done
    }

    ghost use Rattle.std.proofs.Common.{rules};

    ghost some = { Prim.search rules };

    ghost clock = { Prim.search rules };

    ghost fault_past = { Prim.search rules };

    ghost whole = { λ d h told. absurd told };

    ghost left_whole = { λ d h c left. left.0 };

    ghost seen_bytes = { λ d h told. absurd told };

    ghost left_bytes = { λ d h t c left. left.1 };

    ghost left_read = { λ d h told. absurd told };
}
