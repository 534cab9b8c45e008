// A script in a file.
ghost use Rattle.std.specs.Prelude.{◌≡◌, ◌≤◌, None, length, IfOk};

use afs_base::Failed;
use script_text::Source;
use std::fs::{File, Files};
use std::io;
use std::io::{ErrorKind, Read};
use thiserror::Error;

/// The file of a script could not be opened.
#[derive(Clone, Copy, Debug, Error)]
#[error("the script cannot be opened")]
pub struct NoScript;

/// A script in a file. It counts its faults, and tells no bytes.
#[derive(Drop)]
pub struct FileSource {
    file: File,
    faults: u64,
}

impl FileSource {
    /// Opens the file of this name for reading.
    pub fn open<R: Files<File = File>>(rt: &R, name: &str) -> Result<FileSource, NoScript>
        ensures { IfOk result (λ s. ⟦<FileSource as Source>⟧.faults s ≡ 0) }
    {
        match File::open(rt, name) {
            Ok(file) => Ok(FileSource { file, faults: 0 }),
            Err(_) => Err(NoScript),
        }
    }
}

// Reads some bytes, or none at the file's end; a read that a signal interrupts is tried again.
fn read_some(file: &mut File, buf: &mut [u8]) -> io::Result<usize>
    ensures { IfOk result (λ n. n ≤ length buf.new) }
{
    for _ in 0..u64::MAX {
        match file.read(buf) {
            Err(e) if e.kind() == ErrorKind::Interrupted => {}
            done => return done,
        }
    }
    Err(io::Error::from(ErrorKind::Interrupted))
}

impl Source for FileSource {
    ghost left = { λ _. None };

    ghost faults = { λ s. s.faults };

    fn read(&mut self, buf: &mut [u8]) -> Result<usize, Failed> {
        match read_some(&mut self.file, buf) {
            Ok(n) => Ok(n),
            Err(_) => {
                self.faults = self.faults.saturating_add(1);
                Err(Failed)
            }
        }
    }
}
