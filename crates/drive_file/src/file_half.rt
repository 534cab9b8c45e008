// One half in a file, with its count of faults.
ghost use Rattle.std.specs.Prelude.{◌≡◌, ◌+◌, ◌-◌, ◌^◌, ◌<◌, ◌≤◌, length, IfOk};
ghost use Rattle.drives.specs.Faults.{HasFault};

use afs_base::Failed;
use std::fs::{File, Files, OpenOptions};
use std::io;
use std::io::ErrorKind;
use std::os::unix::fs::{FileExt, MetadataExt};
use std::path::Path;

/// Which file of the system this is: all its names have this in common.
#[derive(Clone, Copy, PartialEq)]
pub struct FileId {
    device: u64,
    number: u64,
}

/// A file that holds a half from its first byte on; bytes past its end count as zeros.
#[derive(Drop)]
pub struct FileHalf {
    file: File,
    id: FileId,
    /// What no write has gone past.
    len: u64,
    /// Whether a write went past the length that was last put on the disk.
    has_grown: bool,
    faults: u64,
    last: u64,
}

fn failed<T: Drop>(done: io::Result<T>) -> Result<T, Failed> {
    done.map_err(|_| Failed)
}

// Opens the file of this name for reading and writing, and makes an empty one where the name is
// free. A link that leads nowhere is no free name: which folder to sync would not be known.
fn open_or_make<R: Files<File = File>>(rt: &R, name: &str) -> io::Result<File> {
    let opened = OpenOptions::new().read(true).write(true).open(rt, name);
    match opened {
        Err(e) if e.kind() == ErrorKind::NotFound => OpenOptions::new()
            .read(true)
            .write(true)
            .create_new(true)
            .open(rt, name),
        _ => opened,
    }
}

// Has the system put on the disk that the folder has a file of this name.
fn sync_folder_of<R: Files<File = File>>(rt: &R, name: &str) -> io::Result<()> {
    let folder = match Path::new(name).parent() {
        Some(above) if above.to_str() != Some("") => File::open(rt, above)?,
        _ => File::open(rt, ".")?,
    };
    folder.sync_all()
}

impl FileHalf {
    /// Opens the file of this name, or makes an empty one where there is none. It is not the file
    /// `other`, and no other process has it as a half until it is closed. All that it holds is on
    /// the disk then, and so is its name, where it is empty: whoever made it may have been cut off.
    pub fn open<R: Files<File = File>>(
        rt: &R,
        name: &str,
        other: Option<FileId>,
    ) -> io::Result<FileHalf>
        ensures { IfOk result (λ half. (half.faults ≡ 0) × (half.last ≡ 0)) }
    {
        let file = open_or_make(rt, name)?;
        let found = file.metadata()?;
        let id = FileId {
            device: found.dev(),
            number: found.ino(),
        };
        if other == Some(id) {
            return Err(io::Error::from(ErrorKind::AlreadyExists));
        }
        file.try_lock()?;
        file.sync_all()?;
        if found.len() == 0 {
            sync_folder_of(rt, name)?;
        }
        Ok(FileHalf {
            file,
            id,
            len: found.len(),
            has_grown: false,
            faults: 0,
            last: 0,
        })
    }

    /// Which file it is in.
    pub fn id(&self) -> FileId
        ensures { result ≡ self.now.id }
    {
        self.id
    }

    // Reads from offset `at` on until the buffer is full or the file ends, and answers how many
    // bytes there were.
    fn read_up_to(&self, at: u64, buf: &mut [u8]) -> Result<usize, Failed>
        requires { at + length buf.old < 2 ^ 64 }
        ensures { IfOk result (λ n. n ≤ length buf.new) }
    {
        let mut filled = 0;
        for _ in 0..u64::MAX {
            if filled == buf.len() {
                return Ok(filled);
            }
            match self.file.read_at(&mut buf[filled..], at + filled as u64) {
                Ok(0) => return Ok(filled),
                Ok(n) => filled += n,
                Err(e) if e.kind() == ErrorKind::Interrupted => {}
                Err(_) => return Err(Failed),
            }
        }
        Err(Failed)
    }

    /// Fills `buf` with the file's bytes from offset `at` on, and with zeros past the file's end.
    /// After `Failed` the buffer holds anything.
    pub fn read(&self, at: u64, buf: &mut [u8]) -> Result<(), Failed>
        requires { at + length buf.old < 2 ^ 64 }
    {
        let filled = self.read_up_to(at, buf)?;
        buf[filled..].fill(0);
        Ok(())
    }

    /// Writes over the file's bytes from offset `at` on.
    pub fn write(&mut self, at: u64, bytes: &[u8]) -> Result<(), Failed>
        ensures { (self.new.faults ≡ self.old.faults) × (self.new.last ≡ self.old.last) }
    {
        let end = at.saturating_add(bytes.len() as u64);
        if end > self.len {
            self.len = end;
            self.has_grown = true;
        }
        failed(self.file.write_all_at(bytes, at))
    }

    /// Has the system put all that was written on the disk, and the file's length where it grew.
    pub fn sync(&mut self) -> Result<(), Failed>
        ensures { (self.new.faults ≡ self.old.faults) × (self.new.last ≡ self.old.last) }
    {
        if self.has_grown {
            failed(self.file.sync_all())?;
            self.has_grown = false;
            Ok(())
        } else {
            failed(self.file.sync_data())
        }
    }

    /// Counts a call that failed.
    pub fn count(&mut self, moment: u64, done: Result<(), Failed>)
        requires { self.old.last ≤ moment }
        ensures { HasFault self.old.faults self.new.faults self.old.last self.new.last moment done }
    {
        if done.is_err() {
            self.faults = self.faults.saturating_add(1);
            self.last = moment;
        }
    }
}
