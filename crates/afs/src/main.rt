//! The file service over two files: `afs HALF_A HALF_B WORDS .. [: SCRIPT ..]`.
#![tactic(auto)]

ghost use Rattle.std.specs.Prelude.{◌≤◌, ◌+◌, length};

use afs_top::{Status, afs_words};
use drive_file::{FileDrives, FileSource, NULL_FILE, StandardFiles, StdSink};
use drives::Half;
use std::alloc::{AllocError, AllocFailed, Global};
use std::env::{self, Env};
use std::fs::{File, Files};
use std::io;
use std::process::ExitCode;

/// The exit status where a file cannot be opened; those below it are a call's.
const CANNOT_OPEN: u8 = 8;

/// What the program is called with: the files of both halves, the words of a command, and the files of the clients' scripts.
#[derive(Drop)]
struct Invocation<'w> {
    half_a: &'w str,
    half_b: &'w str,
    words: &'w [String],
    scripts: &'w [String],
}

/// Why nothing was called.
#[derive(Drop)]
enum Refusal<'w> {
    /// The words are not in the form that the program wants.
    Usage,
    /// The file of this name cannot be opened.
    CannotOpen(&'w str),
    /// There is not enough memory.
    Memory,
}

impl From<AllocError> for Refusal<'_> {
    fn from(_e: AllocError) -> Self {
        Refusal::Memory
    }
}

impl<T: Drop> From<AllocFailed<T>> for Refusal<'_> {
    fn from(_e: AllocFailed<T>) -> Self {
        Refusal::Memory
    }
}

impl<'w> Invocation<'w> {
    /// Takes the program's words apart, of which the first one is its own name. Scripts stand behind the first `:`, and at least three
    /// words before it.
    fn of(args: &'w [String]) -> Option<Invocation<'w>> {
        let end = args
            .iter()
            .position(|word| word.as_str() == ":")
            .unwrap_or(args.len());
        if end < 4 {
            return None;
        }
        let scripts = if end < args.len() {
            &args[end + 1..]
        } else {
            &args[end..]
        };
        Some(Invocation {
            half_a: args[1].as_str(),
            half_b: args[2].as_str(),
            words: &args[3..end],
            scripts,
        })
    }

    /// Opens both halves.
    fn open_halves<R: Files<File = File>>(&self, rt: &R) -> Result<FileDrives, Refusal<'w>> {
        match FileDrives::open(rt, self.half_a, self.half_b) {
            Ok(drives) => Ok(drives),
            Err(e) => match e.half {
                Half::A => Err(Refusal::CannotOpen(self.half_a)),
                Half::B => Err(Refusal::CannotOpen(self.half_b)),
            },
        }
    }

    /// Opens the scripts, in their order.
    fn open_scripts<R: Files<File = File>>(
        &self,
        rt: &R,
        alloc: Global,
    ) -> Result<Vec<FileSource>, Refusal<'w>> {
        let mut scripts = Vec::new(alloc);
        'names: for name in self.scripts {
            match FileSource::open(rt, name.as_str()) {
                Ok(script) => scripts.push(script)?,
                Err(_) => return Err(Refusal::CannotOpen(name.as_str())),
            }
        }
        Ok(scripts)
    }
}

/// The program's words, of which the first one is its own name; none where one of them is not text.
fn read_words(
    rt: &(impl Env + AllocGlobal),
    alloc: Global,
) -> Result<Vec<String>, Refusal<'static>> {
    match env::args(rt) {
        Ok(args) => {
            let mut words = Vec::new(alloc);
            'words: for word in args {
                words.push(word)?;
            }
            Ok(words)
        }
        Err(e) if e.kind() == io::ErrorKind::OutOfMemory => Err(Refusal::Memory),
        Err(_) => Err(Refusal::Usage),
    }
}

/// Opens the files in their order and calls the service.
fn serve<'w, R: Files<File = File> + Print>(
    rt: &R,
    alloc: Global,
    words: &'w [String],
) -> Result<Status, Refusal<'w>> {
    let called = Invocation::of(words).ok_or(Refusal::Usage)?;
    let drives = called.open_halves(rt)?;
    let mut scripts = called.open_scripts(rt, alloc)?;
    let ended = afs_words(
        alloc,
        called.words,
        drives,
        &mut scripts,
        &mut StdSink::over(rt),
    );
    Ok(ended.status)
}

/// Prints why nothing was called; the line may be refused. Answers the exit status.
fn refuse(rt: &impl Print, refusal: &Refusal) -> u8 {
    let (printed, code) = match refusal {
        Refusal::Usage => (println!(rt; "usage"), Status::Usage.code()),
        Refusal::CannotOpen(name) => (println!(rt; "cannot open {name}"), CANNOT_OPEN),
        Refusal::Memory => (println!(rt; "memory"), Status::Memory.code()),
    };
    match printed {
        Ok(()) | Err(_) => code,
    }
}

fn main(rt: HostRuntime) -> ExitCode {
    let alloc = rt.alloc();
    // Before any other file is opened, and kept until the end.
    let _standard = match StandardFiles::hold(&rt) {
        Ok(held) => held,
        Err(_) => return ExitCode::from(refuse(&rt, &Refusal::CannotOpen(NULL_FILE))),
    };
    let words = match read_words(&rt, alloc) {
        Ok(words) => words,
        Err(refusal) => return ExitCode::from(refuse(&rt, &refusal)),
    };
    match serve(&rt, alloc, &words) {
        Ok(status) => ExitCode::from(status.code()),
        Err(refusal) => ExitCode::from(refuse(&rt, &refusal)),
    }
}

#[cfg(test)]
mod tests;
