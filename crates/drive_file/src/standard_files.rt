// The descriptors of the standard streams, held so that no other file gets one.
use std::fs::{File, Files};
use std::io;
use std::os::fd::AsRawFd;

/// The file that the system has for nothing.
pub const NULL_FILE: &str = "/dev/null";

/// The descriptor of standard error, the last of the standard streams.
const LAST_STANDARD: i32 = 2;

/// Null files in the place of the standard streams that were closed as the program began. While
/// they are kept, no file that is opened gets the descriptor of a standard stream; else what is
/// printed would be written over that file. They are open for reading alone, so what is printed to
/// a closed standard output is refused.
#[derive(Drop)]
pub struct StandardFiles {
    held: [Option<File>; 3],
}

// A null file where it gets the descriptor of a standard stream.
fn null_file<R: Files<File = File>>(rt: &R) -> io::Result<Option<File>> {
    let null = File::open(rt, NULL_FILE)?;
    if null.as_raw_fd() > LAST_STANDARD {
        Ok(None)
    } else {
        Ok(Some(null))
    }
}

impl StandardFiles {
    /// Opens a null file for each standard stream that is closed. To be called before any other
    /// file is opened: each file gets the least descriptor that is free.
    pub fn hold<R: Files<File = File>>(rt: &R) -> io::Result<StandardFiles> {
        let first = null_file(rt)?;
        let second = null_file(rt)?;
        let third = null_file(rt)?;
        Ok(StandardFiles {
            held: [first, second, third],
        })
    }
}
