//! The edge to the system's files and to standard output: two halves in files, a script in a file,
//! and a sink that prints.
//!
//! What real files hold is not claimed: these types tell no bytes. Their calls are proved to be
//! safe and to count their faults as the traits say. What no clause can say is kept by care: both
//! halves are other files, nothing is pending on them as they are opened, and no file takes the
//! descriptor of a standard stream.
#![tactic(auto)]

mod file_drives;
mod file_half;
mod file_source;
mod standard_files;
mod std_sink;
#[cfg(test)]
mod tests;

pub use file_drives::{FileDrives, NoFile};
pub use file_source::{FileSource, NoScript};
pub use standard_files::{NULL_FILE, StandardFiles};
pub use std_sink::StdSink;
