//! How a call ends: its statuses, the lines that are printed where it does not end well, and what
//! comes back from it. Here is also the line of a file, which several calls print.
#![tactic(auto)]

mod ended;
mod file_line;
mod halt;
mod put;
mod status;
#[cfg(test)]
mod tests;

pub use ended::Ended;
pub use file_line::append_file_line;
pub use halt::{drive_line, end_bad_store, end_drive, end_memory, end_usage, why_word};
pub use put::{finish, print_text, put_line, put_text};
pub use status::Status;
