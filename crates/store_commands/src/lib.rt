//! The commands that make a store, count what is in it, print it, and give capabilities of its files.
#![tactic(auto)]

mod cap;
mod check;
mod counts;
mod formatting;
mod refused;
mod show;
mod showing;
mod text;

pub use cap::afs_cap;
pub use check::afs_check;
pub use formatting::afs_format;
pub use refused::end_refused;
pub use show::afs_show;
