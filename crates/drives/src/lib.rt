//! Two halves of equal size that are read, written and synced, and what a crash may leave on them.
#![tactic(auto)]

mod bytes;
mod call;
mod device;
mod history;
mod image;
mod mem_half;
mod memory;
mod sure;

pub use afs_base::{Failed, Memory};
pub use call::Pick;
pub use device::{Drives, Half};
pub use memory::MemDrives;
pub use sure::SureDrives;
