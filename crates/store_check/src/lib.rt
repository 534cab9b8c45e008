//! The check of a store: which files its blocks hold, or why it is refused, and which blocks are in use.
#![tactic(auto)]

mod before;
mod chain;
mod checking;
mod counts;
mod files;
mod listed;
mod pages;
mod places;
mod reading;
mod refused;
mod rows;
mod survey;
mod tops;
mod version;

pub use chain::FoundFile;
pub use checking::{Checked, check};
pub use counts::places_are_counted;
pub use reading::refused_read;
pub use refused::WalkRefused;
pub use rows::root_block;
pub use version::FoundVersion;
