//! A draft carried over to a later version of its file, pair of pages by pair.
#![tactic(auto)]

mod job;
mod laws;
mod pending;
mod settled;
mod walk;

pub use laws::later_law;
pub use settled::Settled;
pub use walk::{PathClash, Walk};
