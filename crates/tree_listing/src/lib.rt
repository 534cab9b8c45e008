//! The listing of a version's pages: a line for each, with its path and its data.
#![tactic(auto)]

mod laws;
mod line;
mod listing;
mod reading;

pub use laws::{first_fault_law, held_law};
pub use listing::list_tree;
