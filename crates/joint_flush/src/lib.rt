//! The pages that the commit of an update of several files writes, block by block: those of each file that gets a new version.
#![tactic(auto)]

mod joint;
mod laws;
mod planning;

pub use joint::JointFlush;
pub use laws::{ready_law, ready_stays_law, stays_law};
