//! The versions of a file in blocks: the chain from the first to the last, and the blocks that a commit writes.
#![tactic(auto)]

mod chain;
mod flush;
mod laws;
mod pages;
mod place;
mod planning;

pub use afs_base::Head;
pub use chain::Chain;
pub use flush::{Flush, same_members};
pub use laws::{next_law, others_law, whole_law};
