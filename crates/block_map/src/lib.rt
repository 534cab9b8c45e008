//! Which blocks of a store are free, which are held by a client's commit under way, and which are kept by versions.
#![tactic(auto)]

mod block_map;
mod states;

pub use crate::block_map::{BlockMap, NoSpace};
pub use crate::states::BlockState;
