//! The pages of a version as a tree, the steps of an update on it, what they read and write, and when two updates clash.
#![tactic(auto)]

mod access;
mod child;
mod merge;
mod places;
mod step;
mod tree;

pub use access::{Access, accesses, first_clash};
pub use afs_base::Memory;
pub use child::Child;
pub use merge::merge_law;
pub use step::{Reply, Step};
pub use tree::Tree;
