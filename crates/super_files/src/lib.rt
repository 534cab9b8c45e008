//! Updates of several files: who holds which file while such an update is open, and the links that its commit leaves to be set.
#![tactic(auto)]

mod links;
mod locks;

pub use crate::links::Links;
pub use crate::locks::{Lock, Locked, Locks, Part};

#[cfg(test)]
mod tests;
