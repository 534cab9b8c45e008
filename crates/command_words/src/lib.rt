//! The calls of the program, read from its words.
#![tactic(auto)]

mod call;
mod order;

pub use call::{Call, call_of};
pub use order::Order;

#[cfg(test)]
mod tests;
