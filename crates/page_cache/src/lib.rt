//! A bounded cache of blocks over any store of blocks. It answers as the store does, and takes memory only when it is made.
#![tactic(auto)]

mod blocks;
mod cached;
mod frame;
mod frames;
#[cfg(test)]
mod tests;

pub use cached::Cached;
