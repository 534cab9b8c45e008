//! Two pages at one path of two trees: what one update read and the other wrote there, and the page of both.
#![tactic(auto)]

mod clash;
mod done;
mod job;
mod merge;
mod same;
#[cfg(test)]
mod tests;

pub use clash::Clash;
pub use done::Done;
pub use job::Job;
pub use merge::merge_page;
