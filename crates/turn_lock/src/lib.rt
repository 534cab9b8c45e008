//! A lock that hands one value to one holder at a time. The value keeps its name, whoever holds it and whatever is done to it.
#![tactic(auto)]

mod lock;
mod named;
mod rule;
#[cfg(test)]
mod tests;
mod view;

pub use lock::{Busy, Pass, TurnLock};
pub use named::Named;
pub use view::{Standing, View};
