//! A run of up to sixteen clients over a store, a turn at a time.
#![tactic(auto)]

mod ground;
mod halves;
mod making;

pub use ground::GroundOver;
pub use halves::{Ground, on_halves};
pub use session::{Fault, Turned};
