//! Workers that do their clients' lines side by side, each line after the gate.
#![tactic(auto)]

mod crew;
mod gate;
#[cfg(test)]
mod tests;
mod turns;

pub use crew::run_crew;
pub use gate::{Gate, OpenGate};
pub use turns::Turns;
