//! Opening a store on two halves: mending its blocks, checking what they hold, and setting the
//! links that a commit left outstanding.
#![tactic(auto)]

mod known;
mod mending;
mod opened;
mod opening;
mod refused;
mod reopening;
mod rolling;

pub use mending::mend_all;
pub use opened::{Opened, OpenedOver, Unopened, UnopenedOver};
pub use opening::{open, open_over};
pub use refused::OpenRefused;
pub use reopening::reopening_law;
