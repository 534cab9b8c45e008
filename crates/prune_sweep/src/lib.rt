//! Which blocks no kept version of a file has, found by reading one page at a time.
#![tactic(auto)]

mod keeper;
mod laws;
mod mark;
mod marks;
mod naming;
mod progress;
mod room;
mod slots;
mod stage;
mod sweep;

pub use keeper::{Busy, Keeper1};
pub use laws::{files_may_be_swept, sweeping_goes_on, sweeping_grows, what_is_found_becomes_free};
pub use mark::Mark;
pub use room::SweepRoom;
pub use stage::Stage;
pub use sweep::Sweep;
