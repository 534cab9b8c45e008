//! A client of a run, a turn at a time: what the clients share, and how far each has come. A turn makes
//! at most one operation on a block, and no turn takes memory.
#![tactic(auto)]

mod answers;
mod blocks;
mod commit;
mod common;
mod course;
mod laws;
mod lines;
mod log;
mod opening;
mod session;
mod stage;
mod turned;
mod walks;

pub use common::Common;
pub use course::Course;
pub use laws::{lines_are_bounded, others_are_left};
pub use log::{Log, Replies};
pub use opening::run_begins;
pub use session::Session;
pub use stage::Stage;
pub use turned::{Fault, Turned};
