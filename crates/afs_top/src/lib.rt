//! The top call: reads the words of a command, does over two halves what they name, and prints what
//! came of it.
#![tactic(auto)]

mod words;

pub use endings::{Ended, Status};
pub use playing::afs_play;
pub use service_model::{Entry, Journal, Named, Named17, Refusal, What};
pub use store_commands::{afs_cap, afs_check, afs_format, afs_show};
pub use words::afs_words;
