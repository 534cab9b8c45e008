//! Making a new store on two halves, of a key, a number of files and a number of blocks.
#![tactic(auto)]

mod block;
mod formatting;
mod store;
mod table;
mod unformatted;
mod write;

pub use formatting::format;
pub use store::NewStore;
pub use unformatted::Unformatted;
