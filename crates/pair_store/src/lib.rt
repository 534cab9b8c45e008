//! Blocks on two halves of which one may be torn: each write leaves the old content or the new one,
//! wherever a crash falls.
#![tactic(auto)]

mod both;
mod close;
mod content_read;
mod content_write;
mod fault;
mod gates;
mod half_write;
mod mend;
mod on_halves;
mod outcome;
mod read;
mod runs;
mod steps;
mod store;
mod version_edit;

pub use both::write_both;
pub use close::close_block;
pub use fault::PairFault;
pub use on_halves::Pair;
pub use outcome::{Mended, Tas};
pub use page_codec::Block;
pub use runs::{RUN_BLOCKS, Run};
pub use store::Blocks;
