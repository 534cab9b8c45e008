//! Numbers, paths, page data and counts that every layer of the file service speaks of. Nothing here takes memory.
#![tactic(auto)]

mod block_no;
mod client_no;
mod failed;
mod head;
mod kind;
mod limits;
mod memory;
mod page_data;
mod path;
mod slot;
mod steps;

pub use block_no::{BlockNo, BlockRange};
pub use client_no::{ClientNo, ClientRange};
pub use failed::Failed;
pub use head::Head;
pub use kind::Kind;
pub use limits::{
    BLOCK_BYTES, BLOCK_NUMBERS, MAX_BLOCKS, MAX_CLIENTS, MAX_DATA, MAX_DEPTH, MAX_FILES,
    MAX_MEMBERS, MAX_OBJECTS, MAX_SCRIPT_BYTES, MAX_SCRIPT_LINES, MAX_STEPS, MIN_BLOCKS, OPEN_GATE,
    PART_ENTRIES, PARTS, ROOT_ENTRIES, SECRET_BYTES, SLOTS,
};
pub use memory::Memory;
pub use page_data::PageData;
pub use path::{Path, TooDeep};
pub use slot::{Slot, SlotRange};
pub use steps::Steps;
