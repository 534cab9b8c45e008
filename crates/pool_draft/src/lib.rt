//! Drafts in frames that were reserved before: no call takes memory, and no call is refused for want of it.
#![tactic(auto)]

mod base;
mod frame_pages;
mod laws;
mod pool_draft;
mod pool_set;
mod row;
mod row_key;
mod row_writes;

pub use base::Base;
pub use frame_pages::FramePages;
pub use laws::{begun_law, frames_law, others_law};
pub use pool_draft::PoolDraft;
pub use pool_set::{MAX_ROOTS, PoolSet};
pub use row::Row;
