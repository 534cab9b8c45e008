//! The pages of a version while an update works on them: what each access copies and marks, and what a commit then writes.
#![tactic(auto)]

mod box_draft;
mod change;
mod copied_page;
mod draft;
mod look;
mod marks;
mod page_list;
mod pages;
mod queries;
mod slot_marks;
mod steps;

pub use afs_base::Memory;
pub use box_draft::BoxDraft;
pub use change::Change;
pub use copied_page::CopiedPage;
pub use draft::{Draft, MAX_FRESH};
pub use look::Look;
pub use marks::Marks;
pub use page_list::PageList;
pub use queries::{flags, live_page, slots};
pub use slot_marks::SlotMarks;
pub use steps::{need, step};
