use afs_base::{BlockNo, ClientNo, PageData, Path, Slot};
use block_map::BlockMap;
use draft_tree::{BoxDraft, Draft, Memory};
use page_codec::{Block, Member, Members, Page, Reference, VersionPage};
use ref_flags::Flags;
use std::alloc::Global;
use std::process::Abort;
use std::test::Fail;
use tree_model::{Child, Step};
use version_chain::{Chain, Flush};

mod blocks;
mod chains;
mod greatest;
pub mod updates;
