//! The blocks of a store as bytes: pages, version pages, the table and its parts, each with one spelling of 1,024 bytes.
#![tactic(auto)]

mod decode;
mod encode;
mod entry;
mod fresh;
mod layout;
mod member;
mod members;
mod page;
mod put;
mod raw_entry;
mod read;
mod reference;
mod root;
mod secret;
mod slots;
mod table;
mod table_bytes;
mod table_reading;
mod version;
mod why;

use afs_base::BLOCK_BYTES;
pub use afs_base::{PART_ENTRIES, SLOTS};
pub use decode::{decode_page, decode_version};
pub use encode::{encode_page, encode_version};
pub use entry::TableEntry;
pub use fresh::{fresh_image, new_version};
pub use member::Member;
pub use members::Members;
pub use page::Page;
pub use reference::Reference;
pub use root::{TableRoot, new_root};
pub use secret::secret_of;
pub use table::{Table, encode_part, encode_table};
pub use table_bytes::{encode_entries, encode_root};
pub use table_reading::{decode_part, decode_root};
pub use version::VersionPage;
pub use why::{BadPage, Why};

/// A block of a store: 1,024 bytes.
pub type Block = [u8; BLOCK_BYTES];
