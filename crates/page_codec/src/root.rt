ghost use Rattle.std.specs.Prelude.{◌≡◌, ◌<◌, ◌≤◌, length, map};
ghost use Rattle.std.specs.List.{range_with_len};
ghost use Rattle.page_codec.specs.Blank.{no_parts, no_entries};
ghost use Rattle.page_codec.specs.NewStore.{new_entry, new_entries, new_root};

use crate::entry::TableEntry;
use crate::secret::secret_of;
use afs_base::{BlockNo, MAX_BLOCKS, MIN_BLOCKS, PARTS, ROOT_ENTRIES};
use std::marker::Model;

/// Block 0: the format, 1 or 2; the number of blocks, 2 to 65,536; the key; in format 2 the blocks of the parts,
/// and in format 1 the entries of objects 1 to 60. All parts are None in format 1, and all entries are zero in
/// format 2. Every block that it names is below the number of blocks.
#[derive(Clone, Copy, Debug, PartialEq, Eq)]
pub struct TableRoot {
    pub format: u8,
    pub blocks: u32,
    pub key: u64,
    pub parts: [Option<BlockNo>; PARTS],
    pub first: [TableEntry; ROOT_ENTRIES],
}

impl Model for TableRoot {
    ghost use Rattle.page_codec.specs.Values.{RootValue};
    ghost use Rattle.page_codec.specs.Bounds.{IsSoundRoot};

    ghost Value = { RootValue };

    ghost view = { λ r. record {
      format = r.format;
      blocks = r.blocks;
      key = r.key;
      parts = r.parts;
      first = r.first;
    } };

    ghost invariant = { λ r. IsSoundRoot (record {
      format = r.format;
      blocks = r.blocks;
      key = r.key;
      parts = r.parts;
      first = r.first;
    }) };

    ghost inverse = { λ r. record {
      format = r.format;
      blocks = r.blocks;
      key = r.key;
      parts = r.parts;
      first = r.first;
    } };
}

/// The entry of an object, counted from 1, in a new store of so many files.
fn new_entry(files: u32, key: u64, object: u32) -> TableEntry
    requires low { 1 ≤ object }
    requires high { object ≤ ROOT_ENTRIES }
    ensures { result ≡ new_entry files key object }
{
    if object <= files {
        TableEntry::live(BlockNo::at(object), 1, secret_of(key, object, 1))
    } else {
        TableEntry::none()
    }
}

/// Writes the entries of the objects from 1 on in a new store.
fn fill_new(entries: &mut [TableEntry], files: u32, key: u64)
    requires { length entries.old ≤ ROOT_ENTRIES }
    ensures { entries.new ≡ map (new_entry files key) (range_with_len 1 (length entries.old)) }
{
    for i in 0..entries.len() {
        entries[i] = new_entry(files, key, i as u32 + 1);
    }
}

/// Sixty entries where no file ever was.
#[tactic(auto, unfolding(crate::specs::Blank::no_entries))]
pub fn no_root_entries() -> [TableEntry; ROOT_ENTRIES]
    ensures { result ≡ no_entries ROOT_ENTRIES }
{
    [TableEntry::none(); ROOT_ENTRIES]
}

/// The sixty entries of a new store.
#[tactic(auto, unfolding(crate::specs::NewStore::new_entries))]
fn new_entries(files: u32, key: u64) -> [TableEntry; ROOT_ENTRIES]
    ensures { result ≡ new_entries files key }
{
    let mut entries = no_root_entries();
    fill_new(&mut entries, files, key);
    entries
}

/// Sixty-four parts, none of which has a block.
#[tactic(auto, unfolding(crate::specs::Blank::no_parts))]
pub fn no_parts() -> [Option<BlockNo>; PARTS]
    ensures { result ≡ no_parts }
{
    [None; PARTS]
}

/// Block 0 of a new store of 1 to 60 files, each with its first version in the block of its number.
pub fn new_root(files: u32, blocks: u32, key: u64) -> TableRoot
    requires few { files ≤ ROOT_ENTRIES }
    requires room { files < blocks }
    requires most { blocks ≤ MAX_BLOCKS }
    requires least { MIN_BLOCKS ≤ blocks }
    ensures { result ≡ new_root files blocks key }
{
    TableRoot {
        format: 1,
        blocks,
        key,
        parts: no_parts(),
        first: new_entries(files, key),
    }
}
