// The table of a new store: its entries, and the blocks of its parts.
ghost use Rattle.std.specs.Prelude.{◌≡◌, ℕ, ◌+◌, ◌*◌, ◌<◌, ◌≤◌, map, length};
ghost use Rattle.std.specs.List.{range_with_len};
ghost use Rattle.page_codec.specs.Blank.{no_entries};
ghost use Rattle.page_codec.specs.NewStore.{new_entry};
ghost use Rattle.new_store.specs.Layout.{part_block, part_blocks, part_of_new, table_of};
ghost use Rattle.new_store.specs.Sizes.{part_count};

use crate::store::{NewStore, ROOT_FILES};
use afs_base::BlockNo;
use page_codec::{PART_ENTRIES, TableEntry, TableRoot, new_root, secret_of};

/// The entry of an object, counted from 1: file i has its first version in block i.
fn new_entry(store: &NewStore, object: u32) -> TableEntry
    requires { 1 ≤ object }
    ensures { result ≡ new_entry store.now.files store.now.key object }
{
    if object <= store.files {
        TableEntry::live(BlockNo::at(object), 1, secret_of(store.key, object, 1))
    } else {
        TableEntry::none()
    }
}

/// Writes the entries of the objects from one on.
fn fill_entries(entries: &mut [TableEntry], store: &NewStore, object: u32)
    requires one { 1 ≤ object }
    requires low { object ≤ 4032 }
    requires few { length entries.old ≤ 63 }
    ensures { entries.new ≡ map (new_entry store.now.files store.now.key)
        (range_with_len object (length entries.old)) }
{
    for i in 0..entries.len() {
        entries[i] = new_entry(store, object + i as u32);
    }
}

/// The entries of part j.
#[tactic(auto, unfolding(crate::specs::Layout::part_of_new))]
pub fn part_entries(store: &NewStore, j: u32) -> [TableEntry; PART_ENTRIES]
    requires { j < 64 }
    ensures { result ≡ part_of_new store.now j }
{
    let mut entries = [TableEntry::none(); PART_ENTRIES];
    fill_entries(&mut entries, store, 63 * j + 1);
    entries
}

/// The block of part j, where the table has that part.
fn part_block(store: &NewStore, j: u32) -> Option<BlockNo>
    requires { j < 64 }
    ensures { result ≡ part_block store.now.files j }
{
    if j < store.parts() {
        Some(BlockNo::at(store.files + 1 + j))
    } else {
        None
    }
}

/// Writes the blocks of the parts from part 0 on.
fn fill_parts(parts: &mut [Option<BlockNo>], store: &NewStore)
    requires { length parts.old ≤ 64 }
    ensures { parts.new ≡ map (part_block store.now.files) (range_with_len 0 (length parts.old)) }
{
    for j in 0..parts.len() {
        parts[j] = part_block(store, j as u32);
    }
}

/// The blocks of the parts.
#[tactic(auto, unfolding(crate::specs::Layout::part_blocks))]
fn part_blocks(store: &NewStore) -> [Option<BlockNo>; 64]
    ensures { result ≡ part_blocks store.now.files }
{
    let mut parts = [None; 64];
    fill_parts(&mut parts, store);
    parts
}

/// No entries, as block 0 has them in format 2.
#[tactic(auto, unfolding(page_codec::specs::Blank::no_entries))]
fn no_entries() -> [TableEntry; 60]
    ensures { result ≡ no_entries 60 }
{
    [TableEntry::none(); 60]
}

/// Block 0 of the new store.
pub fn table_of(store: &NewStore) -> TableRoot
    ensures { result ≡ table_of store.now }
{
    if store.files <= ROOT_FILES {
        new_root(store.files, store.blocks, store.key)
    } else {
        TableRoot {
            format: 2,
            blocks: store.blocks,
            key: store.key,
            parts: part_blocks(store),
            first: no_entries(),
        }
    }
}
