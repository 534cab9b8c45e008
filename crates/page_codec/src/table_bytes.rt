//! Block 0 and the parts of a table as bytes.
ghost use Rattle.std.specs.Prelude.{◌≡◌, ℕ, ◌+◌, ◌*◌, ◌^◌, ◌<◌, ◌≤◌, ◌++◌, [], ◌∷◌, take, length, true};
ghost use Rattle.std.specs.List.{flat_map, list_any, AllByRecursion};
ghost use Rattle.std.specs.Int.{w32, w64};
ghost use Rattle.page_codec.specs.Numbers.{big_endian};
ghost use Rattle.page_codec.specs.Bounds.{IsEntry, IsPart, IsRoot, has_generation};
ghost use Rattle.page_codec.specs.TableSpelling.{entry_bytes, part_number_bytes, rest_bytes, root_bytes, part_bytes};

use crate::Block;
use crate::encode::number_of;
use crate::entry::TableEntry;
use crate::layout::{ENTRIES_AT, PART, PARTS_END, ROOT_END, TABLE};
use crate::put::{put, put_u32, put_u64, put_zeros};
use crate::root::TableRoot;
use afs_base::{BLOCK_BYTES, BlockNo, OPEN_GATE, PART_ENTRIES, PARTS, ROOT_ENTRIES};

/// Writes an entry, and answers the place behind it.
fn put_entry(block: &mut Block, at: usize, entry: &TableEntry) -> usize
    requires { at + 16 ≤ 1024 }
    ensures next { result ≡ at + 16 }
    ensures front { take result block.new ≡ take at block.old ++ entry_bytes entry.now }
    ensures spelled { IsEntry entry.now }
{
    let next = put_u32(block, at, number_of(entry.first));
    let next = put_u32(block, next, entry.generation);
    put(block, next, &entry.secret)
}

/// Writes the entries one behind the other, and answers the place behind them.
fn put_entries(block: &mut Block, at: usize, entries: &[TableEntry]) -> usize
    requires { at + 16 * length entries.now ≤ 1024 }
    ensures next { result ≡ at + 16 * length entries.now }
    ensures front { take result block.new ≡ take at block.old ++ flat_map entry_bytes entries.now }
    ensures spelled { AllByRecursion IsEntry entries.now }
{
    let mut place = at;
    for entry in entries {
        place = put_entry(block, place, entry);
    }
    place
}

/// Writes the parts' blocks one behind the other, and answers the place behind them.
fn put_parts(block: &mut Block, at: usize, parts: &[Option<BlockNo>]) -> usize
    requires { at + 4 * length parts.now ≤ 1024 }
    ensures next { result ≡ at + 4 * length parts.now }
    ensures front { take result block.new
        ≡ take at block.old ++ flat_map part_number_bytes parts.now }
{
    let mut place = at;
    for part in parts {
        place = put_u32(block, place, number_of(*part));
    }
    place
}

/// Writes what block 0 has behind its numbers, by the format, up to the end of the block.
pub fn put_rest(
    block: &mut Block,
    at: usize,
    format: u8,
    parts: &[Option<BlockNo>],
    first: &[TableEntry],
)
    requires place { at ≡ ENTRIES_AT }
    requires sixty { format ≡ 1 → length first.now ≡ ROOT_ENTRIES }
    requires sixty_four { length parts.now ≡ PARTS }
    ensures whole { take 1024 block.new
        ≡ take at block.old ++ rest_bytes format parts.now first.now }
    ensures each { format ≡ 1 → AllByRecursion IsEntry first.now }
{
    if format == 1 {
        let next = put_entries(block, at, first);
        put_zeros(block, next, BLOCK_BYTES - ROOT_END);
    } else {
        let next = put_parts(block, at, parts);
        put_zeros(block, next, BLOCK_BYTES - PARTS_END);
    }
}

/// Writes what block 0 begins with: the head, the number of blocks and the key.
pub fn put_head(block: &mut Block, format: u8, blocks: u32, key: u64) -> usize
    ensures next { result ≡ ENTRIES_AT }
    ensures front { take result block.new
        ≡ (OPEN_GATE ∷ TABLE ∷ format ∷ 0 ∷ []) ++ big_endian w32 blocks ++ big_endian w64 key }
    ensures key { key < 2 ^ 64 }
{
    let next = put(block, 0, &[OPEN_GATE, TABLE, format, 0]);
    let next = put_u32(block, next, blocks);
    put_u64(block, next, key)
}

/// Writes the one spelling of block 0 into all of the block.
pub fn encode_root(root: &TableRoot, into: &mut Block)
    ensures bytes { into.new ≡ root_bytes root.now }
    ensures spelled { IsRoot root.now }
{
    let next = put_head(into, root.format, root.blocks, root.key);
    put_rest(into, next, root.format, &root.parts, &root.first);
}

/// Writes the one spelling of part j, 0 to 63, with these sixty-three entries into all of the block; one of the files is there, or
/// was.
#[tactic(auto, unfolding(crate::specs::TableSpelling::part_bytes))]
pub fn encode_entries(j: u8, entries: &[TableEntry], into: &mut Block)
    requires below { j < PARTS }
    requires count { length entries.now ≡ PART_ENTRIES }
    requires used { list_any has_generation entries.now ≡ true }
    ensures bytes { into.new ≡ part_bytes j entries.now }
    ensures spelled { IsPart entries.now }
{
    let next = put(into, 0, &[OPEN_GATE, PART, j]);
    let next = put_zeros(into, next, 13);
    put_entries(into, next, entries);
}
