//! Block 0 and the parts of a table from bytes.
ghost use Rattle.std.specs.Prelude.{◌≡◌, ℕ, ◌+◌, ◌*◌, ◌^◌, ◌<◌, ◌≤◌, ◌==◌, List, length, map, false, slice_index, nat_le, if◌then◌else◌, IfOk, Ok};
ghost use Rattle.std.specs.List.{list_any};
ghost use Rattle.page_codec.specs.Numbers.{or_none};
ghost use Rattle.page_codec.specs.Values.{RootValue, EntryValue};
ghost use Rattle.page_codec.specs.Bounds.{IsRoot, IsPart};
ghost use Rattle.page_codec.specs.TableSpelling.{root_bytes, part_bytes};
ghost use Rattle.page_codec.specs.Causes.{Reads, first_cause};
ghost use Rattle.page_codec.specs.TableReading.{raw_entries, entry_value, part_numbers, head_causes, one_causes, two_causes, root_causes, root_value, root_of, part_causes, part_value, part_of};
ghost use Rattle.page_codec.specs.TableFacts.{RootFacts, PartFacts};

use crate::Block;
use crate::decode::first_cause;
use crate::entry::TableEntry;
use crate::layout::{BLOCKS_AT, ENTRIES_AT, KEY_AT, PART, PARTS_END, ROOT_END, TABLE};
use crate::raw_entry::{
    RawEntry, fill_entries, is_any_far, is_any_stray, is_any_uncounted, is_each_unused,
    raw_of_part, raw_of_root,
};
use crate::read::{has_other, u32_at, u64_at};
use crate::root::{TableRoot, no_parts, no_root_entries};
use crate::slots::{block_or_none, read_numbers};
use crate::why::{BadPage, Why};
use afs_base::{
    BLOCK_BYTES, BLOCK_NUMBERS, BlockNo, MAX_BLOCKS, MIN_BLOCKS, OPEN_GATE, PART_ENTRIES, PARTS,
    ROOT_ENTRIES,
};

fn blank_numbers() -> [u32; PARTS] {
    [0; PARTS]
}

/// The blocks of the parts as numbers, 0 where there is none.
#[tactic(auto, unfolding(crate::specs::TableReading::part_numbers))]
fn part_numbers_of(block: &Block) -> [u32; PARTS]
    ensures { result ≡ part_numbers block.now }
{
    let bytes: &[u8] = block;
    let mut numbers = blank_numbers();
    read_numbers(&bytes[ENTRIES_AT..PARTS_END], &mut numbers);
    numbers
}

/// Whether a number is not below a limit.
fn is_any_out(numbers: &[u32], limit: u32) -> bool
    ensures { result ≡ list_any (nat_le limit) numbers.now }
{
    numbers.iter().any(|number| *number >= limit)
}

/// The first cause that both formats have for which the block is no table.
#[tactic(auto, unfolding(crate::specs::TableReading::head_causes))]
fn head_cause(block: &Block) -> Option<Why>
    ensures { result ≡ first_cause (head_causes block.now) }
{
    let blocks = u32_at(block, BLOCKS_AT);
    first_cause(&[
        (block[0] != OPEN_GATE, Why::Closed),
        (block[1] != TABLE, Why::Kind),
        ((block[2] != 1) & (block[2] != 2), Why::Format),
        ((blocks < MIN_BLOCKS) | (blocks > MAX_BLOCKS), Why::Blocks),
    ])
}

/// The first cause of format 1.
#[tactic(auto, unfolding(crate::specs::TableReading::one_causes))]
fn one_cause(block: &Block, raws: &[RawEntry; ROOT_ENTRIES]) -> Option<Why>
    requires { raws.now ≡ raw_entries ROOT_ENTRIES block.now }
    ensures { result ≡ first_cause (one_causes block.now) }
{
    let blocks = u32_at(block, BLOCKS_AT);
    first_cause(&[
        (is_any_far(raws, blocks), Why::Reference),
        (is_any_uncounted(raws), Why::Generation),
        (is_any_stray(raws), Why::Secret),
        (
            (block[3] != 0) | has_other(block, ROOT_END, BLOCK_BYTES),
            Why::Zero,
        ),
    ])
}

/// The first cause of format 2.
#[tactic(auto, unfolding(crate::specs::TableReading::two_causes))]
fn two_cause(block: &Block, numbers: &[u32; PARTS]) -> Option<Why>
    requires { numbers.now ≡ part_numbers block.now }
    ensures { result ≡ first_cause (two_causes block.now) }
{
    first_cause(&[
        (
            is_any_out(numbers, u32_at(block, BLOCKS_AT)),
            Why::Reference,
        ),
        (
            (block[3] != 0) | has_other(block, PARTS_END, BLOCK_BYTES),
            Why::Zero,
        ),
    ])
}

/// The first cause of the block's own format.
fn format_cause(block: &Block) -> Option<Why>
    ensures { result ≡ first_cause (if slice_index block.now 2 == 1
        then one_causes block.now
        else two_causes block.now) }
{
    if block[2] == 1 {
        one_cause(block, &raw_of_root(block))
    } else {
        two_cause(block, &part_numbers_of(block))
    }
}

/// The first cause for which the block is no table.
fn root_cause(block: &Block) -> Option<Why>
    ensures { result ≡ first_cause (root_causes block.now) }
{
    match head_cause(block) {
        Some(why) => Some(why),
        None => format_cause(block),
    }
}

/// The entries of block 0 of format 1.
fn root_entries(block: &Block) -> [TableEntry; ROOT_ENTRIES]
    requires facts { RootFacts block.now }
    requires one { slice_index block.now 2 ≡ 1 }
    ensures { result ≡ map entry_value (raw_entries ROOT_ENTRIES block.now) }
{
    let raws = raw_of_root(block);
    let mut entries = no_root_entries();
    fill_entries(&raws, &mut entries);
    entries
}

/// Writes the parts' blocks of these numbers, which are block numbers.
fn fill_parts(numbers: &[u32], parts: &mut [Option<BlockNo>], limit: u32)
    requires same { length numbers.now ≡ length parts.old }
    requires small { limit ≤ MAX_BLOCKS }
    requires far { list_any (nat_le limit) numbers.now ≡ false }
    ensures { parts.new ≡ map or_none numbers.now }
{
    for i in 0..parts.len() {
        parts[i] = block_or_none(numbers[i]);
    }
}

/// The parts' blocks of block 0 of format 2.
fn root_parts(block: &Block) -> [Option<BlockNo>; PARTS]
    requires facts { RootFacts block.now }
    requires two { slice_index block.now 2 ≡ 1 → ⊥ }
    ensures { result ≡ map or_none (part_numbers block.now) }
{
    let numbers = part_numbers_of(block);
    let mut parts = no_parts();
    fill_parts(&numbers, &mut parts, u32_at(block, BLOCKS_AT));
    parts
}

/// Block 0 of format 1.
#[tactic(auto, unfolding(crate::specs::TableReading::root_value))]
fn root_one(block: &Block) -> TableRoot
    requires facts { RootFacts block.now }
    requires one { slice_index block.now 2 ≡ 1 }
    ensures { result ≡ root_value block.now }
{
    TableRoot {
        format: 1,
        blocks: u32_at(block, BLOCKS_AT),
        key: u64_at(block, KEY_AT),
        parts: no_parts(),
        first: root_entries(block),
    }
}

/// Block 0 of format 2.
#[tactic(auto, unfolding(crate::specs::TableReading::root_value))]
fn root_two(block: &Block) -> TableRoot
    requires facts { RootFacts block.now }
    requires two { slice_index block.now 2 ≡ 1 → ⊥ }
    ensures { result ≡ root_value block.now }
{
    TableRoot {
        format: block[2],
        blocks: u32_at(block, BLOCKS_AT),
        key: u64_at(block, KEY_AT),
        parts: root_parts(block),
        first: no_root_entries(),
    }
}

/// What block 0 says.
fn root_at(block: &Block) -> TableRoot
    requires { RootFacts block.now }
    ensures { result ≡ root_value block.now }
{
    if block[2] == 1 {
        root_one(block)
    } else {
        root_two(block)
    }
}

/// Block 0, or the first cause.
fn read_root(block: &Block) -> Result<TableRoot, BadPage>
    ensures { Reads result (root_of block.now) }
{
    match root_cause(block) {
        Some(why) => Err(BadPage { why }),
        None => Ok(root_at(block)),
    }
}

/// Block 0 of a store; an error, with the first cause, exactly where the block is the spelling of none.
pub fn decode_root(block: &Block) -> Result<TableRoot, BadPage>
    // What is read is spelled so.
    ensures found { IfOk result (λ r. IsRoot r × (block.now ≡ root_bytes r)) }
    // What is spelled so is read.
    ensures only { (r : RootValue) → IsRoot r → block.now ≡ root_bytes r → Reads result (Ok r) }
    // Which cause it is.
    ensures exact { Reads result (root_of block.now) }
{
    read_root(block)
}

/// The first cause for which the block is not part j.
#[tactic(auto, unfolding(crate::specs::TableReading::part_causes))]
fn part_cause(block: &Block, j: u8, raws: &[RawEntry; PART_ENTRIES]) -> Option<Why>
    requires { raws.now ≡ raw_entries PART_ENTRIES block.now }
    ensures { result ≡ first_cause (part_causes j block.now) }
{
    first_cause(&[
        (block[0] != OPEN_GATE, Why::Closed),
        (block[1] != PART, Why::Kind),
        (block[2] != j, Why::Index),
        (is_any_far(raws, BLOCK_NUMBERS), Why::Reference),
        (is_any_uncounted(raws), Why::Generation),
        (is_any_stray(raws), Why::Secret),
        (has_other(block, 3, ENTRIES_AT), Why::Zero),
        (is_each_unused(raws), Why::Empty),
    ])
}

fn blank_entries() -> [TableEntry; PART_ENTRIES] {
    [TableEntry::none(); PART_ENTRIES]
}

/// The entries of a part.
#[tactic(auto, unfolding(crate::specs::TableReading::part_value))]
fn part_at(block: &Block, j: u8, raws: &[RawEntry; PART_ENTRIES]) -> [TableEntry; PART_ENTRIES]
    requires raws { raws.now ≡ raw_entries PART_ENTRIES block.now }
    requires facts { PartFacts j block.now }
    ensures { result ≡ part_value block.now }
{
    let mut entries = blank_entries();
    fill_entries(raws, &mut entries);
    entries
}

/// The entries of part j, or the first cause.
fn read_part(block: &Block, j: u8) -> Result<[TableEntry; PART_ENTRIES], BadPage>
    ensures { Reads result (part_of j block.now) }
{
    let raws = raw_of_part(block);
    match part_cause(block, j, &raws) {
        Some(why) => Err(BadPage { why }),
        None => Ok(part_at(block, j, &raws)),
    }
}

/// The sixty-three entries of part j of a table, 0 to 63; an error, with the first cause, exactly where the block is the
/// spelling of none.
pub fn decode_part(block: &Block, j: u8) -> Result<[TableEntry; PART_ENTRIES], BadPage>
    requires { j < PARTS }
    // What is read is spelled so.
    ensures found { IfOk result (λ es. IsPart es × (block.now ≡ part_bytes j es)) }
    // What is spelled so is read.
    ensures only { (es : List EntryValue) → IsPart es → block.now ≡ part_bytes j es
        → Reads result (Ok es) }
    // Which cause it is.
    ensures exact { Reads result (part_of j block.now) }
{
    read_part(block, j)
}
