//! The entries of a table as numbers, before their grammar is tried.
ghost use Rattle.std.specs.Prelude.{◌≡◌, ℕ, ◌+◌, ◌*◌, ◌^◌, ◌<◌, ◌≤◌, ◌==◌, nat_le, length, map, drop, false, take};
ghost use Rattle.std.specs.List.{list_any, list_all};
ghost use Rattle.std.specs.Int.{w32};
ghost use Rattle.page_codec.specs.Numbers.{field, number_at, pieces};
ghost use Rattle.page_codec.specs.TableReading.{raw_value, raw_entries, entry_value, is_far, is_uncounted, is_stray, is_unused};

use crate::Block;
use crate::entry::TableEntry;
use crate::layout::ENTRIES_AT;
use crate::read::{is_any_used, u32_at};
use crate::slots::block_or_none;
use afs_base::{BLOCK_NUMBERS, PART_ENTRIES, ROOT_ENTRIES, SECRET_BYTES};

/// An entry's numbers and secret.
#[derive(Clone, Copy)]
pub struct RawEntry {
    pub first: u32,
    pub generation: u32,
    pub secret: [u8; SECRET_BYTES],
}

/// The eight bytes at a place.
fn secret_at(bytes: &[u8], at: usize) -> [u8; SECRET_BYTES]
    requires { at + SECRET_BYTES ≤ length bytes.now }
    ensures { result ≡ field at SECRET_BYTES bytes.now }
{
    let (_, rest) = bytes.split_at(at);
    let (secret, _) = rest.split_at(SECRET_BYTES);
    let mut copy = [0; SECRET_BYTES];
    copy.copy_from_slice(secret);
    copy
}

/// The entry in sixteen bytes at a place.
fn raw_at(bytes: &[u8], at: usize) -> RawEntry
    requires { at + 16 ≤ length bytes.now }
    ensures { result ≡ record {
      first = number_at w32 at bytes.now;
      generation = number_at w32 (at + 4) bytes.now;
      secret = field (at + 8) SECRET_BYTES bytes.now;
    } }
{
    RawEntry {
        first: u32_at(bytes, at),
        generation: u32_at(bytes, at + 4),
        secret: secret_at(bytes, at + 8),
    }
}

/// Reads as many entries as there is room for.
fn read_raw(bytes: &[u8], raws: &mut [RawEntry])
    requires { 16 * length raws.old ≤ length bytes.now }
    ensures { raws.new ≡ map raw_value (pieces 16 (length raws.old) bytes.now) }
{
    for i in 0..raws.len() {
        raws[i] = raw_at(bytes, 16 * i);
    }
}

/// What an entry holds before it is read.
const BLANK: RawEntry = RawEntry {
    first: 0,
    generation: 0,
    secret: [0; SECRET_BYTES],
};

fn blank_root() -> [RawEntry; ROOT_ENTRIES] {
    [BLANK; ROOT_ENTRIES]
}

fn blank_part() -> [RawEntry; PART_ENTRIES] {
    [BLANK; PART_ENTRIES]
}

/// The entries of a table of format 1.
#[tactic(auto, unfolding(crate::specs::TableReading::raw_entries))]
pub fn raw_of_root(block: &Block) -> [RawEntry; ROOT_ENTRIES]
    ensures { result ≡ raw_entries ROOT_ENTRIES block.now }
{
    let bytes: &[u8] = block;
    let (_, entries) = bytes.split_at(ENTRIES_AT);
    let mut raws = blank_root();
    read_raw(entries, &mut raws);
    raws
}

/// The entries of a part.
#[tactic(auto, unfolding(crate::specs::TableReading::raw_entries))]
pub fn raw_of_part(block: &Block) -> [RawEntry; PART_ENTRIES]
    ensures { result ≡ raw_entries PART_ENTRIES block.now }
{
    let bytes: &[u8] = block;
    let (_, entries) = bytes.split_at(ENTRIES_AT);
    let mut raws = blank_part();
    read_raw(entries, &mut raws);
    raws
}

/// Whether a first block is not below a limit.
pub fn is_any_far(raws: &[RawEntry], limit: u32) -> bool
    ensures { result ≡ list_any (is_far limit) raws.now }
{
    raws.iter().any(|raw| raw.first >= limit)
}

/// Whether a live entry has generation 0.
pub fn is_any_uncounted(raws: &[RawEntry]) -> bool
    ensures { result ≡ list_any is_uncounted raws.now }
{
    raws.iter()
        .any(|raw| (raw.first != 0) & (raw.generation == 0))
}

/// Whether the entry is not live, and has a secret.
fn is_stray(raw: &RawEntry) -> bool
    ensures { result ≡ is_stray raw.now }
{
    (raw.first == 0) & is_any_used(&raw.secret)
}

/// Whether an entry that is not live has a secret.
pub fn is_any_stray(raws: &[RawEntry]) -> bool
    ensures { result ≡ list_any is_stray raws.now }
{
    raws.iter().any(|raw| is_stray(raw))
}

/// Whether no file is there, or ever was.
pub fn is_each_unused(raws: &[RawEntry]) -> bool
    ensures { result ≡ list_all is_unused raws.now }
{
    raws.iter().all(|raw| raw.generation == 0)
}

/// The entry of these numbers, which are in the grammar.
fn entry_of(raw: &RawEntry) -> TableEntry
    requires far { is_far BLOCK_NUMBERS raw.now ≡ false }
    requires counted { is_uncounted raw.now ≡ false }
    requires stray { is_stray raw.now ≡ false }
    ensures { result ≡ entry_value raw.now }
{
    TableEntry {
        first: block_or_none(raw.first),
        generation: raw.generation,
        secret: raw.secret,
    }
}

/// Writes the entries of these numbers, which are in the grammar.
pub fn fill_entries(raws: &[RawEntry], entries: &mut [TableEntry])
    requires same { length raws.now ≡ length entries.old }
    requires far { list_any (is_far BLOCK_NUMBERS) raws.now ≡ false }
    requires counted { list_any is_uncounted raws.now ≡ false }
    requires stray { list_any is_stray raws.now ≡ false }
    ensures { entries.new ≡ map entry_value raws.now }
{
    for i in 0..entries.len() {
        entries[i] = entry_of(&raws[i]);
    }
}
