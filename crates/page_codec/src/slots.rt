//! The sixteen slots of a page.
ghost use Rattle.std.specs.Prelude.{◌≡◌, ℕ, ◌+◌, ◌*◌, ◌/◌, ◌%◌, ◌^◌, ◌<◌, ◌≤◌, ◌||◌, length, map, false};
ghost use Rattle.std.specs.List.{list_any};
ghost use Rattle.std.specs.Int.{w32};
ghost use Rattle.page_codec.specs.Numbers.{number_at, pieces, or_none};
ghost use Rattle.page_codec.specs.Reading.{slots, reference};
ghost use Rattle.page_codec.specs.Causes.{is_no_code, is_dangling, is_nonzero, has_bad_reference};

use crate::Block;
use crate::layout::{LENGTH_AT, SLOTS_AT};
use crate::page::no_slots;
use crate::read::u32_at;
use crate::reference::Reference;
use afs_base::{BLOCK_NUMBERS, BlockNo, MAX_DEPTH, SLOTS};
use ref_flags::Flags;

/// Reads as many numbers of four bytes as there is room for.
pub fn read_numbers(bytes: &[u8], numbers: &mut [u32])
    requires { 4 * length numbers.old ≤ length bytes.now }
    ensures { numbers.new ≡ map (number_at w32 0) (pieces 4 (length numbers.old) bytes.now) }
{
    for i in 0..numbers.len() {
        numbers[i] = u32_at(bytes, 4 * i);
    }
}

/// The sixteen slots as numbers.
#[tactic(auto, unfolding(crate::specs::Reading::slots))]
pub fn slots_of(block: &Block) -> [u32; SLOTS]
    ensures { result ≡ slots block.now }
{
    let bytes: &[u8] = block;
    let mut numbers = [0; SLOTS];
    read_numbers(&bytes[SLOTS_AT..LENGTH_AT], &mut numbers);
    numbers
}

/// Whether a slot's code is above 12.
pub fn has_bad_code(numbers: &[u32]) -> bool
    ensures { result ≡ list_any is_no_code numbers.now }
{
    numbers.iter().any(|number| number / BLOCK_NUMBERS > 12)
}

/// Whether a slot has a code and no block.
pub fn has_dangling(numbers: &[u32]) -> bool
    ensures { result ≡ list_any is_dangling numbers.now }
{
    numbers.iter().any(|number| (number % BLOCK_NUMBERS == 0) & (number / BLOCK_NUMBERS != 0))
}

/// Whether a slot is in use.
fn is_any_in_use(numbers: &[u32]) -> bool
    ensures { result ≡ list_any is_nonzero numbers.now }
{
    numbers.iter().any(|number| *number != 0)
}

/// Whether a slot has a code and no block, or a page of level 7 has a slot in use.
pub fn has_bad_reference(level: u8, numbers: &[u32]) -> bool
    ensures { result ≡ has_bad_reference level numbers.now }
{
    has_dangling(numbers) | ((usize::from(level) == MAX_DEPTH) & is_any_in_use(numbers))
}

/// The block of a number below 2^28, or none where it is 0.
pub fn block_or_none(number: u32) -> Option<BlockNo>
    requires { number < BLOCK_NUMBERS }
    ensures { result ≡ or_none number }
{
    if number == 0 {
        return None;
    }
    Some(BlockNo::at(number))
}

/// A slot's number as a reference.
fn reference_of(number: u32) -> Reference
    requires coded { is_no_code number ≡ false }
    requires named { is_dangling number ≡ false }
    ensures { result ≡ reference number }
{
    let flags = match Flags::of_code((number / BLOCK_NUMBERS) as u8) {
        Ok(flags) => flags,
        Err(_) => unreachable!(),
    };
    Reference {
        flags,
        block: block_or_none(number % BLOCK_NUMBERS),
    }
}

/// Writes the numbers as references.
fn fill_references(numbers: &[u32], references: &mut [Reference])
    requires same { length numbers.now ≡ length references.old }
    requires coded { list_any is_no_code numbers.now ≡ false }
    requires named { list_any is_dangling numbers.now ≡ false }
    ensures { references.new ≡ map reference numbers.now }
{
    for i in 0..references.len() {
        references[i] = reference_of(numbers[i]);
    }
}

/// The slots' numbers as references.
pub fn references_of(numbers: &[u32; SLOTS]) -> [Reference; SLOTS]
    requires coded { list_any is_no_code numbers.now ≡ false }
    requires named { list_any is_dangling numbers.now ≡ false }
    ensures { result ≡ map reference numbers.now }
{
    let mut references = no_slots();
    fill_references(numbers, &mut references);
    references
}
