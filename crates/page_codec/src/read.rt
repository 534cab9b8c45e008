//! Reading numbers and runs of bytes.
ghost use Rattle.std.specs.Prelude.{◌≡◌, ℕ, ◌+◌, ◌^◌, ◌<◌, ◌≤◌, length};
ghost use Rattle.std.specs.List.{list_any};
ghost use Rattle.std.specs.Int.{w16, w32, w64};
ghost use Rattle.page_codec.specs.Numbers.{number_at};
ghost use Rattle.page_codec.specs.Causes.{is_nonzero, has_other};

use crate::Block;

/// The number of two bytes at a place, the highest first.
#[tactic(auto, unfolding(crate::specs::Numbers::number_at))]
pub fn u16_at(bytes: &[u8], at: usize) -> u16
    requires { at + 2 ≤ length bytes.now }
    ensures { result ≡ number_at w16 at bytes.now }
{
    let (_, rest) = bytes.split_at(at);
    let (number, _) = rest.split_at(2);
    u16::from_be_bytes([number[0], number[1]])
}

/// The number of four bytes at a place, the highest first.
#[tactic(auto, unfolding(crate::specs::Numbers::number_at))]
pub fn u32_at(bytes: &[u8], at: usize) -> u32
    requires { at + 4 ≤ length bytes.now }
    ensures { result ≡ number_at w32 at bytes.now }
{
    let (_, rest) = bytes.split_at(at);
    let (number, _) = rest.split_at(4);
    u32::from_be_bytes([number[0], number[1], number[2], number[3]])
}

/// The number of eight bytes at a place, the highest first.
#[tactic(auto, unfolding(crate::specs::Numbers::number_at))]
pub fn u64_at(bytes: &[u8], at: usize) -> u64
    requires { at + 8 ≤ length bytes.now }
    ensures { result ≡ number_at w64 at bytes.now }
{
    let (_, rest) = bytes.split_at(at);
    let (number, _) = rest.split_at(8);
    u64::from_be_bytes([
        number[0], number[1], number[2], number[3], number[4], number[5], number[6], number[7],
    ])
}

/// Whether a byte is not 0. It looks at all of them, many in one step: most blocks have none, and to stop at the first would
/// be to look at one after the other.
pub fn is_any_used(bytes: &[u8]) -> bool
    ensures { result ≡ list_any is_nonzero bytes.now }
{
    let mut used = false;
    for byte in bytes {
        used = used | (*byte != 0);
    }
    used
}

/// Whether a byte of a range of the block is not 0; an empty range has none.
pub fn has_other(block: &Block, from: usize, to: usize) -> bool
    requires { to ≤ 1024 }
    ensures { result ≡ has_other from to block.now }
{
    if from >= to {
        return false;
    }
    let bytes: &[u8] = block;
    is_any_used(&bytes[from..to])
}
