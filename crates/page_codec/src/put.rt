//! Writing into a block from left to right: each call says what the block then begins with.
ghost use Rattle.std.specs.Prelude.{◌≡◌, ℕ, ◌+◌, ◌^◌, ◌<◌, ◌≤◌, ◌∷◌, [], ◌++◌, take, length};
ghost use Rattle.std.specs.Int.{w16, w32, w64};
ghost use Rattle.page_codec.specs.Numbers.{IsBytes, big_endian, zeros};

use crate::Block;

/// Writes the bytes from a place on, and answers the place behind them.
pub fn put(block: &mut Block, at: usize, bytes: &[u8]) -> usize
    requires { at + length bytes.now ≤ 1024 }
    ensures next { result ≡ at + length bytes.now }
    ensures front { take result block.new ≡ take at block.old ++ bytes.now }
    ensures fits { IsBytes bytes.now }
{
    let end = at + bytes.len();
    let tail = &mut block[at..end];
    tail.copy_from_slice(bytes);
    end
}

/// Writes zeros from a place on, and answers the place behind them.
#[tactic(auto, unfolding(crate::specs::Numbers::zeros))]
pub fn put_zeros(block: &mut Block, at: usize, count: usize) -> usize
    requires { at + count ≤ 1024 }
    ensures next { result ≡ at + count }
    ensures front { take result block.new ≡ take at block.old ++ zeros count }
{
    let end = at + count;
    let tail = &mut block[at..end];
    tail.fill(0);
    end
}

/// Writes a number of two bytes, the highest first.
#[tactic(auto, unfolding(crate::specs::Numbers::big_endian))]
pub fn put_u16(block: &mut Block, at: usize, number: u16) -> usize
    requires { at + 2 ≤ 1024 }
    ensures next { result ≡ at + 2 }
    ensures front { take result block.new ≡ take at block.old ++ big_endian w16 number }
    ensures fits { number < 2 ^ 16 }
{
    put(block, at, &number.to_be_bytes())
}

/// Writes a number of four bytes, the highest first.
#[tactic(auto, unfolding(crate::specs::Numbers::big_endian))]
pub fn put_u32(block: &mut Block, at: usize, number: u32) -> usize
    requires { at + 4 ≤ 1024 }
    ensures next { result ≡ at + 4 }
    ensures front { take result block.new ≡ take at block.old ++ big_endian w32 number }
{
    put(block, at, &number.to_be_bytes())
}

/// Writes a number of eight bytes, the highest first.
#[tactic(auto, unfolding(crate::specs::Numbers::big_endian))]
pub fn put_u64(block: &mut Block, at: usize, number: u64) -> usize
    requires { at + 8 ≤ 1024 }
    ensures next { result ≡ at + 8 }
    ensures front { take result block.new ≡ take at block.old ++ big_endian w64 number }
    ensures fits { number < 2 ^ 64 }
{
    put(block, at, &number.to_be_bytes())
}
