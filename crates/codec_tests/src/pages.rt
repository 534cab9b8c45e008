ghost use Rattle.std.specs.Prelude.{◌<◌, IfSome};

use afs_base::BlockNo;
use page_codec::*;
use std::process::Abort;

mod causes;
mod tables;
mod vectors;

/// The value of a hexadecimal digit.
fn digit(c: u8) -> Option<u8>
    ensures { IfSome result (λ n. n < 16) }
{
    match c {
        b'0'..=b'9' => Some(c - b'0'),
        b'a'..=b'f' => Some(c - b'a' + 10),
        _ => None,
    }
}

/// The byte of two hexadecimal digits.
fn byte(high: u8, low: u8) -> Option<u8> {
    Some(digit(high)? * 16 + digit(low)?)
}

/// Writes bytes from a place on, so many times over.
fn put_digits(block: &mut Block, at: usize, digits: &[u8], times: usize) -> Option<()> {
    let size = digits.len() / 2;
    if size == 0 {
        return None;
    }
    for place in at..1024 {
        let i = place - at;
        if i / size < times {
            let pair = 2 * (i % size);
            block[place] = byte(digits[pair], digits[pair + 1])?;
        }
    }
    Some(())
}

/// Writes a word `PLACE:DIGITS` or `PLACE:DIGITS*TIMES`.
fn put_word(block: &mut Block, word: &str) -> Option<()> {
    let (place, bytes) = word.split_once(':')?;
    let at = place.parse::<usize>().ok()?;
    match bytes.split_once('*') {
        Some((digits, times)) => {
            let times = times.parse::<usize>().ok()?;
            put_digits(block, at, digits.as_bytes(), times)
        }
        None => put_digits(block, at, bytes.as_bytes(), 1),
    }
}

/// Writes the words of a text, parted by spaces.
fn put_text(block: &mut Block, text: &str) -> Option<()> {
    for word in text.split(' ') {
        put_word(block, word)?;
    }
    Some(())
}

/// A block that is zero but for what a text writes.
fn block_of(rt: &impl Abort, text: &str) -> Block {
    let mut block = [0; 1024];
    assert!(rt; put_text(&mut block, text).is_some(), "{text}");
    block
}

/// A block's number, 0 where there is none.
fn number_of(block: Option<BlockNo>) -> u32 {
    match block {
        Some(block) => block.get(),
        None => 0,
    }
}
