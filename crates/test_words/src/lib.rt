//! Bytes of blocks and halves as texts, for the crates of tests.
#![tactic(auto)]

ghost use Rattle.std.specs.Prelude.{◌≡◌, ◌<◌, length, IfSome};

/// The value of a hexadecimal digit.
fn digit(c: u8) -> Option<u8>
    ensures { IfSome result (λ n. n < 16) }
{
    match c {
        b'0'..=b'9' => Some(c - b'0'),
        b'a'..=b'f' => Some(c - b'a' + 10),
        _ => None,
    }
}

/// The byte of the k-th pair of digits.
fn byte_at(digits: &[u8], k: usize) -> Option<u8> {
    let pair = k.checked_mul(2)?;
    let high = digit(*digits.get(pair)?)?;
    let low = digit(*digits.get(pair.checked_add(1)?)?)?;
    Some(high * 16 + low)
}

/// Puts so many bytes from a place on, those of the digits over and over.
fn put_digits(bytes: &mut [u8], at: usize, digits: &[u8], count: usize) -> Option<()>
    ensures { length bytes.new ≡ length bytes.old }
{
    let size = digits.len() / 2;
    if size == 0 || count > bytes.len() || at > bytes.len() - count {
        return None;
    }
    for k in 0..count {
        bytes[at + k] = byte_at(digits, k % size)?;
    }
    Some(())
}

/// The place that `PLACE` or `BLOCK.PLACE` names, in bytes.
fn place_of(text: &str) -> Option<usize> {
    match text.split_once('.') {
        Some((block, place)) => {
            let block = block.parse::<u16>().ok()?;
            let place = place.parse::<u16>().ok()?;
            Some(1024 * block as usize + place as usize)
        }
        None => Some(text.parse::<u16>().ok()? as usize),
    }
}

/// Puts the bytes of a word `PLACE:DIGITS` or `PLACE:DIGITS*TIMES`, where the place may begin with a block and a dot.
fn put_word(bytes: &mut [u8], word: &str) -> Option<()>
    ensures { length bytes.new ≡ length bytes.old }
{
    let (place, digits) = word.split_once(':')?;
    let (digits, times) = digits.split_once('*').unwrap_or((digits, "1"));
    let count = (digits.len() / 2).checked_mul(times.parse::<usize>().ok()?)?;
    put_digits(bytes, place_of(place)?, digits.as_bytes(), count)
}

/// Puts the words of a text, parted by spaces. None where one is no word, or does not fit.
pub fn put_text(bytes: &mut [u8], text: &str) -> Option<()>
    ensures { length bytes.new ≡ length bytes.old }
{
    for word in text.split(' ') {
        if !word.is_empty() {
            put_word(bytes, word)?;
        }
    }
    Some(())
}
