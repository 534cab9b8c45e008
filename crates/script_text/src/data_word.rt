ghost use Rattle.std.specs.Prelude.{◌≡◌, ◌≤◌, ◌/◌, ◌*◌, length, Option, Ok};
ghost use Rattle.std.specs.Result.{result_ok};
ghost use Rattle.hex.specs.Hex.{decode_of};
ghost use Rattle.script_text.specs.Grammar.{data_word};
ghost use Rattle.script_text.specs.Words.{data_of};

use crate::refused::LineWhy;
use afs_base::{MAX_DATA, PageData};

/// The bytes that hexadecimal digits stand for.
fn digits_data(word: &[u8]) -> Option<PageData>
    requires { length word.now ≤ 2 * MAX_DATA }
    ensures { result ≡ result_ok (decode_of word.now) }
{
    let mut places = [0; MAX_DATA];
    let half = word.len() / 2;
    let bytes = &mut places[..half];
    match hex::decode_to_slice(word, bytes) {
        Ok(()) => Some(PageData::of(bytes)),
        Err(_) => None,
    }
}

/// The data that a word writes: `-`, or an even number of hexadecimal digits.
fn data_of(word: &[u8]) -> Option<PageData>
    ensures { result ≡ data_of word.now }
{
    if word == b"-".as_slice() {
        return Some(PageData::empty());
    }
    if word.len() > 2 * MAX_DATA {
        return None;
    }
    digits_data(word)
}

/// The data of a word, or why it is none.
pub fn data_word(word: &[u8]) -> Result<PageData, LineWhy>
    ensures { result ≡ data_word word.now }
{
    data_of(word).ok_or(LineWhy::Data)
}
