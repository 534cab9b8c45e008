ghost use Rattle.std.specs.Prelude.{◌≡◌, ℕ, ◌^◌, ◌-◌, min, true, MatchOption};
ghost use Rattle.std.specs.List.{list_all};
ghost use Rattle.script_text.specs.Grammar.{number_word};
ghost use Rattle.script_text.specs.Says.{IsNumberIn};
ghost use Rattle.script_text.specs.Words.{is_digit, is_number, number_in, value_of};

use crate::refused::LineWhy;

/// Whether all bytes are decimal digits.
fn are_digits(word: &[u8]) -> bool
    ensures { result ≡ list_all is_digit word.now }
{
    word.iter().all(|b| *b >= b'0' && *b <= b'9')
}

/// Whether the word is a number without a leading zero.
fn is_number(word: &[u8]) -> bool
    ensures { result ≡ is_number word.now }
{
    are_digits(word) && (word.len() == 1 || (word.len() > 1 && word[0] != b'0'))
}

/// The value of digits, or the last of a u128 where it is greater.
fn value_of(digits: &[u8]) -> u128
    requires { list_all is_digit digits.now ≡ true }
    ensures { result ≡ min (value_of digits.now) (2 ^ 128 - 1) }
{
    let mut value = 0u128;
    for digit in digits {
        value = value
            .saturating_mul(10)
            .saturating_add(u128::from(*digit - b'0'));
    }
    value
}

/// The number that a word writes, where it is one and lies from `low` to `high`.
fn read_number(low: u64, high: u64, word: &[u8]) -> Option<u64>
    ensures { result ≡ number_in low high word.now }
{
    if !is_number(word) {
        return None;
    }
    let value = value_of(word);
    if value >= u128::from(low) && value <= u128::from(high) {
        Some(value as u64)
    } else {
        None
    }
}

/// The number that a word writes in decimal digits without a leading zero, where it is one and lies from `low` to `high`.
pub fn number_in(low: u64, high: u64, word: &[u8]) -> Option<u64>
    ensures read { result ≡ number_in low high word.now }
    ensures says { MatchOption result ((n : ℕ) → IsNumberIn low high word.now n → ⊥)
        (IsNumberIn low high word.now) }
{
    read_number(low, high, word)
}

/// The number of a word, or why it is none.
pub(crate) fn number_word(low: u64, high: u64, word: &[u8]) -> Result<u64, LineWhy>
    ensures { result ≡ number_word low high word.now }
{
    number_in(low, high, word).ok_or(LineWhy::Number)
}
