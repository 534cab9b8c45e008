ghost use Rattle.std.specs.Prelude.{◌≡◌, ◌∷◌, slice_index, slice_range, take, drop, position, not, MatchOption, IsOkAnd};
ghost use Rattle.std.specs.Int.{from_be_bytes, w32};
ghost use Rattle.hex.specs.Hex.{decode_of, encode_lower, is_hex_digit};
ghost use Rattle.caps.specs.Capability.{bad_place};

use std::marker::Model;
use thiserror::Error;

/// How many bytes a capability has.
const SIZE: usize = 16;

/// A capability: the port of the service in bytes 0..6, the object in 6..9, the rights in byte 9 and
/// the check in 10..16. Numbers are big-endian. Any sixteen bytes are a capability; whether a store
/// grants anything by it is another matter.
#[derive(Clone, Copy, PartialEq, Eq, Debug)]
pub struct Capability {
    bytes: [u8; SIZE],
}

impl Model for Capability {
    ghost use Rattle.std.specs.Prelude.{◌≡◌, List, ℕ, length};

    ghost Value = { List ℕ };

    ghost view = { λ c. c.bytes };

    ghost inverse = { λ bytes. record { bytes = bytes } };
}

/// The text is no capability: it has `at` bytes where that is not 32, else the byte at `at` is the first that is no
/// hexadecimal digit.
#[derive(Clone, Copy, PartialEq, Eq, Debug, Error)]
#[error("no capability: wrong at {at}")]
pub struct BadHex {
    pub at: usize,
}

/// Whether a byte is a hexadecimal digit of either case.
fn is_digit(c: u8) -> bool
    ensures { result ≡ is_hex_digit c }
{
    c.is_ascii_hexdigit()
}

/// The first byte that is no digit.
fn first_other(text: &[u8]) -> Option<usize>
    ensures { result ≡ position (λ c. not (is_hex_digit c)) text.now }
{
    text.iter().position(|c| !is_digit(*c))
}

/// Where the text fails to be 32 hexadecimal digits.
fn first_bad(text: &[u8]) -> Option<usize>
    ensures { result ≡ bad_place text.now }
{
    if text.len() == 2 * SIZE {
        first_other(text)
    } else {
        Some(text.len())
    }
}

/// The bytes that 32 digits stand for.
fn digits_value(text: &[u8]) -> [u8; SIZE]
    requires { bad_place text.now ≡ None }
    ensures { decode_of text.now ≡ Ok result }
{
    let mut bytes = [0; SIZE];
    match hex::decode_to_slice(text, &mut bytes) {
        Ok(()) => bytes,
        Err(_) => unreachable!(),
    }
}

impl Capability {
    /// The capability that a text of 32 hexadecimal digits, of either case, writes down.
    pub fn of_hex(text: &[u8]) -> Result<Capability, BadHex>
        ensures { MatchOption (bad_place text.now)
            (IsOkAnd result (λ cap. decode_of text.now ≡ Ok cap))
            (λ at. result ≡ Err (record { at = at })) }
    {
        match first_bad(text) {
            Some(at) => Err(BadHex { at }),
            None => Ok(Capability {
                bytes: digits_value(text),
            }),
        }
    }

    /// Writes the 32 digits in lower case.
    pub fn to_hex(&self, into: &mut [u8; 32])
        ensures { into.new ≡ encode_lower self.now }
    {
        let _written = hex::encode_to_slice(self.bytes.as_slice(), into);
    }

    /// The capability of these bytes.
    pub fn of_bytes(bytes: &[u8; SIZE]) -> Capability
        ensures { result ≡ bytes.now }
    {
        Capability { bytes: *bytes }
    }

    /// The bytes of the capability.
    pub fn to_bytes(&self) -> [u8; SIZE]
        ensures { result ≡ self.now }
    {
        self.bytes
    }

    /// The port, bytes 0..6.
    pub fn port(&self) -> [u8; 6]
        ensures { result ≡ take 6 self.now }
    {
        let b = &self.bytes;
        [b[0], b[1], b[2], b[3], b[4], b[5]]
    }

    /// The object, bytes 6..9.
    pub fn object(&self) -> u32
        ensures { result ≡ from_be_bytes w32 (0 ∷ slice_range self.now 6 9) }
    {
        let b = &self.bytes;
        u32::from_be_bytes([0, b[6], b[7], b[8]])
    }

    /// The rights, byte 9.
    pub fn rights(&self) -> u8
        ensures { result ≡ slice_index self.now 9 }
    {
        self.bytes[9]
    }

    /// The check, bytes 10..16.
    pub fn check(&self) -> [u8; 6]
        ensures { result ≡ drop 10 self.now }
    {
        let b = &self.bytes;
        [b[10], b[11], b[12], b[13], b[14], b[15]]
    }
}
