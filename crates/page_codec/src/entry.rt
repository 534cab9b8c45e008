ghost use Rattle.std.specs.Prelude.{◌≡◌, ◌≤◌, Some};
ghost use Rattle.page_codec.specs.Blank.{no_entry};

use afs_base::{BlockNo, SECRET_BYTES};
use std::marker::Model;

/// A file in the table: the block of its first version, its generation and its secret. A file that is not live has
/// no block and a zero secret, and the generation of the file that was last there, or 0; a live one has a
/// generation of at least 1. Block 0 is never named.
#[derive(Clone, Copy, Debug, PartialEq, Eq)]
pub struct TableEntry {
    pub first: Option<BlockNo>,
    pub generation: u32,
    pub secret: [u8; SECRET_BYTES],
}

impl Model for TableEntry {
    ghost use Rattle.page_codec.specs.Values.{EntryValue};
    ghost use Rattle.page_codec.specs.Bounds.{IsSoundEntry};

    ghost Value = { EntryValue };

    ghost view = { λ e. record { first = e.first; generation = e.generation; secret = e.secret } };

    ghost invariant = { λ e. IsSoundEntry (record {
      first = e.first;
      generation = e.generation;
      secret = e.secret;
    }) };

    ghost inverse = { λ e. record {
      first = e.first;
      generation = e.generation;
      secret = e.secret;
    } };
}

impl TableEntry {
    /// The entry where no file ever was.
    #[tactic(auto, unfolding(crate::specs::Numbers::zeros))]
    pub fn none() -> Self
        ensures { result ≡ no_entry }
    {
        TableEntry {
            first: None,
            generation: 0,
            secret: [0; SECRET_BYTES],
        }
    }

    /// The entry of a live file: neither its first block nor its generation is 0.
    pub fn live(first: BlockNo, generation: u32, secret: [u8; SECRET_BYTES]) -> Self
        requires named { 1 ≤ first }
        requires counted { 1 ≤ generation }
        ensures { result ≡ record { first = Some first; generation = generation; secret = secret } }
    {
        TableEntry {
            first: Some(first),
            generation,
            secret,
        }
    }
}
