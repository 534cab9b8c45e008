//! What an update did at a path of a page tree, and its code of four bits in a reference.
#![tactic(auto)]

ghost use Rattle.std.specs.Prelude.{◌≡◌, ◌<◌, ◌≤◌, slice_get, Some, IfOk, MatchResult};
ghost use Rattle.ref_flags.specs.Flagged.{no_flags};
ghost use Rattle.ref_flags.specs.Codes.{code_of, flags_of, with_mark};
ghost use Rattle.ref_flags.specs.Table.{rows};

use std::marker::Model;
use thiserror::Error;

#[cfg(test)]
mod tests;

/// The marks of an update at a path: the page is copied; its data is read, or written; its slots are
/// searched, or modified. Thirteen combinations are lawful: nothing else is marked where the page is not
/// copied, and whoever modified slots has searched them too.
#[derive(Clone, Copy, Debug, PartialEq, Eq)]
pub struct Flags {
    copied: bool,
    read: bool,
    written: bool,
    searched: bool,
    modified: bool,
}

impl Model for Flags {
    ghost use Rattle.std.specs.Prelude.{IsTrue};
    ghost use Rattle.ref_flags.specs.Flagged.{Flagged, is_lawful};

    ghost Value = { Flagged };

    ghost view = { λ f. record {
      copied = f.copied;
      read = f.read;
      written = f.written;
      searched =
          f.searched;
      modified = f.modified;
    } };

    ghost invariant = { λ f. IsTrue (is_lawful (record {
      copied = f.copied;
      read = f.read;
      written
          = f.written;
      searched = f.searched;
      modified = f.modified;
    })) };

    ghost inverse = { λ f. record {
      copied = f.copied;
      read = f.read;
      written = f.written;
      searched
          = f.searched;
      modified = f.modified;
    } };
}

/// One thing that an update can do at a path.
#[derive(Clone, Copy, Debug, PartialEq, Eq)]
pub enum Mark {
    /// The page was copied.
    Copy,
    /// The data was read.
    Read,
    /// The data was written.
    Write,
    /// Slots were read.
    Search,
    /// Slots were changed.
    Modify,
}

/// The error for a number that is no flag code: it is above 12.
#[derive(Clone, Copy, Debug, PartialEq, Eq, Error)]
#[error("{code} is no flag code")]
pub struct NotAFlagCode {
    pub code: u8,
}

impl Flags {
    /// No marks: the page is not copied.
    pub fn none() -> Self
        ensures { result ≡ no_flags }
    {
        Flags {
            copied: false,
            read: false,
            written: false,
            searched: false,
            modified: false,
        }
    }

    pub fn copied(&self) -> bool
        ensures { result ≡ self.now.copied }
    {
        self.copied
    }

    pub fn read(&self) -> bool
        ensures { result ≡ self.now.read }
    {
        self.read
    }

    pub fn written(&self) -> bool
        ensures { result ≡ self.now.written }
    {
        self.written
    }

    pub fn searched(&self) -> bool
        ensures { result ≡ self.now.searched }
    {
        self.searched
    }

    pub fn modified(&self) -> bool
        ensures { result ≡ self.now.modified }
    {
        self.modified
    }

    /// Adds the mark, and with it that the page is copied; with `Modify` also that slots are searched.
    pub fn see(self, mark: Mark) -> Self
        ensures { result ≡ with_mark self mark }
    {
        let mut flags = self;
        flags.copied = true;
        match mark {
            Mark::Copy => {}
            Mark::Read => flags.read = true,
            Mark::Write => flags.written = true,
            Mark::Search => flags.searched = true,
            Mark::Modify => {
                flags.searched = true;
                flags.modified = true;
            }
        }
        flags
    }

    /// The code, 0 to 12: the number of the row of the table that has these flags.
    pub fn code(self) -> u8
        ensures row { slice_get rows result ≡ Some self }
        // The same in numbers.
        ensures value { result ≡ code_of self }
        ensures most { result ≤ 12 }
        ensures back { flags_of result ≡ self }
    {
        if !self.copied {
            return 0;
        }
        let slots = if self.modified {
            2
        } else {
            u8::from(self.searched)
        };
        1 + 3 * (u8::from(self.read) + 2 * u8::from(self.written)) + slots
    }

    /// The flags of a code, which are the row of the table that has this number; an error exactly where it is above 12.
    pub fn of_code(code: u8) -> Result<Self, NotAFlagCode>
        ensures row { IfOk result (λ f. slice_get rows code ≡ Some f) }
        // The same in numbers.
        ensures value { MatchResult result
            (λ f. (code ≤ 12) × (f ≡ flags_of code) × (code_of f ≡ code))
            (λ e. (12 < code) × (e.code ≡ code)) }
    {
        if code > 12 {
            return Err(NotAFlagCode { code });
        }
        if code == 0 {
            return Ok(Flags::none());
        }
        let rest = code - 1;
        Ok(Flags {
            copied: true,
            read: rest / 3 % 2 == 1,
            written: rest / 6 != 0,
            searched: rest % 3 != 0,
            modified: rest % 3 == 2,
        })
    }
}
