//! The keys of rows: each root and path as one number.
ghost use Rattle.std.specs.Prelude.{◌≡◌, ◌↔◌, ◌∷◌, [], IsTrue};
ghost use Rattle.afs_base.specs.Path.{is_prefix, path_cmp};
ghost use Rattle.pool_draft.specs.Keys.{key_list};

use afs_base::{MAX_DEPTH, Path, Slot};
use std::cmp::Ordering;
use std::marker::Model;

/// How many numbers a digit parts: one for each slot, and one for the end of the path.
const DIGITS: u64 = 32;

/// How many numbers a root has, seven digits.
const NUMBERS: u64 = 34_359_738_368;

/// A root and a path, as one number. Keys are ordered as their numbers, by root and then by path. Contracts see the root and the path.
#[derive(Debug, Drop)]
pub struct RowKey {
    number: u64,
}

impl Model for RowKey {
    ghost use Rattle.pool_draft.specs.Keys.{Key, key_in, IsNumber};

    ghost Value = { Key };

    ghost view = { λ k. key_in k.number };

    ghost invariant = { λ k. IsNumber k.number };
}

impl RowKey {
    /// The key of a root and a path.
    pub fn of(root: u8, at: &Path) -> RowKey
        ensures { result ≡ record { root = root; path = at.now } }
    {
        let Branch { first, width: _ } = Branch::of(root, at);
        RowKey { number: first }
    }

    /// How this key stands to another: by root, and then by path.
    pub fn order(&self, other: &RowKey) -> Ordering
        ensures { result ≡ path_cmp (key_list self.now) (key_list other.now) }
    {
        self.number.cmp(&other.number)
    }

    /// The root.
    pub fn root(&self) -> u8
        ensures { result ≡ self.now.root }
    {
        (self.number / NUMBERS) as u8
    }

    /// Whether the path is `/`.
    pub fn is_top(&self) -> bool
        ensures { IsTrue result ↔ (self.now.path ≡ []) }
    {
        self.number % NUMBERS == 0
    }

    /// The path.
    pub fn path(&self) -> Path
        ensures { result ≡ self.now.path }
    {
        let mut path = Path::root();
        let mut width = NUMBERS;
        let mut rest = self.number % NUMBERS;
        for _level in 0..MAX_DEPTH {
            width /= DIGITS;
            let digit = rest / width;
            if digit == 0 {
                return path;
            }
            rest %= width;
            path = path.below(Slot::at((digit - 1) as u8));
        }
        path
    }
}

/// A root and a path with all that is below it. Contracts see the root and the path.
#[derive(Debug, Drop)]
pub struct Branch {
    first: u64,
    // How many numbers from the first on are those of the path and what is below it.
    width: u64,
}

impl Model for Branch {
    ghost use Rattle.std.specs.Prelude.{◌≡◌};
    ghost use Rattle.pool_draft.specs.Keys.{Key, key_in, room, IsNumber};

    ghost Value = { Key };

    ghost view = { λ b. key_in b.first };

    ghost invariant = { λ b. IsNumber b.first × (b.width ≡ room 7 (key_in b.first).path) };
}

impl Branch {
    /// The branch of a root and a path.
    pub fn of(root: u8, at: &Path) -> Branch
        ensures { result ≡ record { root = root; path = at.now } }
    {
        // A path that is looked at is known to have at most seven slots, each below 16.
        let _depth = at.len();
        let mut first = u64::from(root) * NUMBERS;
        let mut width = NUMBERS;
        for slot in at.as_slice() {
            width /= DIGITS;
            first += (u64::from(slot.get()) + 1) * width;
        }
        Branch { first, width }
    }

    /// Whether a key is of this root, and its path this one or below it.
    pub fn has(&self, key: &RowKey) -> bool
        ensures { result ≡ is_prefix (key_list self.now) (key_list key.now) }
    {
        if key.number < self.first {
            return false;
        }
        key.number - self.first < self.width
    }
}
