// What a new store is made of.
ghost use Rattle.std.specs.Prelude.{◌≡◌, ℕ, ◌+◌, ◌^◌, ◌<◌, ◌≤◌, MatchOption};
ghost use Rattle.new_store.specs.Sizes.{IsInRange, part_count, used_blocks};

use afs_base::{MAX_BLOCKS, MAX_OBJECTS, PART_ENTRIES, ROOT_ENTRIES};

/// How many files have their entries in block 0; a store of more has a table of several blocks.
pub const ROOT_FILES: u32 = ROOT_ENTRIES as u32;

// How many files have their entries in one part of a table.
const PART_FILES: u32 = PART_ENTRIES as u32;

/// What a new store is made of: the key of its capabilities; the number of its files, 1 to 4,032;
/// and the number of its blocks, at most 65,536, of which the table and one page for each file have
/// to find room.
#[derive(Clone, Copy, Debug)]
pub struct NewStore {
    pub key: u64,
    pub files: u32,
    pub blocks: u32,
    ghost word: { key < 2 ^ 64 },
    ghost some: { 1 ≤ files },
    ghost most: { files ≤ 4032 },
    ghost room: { used_blocks files ≤ blocks },
    ghost fits: { blocks ≤ 65536 },
}

/// How many parts the table of so many files has: none up to 60, and then one for each 63.
fn part_count(files: u32) -> u32
    requires { files ≤ 4032 }
    ensures { result ≡ part_count files }
{
    if files <= ROOT_FILES {
        0
    } else {
        (files + (PART_FILES - 1)) / PART_FILES
    }
}

impl NewStore {
    /// A new store of this key, of so many files, 1 to 4,032, and so many blocks, at most 65,536.
    /// It is none where the numbers are out of range, or the blocks too few: one for the table, one
    /// for each file, and where there are more than 60 files, one for each 63 of them.
    pub fn of(key: u64, files: u32, blocks: u32) -> Option<NewStore>
        ensures { MatchOption result (IsInRange files blocks → ⊥) (λ s. (s.key ≡ key)
            × (s.files ≡ files) × (s.blocks ≡ blocks)) }
    {
        if files < 1 || files > MAX_OBJECTS || blocks > MAX_BLOCKS {
            return None;
        }
        if 1 + files + part_count(files) > blocks {
            return None;
        }
        Some(NewStore { key, files, blocks })
    }

    /// How many parts the table has: none in format 1.
    pub fn parts(&self) -> u32
        ensures { result ≡ part_count self.now.files }
    {
        part_count(self.files)
    }

    /// How many blocks are in use: the table, a version page for each file, and the parts of the
    /// table.
    pub fn used_blocks(&self) -> u32
        ensures { result ≡ used_blocks self.now.files }
    {
        1 + self.files + self.parts()
    }
}
