//! Paths of pages, as lists of slots, and places that are read and written.
use std::alloc::AllocError;

/// How many slots a path has at most.
pub const DEPTH: usize = 7;

/// How many slots a page has.
pub const SLOTS: u8 = 16;

/// A path: its slots, with zeros behind them, and how many they are. So paths are ordered as lists are.
#[derive(Clone, Copy, PartialEq, Eq, PartialOrd, Ord)]
pub struct Path {
    slots: [u8; DEPTH],
    len: usize,
}

/// What is touched of a page: its data, or one of its slots. The data stands first.
#[derive(Clone, Copy, PartialEq, Eq, PartialOrd, Ord)]
pub enum Kind {
    Data,
    Slot(u8),
}

/// What an update reads or writes, ordered by path and then by kind.
#[derive(Clone, Copy, PartialEq, Eq, PartialOrd, Ord)]
pub struct Place {
    pub at: Path,
    pub kind: Kind,
}

impl Path {
    /// `/`.
    pub const ROOT: Path = Path {
        slots: [0; DEPTH],
        len: 0,
    };

    pub fn len(&self) -> usize {
        self.len
    }

    /// The slot at a place of the path, counted from 0; 0 where it has none there.
    pub fn slot(&self, place: usize) -> u8 {
        self.slots.get(place).copied().unwrap_or(0)
    }

    /// The path of the first slots, or the whole where it has no more.
    pub fn front(&self, len: usize) -> Path {
        let mut front = Path::ROOT;
        for place in 0..DEPTH {
            if place < len && place < self.len {
                front.slots[place] = self.slots[place];
                front.len = place + 1;
            }
        }
        front
    }

    /// The path of the page in a slot, or none at seven slots.
    pub fn child(&self, slot: u8) -> Option<Path> {
        let mut child = *self;
        *child.slots.get_mut(self.len)? = slot;
        child.len = self.len.saturating_add(1);
        Some(child)
    }

    /// The path above, and the slot there; none for `/`.
    pub fn above(&self) -> Option<(Path, u8)> {
        let len = self.len.checked_sub(1)?;
        Some((self.front(len), self.slot(len)))
    }

    /// Whether the other path is this one or lies below it.
    pub fn is_prefix_of(&self, other: &Path) -> bool {
        other.front(self.len) == *self
    }

    pub fn is_root(&self) -> bool {
        self.len == 0
    }
}

/// Writes a path behind a text: `/`, or each slot after a stroke.
pub fn put_path(text: &mut String, path: &Path) -> Result<(), AllocError> {
    if path.is_root() {
        text.push_str("/")?;
    }
    for place in 0..path.len() {
        let slot = path.slot(place);
        write!(text, "/{slot}")?;
    }
    Ok(())
}
