//! What steps do on a tree: their answers, the tree after them, what they read and what they wrote.
use super::lines::{Answer, Data, NO_DATA, Step};
use super::paths::{Kind, Path, Place, SLOTS};
use std::alloc::{AllocError, Global};
use std::collections::{BTreeMap, BTreeSet};

/// The data of each page of a tree.
pub type Tree = BTreeMap<Path, Data>;

/// What was read or written.
pub type Places = BTreeSet<Place>;

/// A tree after some steps, and what these read and wrote, each seen on the tree before it. Nothing is ever taken out.
#[derive(Drop)]
pub struct Draft {
    pub tree: Tree,
    pub reads: Places,
    pub writes: Places,
}

fn data_of(at: Path) -> Place {
    Place {
        at,
        kind: Kind::Data,
    }
}

fn slot_of(at: Path, slot: u8) -> Place {
    Place {
        at,
        kind: Kind::Slot(slot),
    }
}

/// Adds each slot of a page.
fn add_all_slots(places: &mut Places, at: Path) -> Result<(), AllocError> {
    for slot in 0..SLOTS {
        places.insert(slot_of(at, slot))?;
    }
    Ok(())
}

/// Whether a page stands on the way to one of these places, or is one of their pages.
fn leads_to_one(at: &Path, places: &Places) -> bool {
    for place in places.iter() {
        if at.is_prefix_of(&place.at) {
            return true;
        }
    }
    false
}

impl Draft {
    /// A tree as it is before the first step.
    pub fn on(alloc: Global, tree: &Tree) -> Result<Draft, AllocError> {
        Ok(Draft {
            tree: tree.clone()?,
            reads: BTreeSet::new(alloc),
            writes: BTreeSet::new(alloc),
        })
    }

    fn has(&self, at: &Path) -> bool {
        self.tree.contains_key(at)
    }

    /// Does a step.
    pub fn step(&mut self, step: Step, at: Path) -> Result<Answer, AllocError> {
        self.pass_to(at)?;
        match step {
            Step::Read => self.read(at),
            Step::List => self.list(at),
            Step::Write(data) => self.write(at, data),
            Step::Make => self.make(at),
            Step::Drop => self.drop_page(at),
        }
    }

    /// Reads the slot that leads to a path on each page above it that is there.
    fn pass_to(&mut self, at: Path) -> Result<(), AllocError> {
        for len in 0..at.len() {
            let above = at.front(len);
            if self.has(&above) {
                self.reads.insert(slot_of(above, at.slot(len)))?;
            }
        }
        Ok(())
    }

    fn read(&mut self, at: Path) -> Result<Answer, AllocError> {
        let Some(data) = self.tree.get(&at).copied() else {
            return Ok(Answer::Absent);
        };
        if !self.writes.contains(&data_of(at)) {
            self.reads.insert(data_of(at))?;
        }
        Ok(Answer::Bytes(data))
    }

    fn list(&mut self, at: Path) -> Result<Answer, AllocError> {
        if !self.has(&at) {
            return Ok(Answer::Absent);
        }
        add_all_slots(&mut self.reads, at)?;
        let mut slots = [false; SLOTS as usize];
        for slot in 0..SLOTS {
            slots[slot as usize] = at.child(slot).is_some_and(|child| self.has(&child));
        }
        Ok(Answer::Slots(slots))
    }

    fn write(&mut self, at: Path, data: Data) -> Result<Answer, AllocError> {
        if !self.has(&at) {
            return Ok(Answer::Absent);
        }
        self.tree.insert(at, data)?;
        self.writes.insert(data_of(at))?;
        Ok(Answer::Done)
    }

    fn make(&mut self, at: Path) -> Result<Answer, AllocError> {
        let Some((above, slot)) = at.above() else {
            return Ok(Answer::Present);
        };
        if !self.has(&above) {
            return Ok(Answer::Absent);
        }
        if self.has(&at) {
            return Ok(Answer::Present);
        }
        self.tree.insert(at, NO_DATA)?;
        self.writes.insert(slot_of(above, slot))?;
        self.writes.insert(data_of(at))?;
        add_all_slots(&mut self.writes, at)?;
        add_all_slots(&mut self.reads, at)?;
        Ok(Answer::Done)
    }

    fn drop_page(&mut self, at: Path) -> Result<Answer, AllocError> {
        let Some((above, slot)) = at.above() else {
            return Ok(Answer::Absent);
        };
        if !self.has(&at) {
            return Ok(Answer::Absent);
        }
        self.tree.retain(|path, _| !at.is_prefix_of(path));
        self.writes.insert(slot_of(above, slot))?;
        Ok(Answer::Done)
    }

    /// The writes that others can see: those at paths of the tree.
    pub fn visible(&self, alloc: Global) -> Result<Places, AllocError> {
        let mut visible = BTreeSet::new(alloc);
        for place in self.writes.iter() {
            if self.has(&place.at) {
                visible.insert(*place)?;
            }
        }
        Ok(visible)
    }

    /// How many pages the tree has at or below which something was written: those of a new version.
    pub fn fresh(&self) -> usize {
        let mut count = 0usize;
        for at in self.tree.keys() {
            if leads_to_one(at, &self.writes) {
                count = count.saturating_add(1);
            }
        }
        count
    }

    /// The least place that was read here and is among those that another update is seen to have written.
    pub fn clash(&self, visible: &Places) -> Option<Place> {
        for place in self.reads.iter() {
            if visible.contains(place) {
                return Some(*place);
            }
        }
        None
    }
}
