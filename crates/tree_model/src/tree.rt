ghost use Rattle.std.specs.Prelude.{◌≡◌, ℕ, ◌+◌, ◌^◌, ◌<◌, ◌≤◌, ◌++◌, [], ◌∷◌, not, filter, position, OnOk, OnErr, IfOk, IsOk, is_some, true};
ghost use Rattle.std.specs.FinMap as map;
ghost use Rattle.afs_base.specs.Path.{is_prefix};
ghost use Rattle.tree_model.specs.declared.step.Step.TheVariants.{DropAt, ListAt, MakeAt, ReadAt, WriteAt};
ghost use Rattle.tree_model.specs.Entries.{is_at};
ghost use Rattle.tree_model.specs.Trees.{after, bit_of, can_make, child_bits, every_slot, has, IsKept, IsMake, reply_of, single, without};

use crate::child::Child;
use crate::step::{Reply, Step};
use afs_base::{Memory, PageData, Path, Slot};
use std::alloc::Global;
use std::marker::Model;

/// The pages of a version: the data at each path. It has `/`, and with each page those above it.
/// Contracts see the finite map from paths to data.
#[derive(Drop)]
pub struct Tree {
    // One page at each path, in the order in which they were made.
    pages: Vec<(Path, PageData)>,
}

impl Model for Tree {
    ghost use Rattle.std.specs.Prelude.{List, ℕ};
    ghost use Rattle.std.specs.Coded.{coded_ℕ, coded_list};
    ghost use Rattle.std.specs.FinMap as map;
    ghost use Rattle.afs_base.specs.Path.{path_cmp};

    ghost Value = { map.FinMap path_cmp (List ℕ) };

    ghost coded = { map.code (coded_list coded_ℕ) (coded_list coded_ℕ) };

    ghost use Rattle.tree_model.specs.Trees.{IsKept};

    ghost view = { λ t. map.from_entries t.pages.items };

    ghost invariant = { λ t. IsKept (map.from_entries t.pages.items) };
}

impl Tree {
    /// The tree of the page `/` alone, with no data.
    pub fn single(alloc: Global) -> Result<Tree, Memory>
        ensures { IfOk result (λ t. t ≡ single) }
    {
        let mut pages = Vec::new(alloc);
        pages.push((Path::root(), PageData::empty()))?;
        Ok(Tree { pages })
    }

    /// A second tree with the same pages.
    pub fn copy(&self, alloc: Global) -> Result<Tree, Memory>
        ensures { IfOk result (λ t. t ≡ self.now) }
    {
        let pages = Vec::from_slice(alloc, &self.pages)?;
        Ok(Tree { pages })
    }

    /// Whether the tree has a page at this path. Takes no memory.
    pub fn has(&self, at: &Path) -> bool
        ensures has { result ≡ has self.now at.now }
        ensures kept { IsKept self.now }
    {
        place_of(&self.pages, at).is_some()
    }

    /// The data of the page at this path, if there is one. Takes no memory.
    pub fn get(&self, at: &Path) -> Option<PageData>
        ensures { result ≡ map.get self.now at.now }
    {
        match place_of(&self.pages, at) {
            Some(i) => Some(self.pages[i].1),
            None => None,
        }
    }

    /// Whether a make of this page is done: the page above it is there and it is not. Takes no memory.
    pub fn can_make(&self, at: &Child) -> bool
        ensures { result ≡ can_make self.now at.now }
    {
        self.has(&at.above()) && !self.has(&at.path())
    }

    /// Takes one step: answers it, and changes the tree as it says. Only a make takes memory. After an error the tree is
    /// unchanged.
    pub fn step(&mut self, step: &Step) -> Result<Reply, Memory>
        ensures reply { IfOk result (λ reply. reply ≡ reply_of self.old step.now) }
        ensures after { OnOk result (self.new ≡ after self.old step.now) }
        ensures err { OnErr result (self.new ≡ self.old) }
        ensures memory { OnErr result (IsMake step.now) }
    {
        match step {
            Step::ReadAt { at } => Ok(self.read(at)),
            Step::ListAt { at } => Ok(self.list(at)),
            Step::WriteAt { at, bytes } => Ok(self.write(at, bytes)),
            Step::MakeAt { at } => self.make(at),
            Step::DropAt { at } => Ok(self.drop_below(at)),
        }
    }

    fn read(&self, at: &Path) -> Reply
        ensures { result ≡ reply_of self.now (ReadAt at.now) }
    {
        match self.get(at) {
            Some(bytes) => Reply::Bytes(bytes),
            None => Reply::Absent,
        }
    }

    fn list(&self, at: &Path) -> Reply
        ensures { result ≡ reply_of self.now (ListAt at.now) }
    {
        if self.has(at) {
            Reply::Slots(self.slots_below(at))
        } else {
            Reply::Absent
        }
    }

    /// One bit for each slot of the page at this path that has a page below it.
    fn slots_below(&self, at: &Path) -> u16
        ensures { result ≡ child_bits self.now at.now every_slot }
    {
        let mut bits = 0u16;
        for slot in 0..16u8 {
            bits += self.bit(at, slot);
        }
        bits
    }

    fn bit(&self, at: &Path, slot: u8) -> u16
        requires { slot < 16 }
        ensures { result ≡ bit_of self.now at.now slot }
    {
        if self.has_child(at, slot) {
            1 << slot
        } else {
            0
        }
    }

    fn has_child(&self, at: &Path, slot: u8) -> bool
        requires { slot < 16 }
        ensures { result ≡ has self.now (at.now ++ slot ∷ []) }
    {
        // At seven slots nothing lies below, and the type keeps that no page does.
        let pages = &self.pages;
        match Slot::of(slot) {
            Ok(slot) => match at.child(slot) {
                Ok(child) => place_of(pages, &child).is_some(),
                Err(_) => false,
            },
            Err(_) => false,
        }
    }

    fn write(&mut self, at: &Path, bytes: &PageData) -> Reply
        ensures reply { result ≡ reply_of self.old (WriteAt at.now bytes.now) }
        ensures after { self.new ≡ after self.old (WriteAt at.now bytes.now) }
    {
        // Data that is looked at is known to have at most 800 bytes.
        let _data = bytes.bytes();
        match place_of(&self.pages, at) {
            Some(i) => {
                self.pages[i] = (*at, *bytes);
                Reply::Done
            }
            None => Reply::Absent,
        }
    }

    fn make(&mut self, at: &Child) -> Result<Reply, Memory>
        ensures reply { IfOk result (λ reply. reply ≡ reply_of self.old (MakeAt at.now)) }
        ensures after { OnOk result (self.new ≡ after self.old (MakeAt at.now)) }
        ensures err { OnErr result (self.new ≡ self.old) }
    {
        if !self.has(&at.above()) {
            return Ok(Reply::Absent);
        }
        let path = at.path();
        if self.has(&path) {
            return Ok(Reply::Present);
        }
        self.pages.push((path, PageData::empty()))?;
        Ok(Reply::Done)
    }

    fn drop_below(&mut self, at: &Child) -> Reply
        ensures reply { result ≡ reply_of self.old (DropAt at.now) }
        ensures after { self.new ≡ after self.old (DropAt at.now) }
    {
        let path = at.path();
        if !self.has(&path) {
            return Reply::Absent;
        }
        keep_others(&mut self.pages, &path);
        Reply::Done
    }
}

/// The place of the page at this path.
fn place_of(pages: &[(Path, PageData)], at: &Path) -> Option<usize>
    ensures { result ≡ position (is_at at.now) pages.now }
{
    pages.iter().position(|page| page.0 == *at)
}

/// Keeps the pages that are not at or below this path.
fn keep_others(pages: &mut Vec<(Path, PageData)>, at: &Path)
    ensures { pages.new.items ≡ filter (λ page. not (is_prefix at.now page.0)) pages.old.items }
{
    pages.retain(|page| !at.is_prefix_of(&page.0));
}
