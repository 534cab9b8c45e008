ghost use Rattle.std.specs.Prelude.{◌≡◌, [], filter, IfOk, OnOk, Some, true};
ghost use Rattle.std.specs.FinSet as set;
ghost use Rattle.tree_model.specs.Trees.{has};
ghost use Rattle.tree_model.specs.Accesses.{IsClash, KeepsVisible, own_reads, reads_of, step_reads, step_writes, writes_of};
ghost use Rattle.tree_model.specs.Gathered.{are_distinct, least_with, lesser, with_places};

use crate::places::{
    Place, contains, insert, insert_slots, insert_way, keep_there, named_slot, place_order,
};
use crate::step::Step;
use crate::tree::Tree;
use afs_base::{Kind, Memory, Path};
use std::alloc::Global;
use std::marker::Model;

/// What an update has read and what it has written: places of pages, each once. Contracts see the two lists.
#[derive(Drop)]
pub struct Access {
    reads: Vec<Place>,
    writes: Vec<Place>,
}

impl Model for Access {
    ghost use Rattle.std.specs.Prelude.{◌≡◌, true};
    ghost use Rattle.tree_model.specs.Gathered.{Accessed, are_distinct};

    ghost Value = { Accessed };

    ghost view = { λ a. record { reads = a.reads.items; writes = a.writes.items } };

    ghost invariant = { λ a. (are_distinct a.reads.items ≡ true)
        × (are_distinct a.writes.items ≡ true) };
}

impl Access {
    /// The places read, none of them twice. Takes no memory.
    pub fn reads(&self) -> &[(Path, Kind)]
        ensures reads { result.now ≡ self.now.reads }
        ensures distinct { are_distinct result.now ≡ true }
    {
        &self.reads
    }

    /// The places written, none of them twice. Takes no memory.
    pub fn writes(&self) -> &[(Path, Kind)]
        ensures writes { result.now ≡ self.now.writes }
        ensures distinct { are_distinct result.now ≡ true }
    {
        &self.writes
    }

    /// The writes on pages of `after`, and no reads. Where `after` is the tree after the update, these are the writes that
    /// another update can see.
    pub fn visible(&self, alloc: Global, after: &Tree) -> Result<Access, Memory>
        ensures reads { IfOk result (λ a. a.reads ≡ []) }
        ensures writes { IfOk result
            (λ a. a.writes ≡ filter (λ x. has after.now x.0) self.now.writes) }
        ensures visible { IfOk result (λ a. KeepsVisible self.now.writes after.now a.writes) }
    {
        let mut writes = Vec::from_slice(alloc, &self.writes)?;
        keep_there(&mut writes, after);
        Ok(Access {
            reads: Vec::new(alloc),
            writes,
        })
    }
}

/// What these steps read and write on the tree, each step seen on the tree before it.
pub fn accesses(alloc: Global, base: &Tree, steps: &[Step]) -> Result<Access, Memory>
    ensures reads { IfOk result (λ a. set.from_list a.reads ≡ reads_of base.now steps.now) }
    ensures writes { IfOk result (λ a. set.from_list a.writes ≡ writes_of base.now steps.now) }
{
    let mut tree = base.copy(alloc)?;
    let mut reads = Vec::new(alloc);
    let mut writes = Vec::new(alloc);
    for step in steps {
        add_reads(&mut reads, &tree, &writes, step)?;
        add_writes(&mut writes, &tree, step)?;
        tree.step(step)?;
    }
    Ok(Access { reads, writes })
}

/// The least place that `mine` reads and `visible` writes: by path, then the data before every slot, then the lesser slot.
/// None exactly where there is no such place. Takes no memory.
pub fn first_clash(mine: &Access, visible: &Access) -> Option<(Path, Kind)>
    ensures { IsClash (set.from_list mine.now.reads) (set.from_list visible.now.writes) result }
{
    let mut least = None;
    for place in &mine.reads {
        least = least_with_place(&visible.writes, least, place);
    }
    least
}

fn least_with_place(writes: &[Place], least: Option<Place>, place: &Place) -> Option<Place>
    ensures { result ≡ least_with writes.now least place.now }
{
    if contains(writes, place) {
        Some(lesser_place(least, *place))
    } else {
        least
    }
}

fn lesser_place(least: Option<Place>, place: Place) -> Place
    ensures { Some result ≡ lesser least place }
{
    match least {
        Some(least) if !place_order(&place, &least).is_lt() => least,
        _ => place,
    }
}

fn add_reads(
    reads: &mut Vec<Place>,
    tree: &Tree,
    writes: &[Place],
    step: &Step,
) -> Result<(), Memory>
    ensures { OnOk result
        (reads.new.items ≡ with_places reads.old.items (step_reads tree.now writes.now step.now)) }
{
    insert_way(reads, tree, &step.target())?;
    add_own_reads(reads, tree, writes, step)
}

/// What a step reads besides the way to its path.
fn add_own_reads(
    reads: &mut Vec<Place>,
    tree: &Tree,
    writes: &[Place],
    step: &Step,
) -> Result<(), Memory>
    ensures { OnOk result
        (reads.new.items ≡ with_places reads.old.items (own_reads tree.now writes.now step.now)) }
{
    match step {
        Step::ReadAt { at } if tree.has(at) && !contains(writes, &(*at, Kind::Data)) => insert(
            reads,
            (*at, Kind::Data),
        ),
        Step::ListAt { at } if tree.has(at) => insert_slots(reads, at),
        Step::MakeAt { at } if tree.can_make(at) => insert_slots(reads, &at.path()),
        _ => Ok(()),
    }
}

fn add_writes(writes: &mut Vec<Place>, tree: &Tree, step: &Step) -> Result<(), Memory>
    ensures { OnOk result
        (writes.new.items ≡ with_places writes.old.items (step_writes tree.now step.now)) }
{
    match step {
        Step::WriteAt { at, .. } if tree.has(at) => insert(writes, (*at, Kind::Data)),
        Step::MakeAt { at } if tree.can_make(at) => {
            insert(writes, named_slot(at))?;
            insert(writes, (at.path(), Kind::Data))?;
            insert_slots(writes, &at.path())
        }
        Step::DropAt { at } if tree.has(&at.path()) => insert(writes, named_slot(at)),
        _ => Ok(()),
    }
}
