ghost use Rattle.std.specs.Prelude.{◌≡◌, ◌<◌, [], ◌∷◌, filter, OnOk, if◌then◌else◌};
ghost use Rattle.tree_model.specs.Trees.{has};
ghost use Rattle.tree_model.specs.Accesses.{is_among, on_the_way, place_cmp, slot_of, slots_at};
ghost use Rattle.tree_model.specs.Gathered.{with_place, with_places};

use crate::child::Child;
use crate::tree::Tree;
use afs_base::{Kind, Memory, Path, Slot};
use std::cmp::Ordering;

/// What an access touches: the data or a slot of the page at a path.
pub type Place = (Path, Kind);

/// Places are ordered by path, then the data before every slot, then by slot.
pub fn place_order(a: &Place, b: &Place) -> Ordering
    ensures { result ≡ place_cmp a.now b.now }
{
    a.0.cmp(&b.0).then(a.1.cmp(&b.1))
}

pub fn contains(places: &[Place], place: &Place) -> bool
    ensures { result ≡ is_among places.now place.now }
{
    places.iter().any(|other| place_order(place, other).is_eq())
}

/// Adds the place where it is not there yet.
pub fn insert(places: &mut Vec<Place>, place: Place) -> Result<(), Memory>
    ensures { OnOk result (places.new.items ≡ with_place places.old.items place) }
{
    if contains(places, &place) {
        return Ok(());
    }
    places.push(place)?;
    Ok(())
}

/// Adds the slots that lead to a path, of the pages above it that are there.
pub fn insert_way(places: &mut Vec<Place>, tree: &Tree, at: &Path) -> Result<(), Memory>
    ensures { OnOk result
        (places.new.items ≡ with_places places.old.items (on_the_way tree.now at.now)) }
{
    match Child::of(at) {
        Some(child) => {
            insert_way(places, tree, &child.above())?;
            insert_step_down(places, tree, &child)
        }
        None => Ok(()),
    }
}

/// Adds the slot that names a child, where the page above it is there.
fn insert_step_down(places: &mut Vec<Place>, tree: &Tree, child: &Child) -> Result<(), Memory>
    ensures { OnOk result (places.new.items ≡ with_places places.old.items
        (if has tree.now child.now.0 then slot_of child.now ∷ [] else [])) }
{
    if tree.has(&child.above()) {
        insert(places, named_slot(child))
    } else {
        Ok(())
    }
}

/// Adds every slot of the page at a path.
pub fn insert_slots(places: &mut Vec<Place>, at: &Path) -> Result<(), Memory>
    ensures { OnOk result (places.new.items ≡ with_places places.old.items (slots_at at.now)) }
{
    for slot in 0..16u8 {
        insert(places, slot_place(at, slot))?;
    }
    Ok(())
}

/// The slot that names a child on the page above it.
pub fn named_slot(child: &Child) -> Place
    ensures { result ≡ slot_of child.now }
{
    (child.above(), Kind::Slot(child.last()))
}

fn slot_place(at: &Path, slot: u8) -> Place
    requires { slot < 16 }
    ensures { result ≡ slot_of (at.now, slot) }
{
    match Slot::of(slot) {
        Ok(slot) => (*at, Kind::Slot(slot)),
        Err(_) => unreachable!(),
    }
}

/// Keeps the places on pages of the tree.
pub fn keep_there(places: &mut Vec<Place>, tree: &Tree)
    ensures { places.new.items ≡ filter (λ x. has tree.now x.0) places.old.items }
{
    places.retain(|place| tree.has(&place.0));
}
