ghost use Rattle.std.specs.Prelude.{◌≡◌, ◌+◌, ◌<◌, ◌++◌, ◌∷◌, [], length, true};
ghost use Rattle.afs_base.specs.Path.{is_prefix};
ghost use Rattle.page_places.specs.Places.{same};
ghost use Rattle.draft_model.specs.Told.{are_rising};
ghost use Rattle.version_chain.specs.Flush.{paths_of, FoundBelow, IsNextBelow};

use afs_base::{BlockNo, Path, Slot};
use std::marker::Model;

/// A page that is written: its path, and the block that it goes to, which is not 0.
#[derive(Clone, Copy, Debug)]
pub struct Place {
    pub path: Path,
    pub block: BlockNo,
}

impl Model for Place {
    ghost use Rattle.std.specs.Prelude.{◌<◌};
    ghost use Rattle.draft_model.specs.Flush.{Placed};

    ghost Value = { Placed };

    ghost view = { λ p. record { path = p.path; block = p.block } };

    ghost invariant = { λ p. 0 < p.block };

    ghost inverse = { λ p. record { path = p.path; block = p.block } };
}

/// What an unused place holds.
impl Default for Place {
    fn default() -> Place {
        Place {
            path: Path::root(),
            block: match BlockNo::of(1) {
                Ok(block) => block,
                Err(_) => unreachable!(),
            },
        }
    }
}

/// Whether `path` is that of the page in a slot of the page at `above`.
fn is_child(path: &Path, above: &Path, slot: Slot) -> bool
    ensures value { result ≡ same (above.now ++ slot ∷ []) path.now }
    ensures above { result ≡ true → length above.now < 7 }
{
    if path.len() != above.len() + 1 {
        return false;
    }
    match above.child(slot) {
        Ok(child) => child == *path,
        Err(_) => false,
    }
}

/// Whether `path` is that of the page in a slot of the page at `above`, or lies below it.
fn is_below(path: &Path, above: &Path, slot: Slot) -> bool
    ensures { result ≡ is_prefix (above.now ++ slot ∷ []) path.now }
{
    if path.len() <= above.len() {
        return false;
    }
    above.is_prefix_of(path) && path.slot(above.len()).get() == slot.get()
}

/// The place of the page in a slot of the page at `above`, where it is written. The places are in the order of their paths, and from
/// `next` on stand those of this slot and of the slots after it.
pub fn place_below(places: &[Place], next: usize, above: &Path, slot: Slot) -> Option<Place>
    requires rising { are_rising (paths_of places.now) ≡ true }
    requires next { IsNextBelow places.now above.now slot next }
    ensures { FoundBelow places.now above.now slot result }
{
    if next >= places.len() {
        return None;
    }
    let place = places[next];
    if is_child(&place.path, above, slot) {
        Some(place)
    } else {
        None
    }
}

/// From where on the places of the slots after this one stand: it looks at no place before `next`, nor behind the one that it answers.
pub fn behind(places: &[Place], next: usize, above: &Path, slot: Slot) -> usize
    requires rising { are_rising (paths_of places.now) ≡ true }
    requires next { IsNextBelow places.now above.now slot next }
    ensures { IsNextBelow places.now above.now (slot + 1) result }
{
    'search: for at in next..places.len() {
        let place = places[at];
        if !is_below(&place.path, above, slot) {
            return at;
        }
    }
    places.len()
}
