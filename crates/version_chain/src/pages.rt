ghost use Rattle.std.specs.Prelude.{◌≡◌, ◌++◌, ◌∷◌, [], length, true, false};
ghost use Rattle.std.specs.List.{list_any};
ghost use Rattle.page_codec.specs.Bounds.{is_used};
ghost use Rattle.draft_model.specs.Told.{are_rising};
ghost use Rattle.draft_model.specs.Views.{copies, live};
ghost use Rattle.draft_model.specs.Flush.{block_of, flushed_slot, flushed_slots};
ghost use Rattle.version_chain.specs.Flush.{paths_of, IsNextBelow, IsPageFor, IsPlaceOf};

use crate::place::{Place, behind, place_below};
use afs_base::{Path, Slot};
use draft_tree::Draft;
use page_codec::{Page, Reference, SLOTS};
use ref_flags::{Flags, Mark};

/// A slot of the page at `above` as it is written: a page that is written too is named by its new block and with its flags; any other slot
/// names the block that it named, without flags.
fn slot_of<D: Draft>(
    draft: &D,
    places: &[Place],
    next: usize,
    above: &Path,
    slot: Slot,
    old: Reference,
) -> Reference
    requires ready { D.is_ready draft.now }
    requires rising { are_rising (paths_of places.now) ≡ true }
    requires next { IsNextBelow places.now above.now slot next }
    ensures value { let below = above.now ++ slot ∷ [] in
        result ≡ flushed_slot (D.view draft.now below) (block_of places.now below) old }
    ensures leaf { length above.now ≡ 7 → result.block ≡ old.block }
{
    match place_below(places, next, above, slot) {
        Some(place) => Reference {
            flags: draft.flags(&place.path).see(Mark::Copy),
            block: Some(place.block),
        },
        None => Reference {
            flags: Flags::none(),
            block: old.block,
        },
    }
}

/// All slots of the page at `above`, whose place is `own`, as they are written. A page of level 7 still has none in use. The places at
/// and below the page are gone over once.
fn slots_of<D: Draft>(
    draft: &D,
    places: &[Place],
    own: usize,
    above: &Path,
    old: &[Reference; SLOTS],
) -> [Reference; SLOTS]
    requires ready { D.is_ready draft.now }
    requires rising { are_rising (paths_of places.now) ≡ true }
    requires own { IsPlaceOf places.now own above.now }
    ensures value { result ≡ flushed_slots (D.view draft.now) places.now above.now 0 old.now }
    ensures leaf { length above.now ≡ 7 → list_any is_used old.now ≡ false
        → list_any is_used result ≡ false }
{
    let mut refs = *old;
    let mut next = own + 1;
    'slots: for k in 0..SLOTS {
        let slot = Slot::at(k as u8);
        refs[k] = slot_of(draft, places, next, above, slot, refs[k]);
        next = behind(places, next, above, slot);
    }
    refs
}

/// The page that is written for the live path of a place.
pub fn page_for<D: Draft>(draft: &D, places: &[Place], own: usize, at: &Path) -> Page
    requires ready { D.is_ready draft.now }
    requires live { live (copies (D.view draft.now)) at.now ≡ true }
    requires rising { are_rising (paths_of places.now) ≡ true }
    requires own { IsPlaceOf places.now own at.now }
    ensures { IsPageFor (D.view draft.now) places.now at.now result }
{
    let mut page = Page::empty(0);
    let is_live = draft.page(at, &mut page);
    prove!(is_live);
    page.refs = slots_of(draft, places, own, at, &page.refs);
    page
}
