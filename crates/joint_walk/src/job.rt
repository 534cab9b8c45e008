//! What a walk asks a draft of the page at a path and of those below it.
ghost use Rattle.std.specs.Prelude.{◌≡◌, ℕ, ◌+◌, ◌-◌, ◌*◌, ◌^◌, ◌<◌, ◌≤◌, ◌&&◌, [], ◌∷◌, ◌++◌, length, nat_lt, false, None, if◌then◌else◌};
ghost use Rattle.std.specs.Int.RustNames.{bit_or};
ghost use Rattle.std.specs.Option.{option_map_or};
ghost use Rattle.page_places.specs.Places.{has_bit, slot_block};
ghost use Rattle.draft_model.specs.Told.{is_accessed, is_marked};
ghost use Rattle.draft_model.specs.Views.{copies, live};
ghost use Rattle.joint_walk.specs.Pairs.{IsJobOf, accesses_child};
ghost use Rattle.joint_walk.specs.Walks.{put_wanted, wanted_children};

use crate::pending::{PendingList, PendingPage};
use afs_base::{MAX_DEPTH, Path, SLOTS, Slot};
use draft_tree::Draft;
use page_codec::{Page, Reference};
use page_merge::Job;
use ref_flags::Flags;

/// Whether some bit of the mask is set.
fn has_any(mask: u16) -> bool
    ensures { result ≡ is_marked mask }
{
    mask != 0
}

/// Whether a page is live at the path.
pub fn is_live<D: Draft>(draft: &D, at: &Path) -> bool
    requires { D.is_ready draft.now }
    ensures { result ≡ live (copies (D.view draft.now)) at.now }
{
    let mut page = Page::empty(0);
    draft.page(at, &mut page)
}

/// Runs nothing. Its contract is what an array of slots has.
fn are_sixteen(refs: &[Reference])
    requires { length refs.now ≡ SLOTS }
    ensures { length refs.now ≡ SLOTS }
{}

/// Runs nothing. Its contract is what every page has: sixteen slots, none of them in use at level 7.
fn look_at(page: &Page)
    ensures whole { length page.now.refs ≡ SLOTS }
    ensures depth { page.now.level ≤ MAX_DEPTH }
    ensures leaf { page.now.level ≡ MAX_DEPTH → (k : ℕ) → slot_block page.now k ≡ None }
{
    are_sixteen(&page.refs);
}

/// Whether the draft read or wrote something of the page at the path.
fn is_accessed<D: Draft>(draft: &D, at: &Path) -> bool
    requires { D.is_ready draft.now }
    ensures { result ≡ option_map_or is_accessed (D.view draft.now at.now) false }
{
    let flags = draft.flags(at);
    let slots = draft.slots(at);
    (flags.read() | flags.written()) | (has_any(slots.searched) | has_any(slots.modified))
}

/// Whether a page is live in a slot of the page at a path.
fn is_child_live<D: Draft>(draft: &D, at: &Path, slot: Slot) -> bool
    requires { D.is_ready draft.now }
    ensures { result
        ≡ (nat_lt (length at.now) MAX_DEPTH
        && live (copies (D.view draft.now)) (at.now ++ slot ∷ [])) }
{
    at.len() < MAX_DEPTH && is_live(draft, &at.below(slot))
}

/// The mask with a slot more, if its page is live.
fn with_slot(kept: u16, number: u8, live: bool) -> u16
    requires { number < SLOTS }
    ensures { result ≡ (if live then bit_or kept (2 ^ number) else kept) }
{
    if live { kept | 1 << number } else { kept }
}

/// The slots of the page at the path whose children are live.
fn kept_slots<D: Draft>(draft: &D, at: &Path) -> u16
    requires { D.is_ready draft.now }
    ensures { (k : ℕ) → k < SLOTS → has_bit result k
        ≡ (nat_lt (length at.now) MAX_DEPTH
        && live (copies (D.view draft.now)) (at.now ++ k ∷ [])) }
{
    let mut kept = 0u16;
    for number in 0..16u8 {
        let live = is_child_live(draft, at, Slot::at(number));
        kept = with_slot(kept, number, live);
    }
    kept
}

/// The draft's page at the path with its marks there, and theirs.
pub fn job_of<D: Draft>(draft: &D, at: &Path, theirs: &Page, changed: Flags) -> Job
    requires ready { D.is_ready draft.now }
    requires level { theirs.now.level ≡ length at.now }
    ensures { IsJobOf (D.view draft.now) at.now theirs.now changed result }
{
    let mut mine = Page::empty(at.len() as u8);
    let _live = draft.page(at, &mut mine);
    look_at(&mine);
    look_at(theirs);
    let slots = draft.slots(at);
    Job {
        mine,
        marks: draft.flags(at),
        searched: slots.searched,
        modified: slots.modified,
        theirs: *theirs,
        changed,
        kept: kept_slots(draft, at),
    }
}

/// Puts the page in a slot before those to be read, where it is the later version's own and the draft accessed it.
fn add_child<D: Draft>(
    draft: &D,
    at: &Path,
    slot: Slot,
    reference: &Reference,
    pending: &mut PendingList,
)
    requires ready { D.is_ready draft.now }
    requires leaf { length at.now ≡ MAX_DEPTH → reference.now.block ≡ None }
    requires room { length pending.old ≤ 16 * length at.now + 16 }
    ensures { pending.new
        ≡ put_wanted (reference.now.flags.copied && accesses_child (D.view draft.now) at.now slot)
        (at.now ++ slot ∷ []) reference.now.flags reference.now.block pending.old }
{
    if let Some(block) = reference.block {
        if let Ok(path) = at.child(slot) {
            if reference.flags.copied() && is_accessed(draft, &path) {
                pending.push(PendingPage {
                    path,
                    block,
                    flags: reference.flags,
                });
            }
        }
    }
}

/// Puts the pages below a page before those to be read: those that are the later version's own and that the draft accessed.
pub fn add_children<D: Draft>(draft: &D, at: &Path, page: &Page, pending: &mut PendingList)
    requires ready { D.is_ready draft.now }
    requires level { page.now.level ≡ length at.now }
    requires room { length pending.old ≤ 16 * length at.now }
    ensures { pending.new
        ≡ wanted_children (accesses_child (D.view draft.now) at.now) at.now 0 page.now.refs
        ++ pending.old }
{
    look_at(page);
    for done in 0..16u8 {
        let number = 15 - done;
        add_child(
            draft,
            at,
            Slot::at(number),
            &page.refs[number as usize],
            pending,
        );
    }
}
