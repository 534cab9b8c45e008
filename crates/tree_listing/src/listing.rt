// The pages of a version, one after the other in the order of their paths.
ghost use Rattle.std.specs.Prelude.{◌≡◌, ◌≤◌, ◌<◌, ◌+◌, ◌++◌, [], ◌∷◌, ℕ, List, IsErrOf, length, Err, Some, OnOk};
ghost use Rattle.drives.specs.declared.device.Half.{Half};
ghost use Rattle.page_codec.specs.declared.why.Why.{Why};
ghost use Rattle.tree_model.specs.Trees.{Tree};
ghost use Rattle.page_places.specs.Places.{Holds};
ghost use Rattle.store_model.specs.Laws.{pages_of};
ghost use Rattle.pair_store.specs.Faults.{IsStopped};
ghost use Rattle.store_check.specs.Since.{IsUnreadSince, OnlyRead};
ghost use Rattle.store_check.specs.declared.refused.WalkRefused.{WalkRefused};
ghost use Rattle.tree_listing.specs.TreeText.{tree_text};
ghost use Rattle.tree_listing.specs.Listing.{AreReadable, EachBelow, EachBelowSlots, IsOpen, blocks_of};
ghost use Rattle.tree_listing.specs.FirstFault.{IsFirstFault};
ghost use Rattle.tree_listing.specs.Results.{AppendsTree, Gives, Grows};
ghost use Rattle.tree_listing.specs.Walk.{AreBelow, AreUnder, IsRising, Lists, pages_from, pages_named, slot_pages, slots_pages};

use crate::line::append_line;
use crate::reading::{page_named, root_in};
use afs_base::{BlockNo, Path, Slot};
use page_codec::{Page, Reference, SLOTS};
use pair_store::Blocks;
use std::alloc::Global;
use store_check::WalkRefused;

/// The path of the page in slot `k` of the page at a path.
fn child_of(path: &Path, k: usize) -> Path
    requires slot { k < 16 }
    requires short { length path.now ≤ 6 }
    ensures { result ≡ path.now ++ k ∷ [] }
{
    path.below(Slot::at(k as u8))
}

/// Appends the line of a page, and the lines of all pages below it.
#[cycle(pages)]
fn list_page<B: Blocks>(
    alloc: Global,
    store: &mut B,
    n: BlockNo,
    path: &Path,
    page: &Page,
    depth: u8,
    out: &mut Vec<u8>,
) -> Result<(), WalkRefused>
    requires { length path.now + depth ≡ 7 }
    ensures only { OnlyRead B.Blocks store.old store.new }
    ensures grows { Grows out.old.items out.new.items }
    ensures lists { Lists IsRising (B.tells
        × EachBelowSlots (B.settled store.old) (pages_of (B.content store.old)) page.now.refs)
        path.now out.old.items out.new.items result
        (pages_from (blocks_of B.content B.size store.old) depth n page.now) }
    ensures stopped { B.tells → EachBelowSlots (IsOpen (B.settled store.old) (B.content store.old))
        (pages_of (B.content store.old)) page.now.refs
        → (h : Half) → IsErrOf result (WalkRefused.ReadFault h)
        → IsStopped (B.faults store.old) (B.faults store.new) (B.last_fault store.new)
        (B.moment store.new) h }
    ensures unread { (h : Half) → IsErrOf result (WalkRefused.ReadFault h)
        → IsUnreadSince B.Blocks store.old store.new h }
{
    append_line(alloc, path, page.bytes.bytes(), out)?;
    if depth == 0 {
        return Ok(());
    }
    list_slots(alloc, store, n, path, &page.refs, depth - 1, out)
}

/// Appends the lines of all pages that are reached through these slots of the page at a path, ascending.
#[cycle(pages)]
fn list_slots<B: Blocks>(
    alloc: Global,
    store: &mut B,
    namer: BlockNo,
    path: &Path,
    refs: &[Reference; SLOTS],
    depth: u8,
    out: &mut Vec<u8>,
) -> Result<(), WalkRefused>
    requires { length path.now + depth ≡ 6 }
    ensures only { OnlyRead B.Blocks store.old store.new }
    ensures grows { Grows out.old.items out.new.items }
    ensures lists { Lists (AreBelow 16) (B.tells
        × EachBelowSlots (B.settled store.old) (pages_of (B.content store.old)) refs.now)
        path.now out.old.items out.new.items result
        (slots_pages (pages_named
        (blocks_of B.content B.size store.old) depth namer) 0 refs.now) }
    ensures stopped { B.tells → EachBelowSlots (IsOpen (B.settled store.old) (B.content store.old))
        (pages_of (B.content store.old)) refs.now
        → (h : Half) → IsErrOf result (WalkRefused.ReadFault h)
        → IsStopped (B.faults store.old) (B.faults store.new) (B.last_fault store.new)
        (B.moment store.new) h }
    ensures unread { (h : Half) → IsErrOf result (WalkRefused.ReadFault h)
        → IsUnreadSince B.Blocks store.old store.new h }
{
    'slots: for k in 0..SLOTS {
        list_slot(alloc, store, namer, path, k, &refs[k], depth, out)?;
    }
    Ok(())
}

/// Appends the lines of the page that slot `k` of the page at a path names, if it names one, and of all pages below it.
#[cycle(pages)]
fn list_slot<B: Blocks>(
    alloc: Global,
    store: &mut B,
    namer: BlockNo,
    path: &Path,
    k: usize,
    reference: &Reference,
    depth: u8,
    out: &mut Vec<u8>,
) -> Result<(), WalkRefused>
    requires slot { k < 16 }
    requires deep { length path.now + depth ≡ 6 }
    ensures only { OnlyRead B.Blocks store.old store.new }
    ensures grows { Grows out.old.items out.new.items }
    ensures lists { Lists (AreUnder k) (B.tells × ((m : ℕ) → reference.now.block ≡ Some m
        → EachBelow (B.settled store.old) (pages_of (B.content store.old)) m))
        path.now out.old.items out.new.items result
        (slot_pages (pages_named
        (blocks_of B.content B.size store.old) depth namer) k reference.now.block) }
    ensures stopped { B.tells → ((m : ℕ) → reference.now.block ≡ Some m
        → EachBelow (IsOpen (B.settled store.old) (B.content store.old))
        (pages_of (B.content store.old)) m)
        → (h : Half) → IsErrOf result (WalkRefused.ReadFault h)
        → IsStopped (B.faults store.old) (B.faults store.new) (B.last_fault store.new)
        (B.moment store.new) h }
    ensures unread { (h : Half) → IsErrOf result (WalkRefused.ReadFault h)
        → IsUnreadSince B.Blocks store.old store.new h }
{
    match reference.block {
        None => Ok(()),
        Some(n) => {
            let page = page_named(store, namer, n, 7 - depth)?;
            let child = child_of(path, k);
            list_page(alloc, store, n, &child, &page, depth, out)
        }
    }
}

/// Appends the lines of the pages of the version in block `root`, in the order of their paths. Each page is read once,
/// and nothing is written. After an error bytes may stand behind the old ones.
pub fn list_tree<B: Blocks>(
    alloc: Global,
    store: &mut B,
    root: BlockNo,
    out: &mut Vec<u8>,
) -> Result<(), WalkRefused>
    ensures only { OnlyRead B.Blocks store.old store.new }
    ensures grows { Grows out.old.items out.new.items }
    // What is appended is the text of some tree, whatever the blocks hold.
    ensures lines { OnOk result (AppendsTree out.old.items out.new.items) }
    // Where the blocks hold a tree, its text is appended, and no cause is found.
    ensures text { B.tells → (tree : Tree) → Holds (pages_of (B.content store.old)) root tree
        → AreReadable (B.settled store.old) (B.size store.old) (pages_of (B.content store.old)) root
        → Gives (out.new.items ≡ out.old.items ++ tree_text tree) result }
    // Where they hold none, the block and the cause are those of the first fault.
    ensures bad { B.tells → EachBelow (B.settled store.old) (pages_of (B.content store.old)) root
        → (block : ℕ) (why : Why) → IsErrOf result (WalkRefused.BadStore block why)
        → IsFirstFault (blocks_of B.content B.size store.old) root
        (record { block = block; why = why }) }
    // And a half that failed did so in the last call.
    ensures stopped { B.tells → (tree : Tree) → Holds (pages_of (B.content store.old)) root tree
        → AreReadable (B.settled store.old) (B.size store.old) (pages_of (B.content store.old)) root
        → (h : Half) → IsErrOf result (WalkRefused.ReadFault h)
        → IsStopped (B.faults store.old) (B.faults store.new) (B.last_fault store.new)
        (B.moment store.new) h }
    ensures unread { (h : Half) → IsErrOf result (WalkRefused.ReadFault h)
        → IsUnreadSince B.Blocks store.old store.new h }
{
    let page = root_in(store, root)?;
    list_page(alloc, store, root, &Path::root(), &page, 7, out)
}
