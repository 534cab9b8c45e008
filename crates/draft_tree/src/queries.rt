//! What the pages of an update tell, by looks alone.
ghost use Rattle.std.specs.Prelude.{◌≡◌, ◌++◌, [], ◌∷◌, false, option_map};
ghost use Rattle.std.specs.Option.{option_map_or};
ghost use Rattle.draft_model.specs.Entries.{shown};
ghost use Rattle.draft_model.specs.Steps.{data_reply, is_there};
ghost use Rattle.draft_model.specs.Told.{flags_of, searched_of, modified_of};
ghost use Rattle.draft_model.specs.Views.{copies, live};
ghost use Rattle.draft_tree.specs.Drafts.{live_page};
ghost use Rattle.draft_tree.specs.Pages.{IsShort, wanted_block};

use crate::page_list::PageList;
use crate::slot_marks::SlotMarks;
use afs_base::{BlockNo, Path, Slot};
use page_codec::Page;
use ref_flags::Flags;
use tree_model::Reply;

/// Whether a page is live at the path.
pub(crate) fn is_live<P: PageList>(pages: &P, at: &Path) -> bool
    ensures { result ≡ live (copies (shown (P.entries pages.now))) at.now }
{
    match pages.look(at) {
        Some(look) => look.marks.live,
        None => false,
    }
}

/// Whether a page is live in a slot of the page at the path. No page stands at a path of more than seven slots.
fn is_child_live<P: PageList>(pages: &P, above: &Path, slot: Slot) -> bool
    requires { IsShort (P.entries pages.now) }
    ensures { result
        ≡ live (copies (shown (P.entries pages.now))) (above.now ++ slot ∷ []) }
{
    match above.child(slot) {
        Ok(path) => is_live(pages, &path),
        Err(_) => false,
    }
}

/// Whether the update's tree has a page in a slot of the page at the path: one that is live, or one of the base that is not copied.
pub(crate) fn has_child<P: PageList>(pages: &P, above: &Path, slot: Slot) -> bool
    ensures { result ≡ is_there (copies (shown (P.entries pages.now))) (above.now, slot) }
{
    match pages.look(above) {
        Some(look) => look.marks.live
            && (is_child_live(pages, above, slot) || look.block(slot).is_some()),
        None => false,
    }
}

/// The block of the base's page in a slot of the page at the path, where that page is live and its child is not copied.
pub(crate) fn wanted_block<P: PageList>(pages: &P, above: &Path, slot: Slot) -> Option<BlockNo>
    ensures { result ≡ wanted_block (copies (shown (P.entries pages.now))) above.now slot }
{
    match pages.look(above) {
        Some(look) => {
            if look.marks.live && !is_child_live(pages, above, slot) {
                look.block(slot)
            } else {
                None
            }
        }
        None => None,
    }
}

/// Whether the data of a page at the path was read.
pub(crate) fn was_read<P: PageList>(pages: &P, at: &Path) -> bool
    ensures { result ≡ option_map_or (λ c. c.read) (shown (P.entries pages.now) at.now) false }
{
    match pages.look(at) {
        Some(look) => look.marks.read,
        None => false,
    }
}

/// The answer to a read of the path.
pub(crate) fn data<P: PageList>(pages: &P, at: &Path) -> Reply
    ensures { result ≡ data_reply (copies (shown (P.entries pages.now)) at.now) }
{
    match pages.look(at) {
        Some(look) => look.data(),
        None => Reply::Absent,
    }
}

/// The marks of the path.
pub fn flags<P: PageList>(pages: &P, at: &Path) -> Flags
    ensures { result ≡ flags_of (shown (P.entries pages.now) at.now) }
{
    match pages.look(at) {
        Some(look) => look.flags(),
        None => Flags::none(),
    }
}

/// The slots of the page at the path that were read and written.
pub fn slots<P: PageList>(pages: &P, at: &Path) -> SlotMarks
    ensures searched { result.searched ≡ searched_of (shown (P.entries pages.now) at.now) }
    ensures modified { result.modified ≡ modified_of (shown (P.entries pages.now) at.now) }
{
    match pages.look(at) {
        Some(look) => look.slots(),
        None => SlotMarks {
            searched: 0,
            modified: 0,
        },
    }
}

/// The page that is live at the path.
pub fn live_page<P: PageList>(pages: &P, at: &Path) -> Option<Page>
    ensures { result ≡ live_page (copies (shown (P.entries pages.now)) at.now) }
{
    match pages.look(at) {
        Some(look) => {
            if look.marks.live {
                Some(*look.page)
            } else {
                None
            }
        }
        None => None,
    }
}
