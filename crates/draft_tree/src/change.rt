ghost use Rattle.std.specs.Prelude.{◌≡◌};
ghost use Rattle.draft_tree.specs.declared.marks.Marks.{Marks as MarksRead};
ghost use Rattle.draft_tree.specs.Marking.{copied_with, data_written, child_made, child_dropped, merged_with, after_change, FitsPage};

use crate::marks::Marks;
use afs_base::{PageData, Slot};
use page_codec::{Page, Reference};

/// One change of a page that an update copied or made.
#[derive(Clone, Copy, Debug)]
pub enum Change {
    /// A slot was read.
    Search(Slot),
    /// Every slot was read.
    SearchAll,
    /// The data was read.
    Read,
    /// The data was replaced.
    Write(PageData),
    /// A page was made in a slot.
    MakeChild(Slot),
    /// The page in a slot was dropped.
    DropChild(Slot),
    /// The slots and the data of a merged page of the same level were taken over.
    Merge(Page),
}

/// Replaces the data and marks it as written, if the page is there.
fn write(marks: &mut Marks, page: &mut Page, bytes: &PageData)
    ensures { copied_with marks.new page.new
        ≡ data_written bytes.now (copied_with marks.old page.old) }
{
    if marks.live {
        marks.written = true;
        page.bytes = *bytes;
    }
}

/// Marks that a page was made in a slot.
fn make_child(page: &mut Page, slot: Slot)
    ensures { (m : MarksRead) →
        copied_with m page.new ≡ child_made slot (copied_with m page.old) }
{
    page.modified |= 1 << slot.get();
}

/// Empties a slot, and marks that its page was dropped.
fn drop_child(page: &mut Page, slot: Slot)
    ensures { (m : MarksRead) →
        copied_with m page.new ≡ child_dropped slot (copied_with m page.old) }
{
    let number = slot.get();
    page.modified |= 1 << number;
    page.refs[number as usize] = Reference::empty();
}

/// Takes over the slots and the data of a merged page of the same level.
fn merge(page: &mut Page, merged: &Page)
    requires { page.old.level ≡ merged.now.level }
    ensures { page.new ≡ merged_with merged.now page.old }
{
    let modified = page.modified;
    *page = *merged;
    page.modified = modified;
}

impl Change {
    /// Does the change to a page and its marks. A merged page is of the level of this one.
    pub fn apply(&self, marks: &mut Marks, page: &mut Page)
        requires { FitsPage self.now (copied_with marks.old page.old) }
        ensures { copied_with marks.new page.new
            ≡ after_change self.now (copied_with marks.old page.old) }
    {
        match self {
            Change::Search(slot) => marks.search(*slot),
            Change::SearchAll => marks.search_all(),
            Change::Read => marks.read(),
            Change::Write(bytes) => write(marks, page, bytes),
            Change::MakeChild(slot) => make_child(page, *slot),
            Change::DropChild(slot) => drop_child(page, *slot),
            Change::Merge(merged) => merge(page, merged),
        }
    }
}
