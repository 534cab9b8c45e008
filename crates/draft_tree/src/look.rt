ghost use Rattle.std.specs.Prelude.{◌≡◌, Some};
ghost use Rattle.page_places.specs.Places.{slot_block};
ghost use Rattle.draft_model.specs.Steps.{data_reply};
ghost use Rattle.draft_model.specs.Told.{flags_of, is_accessed};
ghost use Rattle.draft_model.specs.Views.{copy_of};
ghost use Rattle.draft_model.specs.Entries.{is_written};
ghost use Rattle.draft_tree.specs.Looking.{looked};

use crate::marks::{Marks, has_any};
use crate::slot_marks::SlotMarks;
use afs_base::{BlockNo, Slot};
use page_codec::Page;
use ref_flags::{Flags, Mark};
use tree_model::Reply;

/// A page that an update copied or made, looked at where it lies, and its marks.
#[derive(Clone, Copy, Debug)]
pub struct Look<'a> {
    pub marks: Marks,
    pub page: &'a Page,
}

impl Look<'_> {
    /// The block that a slot names.
    pub fn block(&self, slot: Slot) -> Option<BlockNo>
        ensures { result ≡ slot_block (looked self.now).page slot }
    {
        let page = self.page;
        let reference = page.refs[slot.get() as usize];
        reference.block
    }

    /// The answer to a read: the data, or that the page is not there.
    pub fn data(&self) -> Reply
        ensures { result ≡ data_reply (Some (copy_of (looked self.now))) }
    {
        let page = self.page;
        if self.marks.live {
            Reply::Bytes(page.bytes)
        } else {
            Reply::Absent
        }
    }

    /// Whether the data or some slot was written.
    pub fn is_written(&self) -> bool
        ensures { result ≡ is_written (looked self.now) }
    {
        let page = self.page;
        self.marks.written || has_any(page.modified)
    }

    /// Whether the update read or wrote something of the page.
    pub fn is_accessed(&self) -> bool
        ensures { result ≡ is_accessed (looked self.now) }
    {
        let marks = self.marks;
        let page = self.page;
        (marks.read || marks.written) || (has_any(marks.searched) || has_any(page.modified))
    }

    /// The marks as flags.
    pub fn flags(&self) -> Flags
        ensures { result ≡ flags_of (Some (looked self.now)) }
    {
        let marks = self.marks;
        let page = self.page;
        let mut flags = Flags::none().see(Mark::Copy);
        if marks.read {
            flags = flags.see(Mark::Read);
        }
        if marks.written {
            flags = flags.see(Mark::Write);
        }
        if has_any(marks.searched) {
            flags = flags.see(Mark::Search);
        }
        if has_any(page.modified) {
            flags = flags.see(Mark::Modify);
        }
        flags
    }

    /// The slots that were read and written.
    pub fn slots(&self) -> SlotMarks
        ensures searched { result.searched ≡ (looked self.now).searched }
        ensures modified { result.modified ≡ (looked self.now).page.modified }
    {
        let page = self.page;
        SlotMarks {
            searched: self.marks.searched,
            modified: page.modified,
        }
    }
}
