ghost use Rattle.std.specs.Prelude.{◌≡◌, ◌^◌, true, false};
ghost use Rattle.page_codec.specs.Values.{PageValue};
ghost use Rattle.draft_model.specs.Told.{is_marked};
ghost use Rattle.draft_tree.specs.Marking.{copied_with, searched_more, searched_all, data_read};

use afs_base::Slot;

/// Whether some bit of the mask is set.
pub fn has_any(mask: u16) -> bool
    ensures { result ≡ is_marked mask }
{
    mask != 0
}

/// The marks of a page that an update copied or made. `live` is false once it, or a page above it, was dropped; the others stay. `read` and
/// `written` speak of its data, and bit k of `searched` says that slot k was read. Which slots were written is the mask of the page.
#[derive(Clone, Copy, Debug, PartialEq, Eq)]
pub struct Marks {
    pub live: bool,
    pub read: bool,
    pub written: bool,
    pub searched: u16,
}

impl Marks {
    /// The marks of a page that was just copied.
    pub fn fed() -> Self
        ensures { result
            ≡ record { live = true; read = false; written = false; searched = 0 } }
    {
        Marks {
            live: true,
            read: false,
            written: false,
            searched: 0,
        }
    }

    /// Marks a slot as read, if the page is there.
    pub(crate) fn search(&mut self, slot: Slot)
        ensures { (page : PageValue) → copied_with self.new page
            ≡ searched_more (2 ^ slot) (copied_with self.old page) }
    {
        if self.live {
            self.searched |= 1 << slot.get();
        }
    }

    /// Marks every slot as read, if the page is there.
    pub(crate) fn search_all(&mut self)
        ensures { (page : PageValue) →
            copied_with self.new page ≡ searched_all (copied_with self.old page) }
    {
        if self.live {
            self.searched = u16::MAX;
        }
    }

    /// Marks the data as read, if the page is there and its data was not written before.
    pub(crate) fn read(&mut self)
        ensures { (page : PageValue) →
            copied_with self.new page ≡ data_read (copied_with self.old page) }
    {
        if self.live {
            self.read |= !self.written;
        }
    }
}
