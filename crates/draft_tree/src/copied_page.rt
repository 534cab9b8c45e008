ghost use Rattle.std.specs.Prelude.{◌≡◌, ◌≤◌, true};
ghost use Rattle.draft_model.specs.Steps.{blank, fed_page};
ghost use Rattle.draft_model.specs.Entries.{is_written};
ghost use Rattle.draft_model.specs.Told.{is_accessed};
ghost use Rattle.draft_tree.specs.Looking.{looked};
ghost use Rattle.draft_tree.specs.Marking.{taken_away, after_change, FitsPage};

use crate::change::Change;
use crate::look::Look;
use crate::marks::Marks;
use page_codec::Page;
use std::marker::Model;

/// A page that an update copied or made, with its marks. `live` is false once it, or a page above it, was dropped; its marks stay. The
/// page's mask is that of the slots that the update wrote, `searched` that of the slots that it read.
#[derive(Clone, Copy, Debug)]
pub struct CopiedPage {
    pub marks: Marks,
    pub page: Page,
}

impl Model for CopiedPage {
    ghost use Rattle.draft_model.specs.Views.{Copied};

    ghost Value = { Copied };

    ghost view = { λ c. record {
      live = c.marks.live;
      read = c.marks.read;
      written = c.marks.written;
      searched =
          c.marks.searched;
      page = c.page;
    } };

    ghost inverse = { λ c. record {
      marks = record {
        live = c.live;
        read = c.read;
        written = c.written;
        searched =
            c.searched;
      };
      page = c.page;
    } };
}

impl CopiedPage {
    /// A page as it is copied from the base, without marks.
    pub fn fed(page: &Page) -> Self
        ensures { result ≡ fed_page page.now }
    {
        let mut copy = *page;
        copy.modified = 0;
        CopiedPage {
            marks: Marks::fed(),
            page: copy,
        }
    }

    /// A page that was just made: no data and no slots, all of it written. `read` says that the data of a page at its path was read before.
    pub fn made(level: u8, read: bool) -> Self
        requires { level ≤ 7 }
        ensures { result
            ≡ record
            { live = true; read = read; written = true; searched = 65535; page = blank level } }
    {
        let mut page = Page::empty(level);
        page.modified = u16::MAX;
        CopiedPage {
            marks: Marks {
                live: true,
                read,
                written: true,
                searched: u16::MAX,
            },
            page,
        }
    }

    /// A look at the page.
    pub fn look(&self) -> Look<'_>
        ensures { looked result ≡ self.now }
    {
        Look {
            marks: self.marks,
            page: &self.page,
        }
    }

    /// Does a change. A merged page is of the level of this one.
    pub fn change(&mut self, change: &Change)
        requires { FitsPage change.now self.old }
        ensures { self.new ≡ after_change change.now self.old }
    {
        change.apply(&mut self.marks, &mut self.page);
    }

    /// Takes the page away, and keeps its marks.
    pub fn take_away(&mut self)
        ensures { self.new ≡ taken_away self.old }
    {
        self.marks.live = false;
    }

    /// Whether the data or some slot was written.
    pub fn is_written(&self) -> bool
        ensures { result ≡ is_written self.now }
    {
        self.look().is_written()
    }

    /// Whether the update read or wrote something of the page.
    pub fn is_accessed(&self) -> bool
        ensures { result ≡ is_accessed self.now }
    {
        self.look().is_accessed()
    }
}
