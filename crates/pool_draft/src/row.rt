ghost use Rattle.std.specs.Prelude.{◌≡◌};
ghost use Rattle.pool_draft.specs.Writes.{cut_row};

use crate::row_key::{Branch, RowKey};
use draft_tree::Marks;
use frame_pool::Frame;

/// What a draft in frames notes of a page: the root that it belongs to and its path, its marks, and the frame in which it lies.
#[derive(Debug, Drop)]
pub struct Row {
    pub(crate) key: RowKey,
    pub(crate) marks: Marks,
    pub(crate) frame: Frame,
}

impl Row {
    /// Takes the page away where it is one of a branch. Its marks stay.
    pub(crate) fn cut(&mut self, branch: &Branch)
        ensures { self.new ≡ cut_row branch.now.root branch.now.path self.old }
    {
        if branch.has(&self.key) {
            self.marks.live = false;
        }
    }
}
