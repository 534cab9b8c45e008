use page_codec::Page;
use ref_flags::Flags;
use std::marker::Model;

/// Two pages at one path, of the same level: mine, with my marks there and the masks of the slots that I read and wrote; and theirs, with
/// their marks. `kept` is the mask of the slots of which my page keeps a copied or made child. Where my page is not live it is the empty
/// page of its level, and keeps no child.
#[derive(Clone, Copy, Debug)]
pub struct Job {
    pub mine: Page,
    pub marks: Flags,
    pub searched: u16,
    pub modified: u16,
    pub theirs: Page,
    pub changed: Flags,
    pub kept: u16,
}

impl Model for Job {
    ghost use Rattle.std.specs.Prelude.{◌≡◌};
    ghost use Rattle.page_merge.specs.Jobs.{JobValue};

    ghost Value = { JobValue };

    ghost view = { λ j. record {
      mine = j.mine;
      marks = j.marks;
      searched = j.searched;
      modified = j.modified;
      theirs = j.theirs;
      changed = j.changed;
      kept = j.kept;
    } };

    ghost invariant = { λ j. j.mine.level ≡ j.theirs.level };

    ghost inverse = { λ j. record {
      mine = j.mine;
      marks = j.marks;
      searched = j.searched;
      modified = j.modified;
      theirs = j.theirs;
      changed = j.changed;
      kept = j.kept;
    } };
}
