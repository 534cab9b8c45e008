ghost use Rattle.std.specs.Prelude.{◌≡◌};

use crate::child::Child;
use afs_base::{PageData, Path};

/// One step of an update on a tree. A make and a drop name a page other than `/`.
#[derive(Clone, Copy, Debug, PartialEq, Eq)]
pub enum Step {
    /// Asks for the data of a page.
    ReadAt { at: Path },
    /// Asks which slots of a page have a page below them.
    ListAt { at: Path },
    /// Replaces the data of a page.
    WriteAt { at: Path, bytes: PageData },
    /// Makes a page with no data.
    MakeAt { at: Child },
    /// Takes a page away, with all that is below it.
    DropAt { at: Child },
}

impl Step {
    ghost use Rattle.tree_model.specs.Accesses.{end_of, target};

    /// The path that the step names.
    pub fn target(&self) -> Path
        ensures { result ≡ target self.now }
    {
        match self {
            Step::ReadAt { at } | Step::ListAt { at } | Step::WriteAt { at, .. } => *at,
            Step::MakeAt { at } | Step::DropAt { at } => at.path(),
        }
    }

    /// The last page that the step looks into on its way: a make and a drop do not look into their own page.
    pub fn end(&self) -> Path
        ensures { result ≡ end_of self.now }
    {
        match self {
            Step::ReadAt { at } | Step::ListAt { at } | Step::WriteAt { at, .. } => *at,
            Step::MakeAt { at } | Step::DropAt { at } => at.above(),
        }
    }
}

/// The answer to a step.
#[derive(Clone, Copy, Debug, PartialEq, Eq)]
pub enum Reply {
    /// The data of the page.
    Bytes(PageData),
    /// Bit s is set where slot s has a page below it.
    Slots(u16),
    /// The step is done.
    Done,
    /// The page, or for a make the page above it, is not there.
    Absent,
    /// The page that was to be made is there already.
    Present,
}
