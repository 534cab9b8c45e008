ghost use Rattle.std.specs.Prelude.{◌≡◌};
ghost use Rattle.prune_sweep.specs.Progress.{begun, following_at};

use crate::slots::Following;

/// Which version is being read.
#[derive(Clone, Copy, Debug)]
pub enum Stage {
    /// None yet.
    New,
    /// The first one.
    First,
    /// A later one.
    Later,
}

/// The stage once the next version page was read.
pub fn begun(stage: Stage) -> Stage
    ensures { result ≡ begun stage }
{
    match stage {
        Stage::New => Stage::First,
        Stage::First | Stage::Later => Stage::Later,
    }
}

/// Which slots are followed on a page of the version being read that no earlier version has.
pub fn following_at(stage: Stage, stays: bool) -> Following
    ensures { result ≡ following_at stage stays }
{
    match stage {
        Stage::New | Stage::First => Following::AllNew,
        Stage::Later => {
            if stays {
                Following::CopiesAndShared
            } else {
                Following::Copies
            }
        }
    }
}
