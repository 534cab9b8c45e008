ghost use Rattle.std.specs.Prelude.{◌≡◌};

use crate::files::Files17;
use caps::Capability;
use tree_model::Step;

/// How a script names a file.
#[derive(Clone, Copy, Debug, PartialEq, Eq)]
pub enum FileName {
    /// By its object, 1 to 4,032.
    Number(u32),
    /// By a capability.
    Cap(Capability),
}

impl Default for FileName {
    ghost use Rattle.script_text.specs.declared.command.FileName.TheVariants.{Number};

    /// The first object, with which bounded lists of files fill the places that they do not use yet.
    fn default() -> FileName
        ensures { result ≡ Number 1 }
    {
        FileName::Number(1)
    }
}

/// What a line of a script asks for.
#[derive(Debug, PartialEq, Eq, Drop)]
pub enum Command {
    /// Opens an update of one file.
    Begin { file: FileName },
    /// Opens an update of several files, the top first.
    Super { files: Files17 },
    /// Picks the file of the update that the next steps are on: 0 the top, then the members in order.
    Pick { k: u8 },
    /// Does a step on the picked file.
    Do { step: Step },
    /// Commits the update.
    Commit,
    /// Gives the update up.
    Abandon,
    /// Makes a file.
    Create,
    /// Removes a file.
    Destroy { file: FileName },
    /// Removes the versions of a file but for the last ones, of which `keep` stay.
    Prune { file: FileName, keep: u16 },
    /// Makes a capability with fewer rights.
    Restrict { file: FileName, mask: u8 },
}
