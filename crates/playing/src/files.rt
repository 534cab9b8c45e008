// Printing the files that stand after a run.
ghost use Rattle.std.specs.Prelude.{◌≡◌, ◌++◌, List, OnOk};
ghost use Rattle.playing.specs.Files.{AreToldOf, EndsTell, told_line};
ghost use Rattle.service_model.specs.Print.{files_text};
ghost use Rattle.tree_model.specs.States.{File};

use crate::played::Played;
use afs_base::Memory;
use endings::append_file_line;
use std::alloc::Global;

/// Appends the line of an object, where it is live.
fn append_object(
    alloc: Global,
    object: usize,
    told: Option<(u64, u64)>,
    text: &mut Vec<u8>,
) -> Result<(), Memory>
    ensures { OnOk result (text.new.items ≡ text.old.items ++ told_line object told) }
{
    match told {
        Some((first, last)) => {
            append_file_line(alloc, object, first, last, text)?;
            Ok(())
        }
        None => Ok(()),
    }
}

/// Appends the lines of all live objects, object 1 first.
pub fn append_files<R: Played>(alloc: Global, run: &R, text: &mut Vec<u8>) -> Result<(), Memory>
    ensures { OnOk result ((files : List File) → AreToldOf (R.told run.now) files
        → text.new.items ≡ text.old.items ++ files_text 1 files) }
{
    for place in 0..run.objects() {
        append_object(alloc, place + 1, run.serials(place), text)?;
    }
    Ok(())
}

/// A law of files, which runs nothing: where the serials of a file rise by one, the first and the
/// last tell all that are kept.
pub fn ends_tell()
    ensures { EndsTell }
{}
