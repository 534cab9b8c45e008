// The command that prints the pages of each file.
ghost use Rattle.store_commands.specs.Calls.{TextCall};
ghost use Rattle.store_commands.specs.Showing.{show_text};

use crate::text::{Text, open_and_print};
use drives::Drives;
use endings::Ended;
use script_text::Sink;
use std::alloc::Global;

/// Opens a store, and prints for each live file, ascending, its line with the serials that are kept, and a line for each
/// page of its last version, in the order of paths: the path, a space, and the data in lower-case hexadecimal, or `-`.
///
/// The status says how it ended: 0 where all was printed, 5 where a line was refused, 4 where there is no lawful store,
/// with the first cause, 3 where a half failed, which is named, and 7 where there was not enough memory. No file changes.
pub fn afs_show<V: Drives, K: Sink>(alloc: Global, drives: V, out: &mut K) -> Ended<V>
    ensures { TextCall V.Drives K.Sink show_text drives out.old result out.new }
{
    open_and_print(alloc, drives, Text::Show, out)
}
