// The command that checks a store and counts what is in it.
ghost use Rattle.std.specs.Prelude.{◌≤◌};
ghost use Rattle.afs_base.specs.Causes.{Rose};
ghost use Rattle.endings.specs.Printing.{DoneEnds};
ghost use Rattle.store_commands.specs.Calls.{TextCall};
ghost use Rattle.store_commands.specs.Counting.{counted_text};
ghost use Rattle.store_commands.specs.Texts.{check_text};

use crate::counts::counted_line;
use crate::text::{Text, open_and_print};
use afs_base::Head;
use drives::Drives;
use endings::{Ended, Status, end_memory, finish};
use page_codec::Table;
use script_text::Sink;
use std::alloc::Global;

/// Prints the counts of a store that was opened, and says how the command ends.
pub(crate) fn end_counted<K: Sink>(
    alloc: Global,
    table: &Table,
    heads: &[Option<Head>],
    out: &mut K,
) -> Status
    ensures ends { DoneEnds (K.written out.old) (K.written out.new)
        (Rose (K.faults out.old) (K.faults out.new)) (counted_text table.now heads.now) result }
    ensures later { K.faults out.old ≤ K.faults out.new }
{
    match counted_line(alloc, table, heads) {
        Ok(line) => finish(out, line.as_bytes()),
        Err(_) => end_memory(out),
    }
}

/// Opens a store, and prints how many files, kept versions, blocks of these and free blocks it has.
///
/// The status says how it ended: 0 where all was printed, 5 where the line was refused, 4 where there is no lawful store,
/// with the first cause, 3 where a half failed, which is named, and 7 where there was not enough memory. No file changes.
pub fn afs_check<V: Drives, K: Sink>(alloc: Global, drives: V, out: &mut K) -> Ended<V>
    ensures { TextCall V.Drives K.Sink check_text drives out.old result out.new }
{
    open_and_print(alloc, drives, Text::Check, out)
}
