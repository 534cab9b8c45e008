// How a command ends over halves that were not opened.
ghost use Rattle.std.specs.Prelude.{◌≡◌, ◌⊎◌, ◌≤◌};
ghost use Rattle.afs_base.specs.Causes.{Rose};
ghost use Rattle.store_commands.specs.Opening.{RefusedEnds};

use endings::{Status, end_bad_store, end_drive, end_memory};
use recovery::OpenRefused;
use script_text::Sink;
use std::alloc::Global;

/// Ends a call over halves that were not opened, for this cause.
pub fn end_refused<K: Sink>(alloc: Global, out: &mut K, why: OpenRefused) -> Status
    ensures ends { RefusedEnds (K.written out.old) (K.written out.new)
        (Rose (K.faults out.old) (K.faults out.new)) why result }
    ensures later { K.faults out.old ≤ K.faults out.new }
{
    match why {
        OpenRefused::ReadFault { half } => end_drive(out, half),
        OpenRefused::WriteFault { half } => end_drive(out, half),
        OpenRefused::BadStore { block, why } => end_bad_store(alloc, out, block, why),
        OpenRefused::Memory => end_memory(out),
    }
}
