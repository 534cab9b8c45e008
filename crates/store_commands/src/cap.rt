// The command that gives a capability of a file.
ghost use Rattle.std.specs.Prelude.{◌≡◌, ◌≤◌, IfOk};
ghost use Rattle.afs_base.specs.Causes.{Rose};
ghost use Rattle.caps.specs.Tables.{seal_of};
ghost use Rattle.endings.specs.Printing.{DoneEnds};
ghost use Rattle.store_commands.specs.Calls.{TextCall};
ghost use Rattle.store_commands.specs.Texts.{cap_text, sealed_text};

use crate::text::{Text, open_and_print};
use caps::mint;
use drives::Drives;
use endings::{Ended, Status, end_memory, finish};
use page_codec::Table;
use script_text::Sink;
use std::alloc::{AllocError, Global};

/// The line with the capability of an object with these rights, where it is live.
fn cap_line(alloc: Global, table: &Table, object: u32, rights: u8) -> Result<Vec<u8>, AllocError>
    ensures { IfOk result
        (λ line. line.items ≡ sealed_text object rights (seal_of table.now object)) }
{
    match mint(table, object, rights) {
        Some(cap) => {
            let mut digits = [0; 32];
            cap.to_hex(&mut digits);
            let mut line = Vec::from_slice(alloc, b"cap ")?;
            line.extend_from_slice(&digits)?;
            line.push(b'\n')?;
            Ok(line)
        }
        None => Vec::from_slice(alloc, b"denied object\n"),
    }
}

/// Prints the capability, and says how the command ends.
pub(crate) fn end_minted<K: Sink>(
    alloc: Global,
    table: &Table,
    object: u32,
    rights: u8,
    out: &mut K,
) -> Status
    ensures ends { DoneEnds (K.written out.old) (K.written out.new)
        (Rose (K.faults out.old) (K.faults out.new))
        (sealed_text object rights (seal_of table.now object)) result }
    ensures later { K.faults out.old ≤ K.faults out.new }
{
    match cap_line(alloc, table, object, rights) {
        Ok(line) => finish(out, &line),
        Err(_) => end_memory(out),
    }
}

/// Opens a store, and prints the capability of an object, counted from 1, with these rights, as 32 lower-case hexadecimal
/// digits; or that it is denied, exactly where the object is not live. The status is as for `afs_check`. No file changes.
pub fn afs_cap<V: Drives, K: Sink>(
    alloc: Global,
    drives: V,
    object: u32,
    rights: u8,
    out: &mut K,
) -> Ended<V>
    ensures { TextCall V.Drives K.Sink (cap_text object rights) drives out.old result out.new }
{
    open_and_print(alloc, drives, Text::Cap { object, rights }, out)
}
