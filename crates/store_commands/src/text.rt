// The commands that open a store and print a text of it.
ghost use Rattle.std.specs.Prelude.{◌≤◌};
ghost use Rattle.afs_base.specs.Causes.{Rose};
ghost use Rattle.pair_store.specs.Faults.{IsStopped};
ghost use Rattle.store_check.specs.Since.{IsUnreadSince, OnlyRead};
ghost use Rattle.store_commands.specs.Asked.{TextEnds, text_of};
ghost use Rattle.store_commands.specs.Calls.{TextCall};
ghost use Rattle.store_commands.specs.Shows.{AreObjects};
ghost use Rattle.store_model.specs.Laws.{pages_of};

use crate::cap::end_minted;
use crate::check::end_counted;
use crate::refused::end_refused;
use crate::showing::end_shown;
use afs_base::Head;
use drives::Drives;
use endings::{Ended, Status};
use page_codec::Table;
use pair_store::Blocks;
use recovery::{Opened, open};
use script_text::Sink;
use std::alloc::Global;

/// What a command prints of a store that was opened.
#[derive(Clone, Copy, Debug)]
pub(crate) enum Text {
    /// What the files hold.
    Show,
    /// How many files, versions and blocks there are.
    Check,
    /// The capability of an object with these rights.
    Cap { object: u32, rights: u8 },
}

/// Prints a text of a store that was opened, and says how the command ends. Blocks are read at most.
fn end_opened<B: Blocks, K: Sink>(
    alloc: Global,
    text: Text,
    store: &mut B,
    table: &Table,
    heads: &[Option<Head>],
    out: &mut K,
) -> Status
    ensures only { OnlyRead B.Blocks store.old store.new }
    ensures ends { TextEnds text table.now heads.now (λ files. B.tells
        × AreObjects (B.settled store.old) (B.size store.old) (pages_of (B.content store.old))
        heads.now files) (IsStopped (B.faults store.old) (B.faults store.new)
        (B.last_fault store.new) (B.moment store.new))
        (IsUnreadSince B.Blocks store.old store.new) (K.written out.old) (K.written out.new)
        (Rose (K.faults out.old) (K.faults out.new)) result }
    ensures later { K.faults out.old ≤ K.faults out.new }
{
    match text {
        Text::Show => end_shown(alloc, store, heads, out),
        Text::Check => end_counted(alloc, table, heads, out),
        Text::Cap { object, rights } => end_minted(alloc, table, object, rights, out),
    }
}

/// Opens a store and prints this text of it. No file changes.
pub(crate) fn open_and_print<V: Drives, K: Sink>(
    alloc: Global,
    drives: V,
    text: Text,
    out: &mut K,
) -> Ended<V>
    ensures { TextCall V.Drives K.Sink (text_of text) drives out.old result out.new }
{
    match open(alloc, drives) {
        Ok(opened) => {
            let Opened {
                mut pair,
                table,
                map: _,
                heads,
                since: _,
            } = opened;
            let status = end_opened(alloc, text, &mut pair, &table, &heads, out);
            Ended::without_journal(alloc, status, pair.into_drives())
        }
        Err(e) => {
            let status = end_refused(alloc, out, e.why);
            Ended::without_journal(alloc, status, e.drives)
        }
    }
}
