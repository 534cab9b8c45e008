// The text that `show` prints of a store that was opened.
ghost use Rattle.std.specs.Prelude.{◌≡◌, ◌⊎◌, ◌≤◌, ◌+◌, ◌++◌, ℕ, List, IsErrOf, OnOk};
ghost use Rattle.afs_base.specs.Causes.{Rose};
ghost use Rattle.drives.specs.declared.device.Half.{Half};
ghost use Rattle.pair_store.specs.Faults.{IsStopped};
ghost use Rattle.store_model.specs.Laws.{pages_of};
ghost use Rattle.store_check.specs.Since.{IsUnreadSince, OnlyRead};
ghost use Rattle.tree_model.specs.States.{File};
ghost use Rattle.store_check.specs.declared.refused.WalkRefused.{WalkRefused};
ghost use Rattle.tree_listing.specs.Results.{Gives};
ghost use Rattle.store_commands.specs.Showing.{shown_file, shown_files};
ghost use Rattle.store_commands.specs.Shows.{AreObjects, IsObject, ShowEnds, UnlistedEnds};

use afs_base::Head;
use endings::{Status, append_file_line, end_bad_store, end_drive, end_memory, finish};
use pair_store::Blocks;
use script_text::Sink;
use std::alloc::Global;
use store_check::WalkRefused;
use tree_listing::list_tree;

/// Appends what is printed of an object: nothing where it is not live.
fn append_object<B: Blocks>(
    alloc: Global,
    store: &mut B,
    object: usize,
    head: &Option<Head>,
    text: &mut Vec<u8>,
) -> Result<(), WalkRefused>
    ensures only { OnlyRead B.Blocks store.old store.new }
    ensures lines { OnOk result
        ((file : File) × (text.new.items ≡ text.old.items ++ shown_file object file)) }
    ensures shown { B.tells → (file : File)
        → IsObject (B.settled store.old) (B.size store.old) (pages_of (B.content store.old))
        head.now file
        → Gives (text.new.items ≡ text.old.items ++ shown_file object file) result }
    ensures stopped { B.tells → (file : File)
        → IsObject (B.settled store.old) (B.size store.old) (pages_of (B.content store.old))
        head.now file
        → (h : Half) → IsErrOf result (WalkRefused.ReadFault h)
        → IsStopped (B.faults store.old) (B.faults store.new) (B.last_fault store.new)
        (B.moment store.new) h }
    ensures unread { (h : Half) → IsErrOf result (WalkRefused.ReadFault h)
        → IsUnreadSince B.Blocks store.old store.new h }
{
    match head {
        None => Ok(()),
        Some(head) => {
            append_file_line(alloc, object, head.first, head.serial, text)?;
            list_tree(alloc, store, head.block, text)
        }
    }
}

/// Appends what is printed of all objects, object 1 first.
fn append_objects<B: Blocks>(
    alloc: Global,
    store: &mut B,
    heads: &[Option<Head>],
    text: &mut Vec<u8>,
) -> Result<(), WalkRefused>
    ensures only { OnlyRead B.Blocks store.old store.new }
    ensures lines { OnOk result
        ((files : List File) × (text.new.items ≡ text.old.items ++ shown_files 1 files)) }
    ensures shown { B.tells → (files : List File)
        → AreObjects (B.settled store.old) (B.size store.old) (pages_of (B.content store.old))
        heads.now files
        → Gives (text.new.items ≡ text.old.items ++ shown_files 1 files) result }
    ensures stopped { B.tells → (files : List File)
        → AreObjects (B.settled store.old) (B.size store.old) (pages_of (B.content store.old))
        heads.now files
        → (h : Half) → IsErrOf result (WalkRefused.ReadFault h)
        → IsStopped (B.faults store.old) (B.faults store.new) (B.last_fault store.new)
        (B.moment store.new) h }
    ensures unread { (h : Half) → IsErrOf result (WalkRefused.ReadFault h)
        → IsUnreadSince B.Blocks store.old store.new h }
{
    'objects: for k in 0..heads.len() {
        append_object(alloc, store, k + 1, &heads[k], text)?;
    }
    Ok(())
}

/// Ends a command whose listing stopped, for this cause.
fn end_unlisted<K: Sink>(alloc: Global, out: &mut K, why: WalkRefused) -> Status
    ensures ends { UnlistedEnds (K.written out.old) (K.written out.new)
        (Rose (K.faults out.old) (K.faults out.new)) why result }
    ensures later { K.faults out.old ≤ K.faults out.new }
{
    match why {
        WalkRefused::ReadFault { half } => end_drive(out, half),
        WalkRefused::BadStore { block, why } => end_bad_store(alloc, out, block, why),
        WalkRefused::Memory => end_memory(out),
    }
}

/// Prints the files of a store that was opened, and says how the command ends.
pub(crate) fn end_shown<B: Blocks, K: Sink>(
    alloc: Global,
    store: &mut B,
    heads: &[Option<Head>],
    out: &mut K,
) -> Status
    ensures only { OnlyRead B.Blocks store.old store.new }
    ensures ends { ShowEnds (λ files. B.tells
        × AreObjects (B.settled store.old) (B.size store.old) (pages_of (B.content store.old))
        heads.now files) (λ h. IsStopped (B.faults store.old) (B.faults store.new)
        (B.last_fault store.new) (B.moment store.new) h)
        (IsUnreadSince B.Blocks store.old store.new) (K.written out.old) (K.written out.new)
        (Rose (K.faults out.old) (K.faults out.new)) result }
    ensures later { K.faults out.old ≤ K.faults out.new }
{
    let mut text = Vec::new(alloc);
    match append_objects(alloc, store, heads, &mut text) {
        Ok(()) => finish(out, text.as_slice()),
        Err(why) => end_unlisted(alloc, out, why),
    }
}
