// The command that makes a new store.
ghost use Rattle.std.specs.Prelude.{◌≡◌, ◌≤◌, IfOk};
ghost use Rattle.new_store.specs.Sizes.{IsInRange};
ghost use Rattle.store_commands.specs.Calls.{FormatCall, FormatsNew};
ghost use Rattle.store_commands.specs.Texts.{new_files_text};

use drives::Drives;
use endings::{Ended, Status, end_drive, end_memory, finish};
use new_store::{NewStore, format};
use script_text::Sink;
use std::alloc::{AllocError, Global};

/// The lines of so many new files.
fn new_files_text(alloc: Global, files: u32) -> Result<Vec<u8>, AllocError>
    requires { files ≤ 4032 }
    ensures { IfOk result (λ text. text.items ≡ new_files_text files) }
{
    let mut text = Vec::new(alloc);
    for i in 0..files {
        let object = i + 1;
        let line = format!(in alloc; "file {object}\n")?;
        text.extend_from_slice(line.as_bytes())?;
    }
    Ok(text)
}

/// Makes the store, and prints the text of its files. What was made is there after every crash.
fn make_store<V: Drives, K: Sink>(
    alloc: Global,
    drives: V,
    store: &NewStore,
    text: &[u8],
    out: &mut K,
) -> Ended<V>
    requires fits { store.now.blocks ≤ V.size drives }
    requires lines { text.now ≡ new_files_text store.now.files }
    ensures call { FormatCall V.Drives K.Sink store.now drives out.old result out.new }
    ensures unmade { result.status ≡ Status.Memory → ⊥ }
{
    match format(drives, store) {
        Ok(drives) => {
            let status = finish(out, text);
            Ended::without_journal(alloc, status, drives)
        }
        Err(e) => {
            let status = end_drive(out, e.half);
            Ended::without_journal(alloc, status, e.drives)
        }
    }
}

/// Makes a new store of this key on two halves, over whatever they hold, and prints a line for each of its files.
///
/// It has so many files, 1 to 4,032, and so many blocks: at most 65,536, and as many as its table and one page for each
/// file need. The status says how it ended: 0 where the store was made and printed, 5 where it was made and a line was
/// refused, 3 where a half failed, which is named, and 7 where there was not enough memory; the halves are then as they
/// were. A crash within the call leaves the files that were there, or none, or the new ones.
pub fn afs_format<V: Drives, K: Sink>(
    alloc: Global,
    drives: V,
    key: u64,
    files: u32,
    blocks: u32,
    out: &mut K,
) -> Ended<V>
    requires range { IsInRange files blocks }
    requires fits { blocks ≤ V.size drives }
    ensures { FormatsNew V.Drives K.Sink key files blocks drives out.old result out.new }
{
    match new_files_text(alloc, files) {
        Ok(text) => make_store(alloc, drives, &NewStore { key, files, blocks }, &text, out),
        Err(_) => {
            let status = end_memory(out);
            Ended::without_journal(alloc, status, drives)
        }
    }
}
