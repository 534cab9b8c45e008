// The words of a command, and the call that they name.
ghost use Rattle.std.specs.Prelude.{◌≡◌, length};
ghost use Rattle.afs_base.specs.Causes.{Rose};
ghost use Rattle.endings.specs.Noted.{IsNothingNoted};
ghost use Rattle.endings.specs.Printing.{Prints};
ghost use Rattle.endings.specs.Texts.{usage_text};
ghost use Rattle.command_words.specs.Words.{IsCall, IsWithin, TakesScripts};
ghost use Rattle.command_words.specs.declared.call.Call.{Call};
ghost use Rattle.playing.specs.Calls.{PlayCall};
ghost use Rattle.playing.specs.Statuses.{IsBeforeOpening};
ghost use Rattle.store_commands.specs.Calls.{FormatCall, TextCall};
ghost use Rattle.afs_top.specs.Serving.{Serves};
ghost use Rattle.afs_top.specs.Words.{IsUsage};

use command_words::{Call, call_of};
use drives::Drives;
use endings::{Ended, end_memory, end_usage};
use pair_store::{Blocks, Pair};
use playing::afs_play;
use script_text::{Sink, Source};
use std::alloc::Global;
use store_commands::{afs_cap, afs_check, afs_format, afs_show};

/// Serves a call.
fn serve_call<V: Drives, S: Source, K: Sink>(
    alloc: Global,
    asked: &Call,
    drives: V,
    scripts: &mut [S],
    out: &mut K,
) -> Ended<V>
    requires within { IsWithin (length scripts.old) (V.size drives) asked.now }
    requires counted { TakesScripts asked.now (length scripts.old) }
    ensures called { IsUsage result.status → ⊥ }
    ensures call { Serves asked.now
        (λ order. PlayCall V.Drives ⟦<Pair<V> as Blocks>⟧ S.Source K.Sink order drives scripts.old
        out.old result scripts.new out.new)
        (λ store. FormatCall V.Drives K.Sink store drives out.old result out.new)
        (λ text. TextCall V.Drives K.Sink text drives out.old result out.new) }
    ensures untouched { IsBeforeOpening result.status → result.drives ≡ drives }
{
    match asked {
        Call::Format { store } => {
            afs_format(alloc, drives, store.key, store.files, store.blocks, out)
        }
        Call::Play { order } => afs_play(alloc, drives, order.as_slice(), scripts, out),
        Call::Show => afs_show(alloc, drives, out),
        Call::Check => afs_check(alloc, drives, out),
        Call::Cap { object, rights } => afs_cap(alloc, drives, *object, *rights, out),
    }
}

/// Serves the words of a command: `format KEY FILES BLOCKS`, `play K1 K2 ..`, `show`, `check` or
/// `cap OBJECT RIGHTS`. With `play` come 1 to 16 scripts, and none with the others.
///
/// How it ends is said by the call that the words name. Words that name none end with status 1, and
/// nothing is read or touched.
pub fn afs_words<V: Drives, S: Source, K: Sink>(
    alloc: Global,
    words: &[String],
    drives: V,
    scripts: &mut [S],
    out: &mut K,
) -> Ended<V>
    // Words that name no call, and they alone, end so.
    ensures usage { IsUsage result.status → (c : Call)
        → IsCall words.now (length scripts.old) (V.size drives) c → ⊥ }
    ensures command { ((c : Call) → IsCall words.now (length scripts.old) (V.size drives) c → ⊥)
        → IsUsage result.status }
    // What the words name is served as its own call is.
    ensures call { (c : Call) → IsCall words.now (length scripts.old) (V.size drives) c
        → Serves c
        (λ order. PlayCall V.Drives ⟦<Pair<V> as Blocks>⟧ S.Source K.Sink order drives scripts.old
        out.old result scripts.new out.new)
        (λ store. FormatCall V.Drives K.Sink store drives out.old result out.new)
        (λ text. TextCall V.Drives K.Sink text drives out.old result out.new) }
    ensures untouched { IsBeforeOpening result.status → result.drives ≡ drives }
    ensures unused { IsUsage result.status
        → (scripts.new ≡ scripts.old) × IsNothingNoted result.journal
        × Prints (K.written out.old) (K.written out.new)
        (Rose (K.faults out.old) (K.faults out.new)) usage_text }
{
    match call_of(alloc, words, scripts.len(), drives.blocks()) {
        Ok(Some(asked)) => serve_call(alloc, &asked, drives, scripts, out),
        Ok(None) => {
            let status = end_usage(out);
            Ended::without_journal(alloc, status, drives)
        }
        Err(_) => {
            let status = end_memory(out);
            Ended::without_journal(alloc, status, drives)
        }
    }
}
