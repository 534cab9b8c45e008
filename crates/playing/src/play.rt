// The call that plays scripts.
ghost use Rattle.std.specs.Prelude.{◌≡◌, ◌≤◌, ◌++◌, [], None, length};
ghost use Rattle.std.specs.List.{All};
ghost use Rattle.afs_base.specs.declared.limits.TheConstants.{MAX_CLIENTS};
ghost use Rattle.drives.specs.declared.device.Half.{Half};
ghost use Rattle.endings.specs.Printing.{HaltsOn};
ghost use Rattle.endings.specs.Texts.{drive_text};
ghost use Rattle.ground.specs.Promises.{IsPromised};
ghost use Rattle.ground.specs.Runs.{entries_in, journal_in, scripts_in, store_in};
ghost use Rattle.ground.specs.Turning.{IsRunOf};
ghost use Rattle.ground.specs.Making.{AreAllBuilt, HasBegun};
ghost use Rattle.pair_store.specs.Pairs.{drives_of};
ghost use Rattle.playing.specs.Calls.{PlayCall, RunCall};
ghost use Rattle.playing.specs.Playing.{GroundCall, OpenedCall};
ghost use Rattle.playing.specs.Running.{AreAnswered};
ghost use Rattle.playing.specs.Runs.{answers_in};
ghost use Rattle.playing.specs.Statuses.{IsBeforeOpening};
ghost use Rattle.recovery.specs.Opening.{over_of};
ghost use Rattle.service_model.specs.Print.{answers_printed};
ghost use Rattle.service_model.specs.Standing.{Standing};
ghost use Rattle.session.specs.declared.turned.Fault.TheVariants.{Drive};
ghost use Rattle.session.specs.Opening.{IsWithin};
ghost use Rattle.tree_model.specs.States.{State};

use crate::ends::{finish_run, halt_run};
use crate::run::play_all;
use crate::scripts::read_scripts;
use crate::unread::end_unread;
use drives::Drives;
use endings::{Ended, Status, end_bad_store, end_memory};
use ground::{Fault, Ground, GroundOver, on_halves};
use pair_store::{Blocks, Pair};
use recovery::{Opened, Unopened, open};
use script_text::{Script, Sink, Source};
use std::alloc::Global;
use store_commands::end_refused;

/// Ends a call whose run this fault stopped: prints the answers so far, and names the half.
fn end_stopped<B: Blocks, K: Sink>(
    alloc: Global,
    out: &mut K,
    run: &GroundOver<B>,
    fault: Fault,
) -> Status
    ensures ends { (half : Half) → fault ≡ Drive half → (s : Standing)
        → AreAnswered (answers_in run.now) s.clients → HaltsOn K.written K.faults out.old out.new
        (answers_printed (scripts_in run.now) s ++ drive_text half) Status.DriveFault result }
    ensures opened { IsBeforeOpening result → ⊥ }
    ensures driven { result ≡ Status.DriveFault → (half : Half) × (fault ≡ Drive half) }
    ensures later { K.faults out.old ≤ K.faults out.new }
{
    match fault {
        Fault::Drive { half } => halt_run(alloc, out, run, half),
        Fault::Bad { block, why } => end_bad_store(alloc, out, block, why),
    }
}

/// What comes back of a run, with this status.
fn ended<V: Drives>(run: Ground<V>, status: Status) -> Ended<V>
    ensures status { result.status ≡ status }
    ensures drives { result.drives ≡ drives_of (store_in run) }
    ensures journal { result.journal ≡ journal_in run }
    ensures promise { (opening : State) (of : IsRunOf ⟦<Pair<V> as Blocks>⟧ run opening)
        → IsPromised ⟦<Pair<V> as Blocks>⟧ opening of.first run }
{
    let (pair, journal) = run.end();
    Ended {
        status,
        drives: pair.into_drives(),
        journal,
    }
}

/// Plays a run which has made no turn, and prints what came of it.
fn play_run<V: Drives, K: Sink>(
    alloc: Global,
    run: Ground<V>,
    words: &[u8],
    out: &mut K,
) -> Ended<V>
    requires clients { All (λ k. (1 ≤ k) × (k ≤ length run.sessions)) words.now }
    requires few { length run.sessions ≤ 16 }
    requires going { run.fault ≡ None }
    requires fresh { entries_in run ≡ [] }
    ensures { GroundCall V.Drives ⟦<Pair<V> as Blocks>⟧ K.Sink words.now run out.old result
        out.new }
{
    let mut run = run;
    match play_all(&mut run, words) {
        Ok(()) => {
            let status = finish_run(alloc, out, &run);
            ended(run, status)
        }
        Err(fault) => {
            let status = end_stopped(alloc, out, &run, fault);
            ended(run, status)
        }
    }
}

/// Plays scripts over halves that were opened.
fn play_opened<V: Drives, K: Sink>(
    alloc: Global,
    opened: Opened<V>,
    scripts: Vec<Script>,
    words: &[u8],
    out: &mut K,
) -> Ended<V>
    requires some { 1 ≤ length scripts.items }
    requires most { length scripts.items ≤ 16 }
    requires built { AreAllBuilt scripts.items }
    requires within { IsWithin ⟦<Pair<V> as Blocks>⟧.size (over_of opened) }
    requires clients { All (λ k. (1 ≤ k) × (k ≤ length scripts.items)) words.now }
    ensures { OpenedCall V.Drives ⟦<Pair<V> as Blocks>⟧ K.Sink words.now scripts.items
        (over_of opened) out.old result out.new }
{
    match on_halves(alloc, opened, scripts) {
        Ok(run) => play_run(alloc, run, words, out),
        Err((drives, _)) => {
            let status = end_memory(out);
            Ended::without_journal(alloc, status, drives)
        }
    }
}

/// Opens the store, and plays scripts over it.
fn play_scripts<V: Drives, K: Sink>(
    alloc: Global,
    drives: V,
    scripts: Vec<Script>,
    words: &[u8],
    out: &mut K,
) -> Ended<V>
    requires some { 1 ≤ length scripts.items }
    requires most { length scripts.items ≤ 16 }
    requires built { AreAllBuilt scripts.items }
    requires clients { All (λ k. (1 ≤ k) × (k ≤ length scripts.items)) words.now }
    ensures { RunCall V.Drives ⟦<Pair<V> as Blocks>⟧ K.Sink words.now scripts.items drives out.old
        result out.new }
{
    match open(alloc, drives) {
        Ok(opened) => play_opened(alloc, opened, scripts, words, out),
        Err(unopened) => {
            let Unopened { drives, why } = unopened;
            let status = end_refused(alloc, out, why);
            Ended::without_journal(alloc, status, drives)
        }
    }
}

/// Plays the scripts of 1 to 16 clients over the store on two halves, client 1 having the first
/// source.
///
/// The scripts are read to their ends first, and the store is opened once all of them are in the
/// grammar. Then each word takes its client to its next answer, and behind the words the clients go
/// to their ends, the least client first; a word of a client that has no line left does nothing.
/// Printed are the answers, a line each, and then the versions that each file keeps.
///
/// The status says how it ended: 0 where all was played and printed, 2 for a line of a script that
/// is not in the grammar or not played yet, 3 where a half failed, 4 where there is no lawful store,
/// 5 where the sink failed, 6 where a source did, and 7 for want of memory. What was played, printed
/// and left on the halves, and what a crash at any moment leaves, is said for each.
pub fn afs_play<V: Drives, S: Source, K: Sink>(
    alloc: Global,
    drives: V,
    order: &[u8],
    scripts: &mut [S],
    out: &mut K,
) -> Ended<V>
    requires some { 1 ≤ length scripts.old }
    requires few { length scripts.old ≤ MAX_CLIENTS }
    requires clients { All (λ k. (1 ≤ k) × (k ≤ length scripts.old)) order.now }
    ensures { PlayCall V.Drives ⟦<Pair<V> as Blocks>⟧ S.Source K.Sink order.now drives scripts.old
        out.old result scripts.new out.new }
{
    match read_scripts(alloc, scripts) {
        Ok(read) => play_scripts(alloc, drives, read, order, out),
        Err(unread) => {
            let status = end_unread(alloc, out, unread);
            Ended::without_journal(alloc, status, drives)
        }
    }
}
