// A run of all clients in the order of play.
ghost use Rattle.std.specs.Prelude.{◌≡◌, ◌+◌, ◌≤◌, [], None, length};
ghost use Rattle.std.specs.List.{All};
ghost use Rattle.playing.specs.Lines.{Finishes, Follows, PartCall};
ghost use Rattle.playing.specs.Runs.{IsWholeRun};
ghost use Rattle.ground.specs.Runs.{entries_in};

use crate::line::{LineEnd, play_line};
use crate::texts::client_at;
use afs_base::ClientNo;
use ground::{Fault, GroundOver};
use pair_store::Blocks;

/// The client with this number, from 1 to 16.
fn client_of(number: u8) -> ClientNo
    requires some { 1 ≤ number }
    requires most { number ≤ 16 }
    ensures { result ≡ number }
{
    match ClientNo::of(number) {
        Ok(client) => client,
        Err(_) => unreachable!(),
    }
}

/// Takes each client of these words to its next answer, one word after the other. A word of a
/// client that has none left does nothing.
fn play_words<B: Blocks>(run: &mut GroundOver<B>, words: &[u8]) -> Result<(), Fault>
    requires clients { All (λ k. (1 ≤ k) × (k ≤ length run.old.sessions)) words.now }
    requires few { length run.old.sessions ≤ 16 }
    requires going { run.old.fault ≡ None }
    ensures { PartCall B.Blocks run.old run.new
        (λ opening. Follows opening words.now [] run.old run.new) result }
{
    for number in words {
        match play_line(run, client_of(*number)) {
            LineEnd::Answered => {}
            LineEnd::Finished => {}
            LineEnd::Stopped { fault } => return Err(fault),
        }
    }
    Ok(())
}

/// Takes a client to the end of its script.
fn play_client<B: Blocks>(run: &mut GroundOver<B>, client: ClientNo) -> Result<(), Fault>
    requires client { client ≤ length run.old.sessions }
    requires going { run.old.fault ≡ None }
    ensures { PartCall B.Blocks run.old run.new
        (λ opening. Finishes opening client (client + 1) run.old run.new) result }
{
    for _ in 0..run.script(client).len() {
        match play_line(run, client) {
            LineEnd::Answered => {}
            LineEnd::Finished => return Ok(()),
            LineEnd::Stopped { fault } => return Err(fault),
        }
    }
    run.promise();
    Ok(())
}

/// Takes all clients to the ends of their scripts, the least first.
fn play_ends<B: Blocks>(run: &mut GroundOver<B>) -> Result<(), Fault>
    requires going { run.old.fault ≡ None }
    ensures { PartCall B.Blocks run.old run.new
        (λ opening. Finishes opening 1 (length run.old.sessions + 1) run.old run.new) result }
{
    for place in 0..run.clients() {
        match play_client(run, client_at(place)) {
            Ok(()) => {}
            Err(fault) => return Err(fault),
        }
    }
    Ok(())
}

/// Plays a run from its beginning to its end: the words, and then the clients, the least first.
pub fn play_all<B: Blocks>(run: &mut GroundOver<B>, words: &[u8]) -> Result<(), Fault>
    requires clients { All (λ k. (1 ≤ k) × (k ≤ length run.old.sessions)) words.now }
    requires few { length run.old.sessions ≤ 16 }
    requires going { run.old.fault ≡ None }
    requires fresh { entries_in run.old ≡ [] }
    ensures { PartCall B.Blocks run.old run.new (λ opening. IsWholeRun words.now opening run.new)
        result }
{
    match play_words(run, words) {
        Ok(()) => play_ends(run),
        Err(fault) => Err(fault),
    }
}
