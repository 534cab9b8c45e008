// Runs a turn at a time. The second of two clients has to merge one pair of pages: whoever makes the turns may do it
// between two of them, and offer the outcome.
ghost use Rattle.std.specs.Prelude.{◌≤◌, IfOk, length};
ghost use Rattle.ground.specs.Making.{AreAllBuilt};

use super::*;
use afs_base::ClientNo;
use ground::{Ground, Turned, on_halves};
use page_merge::Done;
use playing::read_scripts;
use recovery::open;
use script_text::Script;
use service_model::{Entry, Journal, Named17, What};

/// Reads the scripts of clients.
fn read(alloc: Global, sources: &mut [MemSource]) -> Result<Vec<Script>, Fail>
    requires some { 1 ≤ length sources.old }
    requires most { length sources.old ≤ 16 }
    ensures some { IfOk result (λ v. 1 ≤ length v.items) }
    ensures most { IfOk result (λ v. length v.items ≤ 16) }
    ensures built { IfOk result (λ v. AreAllBuilt v.items) }
{
    match read_scripts(alloc, sources) {
        Ok(scripts) => Ok(scripts),
        Err(_) => Err("scripts that are played".into()),
    }
}

/// The scripts of the two clients.
fn writers(alloc: Global) -> Result<Vec<Script>, Fail>
    ensures some { IfOk result (λ v. 1 ≤ length v.items) }
    ensures most { IfOk result (λ v. length v.items ≤ 16) }
    ensures built { IfOk result (λ v. AreAllBuilt v.items) }
{
    let mut sources = sources_of(alloc, WRITERS, 0)?;
    if sources.is_empty() || sources.len() > 16 {
        return Err("one to sixteen clients".into());
    }
    read(alloc, &mut sources)
}

/// A run of these scripts over a store, before its first turn.
fn run_over(
    alloc: Global,
    drives: MemDrives,
    scripts: Vec<Script>,
) -> Result<Ground<MemDrives>, Fail>
    requires some { 1 ≤ length scripts.items }
    requires most { length scripts.items ≤ 16 }
    requires built { AreAllBuilt scripts.items }
{
    match open(alloc, drives) {
        Ok(opened) => Ok(on_halves(alloc, opened, scripts).ok().ok_or("a run")?),
        Err(_) => Err("a store".into()),
    }
}

/// A run of the two clients.
fn begun(alloc: Global) -> Result<Ground<MemDrives>, Fail> {
    let scripts = writers(alloc)?;
    run_over(alloc, two_pages(alloc)?, scripts)
}

/// Takes a client to its next answer, and does the merges that wait meanwhile, if they are to be offered. Answers how
/// many pairs of pages waited.
fn play_line(run: &mut Ground<MemDrives>, client: ClientNo, offers: bool) -> Option<u64> {
    let mut waited = 0u64;
    let mut done = None;
    'turns: for _ in 0..100 {
        if client.get() as usize > run.clients() {
            return None;
        }
        match run.turn(client, done.as_ref()) {
            Turned::Line { .. } => return Some(waited),
            Turned::Again => {}
            Turned::Work(job) => {
                waited = waited.saturating_add(1);
                done = if offers { Some(Done::of(job)) } else { None };
            }
            Turned::Finished | Turned::Stopped { .. } => return None,
        }
    }
    None
}

/// What a run came to: how many pairs of pages waited, how many of these the clients merged themselves, and the journal.
#[derive(Drop)]
struct Driven {
    waited: u64,
    own_merges: u64,
    journal: Journal,
}

/// Plays the run: both clients begin, and then each goes to its end.
fn drive(alloc: Global, offers: bool) -> Result<Driven, Fail> {
    let mut run = begun(alloc)?;
    let mut waited = 0u64;
    for number in [1, 2, 1, 1, 2, 2] {
        let client = ClientNo::of(number).ok().ok_or("a client")?;
        let more = play_line(&mut run, client, offers).ok_or("an answer")?;
        waited = waited.saturating_add(more);
    }
    let own_merges = run.own_merges();
    let (_, journal) = run.end();
    Ok(Driven {
        waited,
        own_merges,
        journal,
    })
}

fn are_same_names(a: &Named17, b: &Named17) -> bool {
    for place in 0..a.len().min(b.len()) {
        if a.get(place) != b.get(place) {
            return false;
        }
    }
    a.len() == b.len()
}

/// Whether these are the same but for their moments. Of other kinds none comes in this run.
fn is_same_but_for_moments(a: &Entry, b: &Entry) -> bool {
    let what = match (&a.what, &b.what) {
        (What::Began { bases: a }, What::Began { bases: b }) => are_same_names(a, b),
        (What::Held { blocks: a }, What::Held { blocks: b }) => a == b,
        (What::Committed { made: a, .. }, What::Committed { made: b, .. }) => are_same_names(a, b),
        (What::Answered, What::Answered) => true,
        _ => false,
    };
    what && a.client == b.client && a.line == b.line
}

#[test]
fn a_merge_that_is_offered_is_taken(rt: HostRuntime) -> Result<(), Fail> {
    let offered = drive(rt.alloc(), true)?;
    let alone = drive(rt.alloc(), false)?;
    assert_eq!(rt; (offered.waited, offered.own_merges), (1, 0));
    assert_eq!(rt; (alone.waited, alone.own_merges), (1, 1));
    let entries = (&offered.journal.entries, &alone.journal.entries);
    assert_eq!(rt; (entries.0.len(), entries.1.len()), (12, 12));
    for (a, b) in entries.0.iter().zip(entries.1.iter()) {
        assert!(rt; is_same_but_for_moments(a, b));
    }
    Ok(())
}
