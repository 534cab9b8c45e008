// Random plays through the top call, and what the plain program says of them.
use afs_top::afs_words;
use drives::MemDrives;
use lines::{Line, put_line};
use noise::{Mix, Noise};
use script_text::{MemSink, MemSource};
use service::{Client, Service};
use std::alloc::{AllocError, Global};
use std::process::Abort;
use std::test::Fail;
use tally::{NAMES, Tally};

mod drafts;
mod lines;
mod noise;
mod paths;
mod service;
mod tally;

/// How many clients play, and how many files a store has.
const CLIENTS: usize = 4;

const FILES: usize = 2;

/// Makes a call, and gives the halves back with what it printed.
fn called(
    alloc: Global,
    words: &str,
    drives: MemDrives,
    scripts: &mut [MemSource],
) -> Result<(MemDrives, MemSink), AllocError> {
    let mut out = MemSink::of(Vec::new(alloc), Vec::new(alloc));
    let mut all = Vec::new(alloc);
    for word in words.split(' ') {
        all.push(String::from_str(alloc, word)?)?;
    }
    let ended = afs_words(alloc, &all, drives, scripts, &mut out);
    Ok((ended.drives, out))
}

/// The text of a script.
fn source_of(alloc: Global, lines: &[Line]) -> Result<MemSource, AllocError> {
    let mut text = String::new(alloc);
    for line in lines {
        put_line(&mut text, line)?;
    }
    Ok(MemSource::of(text.into_bytes(), Vec::new(alloc)))
}

/// The words of a play in an order.
fn words_of(alloc: Global, order: &[u8]) -> Result<String, AllocError> {
    let mut words = String::from_str(alloc, "play")?;
    for word in order {
        write!(words, " {word}")?;
    }
    Ok(words)
}

/// The texts of some clients' scripts.
fn sources_of(alloc: Global, clients: &[Client]) -> Result<Vec<MemSource>, AllocError> {
    let mut sources = Vec::new(alloc);
    for client in clients {
        sources.push(source_of(alloc, client.lines())?)?;
    }
    Ok(sources)
}

/// Clients with scripts that are drawn.
fn draw_clients(alloc: Global, noise: &mut Noise, mix: &Mix) -> Result<Vec<Client>, AllocError> {
    let mut clients = Vec::new(alloc);
    for number in 1..=CLIENTS {
        clients.push(Client::of(alloc, number, noise.script(alloc, mix)?))?;
    }
    Ok(clients)
}

/// Compares what was printed with what the plain program says.
fn expect(rt: &impl Abort, seed: u64, out: &MemSink, text: &str) {
    let printed = str::from_utf8(out.bytes()).ok();
    assert_eq!(rt; printed, Some(text), "seed {seed}");
}

/// Asks for what the files hold and for the counts, and compares what is printed.
fn look(
    rt: &(impl Abort + AllocGlobal),
    seed: u64,
    service: &Service,
    drives: MemDrives,
) -> Result<MemDrives, AllocError> {
    let (drives, out) = called(rt.alloc(), "show", drives, &mut [])?;
    expect(rt, seed, &out, service.shown()?.as_str());
    let (drives, out) = called(rt.alloc(), "check", drives, &mut [])?;
    expect(rt, seed, &out, service.checked()?.as_str());
    Ok(drives)
}

/// Plays scripts in an order over the halves and by the plain program, and compares what is printed.
fn play(
    rt: &(impl Abort + AllocGlobal),
    seed: u64,
    (clients, order): (&mut [Client], &[u8]),
    service: &mut Service,
    drives: MemDrives,
) -> Result<MemDrives, AllocError> {
    let mut sources = sources_of(rt.alloc(), clients)?;
    let words = words_of(rt.alloc(), order)?;
    let (drives, out) = called(rt.alloc(), words.as_str(), drives, &mut sources)?;
    service.play(clients, order)?;
    expect(rt, seed, &out, service.played(clients)?.as_str());
    Ok(drives)
}

/// Draws four scripts and an order, plays them, and looks at what the store is then.
fn play_noise(
    rt: &(impl Abort + AllocGlobal),
    seed: u64,
    mix: &Mix,
    noise: &mut Noise,
    service: &mut Service,
    drives: MemDrives,
) -> Result<MemDrives, AllocError> {
    let mut clients = draw_clients(rt.alloc(), noise, mix)?;
    let order = noise.order(rt.alloc(), mix)?;
    let drives = play(rt, seed, (&mut clients, &order), service, drives)?;
    look(rt, seed, service, drives)
}

/// Makes a store on blank halves.
fn made(rt: &(impl Abort + AllocGlobal), seed: u64, mix: &Mix) -> Result<MemDrives, Fail> {
    let alloc = rt.alloc();
    let blocks = mix.blocks;
    let words = format!(in alloc; "format {seed} 2 {blocks}")?;
    let drives = MemDrives::blank(alloc, 64)?;
    let (drives, out) = called(alloc, words.as_str(), drives, &mut [])?;
    expect(rt, seed, &out, "file 1\nfile 2\n");
    Ok(drives)
}

/// How many plays are played over each store.
const PLAYS: usize = 2;

/// Makes a store, and plays over it some times. Counts the answers.
fn try_store(
    rt: &(impl Abort + AllocGlobal),
    seed: u64,
    mix: &Mix,
    tally: &mut Tally,
) -> Result<(), Fail> {
    let mut noise = Noise::of(seed);
    let mut service = Service::new(rt.alloc(), mix.blocks, FILES)?;
    let mut drives = made(rt, seed, mix)?;
    for _ in 0..PLAYS {
        drives = play_noise(rt, seed, mix, &mut noise, &mut service, drives)?;
    }
    tally.add(&service.tally);
    Ok(())
}

/// Plays over some stores that are drawn by a mix. All kinds of answers come, but those that are named.
fn try_mix(
    rt: &(impl Abort + AllocGlobal),
    mix: &Mix,
    stores: u64,
    never: &str,
) -> Result<(), Fail> {
    let mut tally = Tally::new();
    for seed in 0..stores {
        try_store(rt, seed, mix, &mut tally)?;
    }
    for (name, count) in NAMES.iter().zip(tally.counts()) {
        let comes = *count > 0;
        assert!(rt; comes != never.contains(*name), "{name} {count}");
    }
    Ok(())
}

#[test]
fn plays_over_a_store_with_room_agree(rt: HostRuntime) -> Result<(), Fail> {
    let mix = Mix {
        blocks: 64,
        lines: 20,
        slots: 3,
        depth: 2,
        ends: 8,
    };
    try_mix(&rt, &mix, 6, "full nospace")
}

#[test]
fn plays_over_wide_trees_agree(rt: HostRuntime) -> Result<(), Fail> {
    let mix = Mix {
        blocks: 64,
        lines: 20,
        slots: 16,
        depth: 1,
        ends: 6,
    };
    try_mix(&rt, &mix, 6, "full nospace")
}

#[test]
fn plays_over_deep_trees_agree(rt: HostRuntime) -> Result<(), Fail> {
    let mix = Mix {
        blocks: 64,
        lines: 20,
        slots: 1,
        depth: 7,
        ends: 8,
    };
    try_mix(&rt, &mix, 4, "full nospace")
}

#[test]
fn plays_over_a_small_store_agree(rt: HostRuntime) -> Result<(), Fail> {
    let mix = Mix {
        blocks: 16,
        lines: 20,
        slots: 3,
        depth: 2,
        ends: 6,
    };
    try_mix(&rt, &mix, 4, "full")
}

#[test]
fn plays_of_long_updates_agree(rt: HostRuntime) -> Result<(), Fail> {
    let mix = Mix {
        blocks: 64,
        lines: 150,
        slots: 3,
        depth: 2,
        ends: 300,
    };
    try_mix(&rt, &mix, 1, "nospace unchanged merged conflict slot")
}
