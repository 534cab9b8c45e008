// Sources and sinks that fail, and halves of which one alone is left.
use super::*;

/// One client who writes so many bytes, and reads them.
fn writer(alloc: Global, bytes: usize) -> Result<String, AllocError> {
    let mut text = String::from_str(alloc, "begin 1\nwrite / ")?;
    for _ in 0..bytes {
        text.push_str("61")?;
    }
    text.push_str("\nread /\ncommit")?;
    Ok(text)
}

/// How many bytes are written; which call of the source fails, and which of the sink; the status, and what is printed.
const EARLY: [(usize, u64, u64, u8, &str); 4] = [
    (1, 1, 0, 6, "source 1\n"),
    (1, 1, 1, 6, ""),
    (801, 0, 0, 2, "script 1 line 2: data\n"),
    (801, 0, 1, 2, ""),
];

#[test]
fn what_is_not_played_leaves_the_halves_alone(rt: HostRuntime) -> Result<(), Fail> {
    let alloc = rt.alloc();
    for (row, (bytes, source, sink, status, text)) in EARLY.iter().enumerate() {
        let script = writer(alloc, *bytes)?;
        let drives = MemDrives::blank(alloc, 64)?;
        let (ended, out) = called(alloc, "play", &script, (*source, *sink), drives)?;
        expect(&rt, row, (ended.status.code(), &out), (*status, *text));
        assert_eq!(rt; ended.drives.now(), 0, "row {row}");
    }
    Ok(())
}

/// What is left of a play of this script once the call that stands so many before its last one failed; of the last 14
/// calls each half has 7, half B first, by which block 1 gets the link to the new version. Then the status and what is
/// printed where no line is played over both halves, and over half A alone.
type Cut = (u64, u8, &'static str, u8, &'static str);

const OLD: &str = "file 1: 1\nfile 2: 1\n";

const NEW: &str = "file 1: 1 2\nfile 2: 1\n";

const CUTS: [Cut; 4] = [
    (13, 0, OLD, 0, OLD),
    (6, 0, NEW, 0, OLD),
    // The gate is shut on half A.
    (4, 0, NEW, 4, "bad store: block 1 closed\n"),
    (0, 0, NEW, 0, NEW),
];

/// A play over a new store whose call of this number fails.
fn cut_at(alloc: Global, call: u64) -> Result<MemDrives, Fail> {
    let mut drives = new_store(alloc)?;
    drives.fail_at(Vec::from_slice(alloc, &[call])?);
    let script = writer(alloc, 1)?;
    Ok(called(alloc, "play", &script, (0, 0), drives)?.0.drives)
}

/// Both halves, or half A alone: then all bytes of half B are zero.
fn left_of(alloc: Global, drives: &MemDrives, alone: bool) -> Result<MemDrives, Fail> {
    let a = Vec::from_slice(alloc, drives.half_bytes(Half::A))?;
    let mut b = Vec::from_slice(alloc, drives.half_bytes(Half::B))?;
    if alone {
        b.fill(0);
    }
    let len = a.len();
    if len % 1024 != 0 || len < 1024 || len > 1024 * 65536 || b.len() != len {
        return Err("two halves".into());
    }
    Ok(MemDrives::of_halves(alloc, a, b)?)
}

/// Plays no line over what a play left.
fn look(
    rt: &(impl Abort + AllocGlobal),
    row: usize,
    drives: &MemDrives,
    alone: bool,
    expected: (u8, &str),
) -> Result<(), Fail> {
    let left = left_of(rt.alloc(), drives, alone)?;
    let (ended, out) = called(rt.alloc(), "play", "\n", (0, 0), left)?;
    expect(rt, row, (ended.status.code(), &out), expected);
    Ok(())
}

#[test]
fn half_a_alone_has_what_reached_it(rt: HostRuntime) -> Result<(), Fail> {
    let last = cut_at(rt.alloc(), 0)?.now();
    for (row, (before, status, text, status_alone, text_alone)) in CUTS.iter().enumerate() {
        let drives = cut_at(rt.alloc(), last.saturating_sub(*before))?;
        look(&rt, row, &drives, false, (*status, *text))?;
        look(&rt, row, &drives, true, (*status_alone, *text_alone))?;
    }
    Ok(())
}
