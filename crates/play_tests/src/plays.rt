// Plays over halves in memory, by the calls that a program makes.
use afs_top::{Ended, afs_words};
use drives::{Drives, Half, MemDrives};
use script_text::{MemSink, MemSource};
use std::alloc::{AllocError, Global};
use std::process::Abort;
use std::test::Fail;
use test_words::put_text;

mod blocks;
mod faults;
mod turns;

/// Two clients, their scripts parted by `|`. Each writes a page of its own. The second began before the first committed,
/// so it merges.
const WRITERS: &str = "begin 1\nwrite /0 aa\ncommit|begin 1\nwrite /1 bb\ncommit";

fn words_of(alloc: Global, text: &str) -> Result<Vec<String>, AllocError> {
    let mut all = Vec::new(alloc);
    for word in text.split(' ') {
        all.push(String::from_str(alloc, word)?)?;
    }
    Ok(all)
}

/// Sources of scripts that are parted by `|`, none for no text. The call of this number fails in each, 0 for none.
fn sources_of(alloc: Global, scripts: &str, failing: u64) -> Result<Vec<MemSource>, AllocError> {
    let mut all = Vec::new(alloc);
    if scripts.is_empty() {
        return Ok(all);
    }
    for text in scripts.split('|') {
        let bytes = Vec::from_slice(alloc, text.as_bytes())?;
        all.push(MemSource::of(bytes, Vec::from_slice(alloc, &[failing])?))?;
    }
    Ok(all)
}

/// Makes a call. The calls of these numbers fail, of each source and of the sink.
fn called(
    alloc: Global,
    words: &str,
    scripts: &str,
    (source, sink): (u64, u64),
    drives: MemDrives,
) -> Result<(Ended<MemDrives>, MemSink), AllocError> {
    let words = words_of(alloc, words)?;
    let mut scripts = sources_of(alloc, scripts, source)?;
    let mut out = MemSink::of(Vec::new(alloc), Vec::from_slice(alloc, &[sink])?);
    let ended = afs_words(alloc, &words, drives, &mut scripts, &mut out);
    Ok((ended, out))
}

/// A new store of two files.
fn new_store(alloc: Global) -> Result<MemDrives, Fail> {
    let blank = MemDrives::blank(alloc, 64)?;
    Ok(called(alloc, "format 7 2 64", "", (0, 0), blank)?.0.drives)
}

/// The same, once its first file has pages 0 and 1.
fn two_pages(alloc: Global) -> Result<MemDrives, Fail> {
    let pages = "begin 1\nmake /0\nmake /1\ncommit";
    Ok(
        called(alloc, "play", pages, (0, 0), new_store(alloc)?)?
            .0
            .drives,
    )
}

/// Compares how a call ended, and what it printed.
fn expect(rt: &impl Abort, row: usize, (status, out): (u8, &MemSink), (code, text): (u8, &str)) {
    assert_eq!(rt; out.bytes(), text.as_bytes(), "row {row}");
    assert_eq!(rt; status, code, "row {row}");
}
