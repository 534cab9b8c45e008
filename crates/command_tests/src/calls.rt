// Whole calls over halves in memory, against the answers and the bytes that the formats ask for.
use afs_top::{Ended, afs_words};
use drives::{Drives, Half, MemDrives};
use script_text::{MemSink, MemSource};
use std::alloc::{AllocError, Global};
use std::process::Abort;
use std::test::Fail;
use test_words::put_text;

mod crashes;
mod cuts;
mod noise;
mod plays;
mod rows;
mod scripts;
mod sequences;
mod stores;

/// A call: its words; the scripts that come with it, each with `|` behind it and `;` between its lines; and which call
/// of each of their sources and which one of the sink fails, 0 for none.
type Call<'a> = (&'a str, &'a str, u64, u64);

/// The words of a call that makes a store on blank halves of 64 blocks, or none; what is put over half A then and over
/// half B; which calls of these halves fail; a call over them; how it ends and what it prints.
type Case = (
    &'static str,
    &'static str,
    &'static str,
    &'static str,
    Call<'static>,
    u8,
    &'static str,
);

/// The new store that is served, one of another key, and blank halves.
const SERVED: &str = "format 7 2 64";

const OTHER: &str = "format 8 2 64";

const BLANK: &str = "";

const SHOW: Call = ("show", "", 0, 0);

const CHECK: Call = ("check", "", 0, 0);

const SAMPLE: &str = "begin 1;write / 6869;read /;commit|";

const PLAY: Call = ("play", SAMPLE, 0, 0);

/// What calls print, with `;` for each line feed.
const ANSWERS: &str = "1.1 base 1;1.2 ok;1.3 data 6869;1.4 committed 2;file 1: 1 2;file 2: 1;";

/// What is shown of the new store, and once the sample was played.
const NEW: &str = "file 1: 1;/ -;file 2: 1;/ -;";

const PLAYED: &str = "file 1: 1 2;/ 6869;file 2: 1;/ -;";

/// The text with a line feed for each `;`.
fn lines_of(alloc: Global, text: &str) -> Result<Vec<u8>, AllocError> {
    let mut bytes = Vec::from_slice(alloc, text.as_bytes())?;
    for byte in bytes.iter_mut() {
        if *byte == b';' {
            *byte = b'\n';
        }
    }
    Ok(bytes)
}

fn words_of(alloc: Global, text: &str) -> Result<Vec<String>, AllocError> {
    let mut all = Vec::new(alloc);
    for word in text.split(' ') {
        all.push(String::from_str(alloc, word)?)?;
    }
    Ok(all)
}

/// One number, or none for 0.
fn one(alloc: Global, number: u64) -> Result<Vec<u64>, AllocError> {
    let mut all = Vec::new(alloc);
    if number > 0 {
        all.push(number)?;
    }
    Ok(all)
}

/// A script that a text holds, with a line feed behind each of its lines.
fn script_of(alloc: Global, text: &str) -> Result<Vec<u8>, AllocError> {
    let mut script = lines_of(alloc, text)?;
    if !script.is_empty() {
        script.push(b'\n')?;
    }
    Ok(script)
}

fn sources_of(alloc: Global, scripts: &str, fails: u64) -> Result<Vec<MemSource>, AllocError> {
    let mut all = Vec::new(alloc);
    let Some(texts) = scripts.strip_suffix('|') else {
        return Ok(all);
    };
    for text in texts.split('|') {
        all.push(MemSource::of(script_of(alloc, text)?, one(alloc, fails)?))?;
    }
    Ok(all)
}

/// What a call is given beside the drives.
#[derive(Drop)]
struct Given {
    words: Vec<String>,
    scripts: Vec<MemSource>,
    out: MemSink,
}

fn make_given(alloc: Global, call: Call) -> Result<Given, AllocError> {
    let (words, scripts, source, sink) = call;
    let out = MemSink::of(Vec::new(alloc), one(alloc, sink)?);
    let scripts = sources_of(alloc, scripts, source)?;
    let words = words_of(alloc, words)?;
    Ok(Given {
        words,
        scripts,
        out,
    })
}

/// Makes a call.
fn called<V: Drives + Drop>(
    alloc: Global,
    call: Call,
    drives: V,
) -> Result<(Ended<V>, MemSink), AllocError> {
    let Given {
        words,
        mut scripts,
        mut out,
    } = make_given(alloc, call)?;
    let ended = afs_words(alloc, &words, drives, &mut scripts, &mut out);
    Ok((ended, out))
}

/// Halves of 64 blocks after a call without scripts; with no words they are blank.
fn made(alloc: Global, words: &str) -> Result<MemDrives, Fail> {
    let drives = MemDrives::blank(alloc, 64)?;
    if words.is_empty() {
        return Ok(drives);
    }
    Ok(called(alloc, (words, "", 0, 0), drives)?.0.drives)
}

/// A half with the words of a text over it.
fn patched(alloc: Global, half: &[u8], text: &str) -> Result<Vec<u8>, Fail> {
    let mut half = Vec::from_slice(alloc, half)?;
    put_text(&mut half, text).ok_or("no words of a half")?;
    Ok(half)
}

/// Halves of these bytes.
fn of_two(alloc: Global, a: Vec<u8>, b: Vec<u8>) -> Result<MemDrives, Fail> {
    let len = a.len();
    if len % 1024 != 0 || len < 1024 || len > 1024 * 65536 || b.len() != len {
        return Err("two halves".into());
    }
    Ok(MemDrives::of_halves(alloc, a, b)?)
}

/// Half A of the first drives and half B of the second, with these words over each.
fn joined(
    alloc: Global,
    first: &MemDrives,
    second: &MemDrives,
    a: &str,
    b: &str,
) -> Result<MemDrives, Fail> {
    let a = patched(alloc, first.half_bytes(Half::A), a)?;
    let b = patched(alloc, second.half_bytes(Half::B), b)?;
    of_two(alloc, a, b)
}

/// Halves of 64 blocks after a call without scripts, with these words over each.
fn begun(alloc: Global, words: &str, a: &str, b: &str) -> Result<MemDrives, Fail> {
    let drives = made(alloc, words)?;
    joined(alloc, &drives, &drives, a, b)
}

/// The numbers of a text, parted by spaces.
fn numbers_of(alloc: Global, text: &str) -> Result<Vec<u64>, Fail> {
    let mut all = Vec::new(alloc);
    for word in text.split(' ') {
        if !word.is_empty() {
            all.push(word.parse::<u64>().ok().ok_or("no number")?)?;
        }
    }
    Ok(all)
}

/// Compares how a call ended and what it printed, by a text with `;` for each line feed.
fn expect(
    rt: &(impl Abort + AllocGlobal),
    row: usize,
    ends: (u8, &MemSink),
    expected: (u8, &str),
) -> Result<(), AllocError> {
    let text = lines_of(rt.alloc(), expected.1)?;
    assert_eq!(rt; ends.1.bytes(), text.as_slice(), "row {row}");
    assert_eq!(rt; ends.0, expected.0, "row {row}");
    Ok(())
}

/// Makes the call of a case, looks at how it ends, and gives the halves back.
fn try_case(rt: &(impl Abort + AllocGlobal), row: usize, case: &Case) -> Result<MemDrives, Fail> {
    let (words, a, b, failing, call, code, text) = *case;
    let fails = numbers_of(rt.alloc(), failing)?;
    let mut drives = begun(rt.alloc(), words, a, b)?;
    drives.fail_at(fails);
    let (ended, out) = called(rt.alloc(), call, drives)?;
    expect(rt, row, (ended.status.code(), &out), (code, text))?;
    Ok(ended.drives)
}

/// Makes a call, looks at how it ends, and gives the halves back.
fn answered(
    rt: &(impl Abort + AllocGlobal),
    row: usize,
    call: Call,
    drives: MemDrives,
    expected: (u8, &str),
) -> Result<MemDrives, AllocError> {
    let (ended, out) = called(rt.alloc(), call, drives)?;
    expect(rt, row, (ended.status.code(), &out), expected)?;
    Ok(ended.drives)
}
