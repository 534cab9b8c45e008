//! Plays the examples in the folders that its words name, each over blank halves in memory, and prints of each
//! whether its commands print what its file `stdout` has.
#![tactic(auto)]

use afs_top::afs_words;
use drives::MemDrives;
use script_text::{MemSink, MemSource};
use std::alloc::{AllocError, Global};
use std::rt::Files;
use std::{env, fs, io};

/// How many blocks each half has.
const BLOCKS: u32 = 64;

fn words_of(alloc: Global, text: &str) -> Result<Vec<String>, AllocError> {
    let mut words = Vec::new(alloc);
    for word in text.split_ascii_whitespace() {
        words.push(String::from_str(alloc, word)?)?;
    }
    Ok(words)
}

/// The text of a file of an example.
fn read_file(rt: &(impl Files + AllocGlobal), folder: &str, name: &str) -> io::Result<String> {
    fs::read_to_string(rt, format!(in rt.alloc(); "{folder}/{name}")?)
}

/// The scripts of these names.
fn read_scripts(
    rt: &(impl Files + AllocGlobal),
    folder: &str,
    names: &str,
) -> io::Result<Vec<MemSource>> {
    let mut scripts = Vec::new(rt.alloc());
    for name in names.split_ascii_whitespace() {
        let script = read_file(rt, folder, name)?;
        scripts.push(MemSource::of(script.into_bytes(), Vec::new(rt.alloc())))?;
    }
    Ok(scripts)
}

/// Makes the call of a line, as `afs a b play 1 2 : one two`, and gives the halves back.
fn call(
    rt: &(impl Files + AllocGlobal),
    folder: &str,
    line: &str,
    drives: MemDrives,
    out: &mut MemSink,
) -> io::Result<MemDrives> {
    let Some(command) = line.strip_prefix("afs a b ") else {
        return Err(io::Error::other("a line of `commands` begins with other words than `afs a b`"));
    };
    let (words, names) = command.split_once(" : ").unwrap_or((command, ""));
    let words = words_of(rt.alloc(), words)?;
    let mut scripts = read_scripts(rt, folder, names)?;
    Ok(afs_words(rt.alloc(), &words, drives, &mut scripts, out).drives)
}

/// What the commands of an example print, one after the other.
fn printed(rt: &(impl Files + AllocGlobal), folder: &str) -> io::Result<MemSink> {
    let commands = read_file(rt, folder, "commands")?;
    let mut out = MemSink::of(Vec::new(rt.alloc()), Vec::new(rt.alloc()));
    let mut drives = MemDrives::blank(rt.alloc(), BLOCKS).map_err(|_| AllocError)?;
    for line in commands.lines() {
        if !line.starts_with('#') {
            drives = call(rt, folder, line, drives, &mut out)?;
        }
    }
    Ok(out)
}

fn main(rt: HostRuntime) -> io::Result<()> {
    for folder in env::args(&rt)?.skip(1) {
        let wanted = read_file(&rt, folder.as_str(), "stdout")?;
        if printed(&rt, folder.as_str())?.bytes() == wanted.as_bytes() {
            println!(rt; "{folder}: as its stdout says")?;
        } else {
            println!(rt; "{folder}: otherwise than its stdout says")?;
        }
    }
    Ok(())
}
