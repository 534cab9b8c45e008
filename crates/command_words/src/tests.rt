//! Which words are commands.
ghost use Rattle.std.specs.Prelude.{◌≡◌};

use crate::*;
use afs_base::Memory;
use std::alloc::{AllocError, Global};
use std::fmt::Write;
use std::test::*;

/// The words of a call `play` with these clients.
fn play_words(alloc: Global, order: &[u8]) -> Result<String, AllocError> {
    let mut words = String::from_str(alloc, "play")?;
    for client in order {
        write!(words, " {client}")?;
    }
    Ok(words)
}

/// The words of a call, and `usage` where there is none.
fn shown(alloc: Global, call: Option<Call>) -> Result<String, AllocError> {
    match call {
        Some(Call::Format { store }) => {
            format!(in alloc; "format {} {} {}", store.key, store.files, store.blocks)
        }
        Some(Call::Play { order }) => play_words(alloc, order.as_slice()),
        Some(Call::Show) => String::from_str(alloc, "show"),
        Some(Call::Check) => String::from_str(alloc, "check"),
        Some(Call::Cap { object, rights }) => format!(in alloc; "cap {object} {rights}"),
        None => String::from_str(alloc, "usage"),
    }
}

/// The words of a text that are parted by single spaces; the empty text has one word, which is empty.
fn words_of(alloc: Global, text: &str) -> Result<Vec<String>, AllocError> {
    let mut words = Vec::new(alloc);
    for word in text.split(' ') {
        words.push(String::from_str(alloc, word)?)?;
    }
    Ok(words)
}

/// What these words are shown as, with so many scripts and over drives of so many blocks.
fn answer(alloc: Global, text: &str, scripts: usize, blocks: u32) -> Result<String, AllocError> {
    let words = words_of(alloc, text)?;
    match call_of(alloc, &words, scripts, blocks) {
        Ok(call) => shown(alloc, call),
        Err(Memory) => Err(AllocError),
    }
}

/// The words themselves where they are a command.
fn wanted(text: &str, is_command: bool) -> &str {
    if is_command { text } else { "usage" }
}

#[test]
fn five_forms_are_commands_and_all_else_is_usage(rt: HostRuntime) -> Result<(), Fail> {
    let alloc = rt.alloc();
    // The words, the scripts, the blocks of the drives, and whether it is a command.
    let table = [
        // the forms, and how many scripts they take
        ("format 7 2 64", 0, 64, true),
        ("play", 1, 64, true),
        ("show", 0, 64, true),
        ("check", 0, 64, true),
        ("cap 1 255", 0, 64, true),
        ("format 7 2 64", 1, 64, false),
        ("play", 0, 64, false),
        ("play", 2, 64, true),
        ("play", 16, 64, true),
        ("play", 17, 64, false),
        ("play", 257, 64, false),
        ("show", 1, 64, false),
        ("check", 1, 64, false),
        ("cap 1 255", 1, 64, false),
        // other words, missing and extra ones
        ("", 0, 64, false),
        ("", 1, 64, false),
        ("Play", 1, 64, false),
        ("SHOW", 0, 64, false),
        ("check ", 0, 64, false),
        (" check", 0, 64, false),
        ("checks", 0, 64, false),
        ("plays", 1, 64, false),
        ("show 1", 0, 64, false),
        ("cap", 0, 64, false),
        ("cap 1", 0, 64, false),
        ("cap 1 255 0", 0, 64, false),
        ("Cap 1 255", 0, 64, false),
        ("format", 0, 64, false),
        ("format 7 2", 0, 64, false),
        ("format 7 2 64 0", 0, 64, false),
        ("Format 7 2 64", 0, 64, false),
        ("cap 7 2 64", 0, 64, false),
        ("format 1 255", 0, 64, false),
        // the clients
        ("play 1", 1, 64, true),
        ("play 1 1 1", 1, 64, true),
        ("play 2 2 1 2", 2, 64, true),
        ("play 16 1 9", 16, 64, true),
        ("play 1", 0, 64, false),
        ("play 0", 1, 64, false),
        ("play 3", 2, 64, false),
        ("play 1 3 1", 2, 64, false),
        ("play 1 1 3", 2, 64, false),
        ("play 17", 16, 64, false),
        ("play 257", 16, 64, false),
        ("play 01", 1, 64, false),
        ("play +1", 1, 64, false),
        ("play 1 ", 1, 64, false),
        ("play  1", 1, 64, false),
        ("play 1 x", 1, 64, false),
        ("play 1 show", 1, 64, false),
        ("show 1 play", 1, 64, false),
        // what is no number
        ("format 07 2 64", 0, 64, false),
        ("format 7 02 64", 0, 64, false),
        ("format 7 2 064", 0, 64, false),
        ("format 00 2 64", 0, 64, false),
        ("format +7 2 64", 0, 64, false),
        ("format -7 2 64", 0, 64, false),
        ("format  2 64", 0, 64, false),
        ("format 7x 2 64", 0, 64, false),
        ("format 0x7 2 64", 0, 64, false),
        ("cap 01 255", 0, 64, false),
        ("cap +1 255", 0, 64, false),
        ("cap 1 ", 0, 64, false),
        ("cap 1 00", 0, 64, false),
        // the key
        ("format 0 2 64", 0, 64, true),
        ("format 18446744073709551615 2 64", 0, 64, true),
        ("format 18446744073709551616 2 64", 0, 64, false),
        (
            "format 340282366920938463463374607431768211463 2 64",
            0,
            64,
            false,
        ),
        // the files
        ("format 7 0 64", 0, 64, false),
        ("format 7 1 64", 0, 64, true),
        ("format 7 4032 65536", 0, 65536, true),
        ("format 7 4033 65536", 0, 65536, false),
        ("format 7 4294967298 64", 0, 64, false),
        // the blocks, with a table of one block and of several
        ("format 7 1 1", 0, 64, false),
        ("format 7 1 2", 0, 64, true),
        ("format 7 60 60", 0, 64, false),
        ("format 7 60 61", 0, 64, true),
        ("format 7 61 62", 0, 64, false),
        ("format 7 61 63", 0, 64, true),
        ("format 7 4032 4096", 0, 65536, false),
        ("format 7 4032 4097", 0, 65536, true),
        ("format 7 2 65", 0, 64, false),
        ("format 7 2 65536", 0, 4294967295, true),
        ("format 7 2 65537", 0, 4294967295, false),
        ("format 7 2 4294967360", 0, 4294967295, false),
        ("format 7 64 2", 0, 65536, false),
        // the object and the rights
        ("cap 0 255", 0, 64, false),
        ("cap 4032 0", 0, 64, true),
        ("cap 4033 0", 0, 65536, false),
        ("cap 4294967297 0", 0, 64, false),
        ("cap 1 0", 0, 64, true),
        ("cap 1 256", 0, 64, false),
        ("cap 1 512", 0, 64, false),
        ("cap 61 3", 0, 0, true),
    ];
    for (text, scripts, blocks, is_command) in table {
        let got = answer(alloc, text, scripts, blocks)?;
        assert_eq!(rt;
            got.as_str(),
            wanted(text, is_command),
            "{text}, {scripts} scripts, {blocks} blocks"
        );
    }
    for scripts in 0..3 {
        let no_words = Vec::new(alloc);
        let call = call_of(alloc, &no_words, scripts, 64);
        assert!(rt; call.ok().ok_or("memory")?.is_none());
    }
    Ok(())
}
