//! The program's words, and files of any length.
ghost use Rattle.std.specs.Prelude.{◌≡◌, IfOk, vec_len};

use crate::{CANNOT_OPEN, Invocation, serve};
use afs_top::{Status, afs_words};
use drive_file::FileDrives;
use drives::{Drives, Half, Memory, SureDrives};
use page_codec::fresh_image;
use script_text::{MemSink, MemSource};
use std::alloc::{AllocError, Global};
use std::fs;
use std::test::Fail;

fn words_of(alloc: Global, words: &[&str]) -> Result<Vec<String>, AllocError> {
    let mut all = Vec::new(alloc);
    for word in words {
        all.push(String::from_str(alloc, word)?)?;
    }
    Ok(all)
}

/// How many words name the command, and how many scripts come with it.
fn counts(alloc: Global, words: &[&str]) -> Result<Option<(usize, usize)>, AllocError> {
    let all = words_of(alloc, words)?;
    Ok(Invocation::of(&all).map(|called| (called.words.len(), called.scripts.len())))
}

#[test]
fn scripts_stand_behind_the_first_colon(rt: HostRuntime) -> Result<(), Fail> {
    let table: [(&[&str], Option<(usize, usize)>); 7] = [
        (&[], None),
        (&["afs", "a", "b"], None),
        (&["afs", "a", "b", ":", "show"], None),
        (&["afs", "a", "b", "show"], Some((1, 0))),
        (&["afs", "a", "b", "show", ":"], Some((1, 0))),
        (&["afs", "a", "b", "play", ":", "x"], Some((1, 1))),
        (&["afs", "a", "b", "play", "1", ":", "x", ":"], Some((2, 2))),
    ];
    for (words, expected) in table {
        assert_eq!(rt; counts(rt.alloc(), words)?, expected);
    }
    Ok(())
}

/// The status of a command over the files `a` and `b`.
fn status_of(
    rt: &(impl fs::Files<File = fs::File> + Print),
    alloc: Global,
    command: &[&str],
) -> Result<u8, Fail> {
    let mut words = words_of(alloc, &["afs", "a", "b"])?;
    for word in command {
        words.push(String::from_str(alloc, word)?)?;
    }
    match serve(rt, alloc, &words) {
        Ok(status) => Ok(status.code()),
        Err(_) => Ok(CANNOT_OPEN),
    }
}

#[test]
fn files_of_any_length_get_an_answer(rt: HostRuntime) -> Result<(), Fail> {
    let alloc = rt.alloc();
    for (a, b) in [
        (0, 0),
        (1, 0),
        (1023, 1),
        (0, 1024),
        (1024, 1025),
        (5000, 70000),
        // The longest half that is looked at: 64 MiB, or 65,536 blocks.
        (67108864, 1023),
        (67108864, 67108864),
    ] {
        let bytes = vec![in alloc; 0xa5; a]?;
        fs::write(&rt, "a", bytes.as_slice()).ok().ok_or("write")?;
        let bytes = vec![in alloc; 0xa5; b]?;
        fs::write(&rt, "b", bytes.as_slice()).ok().ok_or("write")?;
        assert_eq!(rt; status_of(&rt, alloc, &["show"])?, Status::BadStore.code());
        assert_eq!(rt; status_of(&rt, alloc, &["check"])?, Status::BadStore.code());
    }
    Ok(())
}

#[test]
fn a_store_stands_in_files_that_end_behind_it(rt: HostRuntime) -> Result<(), Fail> {
    let alloc = rt.alloc();
    assert_eq!(rt; status_of(&rt, alloc, &["format", "7", "2", "4096"])?, 0);
    assert_eq!(rt; status_of(&rt, alloc, &["check"])?, 0);
    // The last block of the store is written on half A, and is no place.
    let mut drives = FileDrives::open(&rt, "a", "b").ok().ok_or("open")?;
    assert!(rt; drives.write(Half::A, 4194303, &[7]).is_ok());
    // While another has the halves, they cannot be opened.
    assert_eq!(rt; status_of(&rt, alloc, &["show"])?, CANNOT_OPEN);
    drop(drives);
    assert_eq!(rt; status_of(&rt, alloc, &["show"])?, 0);
    Ok(())
}

/// The second version of file 1, which made `/0` and `/1`, in blocks 3 to 5, and the link to it.
const PAGES: [(usize, &[u8]); 8] = [
    (1024 + 82, &[0, 0, 0, 3]),
    (3072, &[0xa5, 0x56, 0, 3, 0x90, 0, 0, 4, 0x90, 0, 0, 5]),
    (
        3072 + 70,
        &[0, 0, 0, 1, 0, 0, 0, 0, 0, 0, 0, 2, 0, 0, 0, 0, 0, 0, 0, 1],
    ),
    (3072 + 1019, &[0, 3]),
    (4096, &[0xa5, 0x50, 1]),
    (4096 + 1019, &[0xff, 0xff]),
    (5120, &[0xa5, 0x50, 1]),
    (5120 + 1019, &[0xff, 0xff]),
];

/// A half of the new store of two files with that version.
fn half_with_pages(alloc: Global) -> Result<Vec<u8>, Memory>
    ensures { IfOk result (λ half. vec_len half ≡ 65536) }
{
    let mut half = fresh_image(alloc, 2, 64, 7)?;
    half.resize(65536, 0)?;
    'patches: for (at, bytes) in PAGES {
        'bytes: for k in 0..bytes.len() {
            if k < half.len() && at < half.len() - k {
                half[at + k] = bytes[k];
            }
        }
    }
    Ok(half)
}

/// What a command prints over that store.
fn printed_with_pages(alloc: Global, word: &str) -> Result<Vec<u8>, Fail> {
    let words = words_of(alloc, &[word])?;
    let drives = SureDrives::of_halves(alloc, half_with_pages(alloc)?, half_with_pages(alloc)?)?;
    let mut scripts: Vec<MemSource> = Vec::new(alloc);
    let mut out = MemSink::of(Vec::new(alloc), Vec::new(alloc));
    let _ = afs_words(alloc, &words, drives, &mut scripts, &mut out);
    Ok(Vec::from_slice(alloc, out.bytes())?)
}

#[test]
fn the_pages_of_a_version_are_counted_and_shown(rt: HostRuntime) -> Result<(), Fail> {
    let alloc = rt.alloc();
    let table: [(&str, &[u8]); 2] = [
        ("check", b"files 2 versions 3 blocks 5 free 58\n"),
        ("show", b"file 1: 1 2\n/ -\n/0 -\n/1 -\nfile 2: 1\n/ -\n"),
    ];
    for (word, expected) in table {
        assert_eq!(rt; printed_with_pages(alloc, word)?.as_slice(), expected);
    }
    Ok(())
}
