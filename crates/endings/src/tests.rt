//! Lines on sinks in memory, against the words that the program is to print.
use crate::*;
use afs_base::BlockNo;
use drives::Half;
use page_codec::Why;
use script_text::{MemSink, Sink};
use std::alloc::{AllocError, Global};
use std::process::Abort;
use std::test::Fail;

/// A sink whose calls of these numbers fail.
fn sink(alloc: Global, fails: &[u64]) -> Result<MemSink, AllocError> {
    Ok(MemSink::of(Vec::new(alloc), Vec::from_slice(alloc, fails)?))
}

#[test]
fn each_line_of_a_text_is_one_call(rt: HostRuntime) -> Result<(), Fail> {
    let alloc = rt.alloc();
    let table: [(u64, &[u8], bool); 5] = [
        (0, b"one\n\nthree\nfour", true),
        (1, b"", false),
        (2, b"one\n", false),
        (3, b"one\n\n", false),
        (4, b"one\n\nthree\n", false),
    ];
    for (failing, printed, done) in table {
        let mut out = sink(alloc, &[failing])?;
        let result = put_text(&mut out, b"one\n\nthree\nfour");
        assert_eq!(rt; result.is_ok(), done, "call {failing}");
        assert_eq!(rt; out.bytes(), printed, "call {failing}");
    }
    Ok(())
}

/// The status of each way to end, and what it prints.
fn ways(
    rt: &impl Abort,
    alloc: Global,
    fails: &[u64],
    expected: &[(u8, &[u8]); 6],
) -> Result<(), Fail> {
    let block = BlockNo::of(268435455).ok().ok_or("in range")?;
    for i in 0..6 {
        let mut out = sink(alloc, fails)?;
        let status = match i {
            0 => end_usage(&mut out),
            1 => end_memory(&mut out),
            2 => end_drive(&mut out, Half::A),
            3 => end_drive(&mut out, Half::B),
            4 => end_bad_store(alloc, &mut out, block, Why::Generation),
            _ => finish(&mut out, b"done\n"),
        };
        assert_eq!(rt; status.code(), expected[i].0, "way {i}");
        assert_eq!(rt; out.bytes(), expected[i].1, "way {i}");
    }
    Ok(())
}

#[test]
fn a_status_other_than_0_stays_where_its_line_is_refused(rt: HostRuntime) -> Result<(), Fail> {
    let alloc = rt.alloc();
    ways(
        &rt,
        alloc,
        &[],
        &[
            (1, b"usage\n"),
            (7, b"memory\n"),
            (3, b"drive A\n"),
            (3, b"drive B\n"),
            (4, b"bad store: block 268435455 generation\n"),
            (0, b"done\n"),
        ],
    )?;
    ways(
        &rt,
        alloc,
        &[1],
        &[(1, b""), (7, b""), (3, b""), (3, b""), (4, b""), (5, b"")],
    )
}
