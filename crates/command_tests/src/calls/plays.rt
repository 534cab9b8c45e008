// Plays, each with how it ends, what it prints, and whether the update then stands on both halves.
use super::*;
use drives::SureDrives;

/// The pages of the update, on a half: the second version stands in block 3, and the first names it.
const UPDATE: &str =
    "3.0:a5560007 3.68:0002000000010000000000000002 3.82:0000000000000001 3.219:686900 \
    1.0:a5560000 1.70:00000001000000000000000100000003";

/// Whether both halves have the update, or else none has: compares that.
fn hold(rt: &impl Abort, alloc: Global, a: &[u8], b: &[u8], done: bool) -> Result<(), Fail> {
    assert_eq!(rt; patched(alloc, a, UPDATE)?.as_slice() == a, done);
    assert_eq!(rt; patched(alloc, b, UPDATE)?.as_slice() == b, done);
    Ok(())
}

const READ: &str = "1.1 base 1;1.2 data -;1.3 committed 1;file 1: 1;file 2: 1;";

const WORN: &str =
    "1.1 base 18446744073709551615;1.2 ok;1.3 worn;file 1: 18446744073709551615;file 2: 1;";

/// Plays. Mending reads block 0 on half B, then on half A, looks at it, and then reads the other blocks on half B, then
/// on half A. Where a play of the sample ends well, or with a fault of the sink, the update stands on both halves, and
/// else on none.
const PLAYS: [Case; 15] = [
    (SERVED, "", "", "", PLAY, 0, ANSWERS),
    (SERVED, "2.0:01", "", "", PLAY, 0, ANSWERS),
    (SERVED, "", "2.0:00", "", PLAY, 0, ANSWERS),
    (BLANK, "", "", "", PLAY, 4, "bad store: block 0 closed;"),
    (SERVED, "", "", "1", PLAY, 3, "drive B;"),
    (SERVED, "", "", "2", PLAY, 3, "drive A;"),
    (SERVED, "", "", "3", PLAY, 0, ANSWERS),
    (SERVED, "", "", "3 4", PLAY, 3, "drive A;"),
    (SERVED, "", "", "4", PLAY, 3, "drive B;"),
    (SERVED, "", "", "5", PLAY, 3, "drive A;"),
    (SERVED, "", "", "", ("run", SAMPLE, 0, 0), 1, "usage;"),
    (SERVED, "", "", "", ("play", SAMPLE, 1, 0), 6, "source 1;"),
    (
        SERVED,
        "",
        "",
        "",
        ("play", SAMPLE, 0, 3),
        5,
        "1.1 base 1;1.2 ok;",
    ),
    (
        SERVED,
        "",
        "",
        "",
        ("play", "begin 1;read /;commit|", 0, 0),
        0,
        READ,
    ),
    (
        SERVED,
        "1.74:ff*8",
        "1.74:ff*8",
        "",
        ("play", "begin 1;write / 00;commit|", 0, 0),
        0,
        WORN,
    ),
];

#[test]
fn plays_end_so_and_leave_the_update_or_nothing(rt: HostRuntime) -> Result<(), Fail> {
    for (row, case) in PLAYS.iter().enumerate() {
        let drives = try_case(&rt, row, case)?;
        let (a, b) = (drives.half_bytes(Half::A), drives.half_bytes(Half::B));
        hold(&rt, rt.alloc(), a, b, case.6 == ANSWERS || case.5 == 5)?;
    }
    Ok(())
}

/// The store that is served, on halves that never fail.
fn sure_served(alloc: Global) -> Result<SureDrives, Fail> {
    let blank = SureDrives::blank(alloc, 64)?;
    Ok(called(alloc, (SERVED, "", 0, 0), blank)?.0.drives)
}

#[test]
fn halves_that_never_fail(rt: HostRuntime) -> Result<(), Fail> {
    let (ended, out) = called(rt.alloc(), PLAY, sure_served(rt.alloc())?)?;
    expect(&rt, 0, (ended.status.code(), &out), (0, ANSWERS))?;
    let a = ended.drives.half_bytes(Half::A);
    hold(&rt, rt.alloc(), a, ended.drives.half_bytes(Half::B), true)
}

#[test]
fn a_fault_of_the_link_is_told_with_what_was_answered(rt: HostRuntime) -> Result<(), Fail> {
    let alloc = rt.alloc();
    let drives = made(alloc, SERVED)?;
    // The last call of the run ends the link on half A.
    let last = answered(&rt, 0, PLAY, drives, (0, ANSWERS))?.now();
    let fails = one(alloc, last)?;
    let mut drives = made(alloc, SERVED)?;
    drives.fail_at(fails);
    let (ended, out) = called(alloc, PLAY, drives)?;
    let answers = "1.1 base 1;1.2 ok;1.3 data 6869;drive A;";
    expect(&rt, 0, (ended.status.code(), &out), (3, answers))?;
    assert!(rt; ended.journal.doubt.is_some());
    Ok(())
}
