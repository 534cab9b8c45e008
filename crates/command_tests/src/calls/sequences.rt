// Commands one after the other over the same halves, and over halves that differ or are made by hand.
use super::*;

const FORMAT: Call = (SERVED, "", 0, 0);

/// Commands, with how each ends and what it prints.
const COMMANDS: [(Call, u8, &str); 10] = [
    (SHOW, 4, "bad store: block 0 closed;"),
    (FORMAT, 0, "file 1;file 2;"),
    (SHOW, 0, NEW),
    (PLAY, 0, ANSWERS),
    (SHOW, 0, PLAYED),
    (CHECK, 0, "files 2 versions 3 blocks 3 free 60;"),
    (("cap 3 1", "", 0, 0), 0, "denied object;"),
    (("cap 01 1", "", 0, 0), 1, "usage;"),
    (FORMAT, 0, "file 1;file 2;"),
    (SHOW, 0, NEW),
];

#[test]
fn commands_work_one_after_the_other(rt: HostRuntime) -> Result<(), Fail> {
    let alloc = rt.alloc();
    let mut drives = MemDrives::blank(alloc, 64)?;
    for (call, code, text) in COMMANDS {
        drives = answered(&rt, 0, call, drives, (code, text))?;
    }
    Ok(())
}

/// What is put over half B of a store that was played, whose half A is as before; the second of these shuts the gate of block 1, which
/// the link is in.
const SHOWN: [(&str, &str, &str); 2] = [
    ("", PLAYED, "file 1: 1 2;file 2: 1;"),
    ("1.0:00", NEW, "file 1: 1;file 2: 1;"),
];

#[test]
fn half_b_decides_where_it_is_open(rt: HostRuntime) -> Result<(), Fail> {
    let old = made(rt.alloc(), SERVED)?;
    let new = answered(&rt, 0, PLAY, made(rt.alloc(), SERVED)?, (0, ANSWERS))?;
    for (words, text, files) in SHOWN {
        let drives = joined(rt.alloc(), &old, &new, "", words)?;
        answered(&rt, 0, SHOW, drives, (0, text))?;
        let drives = joined(rt.alloc(), &old, &new, "", words)?;
        answered(&rt, 0, ("play", "|", 0, 0), drives, (0, files))?;
    }
    Ok(())
}
