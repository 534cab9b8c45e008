use super::*;
use std::test::*;

/// Each code's flags: copied, read, written, searched, modified.
const ROWS: [[bool; 5]; 13] = [
    [false, false, false, false, false],
    [true, false, false, false, false],
    [true, false, false, true, false],
    [true, false, false, true, true],
    [true, true, false, false, false],
    [true, true, false, true, false],
    [true, true, false, true, true],
    [true, false, true, false, false],
    [true, false, true, true, false],
    [true, false, true, true, true],
    [true, true, true, false, false],
    [true, true, true, true, false],
    [true, true, true, true, true],
];

#[test]
fn thirteen_codes_and_no_more(rt: HostRuntime) -> Result<(), Fail> {
    for (i, row) in ROWS.iter().enumerate() {
        let code = u8::try_from(i).ok().ok_or("small")?;
        let flags = Flags::of_code(code)?;
        let marks = [
            flags.copied(),
            flags.read(),
            flags.written(),
            flags.searched(),
            flags.modified(),
        ];
        assert_eq!(rt; marks, *row);
        assert_eq!(rt; flags.code(), code);
    }
    for code in 13..=255u8 {
        assert_eq!(rt; Flags::of_code(code), Err(NotAFlagCode { code }));
    }
    Ok(())
}

/// The code of each mark alone.
const MARKS: [(Mark, u8); 5] = [
    (Mark::Copy, 1),
    (Mark::Read, 4),
    (Mark::Write, 7),
    (Mark::Search, 2),
    (Mark::Modify, 3),
];

#[test]
fn marks_add_up(rt: HostRuntime) {
    let mut all = Flags::none();
    for (mark, code) in MARKS {
        let flags = Flags::none().see(mark);
        assert_eq!(rt; flags.code(), code, "{mark:?}");
        assert_eq!(rt; flags.see(Mark::Copy), flags, "{mark:?}");
        all = all.see(mark);
    }
    assert_eq!(rt; all.code(), 12);
}
