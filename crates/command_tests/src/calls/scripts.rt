//! Which texts `play` takes as scripts, and long ones.
use super::*;

/// A text by its parts, one of them repeated, and how many lines of it are answered where it is a script, or else what
/// is printed.
type Text = (
    &'static str,
    &'static str,
    usize,
    &'static str,
    usize,
    &'static str,
);

const TEXTS: [Text; 13] = [
    ("begin 1;", "", 0, "commit", 2, ""),
    ("begin 1;", "write / 0AfF;", 1, "commit", 3, ""),
    ("begin 1;write / ", "61", 800, ";read /;commit", 4, ""),
    (
        "begin 1;write / ",
        "61",
        801,
        ";commit",
        0,
        "script 1 line 2: data;",
    ),
    // A 129th step is answered, and not done.
    ("begin 1;", "write / 00;", 128, "write / 01;commit", 131, ""),
    ("", "begin 1;abandon;", 499, "begin 1;abandon", 1000, ""),
    (
        "",
        "begin 1;abandon;",
        500,
        "begin 1",
        0,
        "script 1 line 1001: lines;",
    ),
    (
        "begin 1;write / ",
        "6g",
        1,
        ";commit",
        0,
        "script 1 line 2: data;",
    ),
    (
        "begin 1;write / ",
        "686",
        1,
        ";commit",
        0,
        "script 1 line 2: data;",
    ),
    ("begin 1;", "read  /;", 1, "commit", 3, ""),
    (
        "begin 1;",
        "list /0;",
        1,
        "read /16",
        0,
        "script 1 line 3: path;",
    ),
    (
        "begin 1;commit;",
        "create;",
        1,
        "",
        0,
        "script 1 line 3: unbuilt;",
    ),
    ("begin 4033", "", 0, "", 0, "script 1 line 1: number;"),
];

/// The first part, the second so many times, and the third.
fn text_of(
    alloc: Global,
    head: &str,
    part: &str,
    times: usize,
    tail: &str,
) -> Result<String, AllocError> {
    let mut text = String::from_str(alloc, head)?;
    for _ in 0..times {
        text.push_str(part)?;
    }
    text.push_str(tail)?;
    Ok(text)
}

/// How many of these lines answer a line of the script.
fn answers_in(printed: &[u8]) -> usize {
    printed
        .split(|byte| *byte == b'\n')
        .filter(|line| line.starts_with(b"1."))
        .count()
}

/// How many of these lines end so.
fn lines_ending(printed: &[u8], end: &[u8]) -> usize {
    printed
        .split(|byte| *byte == b'\n')
        .filter(|line| line.ends_with(end))
        .count()
}

/// Plays a script of a text, and looks at how many lines were answered, or at what is printed where it is none. A script
/// that is refused is refused before any call of the halves.
fn try_text(rt: &(impl Abort + AllocGlobal), row: usize, text: &Text) -> Result<(), Fail> {
    let (head, part, times, tail, lines, refused) = *text;
    let script = text_of(rt.alloc(), head, part, times, tail)?;
    let scripts = text_of(rt.alloc(), &script, "|", 1, "")?;
    let drives = made(rt.alloc(), SERVED)?;
    let before = drives.now();
    let (ended, out) = called(rt.alloc(), ("play", &scripts, 0, 0), drives)?;
    if refused.is_empty() {
        assert_eq!(rt; ended.status.code(), 0, "row {row}");
        assert_eq!(rt; answers_in(out.bytes()), lines, "row {row}");
        return Ok(());
    }
    assert_eq!(rt; ended.drives.now(), before, "row {row}");
    expect(rt, row, (ended.status.code(), &out), (2, refused))?;
    Ok(())
}

#[test]
fn scripts_are_played_or_refused(rt: HostRuntime) -> Result<(), Fail> {
    for (row, text) in TEXTS.iter().enumerate() {
        try_text(&rt, row, text)?;
    }
    Ok(())
}

#[test]
fn a_129th_step_is_answered_and_not_done(rt: HostRuntime) -> Result<(), Fail> {
    let alloc = rt.alloc();
    let steps = text_of(alloc, "begin 1;", "write / 00;", 128, "write / 01;commit|")?;
    let (ended, out) = called(alloc, ("play", &steps, 0, 0), made(alloc, SERVED)?)?;
    assert_eq!(rt; ended.status.code(), 0);
    assert_eq!(rt; lines_ending(out.bytes(), b"1.130 full"), 1);
    answered(
        &rt,
        0,
        SHOW,
        ended.drives,
        (0, "file 1: 1 2;/ 00;file 2: 1;/ -;"),
    )?;
    Ok(())
}
