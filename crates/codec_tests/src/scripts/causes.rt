//! Which line is bad, and for which cause first.
use super::*;

/// A text, the least line that is bad in it, and its cause.
type Case = (&'static [u8], u32, LineWhy);

/// In mode `Numbers`; of two causes the first in the order, of two bad lines the least.
const NUMBERS: [Case; 22] = [
    (b"commit\ncommit\t\n", 2, LineWhy::Text),
    (b"commit\r", 1, LineWhy::Text),
    (b"# \x80\n", 1, LineWhy::Text),
    (b"open\t1\n", 1, LineWhy::Text),
    (b"\n\nopen 1\n", 3, LineWhy::Word),
    (b"Commit\n", 1, LineWhy::Word),
    (b"commit 0\n", 1, LineWhy::Word),
    (b"begin 1 2\n", 1, LineWhy::Word),
    (b"super 1\n", 1, LineWhy::Word),
    (
        b"super 1 2 3 4 5 6 7 8 9 10 11 12 13 14 15 16 17 18\n",
        1,
        LineWhy::Word,
    ),
    (b"prune 1 N 0\n", 1, LineWhy::Word),
    (b"restrict 1 1\n", 1, LineWhy::Word),
    (b"begin 0\n", 1, LineWhy::Number),
    (b"begin 01\n", 1, LineWhy::Number),
    (b"begin 4033\n", 1, LineWhy::Number),
    (b"begin 4294967297\n", 1, LineWhy::Number),
    (b"prune 1 keep 65536\n", 1, LineWhy::Number),
    (b"read /16\n", 1, LineWhy::Path),
    (b"read /0/\n", 1, LineWhy::Path),
    (b"read /0/1/2/3/4/5/6/7\n", 1, LineWhy::Path),
    (b"commit\nmake /\nbegin x\n", 2, LineWhy::Path),
    (b"write / 0\nopen\nread\t/\n", 1, LineWhy::Data),
];

/// In mode `Caps`.
const CAPS: [Case; 6] = [
    (b"begin 1\n", 1, LineWhy::Capability),
    (b"prune x keep 0\n", 1, LineWhy::Capability),
    (
        b"begin 616d6f6562610000010112a4ffffffg0\n",
        1,
        LineWhy::Capability,
    ),
    (
        b"begin 616d6f6562610000010112a4ffffffff0\n",
        1,
        LineWhy::Capability,
    ),
    (
        b"restrict 616d6f6562610000010112a4ffffffff 256\n",
        1,
        LineWhy::Number,
    ),
    (b"write x 0\n", 1, LineWhy::Path),
];

fn check_cases(rt: &impl Abort, alloc: Global, mode: Mode, cases: &[Case]) {
    for (text, line, why) in cases {
        assert_eq!(rt;
            parse(alloc, mode, text).err(),
            Some(bad(*line, *why)),
            "of {text:?}"
        );
    }
}

#[test]
fn names_the_first_cause(rt: HostRuntime) {
    check_cases(&rt, rt.alloc(), Mode::Numbers, &NUMBERS);
    check_cases(&rt, rt.alloc(), Mode::Caps, &CAPS);
}

/// A text of `n` bytes `fill` with another text behind it.
fn filled(alloc: Global, fill: u8, n: usize, rest: &[u8]) -> Result<Vec<u8>, AllocError> {
    let mut text = vec![in alloc; fill; n]?;
    text.extend_from_slice(rest)?;
    Ok(text)
}

#[test]
fn has_a_thousand_lines_and_65_536_bytes(rt: HostRuntime) -> Result<(), Fail> {
    // so many bytes, what follows them, and what is wrong
    let cases: [(u8, usize, &[u8], Option<ScriptRefused>); 12] = [
        (b'\n', 1000, b"", None),
        (b'\n', 1001, b"", Some(bad(1001, LineWhy::Lines))),
        (b'\n', 999, b"commit", None),
        (b'\n', 1000, b"commit", Some(bad(1001, LineWhy::Lines))),
        (b'#', 65_536, b"", None),
        (b'#', 65_537, b"", Some(bad(1, LineWhy::Size))),
        (b'#', 65_535, b"\n", None),
        (b'#', 65_536, b"\n", Some(bad(1, LineWhy::Size))),
        (b'#', 65_534, b"\r\n", None),
        (b'#', 65_529, b"\ncommit", None),
        (b'#', 65_529, b"\ncommit\n", Some(bad(2, LineWhy::Size))),
        (b'\t', 65_537, b"", Some(bad(1, LineWhy::Size))),
    ];
    for (fill, n, rest, wrong) in cases {
        let text = filled(rt.alloc(), fill, n, rest)?;
        assert_eq!(rt;
            parse(rt.alloc(), Mode::Caps, &text).err(),
            wrong,
            "{n} and {rest:?}"
        );
    }
    Ok(())
}
