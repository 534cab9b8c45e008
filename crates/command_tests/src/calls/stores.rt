// Stores that were changed by hand, and what is asked of them.
use super::*;

/// A second version of file 1, in block 3, has the data `6869`, and the version before it names it.
const LINKED: &str =
    "1.82:00000003 3.0:a5560007 3.68:00020000000100000000000000020000000000000001 3.219:6869";

/// A second version of file 2, in block 4, names that version as its member; the link to it is outstanding.
const OUTSTANDING: &str =
    "3.0:a5560007 3.68:00020000000100000000000000020000000000000001 3.219:6869 2.82:00000004 \
    4.0:a5560007 4.68:00000000000200000000000000020000000000000002010000000100000003";

/// File 2 is not live, and versions 3 to 5 of file 3 are kept, in blocks 3 to 5. The last one has data.
const KEPT: &str =
    "0.32:00000000000000010000000000000000 3.74:000000000000000300000004 4.0:a5560007 \
    4.70:0000000300000000000000040000000500000003 5.0:a5560007 \
    5.68:00020000000300000000000000050000000000000004 5.219:6869";

/// File 1 begins with the greatest serial.
const WORN: &str = "1.74:ffffffffffffffff";

const CHECK_REFUSED: Call = ("check", "", 0, 1);

const SHOW_REFUSED: Call = ("show", "", 0, 2);

/// What makes a store, and what is put over both halves then; a call, how it ends and what it prints.
type Store = (&'static str, &'static str, Call<'static>, u8, &'static str);

/// Stores by their counts, what they hold, and what is refused of them.
const STORES: [Store; 15] = [
    (SERVED, "", CHECK, 0, "files 2 versions 2 blocks 2 free 61;"),
    (
        "format 7 61 64",
        "",
        CHECK,
        0,
        "files 61 versions 61 blocks 61 free 1;",
    ),
    (SERVED, "0.0:00", CHECK, 4, "bad store: block 0 closed;"),
    (SERVED, "0.1:a5", CHECK, 4, "bad store: block 0 kind;"),
    (SERVED, "1.4:d0", CHECK, 4, "bad store: block 1 code;"),
    (SERVED, "1.4:00000001", CHECK, 4, "bad store: block 1 seen;"),
    (SERVED, "", CHECK_REFUSED, 5, ""),
    (BLANK, "", CHECK_REFUSED, 4, ""),
    (SERVED, "", SHOW, 0, "file 1: 1;/ -;file 2: 1;/ -;"),
    (SERVED, LINKED, SHOW, 0, "file 1: 1 2;/ 6869;file 2: 1;/ -;"),
    (
        SERVED,
        OUTSTANDING,
        SHOW,
        0,
        "file 1: 1 2;/ 6869;file 2: 1 2;/ -;",
    ),
    (
        "format 7 3 64",
        KEPT,
        SHOW,
        0,
        "file 1: 1;/ -;file 3: 3 4 5;/ 6869;",
    ),
    (
        SERVED,
        WORN,
        SHOW,
        0,
        "file 1: 18446744073709551615;/ -;file 2: 1;/ -;",
    ),
    (SERVED, "0.0:00", SHOW, 4, "bad store: block 0 closed;"),
    (SERVED, "", SHOW_REFUSED, 5, "file 1: 1;"),
];

#[test]
fn stores_are_shown_counted_or_refused(rt: HostRuntime) -> Result<(), Fail> {
    for (row, (words, over, call, code, text)) in STORES.iter().enumerate() {
        let case = (*words, *over, *over, "", *call, *code, *text);
        try_case(&rt, row, &case)?;
    }
    Ok(())
}

/// What is asked of the store of two files, and the capability that it gives, if any.
const CAPS: [(&str, &str); 8] = [
    ("cap 1 1", "cap 616d6f6562610000010115d8e398af1b;"),
    ("cap 2 255", "cap 616d6f656261000002ff9068a1d7a056;"),
    ("cap 3 255", "denied object;"),
    ("cap 60 255", "denied object;"),
    ("cap 61 255", "denied object;"),
    ("cap 4032 255", "denied object;"),
    ("cap 0 255", "usage;"),
    ("cap 4033 255", "usage;"),
];

#[test]
fn a_capability_is_given_of_a_live_object_alone(rt: HostRuntime) -> Result<(), Fail> {
    let alloc = rt.alloc();
    for (row, (words, text)) in CAPS.iter().enumerate() {
        let (ended, out) = called(alloc, (*words, "", 0, 0), made(alloc, SERVED)?)?;
        let code = u8::from(text.starts_with("usage"));
        expect(&rt, row, (ended.status.code(), &out), (code, *text))?;
    }
    Ok(())
}
