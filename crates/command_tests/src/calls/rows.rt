// Runs of one client or more over new stores, line by line: what each answers, and what is shown after it.
use super::*;

/// Rows of seven parts with `~` between them: what makes the store, and the scripts that are played over it first; the
/// words of a play over it and its scripts; its status and what it prints; and what is shown then.
const ROWS: [&str; 23] = [
    "format 7 2 64~|~play~|~0~\
        file 1: 1;file 2: 1;~\
        file 1: 1;/ -;file 2: 1;/ -;",
    "format 7 2 64~|~play~begin 1;write / 6869;read /;commit|~0~\
        1.1 base 1;1.2 ok;1.3 data 6869;1.4 committed 2;file 1: 1 2;file 2: 1;~\
        file 1: 1 2;/ 6869;file 2: 1;/ -;",
    // Two updates that touch different pages merge.
    "format 7 2 64~begin 1;make /0;make /1;commit|~play 1 2~begin 1;write /0 aa;commit|begin 1;write /1 bb;commit|~0~\
        1.1 base 2;1.2 ok;1.3 committed 3;2.1 base 2;2.2 ok;2.3 committed 4;file 1: 1 2 3 4;file 2: 1;~\
        file 1: 1 2 3 4;/ -;/0 aa;/1 bb;file 2: 1;/ -;",
    // One that read what the other wrote does not.
    "format 7 2 64~begin 1;make /0;make /1;commit|~play 1 2~begin 1;write /0 aa;commit|begin 1;read /0;write /1 bb;commit|~0~\
        1.1 base 2;1.2 ok;1.3 committed 3;2.1 base 2;2.2 data -;2.3 ok;2.4 conflict 3 /0 data;file 1: 1 2 3;file 2: 1;~\
        file 1: 1 2 3;/ -;/0 aa;/1 -;file 2: 1;/ -;",
    // The later of two writes stays.
    "format 7 2 64~begin 1;make /0;make /1;commit|~play 1 2~begin 1;write /0 aa;commit|begin 1;write /0 bb;commit|~0~\
        1.1 base 2;1.2 ok;1.3 committed 3;2.1 base 2;2.2 ok;2.3 committed 4;file 1: 1 2 3 4;file 2: 1;~\
        file 1: 1 2 3 4;/ -;/0 bb;/1 -;file 2: 1;/ -;",
    "format 7 2 64~begin 1;make /0;make /0/1;commit|~play 1 2~begin 1;write /0/1 aa;commit|begin 1;read /0/1;drop /0;commit|~0~\
        1.1 base 2;1.2 ok;1.3 committed 3;2.1 base 2;2.2 data -;2.3 ok;2.4 conflict 3 /0/1 data;file 1: 1 2 3;file 2: 1;~\
        file 1: 1 2 3;/ -;/0 -;/0/1 aa;file 2: 1;/ -;",
    "format 7 2 64~begin 1;make /0;make /1;commit|~play 1 2~begin 1;write /0 aa;commit|begin 1;drop /0;make /0;commit|~0~\
        1.1 base 2;1.2 ok;1.3 committed 3;2.1 base 2;2.2 ok;2.3 ok;2.4 committed 4;file 1: 1 2 3 4;file 2: 1;~\
        file 1: 1 2 3 4;/ -;/0 -;/1 -;file 2: 1;/ -;",
    // Two pages made in different slots of one page.
    "format 7 2 64~begin 1;make /0;make /1;commit|~play 1 2~begin 1;make /2;commit|begin 1;make /3;commit|~0~\
        1.1 base 2;1.2 ok;1.3 committed 3;2.1 base 2;2.2 ok;2.3 committed 4;file 1: 1 2 3 4;file 2: 1;~\
        file 1: 1 2 3 4;/ -;/0 -;/1 -;/2 -;/3 -;file 2: 1;/ -;",
    // A list reads all slots.
    "format 7 2 64~begin 1;make /0;make /1;commit|~play 1 2~begin 1;make /3;commit|begin 1;list /;write /0 bb;commit|~0~\
        1.1 base 2;1.2 ok;1.3 committed 3;2.1 base 2;2.2 slots 0 1;2.3 ok;2.4 conflict 3 / slot 3;file 1: 1 2 3;file 2: 1;~\
        file 1: 1 2 3;/ -;/0 -;/1 -;/3 -;file 2: 1;/ -;",
    // An update that wrote nothing makes no version, whatever came since.
    "format 7 2 64~begin 1;make /0;make /1;commit|~play 2~begin 1;write /0 aa;commit;begin 1;write /0 aa;commit;begin 1;write /0 aa;commit|begin 1;read /0;commit|~0~\
        1.1 base 2;1.2 ok;1.3 committed 3;1.4 base 3;1.5 ok;1.6 committed 4;1.7 base 4;1.8 ok;1.9 committed 5;2.1 base 2;2.2 data -;2.3 committed 2;file 1: 1 2 3 4 5;file 2: 1;~\
        file 1: 1 2 3 4 5;/ -;/0 aa;/1 -;file 2: 1;/ -;",
    "format 7 2 64~|~play~begin 1;read /5;make /0;make /0;drop /9;make /3/3;list /;commit|~0~\
        1.1 base 1;1.2 absent;1.3 ok;1.4 present;1.5 absent;1.6 absent;1.7 slots 0;1.8 committed 2;file 1: 1 2;file 2: 1;~\
        file 1: 1 2;/ -;/0 -;file 2: 1;/ -;",
    "format 7 2 64~|~play~begin 1;make /0;make /0/0;make /0/0/0;make /0/0/0/0;make /0/0/0/0/0;make /0/0/0/0/0/0;make /0/0/0/0/0/0/0;commit|~0~\
        1.1 base 1;1.2 ok;1.3 ok;1.4 ok;1.5 ok;1.6 ok;1.7 ok;1.8 ok;1.9 committed 2;file 1: 1 2;file 2: 1;~\
        file 1: 1 2;/ -;/0 -;/0/0 -;/0/0/0 -;/0/0/0/0 -;/0/0/0/0/0 -;/0/0/0/0/0/0 -;/0/0/0/0/0/0/0 -;file 2: 1;/ -;",
    "format 7 2 64~|~play~begin 1;make /0;make /0/0;make /0/0/0;make /0/0/0/0;make /0/0/0/0/0;make /0/0/0/0/0/0;make /0/0/0/0/0/0/0;make /0/0/0/0/0/0/0/0|~2~\
        script 1 line 9: path;~\
        file 1: 1;/ -;file 2: 1;/ -;",
    // No room: four blocks, of which two are free.
    "format 7 1 4~|~play~begin 1;make /0;make /1;commit;begin 1|~0~\
        1.1 base 1;1.2 ok;1.3 ok;1.4 nospace 3 2;1.5 base 1;file 1: 1;~\
        file 1: 1;/ -;",
    "format 7 2 64~|~play 3~|begin 1|~1~\
        usage;~\
        file 1: 1;/ -;file 2: 1;/ -;",
    // A write of the root and of a page below it, beside a page that is made.
    "format 7 2 64~begin 1;make /0;make /1;commit|~play 1 2~begin 1;write / cc;write /0 aa;commit|begin 1;make /3;commit|~0~\
        1.1 base 2;1.2 ok;1.3 ok;1.4 committed 3;2.1 base 2;2.2 ok;2.3 committed 4;file 1: 1 2 3 4;file 2: 1;~\
        file 1: 1 2 3 4;/ cc;/0 aa;/1 -;/3 -;file 2: 1;/ -;",
    // Lines out of place, and an update that is given up at the script's end.
    "format 7 2 64~|~play~read /;commit;abandon;begin 3;begin 1;begin 2;write / aa;abandon;begin 2;write / bb|~0~\
        1.1 idle;1.2 idle;1.3 idle;1.4 denied object;1.5 base 1;1.6 open;1.7 ok;1.8 abandoned;1.9 base 1;1.10 ok;file 1: 1;file 2: 1;~\
        file 1: 1;/ -;file 2: 1;/ -;",
    // Picks, of an update of one file and of none.
    "format 7 2 64~|~play~pick 0;begin 1;pick 1;write / aa;pick 0;read /;commit;pick 0|~0~\
        1.1 idle;1.2 base 1;1.3 absent;1.4 ok;1.5 ok;1.6 data aa;1.7 committed 2;1.8 idle;file 1: 1 2;file 2: 1;~\
        file 1: 1 2;/ aa;file 2: 1;/ -;",
    // Lines that are not played yet.
    "format 7 2 64~|~play~begin 1;write / aa;commit|begin 1;create|~2~\
        script 2 line 2: unbuilt;~\
        file 1: 1;/ -;file 2: 1;/ -;",
    "format 7 2 64~|~play 2~write|read /;super 1 2|~2~\
        script 1 line 1: word;~\
        file 1: 1;/ -;file 2: 1;/ -;",
    // Two files, one after the other and side by side.
    "format 7 2 64~|~play 2 1 2 1~begin 1;write / aa;commit|begin 2;write / bb;commit|~0~\
        1.1 base 1;1.2 ok;1.3 committed 2;2.1 base 1;2.2 ok;2.3 committed 2;file 1: 1 2;file 2: 1 2;~\
        file 1: 1 2;/ aa;file 2: 1 2;/ bb;",
    // A word of a client that has no line left does nothing.
    "format 7 2 64~|~play 1 1 1 1 2~begin 1;commit|begin 1;commit|~0~\
        1.1 base 1;1.2 committed 1;2.1 base 1;2.2 committed 1;file 1: 1;file 2: 1;~\
        file 1: 1;/ -;file 2: 1;/ -;",
    // Three clients, of which the second is overtaken twice and merges.
    "format 7 2 64~begin 1;make /0;make /1;commit|~play 2 2 1 1 1 3 3 3 2~begin 1;write /0 aa;commit|begin 1;write / dd;commit|begin 1;write /1 bb;commit|~0~\
        1.1 base 2;1.2 ok;1.3 committed 3;2.1 base 2;2.2 ok;2.3 committed 5;3.1 base 3;3.2 ok;3.3 committed 4;file 1: 1 2 3 4 5;file 2: 1;~\
        file 1: 1 2 3 4 5;/ dd;/0 aa;/1 bb;file 2: 1;/ -;",
];

/// A run of plays over a new store.
#[derive(Drop)]
struct Row<'a> {
    store: &'a str,
    first: &'a str,
    words: &'a str,
    scripts: &'a str,
    status: u8,
    printed: &'a str,
    shown: &'a str,
}

/// The row of a text.
fn row_of(text: &str) -> Option<Row<'_>> {
    let mut parts = text.split('~');
    Some(Row {
        store: parts.next()?,
        first: parts.next()?,
        words: parts.next()?,
        scripts: parts.next()?,
        status: parts.next()?.parse::<u8>().ok()?,
        printed: parts.next()?,
        shown: parts.next()?,
    })
}

/// Makes the store of a row, plays, and looks at what is answered and then shown.
fn try_row(rt: &(impl Abort + AllocGlobal), number: usize, row: &Row) -> Result<(), Fail> {
    let made = made(rt.alloc(), row.store)?;
    let drives = called(rt.alloc(), ("play", row.first, 0, 0), made)?
        .0
        .drives;
    let play = (row.words, row.scripts, 0, 0);
    let drives = answered(rt, number, play, drives, (row.status, row.printed))?;
    answered(rt, number, SHOW, drives, (0, row.shown))?;
    Ok(())
}

#[test]
fn rows_answer_and_show(rt: HostRuntime) -> Result<(), Fail> {
    for (number, text) in ROWS.iter().enumerate() {
        try_row(&rt, number, &row_of(text).ok_or("a row")?)?;
    }
    Ok(())
}
