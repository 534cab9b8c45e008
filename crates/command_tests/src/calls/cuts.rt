// Plays that a failing call cuts off at each of its calls, and what each image of a crash then shows: the files as they
// were, or as they were after one of its commits, and no commit that was answered is missing.
use super::*;
use drives::Pick;

/// What makes the store and what is played over it first; the words of the play that is cut off and its scripts; what is
/// shown before it, and after each of its commits, parted by `|`; and how many calls it makes at least.
type Cut = (&'static str, &'static str, &'static str, &'static str, u64);

const CUTS: [Cut; 2] = [
    (
        "|",
        "play",
        SAMPLE,
        "file 1: 1;/ -;file 2: 1;/ -;|file 1: 1 2;/ 6869;file 2: 1;/ -;|",
        30,
    ),
    (
        "begin 1;make /0;make /1;commit|",
        "play 1 2",
        "begin 1;write /0 aa;commit|begin 1;write /1 bb;commit|",
        "file 1: 1 2;/ -;/0 -;/1 -;file 2: 1;/ -;|file 1: 1 2 3;/ -;/0 aa;/1 -;file 2: 1;/ -;|file 1: 1 2 3 4;/ -;/0 aa;/1 bb;file 2: 1;/ -;|",
        60,
    ),
];

/// The place of what is shown among the parts of a text.
fn place_of(alloc: Global, shown: &[u8], parts: &str) -> Result<Option<usize>, AllocError> {
    for (place, part) in parts.split('|').enumerate() {
        if lines_of(alloc, part)?.as_slice() == shown {
            return Ok(Some(place));
        }
    }
    Ok(None)
}

/// How many commits a play answered with a version of its own.
fn commits_in(printed: &[u8]) -> usize {
    printed
        .split(|byte| *byte == b'\n')
        .filter(|line| line.ends_with(b" 2") || line.ends_with(b" 3") || line.ends_with(b" 4"))
        .filter(|line| line.contains(&b'c'))
        .count()
}

/// After how many commits these halves show the files.
fn commits_shown(
    rt: &(impl Abort + AllocGlobal),
    drives: MemDrives,
    parts: &str,
) -> Result<usize, Fail> {
    let (ended, out) = called(rt.alloc(), SHOW, drives)?;
    assert_eq!(rt; ended.status.code(), 0);
    let place = place_of(rt.alloc(), out.bytes(), parts)?;
    Ok(place.ok_or("a front of the commits")?)
}

/// Looks at the images that a crash may leave once a play was cut off.
fn look(
    rt: &(impl Abort + AllocGlobal),
    drives: &MemDrives,
    parts: &str,
    answered: usize,
) -> Result<(), Fail> {
    for pick in [Pick::Old, Pick::New, Pick::Fill(0x5a)] {
        let image = drives.image(drives.now(), pick)?;
        let shown = commits_shown(rt, image, parts)?;
        assert!(rt; shown >= answered && shown <= answered.saturating_add(1));
    }
    Ok(())
}

/// Plays with one device call that fails, and looks at what crashes leave then. Answers whether the play ended before
/// that call.
fn played_until(rt: &(impl Abort + AllocGlobal), cut: &Cut, call: u64) -> Result<bool, Fail> {
    let (setup, words, scripts, parts, _) = *cut;
    let made = made(rt.alloc(), SERVED)?;
    let mut drives = called(rt.alloc(), ("play", setup, 0, 0), made)?.0.drives;
    let last = drives.now().saturating_add(call);
    drives.fail_at(one(rt.alloc(), last)?);
    let (ended, out) = called(rt.alloc(), (words, scripts, 0, 0), drives)?;
    look(rt, &ended.drives, parts, commits_in(out.bytes()))?;
    Ok(ended.drives.now() < last)
}

/// Cuts off a play at its calls, from the first one on.
fn cut_off(rt: &(impl Abort + AllocGlobal), cut: &Cut) -> Result<(), Fail> {
    'calls: for call in 1..200 {
        if played_until(rt, cut, call)? {
            assert!(rt; call > cut.4);
            return Ok(());
        }
    }
    Err("a play ends before 200 calls".into())
}

#[test]
fn a_play_that_is_cut_off_leaves_a_front_of_its_commits(rt: HostRuntime) -> Result<(), Fail> {
    for cut in &CUTS {
        cut_off(&rt, cut)?;
    }
    Ok(())
}
