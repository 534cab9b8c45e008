//! What lines say: whole scripts, compared line by line.
use super::*;

/// The path of these slots; slots and levels that are none are left out.
fn at(slots: &[u8]) -> Path {
    let mut path = Path::root();
    for number in slots {
        path = below(&path, *number);
    }
    path
}

fn below(path: &Path, number: u8) -> Path {
    match Slot::of(number) {
        Ok(slot) => path.child(slot).unwrap_or(*path),
        Err(_) => *path,
    }
}

fn read(slots: &[u8]) -> Command {
    let step = Step::ReadAt { at: at(slots) };
    Command::Do { step }
}

/// A make; of `/` a read.
fn make(slots: &[u8]) -> Command {
    match Child::of(&at(slots)) {
        Some(at) => Command::Do {
            step: Step::MakeAt { at },
        },
        None => read(slots),
    }
}

/// A drop; of `/` a read.
fn drop_at(slots: &[u8]) -> Command {
    match Child::of(&at(slots)) {
        Some(at) => Command::Do {
            step: Step::DropAt { at },
        },
        None => read(slots),
    }
}

fn write(slots: &[u8], bytes: PageData) -> Command {
    let step = Step::WriteAt {
        at: at(slots),
        bytes,
    };
    Command::Do { step }
}

fn three_files(top: &FileName, first: &FileName, second: &FileName) -> Files17 {
    let mut files = Files17::none();
    files.push(*top);
    files.push(*first);
    files.push(*second);
    files
}

/// The script has these lines, and no other.
fn check_lines(rt: &impl Abort, script: &Script, wanted: &[Line]) {
    assert_eq!(rt; script.len(), wanted.len());
    for i in 0..wanted.len() {
        assert_eq!(rt; script.line(i), &wanted[i]);
    }
}

fn line(number: u32, command: Command) -> Line {
    Line { number, command }
}

/// A line of every kind; a `restrict` is the last.
fn every_kind(file: &FileName, other: &FileName) -> [Line; 16] {
    let files = three_files(other, file, other);
    let keep = 65_535;
    let list = Step::ListAt { at: Path::root() };
    [
        line(2, Command::Begin { file: *file }),
        line(4, Command::Super { files }),
        line(5, Command::Pick { k: 16 }),
        line(6, read(&[3, 15])),
        line(7, Command::Do { step: list }),
        line(8, write(&[0], PageData::of(&[0x0A, 0xBF]))),
        line(9, write(&[], PageData::empty())),
        line(10, make(&[3, 15, 0, 1, 2, 10, 4])),
        line(11, drop_at(&[7])),
        line(12, Command::Commit),
        line(13, Command::Abandon),
        line(14, Command::Create),
        line(15, Command::Destroy { file: *other }),
        line(17, Command::Prune { file: *file, keep }),
        line(
            18,
            Command::Prune {
                file: *other,
                keep: 1,
            },
        ),
        line(
            19,
            Command::Restrict {
                file: *other,
                mask: 255,
            },
        ),
    ]
}

const NUMBERS: &[u8] = b"# every kind\n\
begin 1\r\n\
\n\
super   4032 1  4032  \n\
pick 16\n\
read /3/15\n\
list /\n\
write /0 0aBf\n\
write / -\n\
make /3/15/0/1/2/10/4\n\
drop /7\n\
commit\n\
abandon\n\
create\n\
destroy 4032\n\
# restrict 1 1\n\
prune 1 keep 65535\n\
prune 4032 keep 1";

const CAPS: &[u8] = b"# every kind\n\
begin 616d6f6562610000010112a4ffffffff\r\n\
\n\
super   616D6F65626100000fC087Ab00cDEf01 616d6f6562610000010112A4FFFFFFFF  616d6f65626100000FC087aB00CdeF01  \n\
pick 16\n\
read /3/15\n\
list /\n\
write /0 0aBf\n\
write / -\n\
make /3/15/0/1/2/10/4\n\
drop /7\n\
commit\n\
abandon\n\
create\n\
destroy 616D6F65626100000FC087AB00CDEF01\n\
# restrict 1 1\n\
prune 616D6F6562610000010112a4FfffffFf keep 65535\n\
prune 616d6f65626100000fc087ab00cdef01 keep 1\n\
restrict 616d6f65626100000FC087AB00cdef01 255";

#[test]
fn reads_every_kind(rt: HostRuntime) -> Result<(), Fail> {
    let numbers = parse(rt.alloc(), Mode::Numbers, NUMBERS)?;
    let wanted = every_kind(&FileName::Number(1), &FileName::Number(4032));
    check_lines(&rt, &numbers, &wanted[..15]);
    let top = Capability::of_bytes(b"amoeba\x00\x00\x01\x01\x12\xA4\xFF\xFF\xFF\xFF");
    let member = Capability::of_bytes(b"amoeba\x00\x00\x0F\xC0\x87\xAB\x00\xCD\xEF\x01");
    let caps = parse(rt.alloc(), Mode::Caps, CAPS)?;
    check_lines(
        &rt,
        &caps,
        &every_kind(&FileName::Cap(top), &FileName::Cap(member)),
    );
    Ok(())
}

/// How many lines with an answer a text has.
fn count(alloc: Global, text: &[u8]) -> Result<usize, ScriptRefused> {
    parse(alloc, Mode::Numbers, text).map(|script| script.len())
}

#[test]
fn counts_the_lines_that_say_something(rt: HostRuntime) -> Result<(), Fail> {
    let alloc = rt.alloc();
    let cases: [(&[u8], usize); 5] = [
        (b"", 0),
        (b"\r\n", 0),
        (b"\n  \n# restrict\n #~!\n", 0),
        (b"  begin   4032  \r\ncommit", 2),
        (
            b"super 1 2\nsuper 1 2 3 4 5 6 7 8 9 10 11 12 13 14 15 16 17\n",
            2,
        ),
    ];
    for (text, lines) in cases {
        assert_eq!(rt; count(alloc, text), Ok(lines), "of {text:?}");
    }
    assert_eq!(rt; count(alloc, &b"read /\n".repeat(alloc, 1000)?), Ok(1000));
    Ok(())
}

/// A script that writes `n` bytes.
fn writing(alloc: Global, n: usize) -> Result<Vec<u8>, AllocError> {
    let mut text = b"write / ".to_vec(alloc)?;
    text.extend_from_slice(&b"a5".repeat(alloc, n)?)?;
    Ok(text)
}

#[test]
fn writes_800_bytes_and_no_more(rt: HostRuntime) -> Result<(), Fail> {
    let alloc = rt.alloc();
    let script = parse(alloc, Mode::Numbers, &writing(alloc, 800)?)?;
    check_lines(
        &rt,
        &script,
        &[line(1, write(&[], PageData::of(&[0xA5; 800])))],
    );
    assert_eq!(rt;
        count(alloc, &writing(alloc, 801)?),
        Err(bad(1, LineWhy::Data))
    );
    Ok(())
}
