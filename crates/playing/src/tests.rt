//! Scripts of two clients on sources in memory, and a run by hand, against what is to be printed.
ghost use Rattle.std.specs.Prelude.{◌≡◌, ◌≤◌, length};

use crate::*;
use drives::Half;
use endings::Status;
use script_text::{LineRefusal, LineReply, MemSink, MemSource, Mode, Script, Serials, parse};
use std::alloc::{AllocError, Global};
use std::test::Fail;
use tree_model::Reply;

/// A source of a text whose call of this number fails; call 0 is none.
fn source(alloc: Global, text: &str, failing: u64) -> Result<MemSource, AllocError> {
    let bytes = Vec::from_slice(alloc, text.as_bytes())?;
    Ok(MemSource::of(bytes, Vec::from_slice(alloc, &[failing])?))
}

/// The status of reading the scripts of two clients, and what is printed; of scripts that are read,
/// how many lines they have.
fn ending(
    alloc: Global,
    first: MemSource,
    second: MemSource,
    out: &mut MemSink,
) -> Result<u8, AllocError> {
    let mut sources = Vec::new(alloc);
    sources.push(first)?;
    sources.push(second)?;
    match read_scripts(alloc, &mut sources) {
        Ok(scripts) => {
            let mut lines = 0usize;
            for script in &scripts {
                lines = lines.saturating_add(script.len());
            }
            let text = format!(in alloc; "{lines} lines\n")?;
            endings::put_line(out, text.as_bytes());
            Ok(Status::Success.code())
        }
        Err(unread) => Ok(end_unread(alloc, out, unread).code()),
    }
}

#[test]
fn the_least_client_and_line_is_told(rt: HostRuntime) -> Result<(), Fail> {
    let alloc = rt.alloc();
    let good = "begin 1\nwrite / 00\ncommit\nabandon";
    // Each script with the number of the call of its source that fails, the status, and the line.
    let table = [
        (good, 0, "", 0, 0, "4 lines"),
        (good, 0, "# none\n\nread /\n", 0, 0, "5 lines"),
        // a source that fails, in its first call or in the one that would give the end
        (good, 1, good, 0, 6, "source 1"),
        (good, 2, good, 2, 6, "source 1"),
        (good, 0, good, 2, 6, "source 2"),
        ("begn 1", 0, good, 1, 6, "source 2"),
        (good, 3, good, 3, 0, "8 lines"),
        // each cause
        ("read /\tx", 0, good, 0, 2, "script 1 line 1: text"),
        (good, 0, "# x\nbegn 1", 0, 2, "script 2 line 2: word"),
        ("begin 0", 0, "begin 0", 0, 2, "script 1 line 1: number"),
        (good, 0, "read /16", 0, 2, "script 2 line 1: path"),
        (good, 0, "commit\nwrite / 6", 0, 2, "script 2 line 2: data"),
        ("read\nmake /", 0, good, 0, 2, "script 1 line 1: word"),
        // lines of kinds that are not played, once all are in the grammar
        ("create", 0, good, 0, 2, "script 1 line 1: unbuilt"),
        (good, 0, "\nsuper 1 2", 0, 2, "script 2 line 2: unbuilt"),
        ("destroy 1", 0, "create", 0, 2, "script 1 line 1: unbuilt"),
        ("super 1 2", 0, "\nread x", 0, 2, "script 2 line 2: path"),
    ];
    for (first, failing, second, also, status, printed) in table {
        let mut out = MemSink::of(Vec::new(alloc), Vec::new(alloc));
        let first = source(alloc, first, failing)?;
        let got = ending(alloc, first, source(alloc, second, also)?, &mut out)?;
        let line = format!(in alloc; "{printed}\n")?;
        assert_eq!(rt; got, status, "{printed}");
        assert_eq!(rt; out.bytes(), line.as_bytes());
    }
    Ok(())
}

/// The bytes of so many lines of so many bytes each, their line feeds included: comments.
fn comments(alloc: Global, lines: usize, bytes: usize) -> Result<Vec<u8>, AllocError> {
    let mut text = Vec::new(alloc);
    for at in 0..lines.saturating_mul(bytes) {
        let is_last = bytes != 0 && at % bytes == bytes - 1;
        text.push(if is_last { b'\n' } else { b'#' })?;
    }
    Ok(text)
}

#[test]
fn a_script_has_a_thousand_lines_and_65536_bytes(rt: HostRuntime) -> Result<(), Fail> {
    let alloc = rt.alloc();
    // So many lines of so many bytes.
    let table = [
        (1000, 65, 0, "0 lines\n"),
        (1001, 65, 2, "script 2 line 1001: lines\n"),
        (512, 128, 0, "0 lines\n"),
        (513, 128, 2, "script 2 line 513: size\n"),
        (1, 65536, 0, "0 lines\n"),
        (1, 65537, 2, "script 2 line 1: size\n"),
    ];
    for (lines, bytes, status, printed) in table {
        let mut out = MemSink::of(Vec::new(alloc), Vec::new(alloc));
        let second = MemSource::of(comments(alloc, lines, bytes)?, Vec::new(alloc));
        let got = ending(alloc, source(alloc, "", 0)?, second, &mut out)?;
        assert_eq!(rt; got, status, "{printed}");
        assert_eq!(rt; out.bytes(), printed.as_bytes());
    }
    Ok(())
}

/// A run by hand, of at most 16 clients.
#[derive(Drop)]
struct Sample {
    scripts: Vec<Script>,
    answers: Vec<Vec<LineReply>>,
    told: Vec<Option<(u64, u64)>>,
    ghost few: { length scripts.items ≤ 16 },
}

impl Played for Sample {
    ghost use Rattle.std.specs.Prelude.{map};

    ghost scripts = { λ s. s.scripts.items };

    ghost answers = { λ s. map (λ v. v.items) s.answers.items };

    ghost told = { λ s. s.told.items };

    fn clients(&self) -> usize {
        self.scripts.len()
    }

    fn script(&self, place: usize) -> &Script {
        &self.scripts[place]
    }

    fn answer(&self, place: usize, line: usize) -> Option<&LineReply> {
        match self.answers.get(place) {
            Some(replies) => replies.get(line),
            None => None,
        }
    }

    fn objects(&self) -> usize {
        self.told.len()
    }

    fn serials(&self, place: usize) -> Option<(u64, u64)> {
        self.told[place]
    }
}

/// One serial.
fn one(serial: u64) -> Serials {
    let mut serials = Serials::none();
    serials.push(serial);
    serials
}

/// The scripts of two clients who each write a page of one file, and of a third.
fn scripts(alloc: Global) -> Result<Vec<Script>, AllocError> {
    let texts = [
        "begin 1\nwrite /0 aa\ncommit",
        "# the same file\nbegin 1\nwrite /1 bb\n\ncommit",
        "read /\nbegin 1\nread /0\nabandon",
    ];
    let mut scripts = Vec::new(alloc);
    for text in texts {
        match parse(alloc, Mode::Numbers, text.as_bytes()) {
            Ok(script) => scripts.push(script)?,
            Err(_) => return Err(AllocError),
        }
    }
    Ok(scripts)
}

/// What they were answered; the third was stopped.
fn answers(alloc: Global) -> Result<Vec<Vec<LineReply>>, AllocError> {
    let mut answers = Vec::new(alloc);
    for serial in 3..5 {
        let mut replies = Vec::new(alloc);
        replies.push(LineReply::Base(one(2)))?;
        replies.push(LineReply::Stepped(Reply::Done))?;
        replies.push(LineReply::Committed(one(serial)))?;
        answers.push(replies)?;
    }
    let mut replies = Vec::new(alloc);
    replies.push(LineReply::Refused(LineRefusal::Idle))?;
    replies.push(LineReply::Base(one(2)))?;
    answers.push(replies)?;
    Ok(answers)
}

fn sample_run(alloc: Global) -> Result<Sample, AllocError> {
    let scripts = scripts(alloc)?;
    let answers = answers(alloc)?;
    let told = Vec::from_slice(alloc, &[Some((1, 4)), None, Some((7, 7)), Some((9, 10))])?;
    if scripts.len() > 16 {
        return Err(AllocError);
    }
    Ok(Sample {
        scripts,
        answers,
        told,
    })
}

#[test]
fn answers_stand_before_files_or_the_half(rt: HostRuntime) -> Result<(), Fail> {
    let alloc = rt.alloc();
    let run = sample_run(alloc)?;
    let answers = "1.1 base 2\n1.2 ok\n1.3 committed 3\n2.2 base 2\n2.3 ok\n2.5 committed 4\n\
        3.1 idle\n3.2 base 2\n";
    let files = "file 1: 1 2 3 4\nfile 3: 7\nfile 4: 9 10\n";
    // The call of the sink that fails, the half that stopped the run, the status, whether the
    // answers are printed, and what is printed after them.
    let table = [
        (0, None, 0, true, files),
        (9, None, 5, true, ""),
        (10, None, 5, true, "file 1: 1 2 3 4\n"),
        (1, None, 5, false, ""),
        (0, Some(Half::A), 3, true, "drive A\n"),
        (0, Some(Half::B), 3, true, "drive B\n"),
        (9, Some(Half::B), 3, true, ""),
        (1, Some(Half::A), 3, false, ""),
    ];
    for (failing, stopped, status, is_answered, more) in table {
        let mut out = MemSink::of(Vec::new(alloc), Vec::from_slice(alloc, &[failing])?);
        let got = match stopped {
            None => finish_run(alloc, &mut out, &run),
            Some(half) => halt_run(alloc, &mut out, &run, half),
        };
        let front = if is_answered { answers } else { "" };
        let printed = format!(in alloc; "{front}{more}")?;
        assert_eq!(rt; got.code(), status, "{more}");
        assert_eq!(rt; out.bytes(), printed.as_bytes());
    }
    Ok(())
}
