//! Lines of scripts, and the answers to them, with their texts.
use super::paths::{Kind, Path, Place, SLOTS, put_path};
use std::alloc::AllocError;

/// The data of a page: one byte, so many times.
#[derive(Clone, Copy)]
pub struct Data {
    pub byte: u8,
    pub count: usize,
}

/// What a page has that was just made.
pub const NO_DATA: Data = Data { byte: 0, count: 0 };

/// What a step does at a path.
#[derive(Clone, Copy)]
pub enum Step {
    Read,
    List,
    Write(Data),
    Make,
    Drop,
}

/// A line of a script.
#[derive(Clone, Copy)]
pub enum Line {
    /// A comment, which is counted and has no answer.
    Note,
    Begin(usize),
    Do(Step, Path),
    Commit,
    Abandon,
}

/// The answer to a line.
#[derive(Clone, Copy)]
pub enum Answer {
    Base(u64),
    Open,
    Denied,
    Idle,
    Full,
    Absent,
    Present,
    Done,
    Bytes(Data),
    Slots([bool; SLOTS as usize]),
    /// The serial of the new version, or of the base where nothing was written; and that of the base.
    Committed(u64, u64),
    Conflict(u64, Place),
    NoSpace(usize, usize),
    Abandoned,
}

/// Writes data behind a text, in hexadecimal, or `-` where there is none.
pub fn put_data(text: &mut String, data: &Data) -> Result<(), AllocError> {
    if data.count == 0 {
        text.push_str("-")?;
    }
    let byte = data.byte;
    for _ in 0..data.count {
        write!(text, "{byte:02x}")?;
    }
    Ok(())
}

/// Writes a step behind a text.
fn put_step(text: &mut String, step: &Step, at: &Path) -> Result<(), AllocError> {
    text.push_str(match step {
        Step::Read => "read ",
        Step::List => "list ",
        Step::Write(_) => "write ",
        Step::Make => "make ",
        Step::Drop => "drop ",
    })?;
    put_path(text, at)?;
    if let Step::Write(data) = step {
        text.push_str(" ")?;
        put_data(text, data)?;
    }
    Ok(())
}

/// Writes a line of a script behind a text.
pub fn put_line(text: &mut String, line: &Line) -> Result<(), AllocError> {
    match line {
        Line::Note => text.push_str("# a note")?,
        Line::Begin(file) => write!(text, "begin {file}")?,
        Line::Do(step, at) => put_step(text, step, at)?,
        Line::Commit => text.push_str("commit")?,
        Line::Abandon => text.push_str("abandon")?,
    }
    text.push_str("\n")
}

/// Writes the slots that are set behind a text, each after a space, or ` -` where none is.
fn put_slots(text: &mut String, slots: &[bool]) -> Result<(), AllocError> {
    let mut is_empty = true;
    for (slot, is_set) in slots.iter().enumerate() {
        if *is_set {
            write!(text, " {slot}")?;
            is_empty = false;
        }
    }
    if is_empty {
        text.push_str(" -")?;
    }
    Ok(())
}

/// Writes a conflict behind a text.
fn put_conflict(text: &mut String, serial: u64, place: &Place) -> Result<(), AllocError> {
    write!(text, "conflict {serial} ")?;
    put_path(text, &place.at)?;
    match place.kind {
        Kind::Data => text.push_str(" data"),
        Kind::Slot(slot) => write!(text, " slot {slot}"),
    }
}

/// Writes an answer behind a text.
pub fn put_answer(text: &mut String, answer: &Answer) -> Result<(), AllocError> {
    match answer {
        Answer::Base(serial) => write!(text, "base {serial}"),
        Answer::Open => text.push_str("open"),
        Answer::Denied => text.push_str("denied object"),
        Answer::Idle => text.push_str("idle"),
        Answer::Full => text.push_str("full"),
        Answer::Absent => text.push_str("absent"),
        Answer::Present => text.push_str("present"),
        Answer::Done => text.push_str("ok"),
        Answer::Bytes(data) => {
            text.push_str("data ")?;
            put_data(text, data)
        }
        Answer::Slots(slots) => {
            text.push_str("slots")?;
            put_slots(text, slots)
        }
        Answer::Committed(serial, _) => write!(text, "committed {serial}"),
        Answer::Conflict(serial, place) => put_conflict(text, *serial, place),
        Answer::NoSpace(needed, free) => write!(text, "nospace {needed} {free}"),
        Answer::Abandoned => text.push_str("abandoned"),
    }
}
