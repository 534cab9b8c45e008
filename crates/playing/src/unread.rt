// Why the scripts of sources are not played, and how a call ends then.
ghost use Rattle.std.specs.Prelude.{◌≡◌, ◌≤◌, IfOk, string_bytes};
ghost use Rattle.endings.specs.Printing.{HaltsOn};
ghost use Rattle.playing.specs.declared.unread.Unread.TheVariants.{Line, Memory, Source, Unbuilt};
ghost use Rattle.playing.specs.Unread.{unread_status, unread_text};

use afs_base::ClientNo;
use endings::{Status, end_memory, put_line};
use script_text::{LineWhy, Sink};
use std::alloc::{AllocError, AllocFailed, Global};

/// Why the scripts of sources are not played.
#[derive(Clone, Copy, Debug, PartialEq, Eq)]
pub enum Unread {
    /// The source of this client failed.
    Source {
        client: ClientNo,
    },
    /// This line of a client's script is outside the grammar or a limit.
    Line {
        client: ClientNo,
        line: u32,
        why: LineWhy,
    },
    /// This line of a client's script is of a kind that is not played yet.
    Unbuilt {
        client: ClientNo,
        line: u32,
    },
    /// There was not enough memory.
    Memory,
}

impl From<AllocError> for Unread {
    ghost from_gives = { λ _ e. e ≡ Memory };

    fn from(_e: AllocError) -> Unread {
        Unread::Memory
    }
}

impl<T: Drop> From<AllocFailed<T>> for Unread {
    ghost from_gives = { λ _ e. e ≡ Memory };

    fn from(_e: AllocFailed<T>) -> Unread {
        Unread::Memory
    }
}

/// The line for a source that failed.
fn source_line(alloc: Global, client: ClientNo) -> Result<String, AllocError>
    ensures { IfOk result (λ line. string_bytes line ≡ unread_text (Source client)) }
{
    let number = client.get();
    format!(in alloc; "source {number}\n")
}

/// The line for a line of a script that is not in the grammar.
fn bad_line(alloc: Global, client: ClientNo, line: u32, why: LineWhy) -> Result<String, AllocError>
    ensures { IfOk result (λ text. string_bytes text ≡ unread_text (Line client line why)) }
{
    let number = client.get();
    let word = why.word();
    format!(in alloc; "script {number} line {line}: {word}\n")
}

/// The line for a line of a script that is not played.
fn unbuilt_line(alloc: Global, client: ClientNo, line: u32) -> Result<String, AllocError>
    ensures { IfOk result (λ text. string_bytes text ≡ unread_text (Unbuilt client line)) }
{
    let number = client.get();
    format!(in alloc; "script {number} line {line}: unbuilt\n")
}

/// The line that is printed.
fn unread_line(alloc: Global, unread: &Unread) -> Result<String, AllocError>
    ensures { IfOk result (λ line. string_bytes line ≡ unread_text unread.now) }
{
    match unread {
        Unread::Source { client } => source_line(alloc, *client),
        Unread::Line { client, line, why } => bad_line(alloc, *client, *line, *why),
        Unread::Unbuilt { client, line } => unbuilt_line(alloc, *client, *line),
        Unread::Memory => String::from_str(alloc, "memory\n"),
    }
}

/// The status of a call that ends so.
fn unread_status(unread: &Unread) -> Status
    ensures { result ≡ unread_status unread.now }
{
    match unread {
        Unread::Source { .. } => Status::SourceFault,
        Unread::Line { .. } | Unread::Unbuilt { .. } => Status::BadScript,
        Unread::Memory => Status::Memory,
    }
}

/// Ends a call whose scripts are not played, for this cause: prints its line, which is `source K`,
/// `script K line N: WHY` or `memory`, and says the status.
pub fn end_unread<K: Sink>(alloc: Global, out: &mut K, unread: Unread) -> Status
    ensures ends { HaltsOn K.written K.faults out.old out.new (unread_text unread)
        (unread_status unread) result }
    ensures later { K.faults out.old ≤ K.faults out.new }
{
    match unread_line(alloc, &unread) {
        Ok(line) => {
            put_line(out, line.as_bytes());
            unread_status(&unread)
        }
        Err(_) => end_memory(out),
    }
}
