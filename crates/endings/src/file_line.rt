// The line of a file, with the serials of the versions that are kept.
ghost use Rattle.std.specs.Prelude.{◌≡◌, ◌++◌, IfOk, OnErr, OnOk, string_bytes};
ghost use Rattle.std.specs.List.{flat_map};
ghost use Rattle.endings.specs.Files.{file_line, kept_serials};
ghost use Rattle.script_text.specs.ReplyText.{spaced};

use std::alloc::{AllocError, Global};
use std::fmt::Write;

/// The serials from the first to the last, each after a space.
fn serials_text(alloc: Global, first: u64, last: u64) -> Result<String, AllocError>
    ensures { IfOk result
        (λ text. string_bytes text ≡ flat_map spaced (kept_serials first last)) }
{
    let more = last.saturating_sub(first);
    let mut text = format!(in alloc; " {first}")?;
    'later: for k in 0..more {
        let serial = first + 1 + k;
        write!(text, " {serial}")?;
    }
    Ok(text)
}

/// The line of a file.
fn file_line(alloc: Global, object: usize, first: u64, last: u64) -> Result<String, AllocError>
    ensures { IfOk result (λ line. string_bytes line ≡ file_line object first last) }
{
    let serials = serials_text(alloc, first, last)?;
    format!(in alloc; "file {object}:{serials}\n")
}

/// Appends the line of an object whose file keeps the versions from the serial `first` to `last`.
/// Without memory for it nothing is appended.
pub fn append_file_line(
    alloc: Global,
    object: usize,
    first: u64,
    last: u64,
    text: &mut Vec<u8>,
) -> Result<(), AllocError>
    ensures line { OnOk result (text.new.items ≡ text.old.items ++ file_line object first last) }
    ensures same { OnErr result (text.new.items ≡ text.old.items) }
{
    let line = file_line(alloc, object, first, last)?;
    text.extend_from_slice(line.as_bytes())
}
