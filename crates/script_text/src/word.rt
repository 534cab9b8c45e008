ghost use Rattle.std.specs.Prelude.{◌≡◌, ◌<◌, ◌==◌, IfOk, length, slice_index, take};
ghost use Rattle.std.specs.List.{list_all};
ghost use Rattle.script_text.specs.Grammar.{word_at};
ghost use Rattle.script_text.specs.Words.{words, without_return, is_allowed, is_word};
ghost use Rattle.script_text.specs.Texts.{texts};

use std::alloc::{AllocError, Global};

/// Whether a piece has a byte.
fn is_word(piece: &[u8]) -> bool
    ensures { result ≡ is_word piece.now }
{
    !piece.is_empty()
}

/// The words of a line: what stands between its spaces.
pub fn words(alloc: Global, line: &[u8]) -> Result<Vec<&[u8]>, AllocError>
    ensures { IfOk result (λ v. texts v.items ≡ words line.now) }
{
    line.split(|b| *b == b' ')
        .filter(|piece| is_word(piece))
        .collect(alloc)
}

/// The word at a place.
pub fn word_at<'a>(args: &[&'a [u8]], i: usize) -> &'a [u8]
    requires { i < length args.now }
    ensures { result.now ≡ word_at (texts args.now) i }
{
    args[i]
}

/// A line without the carriage return before its line feed.
pub fn without_return(line: &[u8]) -> &[u8]
    ensures { result.now ≡ without_return line.now }
{
    if !line.is_empty() && line[line.len() - 1] == b'\r' {
        &line[..line.len() - 1]
    } else {
        line
    }
}

/// Whether a line has spaces and printable ASCII characters alone.
pub fn is_text(line: &[u8]) -> bool
    ensures { result ≡ list_all is_allowed line.now }
{
    line.iter().all(|b| *b >= 0x20 && *b <= 0x7E)
}
