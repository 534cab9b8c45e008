ghost use Rattle.std.specs.Prelude.{◌≡◌, ◌==◌, slice_index, IfOk, IfErr, Ok};
ghost use Rattle.script_text.specs.Grammar.{IsFault, line_of, keyed_command, words_command};
ghost use Rattle.script_text.specs.Texts.{texts};

use crate::command::Command;
use crate::keyword::{Keyword, is_shape, keyword_of};
use crate::line::command_of;
use crate::refused::{LineFault, LineWhy};
use crate::script::Mode;
use crate::word::{is_text, word_at, words};
use afs_base::MAX_SCRIPT_BYTES;
use std::alloc::Global;

/// The greatest number of lines of a script, whatever they say.
pub const MAX_LINES: u32 = 1000;

/// What a line says, or what is wrong with it.
pub fn line_of(
    alloc: Global,
    mode: Mode,
    number: u32,
    end: usize,
    text: &[u8],
) -> Result<Option<Command>, LineFault>
    ensures ok { IfOk result
        (λ c. line_of mode (record { number = number; end = end; text = text.now }) ≡ Ok c) }
    ensures fault { IfErr result (λ e. IsFault e
        (line_of mode (record { number = number; end = end; text = text.now }))) }
{
    if number > MAX_LINES {
        return Err(LineFault::Bad(LineWhy::Lines));
    }
    if end > MAX_SCRIPT_BYTES {
        return Err(LineFault::Bad(LineWhy::Size));
    }
    if !is_text(text) {
        return Err(LineFault::Bad(LineWhy::Text));
    }
    let words = words(alloc, text)?;
    words_command(mode, words.as_slice()).map_err(LineFault::Bad)
}

/// The command of a line's words, if it has one.
fn words_command(mode: Mode, words: &[&[u8]]) -> Result<Option<Command>, LineWhy>
    ensures { result ≡ words_command mode (texts words.now) }
{
    if words.is_empty() {
        return Ok(None);
    }
    let word = word_at(words, 0);
    if is_comment(word) {
        return Ok(None);
    }
    let command = keyed_command(mode, keyword_of(word), &words[1..])?;
    Ok(Some(command))
}

/// Whether the word begins a comment.
fn is_comment(word: &[u8]) -> bool
    ensures { result ≡ (slice_index word.now 0 == 35) }
{
    !word.is_empty() && word[0] == b'#'
}

/// The command of a first word and the words after it.
fn keyed_command(mode: Mode, key: Option<Keyword>, args: &[&[u8]]) -> Result<Command, LineWhy>
    ensures { result ≡ keyed_command mode key (texts args.now) }
{
    match key {
        Some(key) if is_shape(mode, key, args) => command_of(mode, key, args),
        _ => Err(LineWhy::Word),
    }
}
