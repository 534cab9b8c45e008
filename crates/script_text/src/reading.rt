ghost use Rattle.std.specs.Prelude.{◌≡◌, ◌≤◌, ◌++◌, ◌↔◌, ◌==◌, [], IfOk, IfErr, OnOk, None, option_to_list};
ghost use Rattle.std.specs.List.{All, Contains, filter_map};
ghost use Rattle.script_text.specs.declared.script.Line.{Line};
ghost use Rattle.script_text.specs.Grammar.{IsInGrammar, IsRefusal, bad_lines, good_lines, bad_of, good_of, lines_of, line_end, line_text};
ghost use Rattle.script_text.specs.Lines.{Asks, IsInForm, IsRefusedFor};

use crate::refused::{LineFault, ScriptRefused};
use crate::script::{Line, Mode, Script};
use crate::verdict::{MAX_LINES, line_of};
use crate::word::without_return;
use afs_base::MAX_SCRIPT_BYTES;
use std::alloc::Global;

/// Reads a script, or says which is its least bad line and what is wrong with that.
pub fn parse(alloc: Global, mode: Mode, bytes: &[u8]) -> Result<Script, ScriptRefused>
    // What is read: each line is in the grammar, and the script has those lines whose words say a command.
    ensures form { IfOk result (λ s. All (IsInForm mode) (lines_of bytes.now)) }
    ensures says { IfOk result
        (λ s. (line : Line) → Contains s.lines line ↔ Asks mode bytes.now line) }
    ensures lines { IfOk result
        (λ s. s ≡ record { mode = mode; lines = good_lines mode bytes.now }) }
    ensures ok { IfOk result (λ s. IsInGrammar mode bytes.now) }

    // What is not read: the least line that is outside the grammar is named, with its first cause.
    ensures out { IfErr result (λ e. IsRefusedFor e mode bytes.now) }
    ensures refused { IfErr result (λ e. IsRefusal e (bad_lines mode bytes.now)) }
{
    let lines = read_lines(alloc, mode, bytes)?;
    Ok(Script::of(mode, lines))
}

/// Reads the lines of a text up to the first that is bad.
fn read_lines(alloc: Global, mode: Mode, bytes: &[u8]) -> Result<Vec<Line>, ScriptRefused>
    ensures ok { IfOk result (λ v. bad_lines mode bytes.now ≡ []) }
    ensures lines { IfOk result (λ v. v.items ≡ good_lines mode bytes.now) }
    ensures refused { IfErr result (λ e. IsRefusal e (bad_lines mode bytes.now)) }
{
    let mut lines = Vec::new(alloc);
    let mut number = 0u32;
    let mut start = 0;
    for piece in bytes.split(|b| *b == b'\n') {
        let last = start + piece.len() == bytes.len();
        if last && piece.is_empty() {
            return Ok(lines);
        }
        number += 1;
        let end = line_end(start, last, piece);
        read_line(alloc, mode, number, end, line_text(last, piece), &mut lines)?;
        start = end;
    }
    Ok(lines)
}

/// Where a line ends, its line feed included.
fn line_end(start: usize, last: bool, piece: &[u8]) -> usize
    requires { start ≤ MAX_SCRIPT_BYTES }
    ensures { result ≡ line_end start last piece.now }
{
    if last {
        start + piece.len()
    } else {
        start + piece.len() + 1
    }
}

/// The bytes of a line without line feed and carriage return.
fn line_text(last: bool, piece: &[u8]) -> &[u8]
    ensures { result.now ≡ line_text last piece.now }
{
    if last { piece } else { without_return(piece) }
}

/// Reads one line, and puts it at the end of `lines` where it has an answer.
fn read_line(
    alloc: Global,
    mode: Mode,
    number: u32,
    end: usize,
    text: &[u8],
    lines: &mut Vec<Line>,
) -> Result<(), ScriptRefused>
    ensures bounds { OnOk result ((number ≤ MAX_LINES) × (end ≤ MAX_SCRIPT_BYTES)) }
    ensures ok { OnOk result
        (bad_of mode (record { number = number; end = end; text = text.now }) ≡ None) }
    ensures lines { OnOk result (lines.new.items
        ≡ lines.old.items ++ option_to_list
        (good_of mode (record { number = number; end = end; text = text.now }))) }
    ensures refused { IfErr result (λ e. IsRefusal e (option_to_list
        (bad_of mode (record { number = number; end = end; text = text.now })))) }
{
    match line_of(alloc, mode, number, end, text) {
        Ok(Some(command)) => {
            lines.push(Line { number, command })?;
            Ok(())
        }
        Ok(None) => Ok(()),
        Err(LineFault::Bad(why)) => Err(ScriptRefused::BadLine { line: number, why }),
        Err(LineFault::Memory) => Err(ScriptRefused::Memory),
    }
}
