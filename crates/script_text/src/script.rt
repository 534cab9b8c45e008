ghost use Rattle.std.specs.Prelude.{◌≡◌, ◌<◌, ◌≤◌, ◌↔◌, ℕ, [], IsTrue, length, slice_get, Some};

use crate::command::Command;
use crate::verdict::MAX_LINES;
use std::marker::Model;

/// How the files of a script are named.
#[derive(Clone, Copy, PartialEq, Eq, Debug)]
pub enum Mode {
    /// By their objects' numbers.
    Numbers,
    /// By capabilities.
    Caps,
}

/// A line of a script that has an answer.
#[derive(Debug, PartialEq, Eq, Drop)]
pub struct Line {
    /// The line's number in the text, from 1; lines without words and comments count.
    pub number: u32,
    pub command: Command,
}

/// A script that was read: its mode and its lines, at most 1,000, whose numbers ascend. Contracts see both. Each line's
/// numbers are in their ranges: a `Super` has 2 to 17 files, each file is named in the mode's way, and a `Restrict` comes in
/// mode `Caps` alone.
#[derive(Debug, Drop)]
pub struct Script {
    mode: Mode,
    lines: Vec<Line>,
}

impl Model for Script {
    ghost use Rattle.script_text.specs.ScriptValue.{ScriptValue, IsScript};

    ghost Value = { ScriptValue };

    ghost view = { λ s. record { mode = s.mode; lines = s.lines.items } };

    ghost invariant = { λ s. IsScript s.mode s.lines.items };
}

impl Script {
    ghost use Rattle.script_text.specs.ScriptValue.{IsScript, IsLine};

    /// A script of these lines.
    pub(crate) fn of(mode: Mode, lines: Vec<Line>) -> Script
        requires { IsScript mode lines.items }
        ensures { result ≡ record { mode = mode; lines = lines.items } }
    {
        Script { mode, lines }
    }

    /// The mode with which the script was read.
    pub fn mode(&self) -> Mode
        ensures { result ≡ self.now.mode }
    {
        self.mode
    }

    /// How many lines have an answer, at most 1,000.
    pub fn len(&self) -> usize
        ensures value { result ≡ length self.now.lines }
        ensures most { result ≤ MAX_LINES }
    {
        self.lines.len()
    }

    /// Whether no line has an answer.
    pub fn is_empty(&self) -> bool
        ensures { IsTrue result ↔ (self.now.lines ≡ []) }
    {
        self.lines.is_empty()
    }

    /// The line at place `i`, from 0.
    pub fn line(&self, i: usize) -> &Line
        requires { i < length self.now.lines }
        ensures value { slice_get self.now.lines i ≡ Some result.now }
        ensures sound { IsLine self.now.mode result.now }
        ensures ascends { (j : ℕ) (before : Line) → j < i → slice_get self.now.lines j ≡ Some before
            → before.number < result.now.number }
    {
        &self.lines[i]
    }
}
