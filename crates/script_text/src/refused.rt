ghost use Rattle.std.specs.Prelude.{◌≡◌};
ghost use Rattle.script_text.specs.declared.refused.ScriptRefused.TheVariants.{Memory};

use std::alloc::{AllocError, AllocFailed};
use thiserror::Error;

/// What is wrong with a line of a script, in the order in which the causes are tried.
#[derive(Clone, Copy, PartialEq, Eq, Debug)]
pub enum LineWhy {
    /// Its number is above 1,000.
    Lines,
    /// It ends, its line feed included, after the first 65,536 bytes.
    Size,
    /// It has a byte that is neither a space nor a printable ASCII character.
    Text,
    /// Its first word is unknown, or the words after it have another number or shape.
    Word,
    /// A word is no number, or one out of its range.
    Number,
    /// A word is no capability.
    Capability,
    /// A word is no path, or is `/` where another is asked for.
    Path,
    /// A word is no data.
    Data,
}

impl LineWhy {
    ghost use Rattle.script_text.specs.ReplyText.{cause_text};

    /// The word that is printed for it.
    pub fn word(self) -> &'static str
        ensures { result.now ≡ cause_text self }
    {
        match self {
            LineWhy::Lines => "lines",
            LineWhy::Size => "size",
            LineWhy::Text => "text",
            LineWhy::Word => "word",
            LineWhy::Number => "number",
            LineWhy::Capability => "capability",
            LineWhy::Path => "path",
            LineWhy::Data => "data",
        }
    }
}

/// Why a script is refused.
#[derive(Clone, Copy, PartialEq, Eq, Debug, Error)]
pub enum ScriptRefused {
    /// The least line that is out of form, and its first cause.
    #[error("line {line}: {why:?}")]
    BadLine { line: u32, why: LineWhy },
    /// There was no memory.
    #[error("out of memory")]
    Memory,
}

impl From<AllocError> for ScriptRefused {
    ghost from_gives = { λ _ e. e ≡ Memory };

    fn from(_e: AllocError) -> ScriptRefused {
        ScriptRefused::Memory
    }
}

impl<T: Drop> From<AllocFailed<T>> for ScriptRefused {
    ghost from_gives = { λ _ e. e ≡ Memory };

    fn from(_e: AllocFailed<T>) -> ScriptRefused {
        ScriptRefused::Memory
    }
}

/// Why a line gives no command.
#[derive(Clone, Copy, PartialEq, Eq, Debug)]
pub enum LineFault {
    Bad(LineWhy),
    Memory,
}

impl From<AllocError> for LineFault {
    ghost use Rattle.script_text.specs.declared.refused.LineFault.TheVariants.{Memory as NoMemory};

    ghost from_gives = { λ _ e. e ≡ NoMemory };

    fn from(_e: AllocError) -> LineFault {
        LineFault::Memory
    }
}
