ghost use Rattle.std.specs.Prelude.{◌≡◌, ◌≤◌, length};
ghost use Rattle.script_text.specs.Grammar.{file_word, file_words};
ghost use Rattle.script_text.specs.Words.{cap_of};
ghost use Rattle.script_text.specs.Texts.{texts};

use crate::command::FileName;
use crate::files::Files17;
use crate::number::number_word;
use crate::refused::LineWhy;
use crate::script::Mode;
use crate::word::word_at;
use afs_base::{MAX_FILES, MAX_OBJECTS};
use caps::Capability;

/// The capability that a word writes.
fn cap_of(word: &[u8]) -> Option<Capability>
    ensures { result ≡ cap_of word.now }
{
    Capability::of_hex(word).ok()
}

/// The file of a word, or why it is none.
pub fn file_word(mode: Mode, word: &[u8]) -> Result<FileName, LineWhy>
    ensures { result ≡ file_word mode word.now }
{
    match mode {
        Mode::Numbers => {
            let object = number_word(1, u64::from(MAX_OBJECTS), word)?;
            Ok(FileName::Number(object as u32))
        }
        Mode::Caps => match cap_of(word) {
            Some(cap) => Ok(FileName::Cap(cap)),
            None => Err(LineWhy::Capability),
        },
    }
}

/// The files of words, in order, or why the first that is none is none.
pub fn file_words(mode: Mode, args: &[&[u8]]) -> Result<Files17, LineWhy>
    requires { length args.now ≤ MAX_FILES }
    ensures { result ≡ file_words mode (texts args.now) }
{
    let mut files = Files17::none();
    for i in 0..args.len() {
        let file = file_word(mode, word_at(args, i))?;
        files.push(file);
    }
    Ok(files)
}
