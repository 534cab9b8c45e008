ghost use Rattle.std.specs.Prelude.{◌≡◌, ◌==◌};
ghost use Rattle.std.specs.List.{slice_split};
ghost use Rattle.script_text.specs.Grammar.{path_word, child_word};
ghost use Rattle.script_text.specs.Words.{slots_of, short_path, path_of, child_of, deeper, number_in};

use crate::number::number_in;
use crate::refused::LineWhy;
use afs_base::{Path, Slot};
use tree_model::Child;

/// The slot that the word writes.
fn slot_of(word: &[u8]) -> Option<Slot>
    ensures { result ≡ number_in 0 15 word.now }
{
    let number = number_in(0, 15, word)?;
    Slot::of(number as u8).ok()
}

/// The path that a word writes: `/`, or one to seven times a stroke and a slot.
fn path_of(word: &[u8]) -> Option<Path>
    ensures { result ≡ path_of word.now }
{
    if word == b"/".as_slice() {
        return Some(Path::root());
    }
    if word.is_empty() || word[0] != b'/' {
        return None;
    }
    slots_path(&word[1..])
}

/// The path of one to seven slots with strokes between them.
fn slots_path(words: &[u8]) -> Option<Path>
    ensures { result ≡ short_path (slice_split (λ b. b == 47) words.now) }
{
    let mut path = Path::root();
    for word in words.split(|b| *b == b'/') {
        match deeper(&path, slot_of(word)) {
            Some(next) => path = next,
            None => return None,
        }
    }
    Some(path)
}

/// The path with one more slot, where there is one and the path has room.
fn deeper(path: &Path, slot: Option<Slot>) -> Option<Path>
    ensures { result ≡ deeper path.now slot }
{
    match slot {
        Some(slot) => path.child(slot).ok(),
        None => None,
    }
}

/// The path of a word, or why it is none.
pub fn path_word(word: &[u8]) -> Result<Path, LineWhy>
    ensures { result ≡ path_word word.now }
{
    path_of(word).ok_or(LineWhy::Path)
}

/// The page other than `/` that a path names.
fn child_of(path: &Path) -> Option<Child>
    ensures { result ≡ child_of path.now }
{
    Child::of(path)
}

/// The page other than `/` of a word, or why it is none.
pub fn child_word(word: &[u8]) -> Result<Child, LineWhy>
    ensures { result ≡ child_word word.now }
{
    let path = path_word(word)?;
    child_of(&path).ok_or(LineWhy::Path)
}
