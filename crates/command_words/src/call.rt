// The calls of the program, and the words that name them.
ghost use Rattle.std.specs.Prelude.{◌≡◌, ◌≢◌, ◌↔◌, IsTrue, ℕ, List, ◌∷◌, [], Some, IfSome, IfOk, OnErr, MatchOption, codes};
ghost use Rattle.command_words.specs.Words.{AreNumbersOf, AreWords, IsCall, IsNoCall, IsWithin, TakesScripts, bytes_of};
ghost use Rattle.command_words.specs.declared.call.Call.{Call};
ghost use Rattle.command_words.specs.declared.call.Call.TheVariants.{Format, Play};
ghost use Rattle.new_store.specs.declared.store.NewStore.{NewStore};

use crate::order::{Order, order_of};
use afs_base::{MAX_CLIENTS, MAX_OBJECTS, Memory};
use new_store::NewStore;
use script_text::number_in;
use std::alloc::Global;

/// What the words of the program ask for.
#[derive(Debug, Drop)]
pub enum Call {
    /// Makes a new store on the drives.
    Format { store: NewStore },
    /// Plays the scripts of the clients, of which there are 1 to 16. Each client of the order, in
    /// turn, goes on to its next answer.
    Play { order: Order },
    /// Prints what the files of the store hold.
    Show,
    /// Prints how many files, versions and blocks the store has.
    Check,
    /// Prints the capability of an object, from 1 to 4,032, with these rights.
    Cap { object: u32, rights: u8 },
}

/// Whether a word is this text.
fn is_text(word: &[u8], text: &[u8]) -> bool
    ensures { IsTrue result ↔ (word.now ≡ text.now) }
{
    word == text
}

/// The call without numbers that a single word names, which is not `play`.
fn plain_of(word: &[u8]) -> Option<Call>
    requires { word.now ≢ codes "play" }
    ensures named { IfSome result (λ c. AreWords c (word.now ∷ [])) }
    ensures only { (c : Call) → AreWords c (word.now ∷ []) → result ≡ Some c }
{
    if is_text(word, b"show") {
        Some(Call::Show)
    } else if is_text(word, b"check") {
        Some(Call::Check)
    } else {
        None
    }
}

/// The new store of these words, where they are numbers and make one that is not larger than the
/// drives.
fn store_of(key: &[u8], files: &[u8], blocks: &[u8], drive_blocks: u32) -> Option<NewStore>
    ensures named { IfSome result (λ s. AreNumbersOf key.now files.now blocks.now s
        × ((n : ℕ) → IsWithin n drive_blocks (Format s))) }
    ensures only { (s : NewStore) → AreNumbersOf key.now files.now blocks.now s
        → (n : ℕ) → IsWithin n drive_blocks (Format s) → result ≡ Some s }
{
    let key = number_in(0, u64::MAX, key)?;
    let files = number_in(0, u64::from(u32::MAX), files)? as u32;
    let blocks = number_in(0, u64::from(drive_blocks), blocks)? as u32;
    NewStore::of(key, files, blocks)
}

/// The call `format` that these words name.
fn format_of(
    word: &[u8],
    key: &[u8],
    files: &[u8],
    blocks: &[u8],
    drive_blocks: u32,
) -> Option<Call>
    requires { word.now ≢ codes "play" }
    ensures named { IfSome result (λ c. AreWords c
        (word.now ∷ key.now ∷ files.now ∷ blocks.now ∷ [])
        × ((n : ℕ) → IsWithin n drive_blocks c)) }
    ensures only { (c : Call) → AreWords c (word.now ∷ key.now ∷ files.now ∷ blocks.now ∷ [])
        → (n : ℕ) → IsWithin n drive_blocks c → result ≡ Some c }
{
    if !is_text(word, b"format") {
        return None;
    }
    match store_of(key, files, blocks, drive_blocks) {
        Some(store) => Some(Call::Format { store }),
        None => None,
    }
}

/// The call `cap` that these words name.
fn cap_of(word: &[u8], object: &[u8], rights: &[u8]) -> Option<Call>
    requires { word.now ≢ codes "play" }
    ensures named { IfSome result (λ c.
        AreWords c (word.now ∷ object.now ∷ rights.now ∷ []) × ((n b : ℕ) → IsWithin n b c)) }
    ensures only { (c : Call) → AreWords c (word.now ∷ object.now ∷ rights.now ∷ [])
        → (n b : ℕ) → IsWithin n b c → result ≡ Some c }
{
    if !is_text(word, b"cap") {
        return None;
    }
    let object = number_in(1, u64::from(MAX_OBJECTS), object)? as u32;
    let rights = number_in(0, u64::from(u8::MAX), rights)? as u8;
    Some(Call::Cap { object, rights })
}

/// The call that words name, the first of which is not `play`, where its numbers are in their
/// ranges. Whether it comes with so many scripts is not looked at.
fn named_of(words: &[String], scripts: usize, drive_blocks: u32) -> Option<Call>
    requires { (others : List (List ℕ)) → bytes_of words.now ≢ codes "play" ∷ others }
    ensures named { IfSome result
        (λ c. AreWords c (bytes_of words.now) × IsWithin scripts drive_blocks c) }
    ensures only { (c : Call) → AreWords c (bytes_of words.now) → IsWithin scripts drive_blocks c
        → result ≡ Some c }
{
    match words {
        [word] => plain_of(word.as_bytes()),
        [word, object, rights] => cap_of(word.as_bytes(), object.as_bytes(), rights.as_bytes()),
        [word, key, files, blocks] => format_of(
            word.as_bytes(),
            key.as_bytes(),
            files.as_bytes(),
            blocks.as_bytes(),
            drive_blocks,
        ),
        _ => None,
    }
}

impl Call {
    /// Whether the call comes with so many scripts.
    pub fn takes_scripts(&self, scripts: usize) -> bool
        ensures { IsTrue result ↔ TakesScripts self.now scripts }
    {
        match self {
            Call::Play { .. } => scripts >= 1 && scripts <= usize::from(MAX_CLIENTS),
            Call::Format { .. } | Call::Show | Call::Check | Call::Cap { .. } => scripts == 0,
        }
    }
}

/// The call of words the first of which is not `play`.
fn other_of(words: &[String], scripts: usize, drive_blocks: u32) -> Option<Call>
    requires { (others : List (List ℕ)) → bytes_of words.now ≢ codes "play" ∷ others }
    ensures named { MatchOption result (IsNoCall words.now scripts drive_blocks)
        (IsCall words.now scripts drive_blocks) }
    ensures only { (c : Call) → IsCall words.now scripts drive_blocks c → result ≡ Some c }
{
    let call = named_of(words, scripts, drive_blocks)?;
    if call.takes_scripts(scripts) {
        Some(call)
    } else {
        None
    }
}

/// The call that these words name, where they come with so many scripts, over drives of so many
/// blocks. It is none where they name none: where the words are not one of the five forms, a number
/// is not in its range, or the scripts are more or fewer than the call takes. Memory is taken for
/// the order of a `play` alone, once the words are known to name one.
pub fn call_of(
    alloc: Global,
    words: &[String],
    scripts: usize,
    drive_blocks: u32,
) -> Result<Option<Call>, Memory>
    ensures named { IfOk result (λ found. MatchOption found
        (IsNoCall words.now scripts drive_blocks) (IsCall words.now scripts drive_blocks)) }
    ensures only { IfOk result
        (λ found. (c : Call) → IsCall words.now scripts drive_blocks c → found ≡ Some c) }
    ensures memory { OnErr result
        ((order : List ℕ) × IsCall words.now scripts drive_blocks (Play order)) }
{
    match words {
        [word, clients @ ..] if is_text(word.as_bytes(), b"play") => {
            match order_of(alloc, clients, scripts)? {
                Some(order) => Ok(Some(Call::Play { order })),
                None => Ok(None),
            }
        }
        _ => Ok(other_of(words, scripts, drive_blocks)),
    }
}
