ghost use Rattle.std.specs.Prelude.{◌≡◌, length, map};
ghost use Rattle.script_text.specs.Grammar.{keyword_of, is_shape, is_guarded};
ghost use Rattle.script_text.specs.Texts.{texts};

use crate::script::Mode;
use crate::word::word_at;
use afs_base::MAX_FILES;

/// The first words of the commands.
#[derive(Clone, Copy, Debug)]
pub enum Keyword {
    BeginWord,
    SuperWord,
    PickWord,
    ReadWord,
    ListWord,
    WriteWord,
    MakeWord,
    DropWord,
    CommitWord,
    AbandonWord,
    CreateWord,
    DestroyWord,
    PruneWord,
    RestrictWord,
}

/// The command that a first word begins.
pub fn keyword_of(word: &[u8]) -> Option<Keyword>
    ensures { result ≡ keyword_of word.now }
{
    if word == b"begin".as_slice() {
        Some(Keyword::BeginWord)
    } else if word == b"super".as_slice() {
        Some(Keyword::SuperWord)
    } else if word == b"pick".as_slice() {
        Some(Keyword::PickWord)
    } else if word == b"read".as_slice() {
        Some(Keyword::ReadWord)
    } else if word == b"list".as_slice() {
        Some(Keyword::ListWord)
    } else if word == b"write".as_slice() {
        Some(Keyword::WriteWord)
    } else if word == b"make".as_slice() {
        Some(Keyword::MakeWord)
    } else if word == b"drop".as_slice() {
        Some(Keyword::DropWord)
    } else if word == b"commit".as_slice() {
        Some(Keyword::CommitWord)
    } else if word == b"abandon".as_slice() {
        Some(Keyword::AbandonWord)
    } else if word == b"create".as_slice() {
        Some(Keyword::CreateWord)
    } else if word == b"destroy".as_slice() {
        Some(Keyword::DestroyWord)
    } else if word == b"prune".as_slice() {
        Some(Keyword::PruneWord)
    } else if word == b"restrict".as_slice() {
        Some(Keyword::RestrictWord)
    } else {
        None
    }
}

/// Whether files are named by capabilities.
fn is_guarded(mode: Mode) -> bool
    ensures { result ≡ is_guarded mode }
{
    match mode {
        Mode::Numbers => false,
        Mode::Caps => true,
    }
}

/// Whether the words after a first word have its shape.
pub fn is_shape(mode: Mode, key: Keyword, args: &[&[u8]]) -> bool
    ensures { result ≡ is_shape mode key (texts args.now) }
{
    match key {
        Keyword::BeginWord | Keyword::PickWord | Keyword::ReadWord | Keyword::ListWord => args.len()
            == 1,
        Keyword::MakeWord | Keyword::DropWord | Keyword::DestroyWord => args.len() == 1,
        Keyword::SuperWord => args.len() >= 2 && args.len() <= MAX_FILES,
        Keyword::WriteWord => args.len() == 2,
        Keyword::CommitWord | Keyword::AbandonWord | Keyword::CreateWord => args.is_empty(),
        Keyword::PruneWord => args.len() == 3 && word_at(args, 1) == b"keep".as_slice(),
        Keyword::RestrictWord => is_guarded(mode) && args.len() == 2,
    }
}
