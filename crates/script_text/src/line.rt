ghost use Rattle.std.specs.Prelude.{◌≡◌, ◌≤◌, length, true};
ghost use Rattle.script_text.specs.declared.command.Command.TheVariants.{Begin, Super, Pick, Do, Destroy, Prune, Restrict};
ghost use Rattle.tree_model.specs.declared.step.Step.TheVariants.{ReadAt, ListAt, WriteAt, MakeAt, DropAt};
ghost use Rattle.script_text.specs.Grammar.{is_shape, command_of, then_ok, and_then, file_word, file_words, number_word, path_word, child_word, data_word};
ghost use Rattle.script_text.specs.Texts.{texts};

use crate::command::Command;
use crate::data_word::data_word;
use crate::file_word::{file_word, file_words};
use crate::keyword::Keyword;
use crate::number::number_word;
use crate::path_word::{child_word, path_word};
use crate::refused::LineWhy;
use crate::script::Mode;
use crate::word::word_at;
use afs_base::MAX_FILES;
use tree_model::Step;

fn begin(mode: Mode, file: &[u8]) -> Result<Command, LineWhy>
    ensures { result ≡ then_ok Begin (file_word mode file.now) }
{
    let file = file_word(mode, file)?;
    Ok(Command::Begin { file })
}

fn super_(mode: Mode, args: &[&[u8]]) -> Result<Command, LineWhy>
    requires { length args.now ≤ MAX_FILES }
    ensures { result ≡ then_ok Super (file_words mode (texts args.now)) }
{
    let files = file_words(mode, args)?;
    Ok(Command::Super { files })
}

fn pick(k: &[u8]) -> Result<Command, LineWhy>
    ensures { result ≡ then_ok Pick (number_word 0 16 k.now) }
{
    let k = number_word(0, 16, k)?;
    Ok(Command::Pick { k: k as u8 })
}

fn read(path: &[u8]) -> Result<Command, LineWhy>
    ensures { result ≡ then_ok (λ p. Do (ReadAt p)) (path_word path.now) }
{
    let at = path_word(path)?;
    Ok(Command::Do {
        step: Step::ReadAt { at },
    })
}

fn list(path: &[u8]) -> Result<Command, LineWhy>
    ensures { result ≡ then_ok (λ p. Do (ListAt p)) (path_word path.now) }
{
    let at = path_word(path)?;
    Ok(Command::Do {
        step: Step::ListAt { at },
    })
}

fn write(path: &[u8], digits: &[u8]) -> Result<Command, LineWhy>
    ensures { result
        ≡ and_then (λ p. then_ok (λ bytes. Do (WriteAt p bytes)) (data_word digits.now))
        (path_word path.now) }
{
    let at = path_word(path)?;
    let bytes = data_word(digits)?;
    Ok(Command::Do {
        step: Step::WriteAt { at, bytes },
    })
}

fn make(path: &[u8]) -> Result<Command, LineWhy>
    ensures { result ≡ then_ok (λ c. Do (MakeAt c)) (child_word path.now) }
{
    let at = child_word(path)?;
    Ok(Command::Do {
        step: Step::MakeAt { at },
    })
}

fn drop_(path: &[u8]) -> Result<Command, LineWhy>
    ensures { result ≡ then_ok (λ c. Do (DropAt c)) (child_word path.now) }
{
    let at = child_word(path)?;
    Ok(Command::Do {
        step: Step::DropAt { at },
    })
}

fn destroy(mode: Mode, file: &[u8]) -> Result<Command, LineWhy>
    ensures { result ≡ then_ok Destroy (file_word mode file.now) }
{
    let file = file_word(mode, file)?;
    Ok(Command::Destroy { file })
}

fn prune(mode: Mode, file: &[u8], keep: &[u8]) -> Result<Command, LineWhy>
    ensures { result
        ≡ and_then (λ f. then_ok (λ n. Prune f n) (number_word 1 65535 keep.now))
        (file_word mode file.now) }
{
    let file = file_word(mode, file)?;
    let keep = number_word(1, 65535, keep)?;
    Ok(Command::Prune {
        file,
        keep: keep as u16,
    })
}

fn restrict(mode: Mode, file: &[u8], mask: &[u8]) -> Result<Command, LineWhy>
    ensures { result
        ≡ and_then (λ f. then_ok (λ n. Restrict f n) (number_word 0 255 mask.now))
        (file_word mode file.now) }
{
    let file = file_word(mode, file)?;
    let mask = number_word(0, 255, mask)?;
    Ok(Command::Restrict {
        file,
        mask: mask as u8,
    })
}

/// The command of a first word and the words after it, which have its shape.
pub fn command_of(mode: Mode, key: Keyword, args: &[&[u8]]) -> Result<Command, LineWhy>
    requires { is_shape mode key (texts args.now) ≡ true }
    ensures { result ≡ command_of mode key (texts args.now) }
{
    match key {
        Keyword::BeginWord => begin(mode, word_at(args, 0)),
        Keyword::SuperWord => super_(mode, args),
        Keyword::PickWord => pick(word_at(args, 0)),
        Keyword::ReadWord => read(word_at(args, 0)),
        Keyword::ListWord => list(word_at(args, 0)),
        Keyword::WriteWord => write(word_at(args, 0), word_at(args, 1)),
        Keyword::MakeWord => make(word_at(args, 0)),
        Keyword::DropWord => drop_(word_at(args, 0)),
        Keyword::CommitWord => Ok(Command::Commit),
        Keyword::AbandonWord => Ok(Command::Abandon),
        Keyword::CreateWord => Ok(Command::Create),
        Keyword::DestroyWord => destroy(mode, word_at(args, 0)),
        Keyword::PruneWord => prune(mode, word_at(args, 0), word_at(args, 2)),
        Keyword::RestrictWord => restrict(mode, word_at(args, 0), word_at(args, 1)),
    }
}
