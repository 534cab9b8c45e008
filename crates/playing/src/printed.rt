// The text of a run.
ghost use Rattle.std.specs.Prelude.{◌≡◌, IfOk};
ghost use Rattle.playing.specs.Running.{AreAnswered, IsShown};
ghost use Rattle.service_model.specs.Print.{answers_printed, printed};
ghost use Rattle.service_model.specs.Standing.{Standing};

use crate::answers::append_answers;
use crate::files::append_files;
use crate::played::Played;
use afs_base::Memory;
use std::alloc::Global;

/// The answers to the lines of all clients, as far as they are answered: what is printed of a run
/// that stopped, before the line that says why.
pub fn answered_text<R: Played>(alloc: Global, run: &R) -> Result<Vec<u8>, Memory>
    ensures { IfOk result (λ text. (s : Standing) → AreAnswered (R.answers run.now) s.clients
        → text.items ≡ answers_printed (R.scripts run.now) s) }
{
    let mut text = Vec::new(alloc);
    append_answers(alloc, run, &mut text)?;
    Ok(text)
}

/// All that is printed of a run that came to its end: the answers, and then the files.
pub fn printed_text<R: Played>(alloc: Global, run: &R) -> Result<Vec<u8>, Memory>
    ensures { IfOk result (λ text. (s : Standing)
        → IsShown (R.answers run.now) (R.told run.now) s
        → text.items ≡ printed (R.scripts run.now) s) }
{
    let mut text = answered_text(alloc, run)?;
    append_files(alloc, run, &mut text)?;
    Ok(text)
}
