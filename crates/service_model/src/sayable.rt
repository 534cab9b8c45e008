ghost use Rattle.std.specs.Prelude.{◌≡◌, ◌≤◌, ◌<◌, ℕ, length, slice_get, Some};
ghost use Rattle.script_text.specs.ScriptValue.{IsCommand};
ghost use Rattle.script_text.specs.declared.script.Line.{Line};
ghost use Rattle.service_model.specs.Sound.{AreSayable, IsSayable, IsTreeStep, bytes_of};

use script_text::{Command, Mode, Script};
use tree_model::Step;

/// How many bytes a step writes, at most 800.
fn bytes_written(step: &Step) -> usize
    ensures value { result ≡ length (bytes_of step.now) }
    ensures few { result ≤ 800 }
{
    match step {
        Step::WriteAt { bytes, .. } => bytes.bytes().len(),
        Step::ReadAt { .. } | Step::ListAt { .. } | Step::MakeAt { .. } | Step::DropAt { .. } => 0,
    }
}

/// Only reads the step. Its contract: every step is one of trees of files, with at most seven slots, each below 16,
/// and at most 800 bytes.
pub fn step_is_sayable(step: &Step)
    ensures { IsTreeStep step.now }
{
    let _bytes = bytes_written(step);
    let _slots = step.target().len();
}

/// Only reads the command. Its contract: a command of a script may be in a line of one whose run is spoken of.
pub fn command_is_sayable(mode: Mode, command: &Command)
    requires { IsCommand mode command.now }
    ensures { IsSayable command.now }
{
    match command {
        Command::Do { step } => step_is_sayable(step),
        Command::Begin { .. }
        | Command::Super { .. }
        | Command::Pick { .. }
        | Command::Commit
        | Command::Abandon
        | Command::Create
        | Command::Destroy { .. }
        | Command::Prune { .. }
        | Command::Restrict { .. } => {}
    }
}

/// Only reads the script. Its contract: each of its lines may be in a script whose run is spoken of.
pub fn script_is_sayable(script: &Script)
    ensures { (n : ℕ) (line : Line) → slice_get script.now.lines n ≡ Some line → IsSayable line.command }
{
    for i in 0..script.len() {
        command_is_sayable(script.mode(), &script.line(i).command);
    }
}

/// Only reads the scripts. Its contract: what a script reader takes may be run, as laws of journals ask it.
pub fn scripts_are_sayable(scripts: &[Script])
    ensures { AreSayable scripts.now }
{
    for k in 0..scripts.len() {
        script_is_sayable(&scripts[k]);
    }
}
