ghost use Rattle.std.specs.Prelude.{◌≡◌, ◌<◌, ◌≤◌, ℕ, List, Option, Some, length, slice_get};
ghost use Rattle.std.specs.Option.{option_copied};
ghost use Rattle.afs_base.specs.declared.limits.TheConstants.{MAX_CLIENTS};
ghost use Rattle.playing.specs.Running.{answers_of};
ghost use Rattle.script_text.specs.declared.reply.LineReply.{LineReply};
ghost use Rattle.script_text.specs.ScriptValue.{ScriptValue};

use script_text::{LineReply, Script};

/// A run that was played, as it is printed. Clients and objects stand at places, from 0: client 1
/// and object 1 at place 0.
pub trait Played {
    // The scripts of the clients.
    ghost scripts: { Self → List ScriptValue };

    // The answers to each client's lines so far.
    ghost answers: { Self → List (List LineReply) };

    // The first and the last serial that is kept of each object, where it is live.
    ghost told: { Self → List (Option (ℕ × ℕ)) };

    /// How many clients there are, at most 16.
    fn clients(&self) -> usize
        ensures value { result ≡ length (scripts self.now) }
        ensures few { result ≤ MAX_CLIENTS };

    /// The script of a client.
    fn script(&self, place: usize) -> &Script
        requires { place < length (scripts self.now) }
        ensures { slice_get (scripts self.now) place ≡ Some result.now };

    /// The answer to the line at a place of a client's script, where it is answered.
    fn answer(&self, place: usize, line: usize) -> Option<&LineReply>
        requires { place < length (scripts self.now) }
        ensures { option_copied result ≡ slice_get (answers_of (answers self.now) place) line };

    /// How many objects there are.
    fn objects(&self) -> usize
        ensures { result ≡ length (told self.now) };

    /// The first and the last serial that is kept of an object, where it is live.
    fn serials(&self, place: usize) -> Option<(u64, u64)>
        requires { place < length (told self.now) }
        ensures { slice_get (told self.now) place ≡ Some result };
}
