ghost use Rattle.std.specs.Prelude.{◌≡◌, ◌+◌, ◌<◌, ◌≤◌, ◌*◌, ℕ, length, IfOk, sum_by};
ghost use Rattle.script_text.specs.ScriptValue.{ScriptValue};
ghost use Rattle.ground.specs.Making.{AreAllBuilt, AreNewcomers, room_for};

// The clients of a run, before its first turn.

use afs_base::{ClientNo, Memory};
use script_text::Script;
use session::Session;
use std::alloc::Global;

/// The client at a place, from 0.
fn client_at(place: usize) -> ClientNo
    requires { place < 16 }
    ensures { result ≡ place + 1 }
{
    match ClientNo::of(place as u8 + 1) {
        Ok(client) => client,
        Err(_) => unreachable!(),
    }
}

/// A client for each of these scripts, client 1 first.
pub(crate) fn sessions_of(alloc: Global, scripts: Vec<Script>) -> Result<Vec<Session>, Memory>
    requires most { length scripts.items ≤ 16 }
    requires built { AreAllBuilt scripts.items }
    ensures { IfOk result (λ sessions. AreNewcomers scripts.items sessions.items) }
{
    let mut sessions = Vec::new(alloc);
    for script in scripts {
        let session = Session::make(alloc, client_at(sessions.len()), script)?;
        sessions.push(session)?;
    }
    Ok(sessions)
}

/// How many entries the clients of these scripts may note: four for each line, of which a script
/// has at most a thousand.
pub(crate) fn room_for(scripts: &[Script]) -> usize
    requires { length scripts.now ≤ 16 }
    ensures room { result ≡ room_for scripts.now }
    ensures most { result ≤ 64000 }
{
    let mut room = 0;
    for script in scripts {
        room += 4 * script.len();
    }
    room
}
