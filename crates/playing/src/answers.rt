// Printing the answers of a run.
ghost use Rattle.std.specs.Prelude.{◌≡◌, ◌<◌, ◌≤◌, ◌+◌, ◌++◌, List, OnOk, length, map};
ghost use Rattle.afs_base.specs.declared.limits.TheConstants.{MAX_CLIENTS};
ghost use Rattle.playing.specs.Running.{AreAnswered, answers_of, lines_of};
ghost use Rattle.service_model.specs.Print.{answer_text, client_text, clients_text};
ghost use Rattle.service_model.specs.Standing.{Client};

use crate::played::Played;
use crate::texts::client_at;
use afs_base::{ClientNo, Memory};
use script_text::{LineReply, print_reply};
use std::alloc::Global;

/// Appends the line with the answer to a line of a client: `K.N REPLY`.
pub fn append_answer(
    alloc: Global,
    client: ClientNo,
    line: u32,
    reply: &LineReply,
    text: &mut Vec<u8>,
) -> Result<(), Memory>
    ensures { OnOk result
        (text.new.items ≡ text.old.items ++ answer_text client line reply.now) }
{
    let number = client.get();
    let head = format!(in alloc; "{number}.{line} ")?;
    text.extend_from_slice(head.as_bytes())?;
    print_reply(alloc, reply, text)?;
    text.push(b'\n')?;
    Ok(())
}

/// Appends the answers to the lines of a client, as far as they are answered.
pub fn append_client<R: Played>(
    alloc: Global,
    run: &R,
    place: usize,
    text: &mut Vec<u8>,
) -> Result<(), Memory>
    requires place { place < length (R.scripts run.now) }
    requires few { length (R.scripts run.now) ≤ MAX_CLIENTS }
    ensures { OnOk result (text.new.items ≡ text.old.items
        ++ client_text (place + 1) (lines_of (R.scripts run.now) place)
        (answers_of (R.answers run.now) place)) }
{
    let script = run.script(place);
    for line in 0..script.len() {
        match run.answer(place, line) {
            Some(reply) => {
                let number = script.line(line).number;
                append_answer(alloc, client_at(place), number, reply, text)?;
            }
            None => return Ok(()),
        }
    }
    Ok(())
}

/// Appends the answers to the lines of all clients, client 1 first.
pub fn append_answers<R: Played>(alloc: Global, run: &R, text: &mut Vec<u8>) -> Result<(), Memory>
    ensures { OnOk result ((clients : List Client) → AreAnswered (R.answers run.now) clients
        → text.new.items ≡ text.old.items ++ clients_text 1 (R.scripts run.now) clients) }
{
    for place in 0..run.clients() {
        append_client(alloc, run, place, text)?;
    }
    Ok(())
}
