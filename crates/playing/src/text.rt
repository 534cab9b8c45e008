// Reading the text of one source.
ghost use Rattle.std.specs.Prelude.{◌≡◌, ◌<◌, ◌≤◌, ℕ, List, IfErr, IfOk, OnOk, vec_len};
ghost use Rattle.afs_base.specs.declared.limits.TheConstants.{MAX_SCRIPT_BYTES};
ghost use Rattle.playing.specs.Sources.{IsHeld, IsReadOf, IsTaken};
ghost use Rattle.playing.specs.Taking.{IsTextFault, TakesPiece};

use crate::unread::Unread;
use afs_base::{ClientNo, MAX_SCRIPT_BYTES};
use script_text::Source;
use std::alloc::Global;

/// The most bytes that one call takes from a source.
const PIECE: usize = 4096;

/// Takes the next bytes of a source, one at least but at its end, and says whether there were any.
fn take_piece<S: Source>(
    client: ClientNo,
    source: &mut S,
    text: &mut Vec<u8>,
) -> Result<bool, Unread>
    requires { vec_len text.old ≤ MAX_SCRIPT_BYTES }
    ensures piece { IfOk result
        (TakesPiece (S.left source.old) (S.left source.new) text.old.items text.new.items) }
    ensures most { OnOk result (vec_len text.new ≤ 65537) }
    ensures taken { IsTaken (S.left source.old) (S.left source.new) }
    ensures later { S.faults source.old ≤ S.faults source.new }
    ensures kept { OnOk result (S.faults source.new ≡ S.faults source.old) }
    ensures fault { IfErr result
        (IsTextFault client (S.faults source.old) (S.faults source.new)) }
{
    let mut piece = [0; PIECE];
    let room = (MAX_SCRIPT_BYTES + 1 - text.len()).min(PIECE);
    match source.read(&mut piece[..room]) {
        Ok(taken) => {
            text.extend_from_slice(&piece[..taken])?;
            Ok(taken > 0)
        }
        Err(_) => Err(Unread::Source { client }),
    }
}

/// Reads the text of a client's source to its end, or until it is longer than a script may be.
pub(crate) fn read_text<S: Source>(
    alloc: Global,
    client: ClientNo,
    source: &mut S,
) -> Result<Vec<u8>, Unread>
    ensures held { IfOk result (λ read. (text : List ℕ)
        × IsHeld (S.left source.old) text × IsReadOf text read.items) }
    ensures taken { IsTaken (S.left source.old) (S.left source.new) }
    ensures later { S.faults source.old ≤ S.faults source.new }
    ensures kept { OnOk result (S.faults source.new ≡ S.faults source.old) }
    ensures fault { IfErr result
        (IsTextFault client (S.faults source.old) (S.faults source.new)) }
{
    let mut text = Vec::new(alloc);
    'pieces: while text.len() <= MAX_SCRIPT_BYTES {
        if !take_piece(client, source, &mut text)? {
            return Ok(text);
        }
    }
    Ok(text)
}
