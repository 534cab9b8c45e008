// Reading the texts of all sources, client 1 first.
ghost use Rattle.std.specs.Prelude.{◌≡◌, ◌+◌, ◌<◌, ◌≤◌, ℕ, List, IfErr, IfOk, OnOk, length, map};
ghost use Rattle.std.specs.List.{AllZip};
ghost use Rattle.afs_base.specs.declared.limits.TheConstants.{MAX_CLIENTS};
ghost use Rattle.playing.specs.Sources.{AreHeld, AreKept, AreLater, AreTaken, IsReadOf};
ghost use Rattle.playing.specs.Taking.{AreTextsFault, bytes_of};

use crate::text::read_text;
use crate::unread::Unread;
use afs_base::{ClientNo, MAX_CLIENTS};
use script_text::Source;
use std::alloc::Global;

/// The client at a place, from 0.
pub(crate) fn client_at(place: usize) -> ClientNo
    requires { place < MAX_CLIENTS }
    ensures { result ≡ place + 1 }
{
    match ClientNo::of(place as u8 + 1) {
        Ok(client) => client,
        Err(_) => unreachable!(),
    }
}

/// Reads the texts of all sources, each to its end, or until it is longer than a script may be. The
/// first that fails is the last.
pub(crate) fn read_texts<S: Source>(
    alloc: Global,
    sources: &mut [S],
) -> Result<Vec<Vec<u8>>, Unread>
    requires { length sources.old ≤ MAX_CLIENTS }
    ensures held { IfOk result (λ read. (texts : List (List ℕ))
        × AreHeld S.Source sources.old texts × AllZip IsReadOf texts (bytes_of read.items)) }
    ensures taken { AreTaken S.Source sources.old sources.new }
    ensures later { AreLater S.Source sources.old sources.new }
    ensures kept { OnOk result (AreKept S.Source sources.old sources.new) }
    ensures fault { IfErr result (AreTextsFault S.Source sources.old sources.new) }
{
    let mut texts = Vec::new(alloc);
    for place in 0..sources.len() {
        let text = read_text(alloc, client_at(place), &mut sources[place])?;
        texts.push(text)?;
    }
    Ok(texts)
}
