ghost use Rattle.std.specs.Prelude.{◌≡◌, ◌≤◌, IfErr, IfOk, length};
ghost use Rattle.recovery.specs.Opening.{over_of};
ghost use Rattle.session.specs.Opening.{IsWithin};
ghost use Rattle.ground.specs.Making.{AreAllBuilt, HasBegun};

// A run of clients over two halves.

use crate::ground::GroundOver;
use afs_base::Memory;
use drives::Drives;
use pair_store::{Blocks, Pair};
use recovery::Opened;
use script_text::Script;
use std::alloc::Global;

/// A run of clients over two halves.
pub type Ground<V> = GroundOver<Pair<V>>;

/// A run of 1 to 16 scripts over two halves that were opened, client 1 playing the first one. Where
/// there is not enough memory for its turns, the drives come back.
pub fn on_halves<V: Drives>(
    alloc: Global,
    opened: Opened<V>,
    scripts: Vec<Script>,
) -> Result<Ground<V>, (V, Memory)>
    requires some { 1 ≤ length scripts.items }
    requires most { length scripts.items ≤ 16 }
    requires built { AreAllBuilt scripts.items }
    requires within { IsWithin ⟦<Pair<V> as Blocks>⟧.size (over_of opened) }
    ensures begun { IfOk result (HasBegun (over_of opened) scripts.items) }
    ensures back { IfErr result (λ e. e.0 ≡ opened.pair.drives) }
{
    match GroundOver::make(alloc, opened.over(), scripts) {
        Ok(run) => Ok(run),
        Err((pair, memory)) => Err((pair.into_drives(), memory)),
    }
}
