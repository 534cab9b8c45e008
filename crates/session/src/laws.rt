ghost use Rattle.session.specs.Laws.{OwnIsLeft, RestIsBetween, SafeIsLeft, TurnsAreWithin};
ghost use Rattle.session.specs.Laws.{UpdateIsSmall};

use pair_store::Blocks;

/// Runs nothing. Its contract: a turn of one client leaves every other one what it has of its own,
/// and its numbers.
pub fn others_are_left<B: Blocks>()
    ensures own { OwnIsLeft B.Blocks }
    ensures safe { SafeIsLeft B.Blocks }
{}

/// Runs nothing. Its contract: the turns of a line are within its bound; where a client is between
/// two lines nothing is noted of the next one, and none has an update open behind its last line;
/// and each open update is of at most seventeen files.
pub fn lines_are_bounded()
    ensures within { TurnsAreWithin }
    ensures between { RestIsBetween }
    ensures small { UpdateIsSmall }
{}
