ghost use Rattle.ground_model.specs.LinksLeft.{AnswerLeavesAll, AnsweredTopLeavesAll};
ghost use Rattle.ground_model.specs.LinksLeft.{CommitLeavesAll, LeavesAllGoOn, LeftLinksStay};
ghost use Rattle.ground_model.specs.LinksLeft.{LinkLeavesAll, MarkLeavesAll, MovedLeavesAll};
ghost use Rattle.ground_model.specs.Rolling.{AnswerJoins, AnswerTurnStands};
ghost use Rattle.ground_model.specs.Rolling.{AnsweredClearingStands, CommitLeavesLinks};
ghost use Rattle.ground_model.specs.Rolling.{ClearingStops, ClearingTurnStands, LinkIsSet};
ghost use Rattle.ground_model.specs.Rolling.{MemberStops, MemberTurnStands, MembersAreTested};
ghost use Rattle.ground_model.specs.Rolling.{NobodySetsLinks, NothingIsLeft, TopIsCleared};
ghost use Rattle.ground_model.specs.Rolling.{SameStoreLeavesLinks, TopsAreCleared};

use pair_store::Blocks;

/// Runs nothing. Its contract says what becomes of the links that the commit of an update of
/// several files leaves: where one is set, one less is left; where none is left the top is cleared;
/// and then all of them are set, and no last version names members. `nobody` says so of all files
/// where no client sets links.
pub fn links_roll()
    ensures set { LinkIsSet }
    ensures cleared { TopIsCleared }
    ensures left { NothingIsLeft }
    ensures nobody { NobodySetsLinks }
{}

/// Runs nothing. Its contract says what the calls of such turns came to: a link that is left is set
/// or a half failed, and the members of the top are cleared or a half failed; the pages are never
/// found taken, closed or bad.
pub fn rolls_come_to<B: Blocks>()
    ensures set { B.tells → MembersAreTested B.Blocks }
    ensures cleared { B.tells → TopsAreCleared B.Blocks }
{}

/// Runs nothing. Its contract: a run stands after each of the turns that follow the commit of an
/// update of several files: one that sets the link of a member, the one that clears the top, and
/// the one that answers the line, which may be that one, or any that leads to where nothing is left
/// to be done. After the answer all links of its files are set, and none of them names members.
pub fn rolling_turns_stand<B: Blocks>()
    ensures member { B.tells → MemberTurnStands B.Blocks }
    ensures clearing { B.tells → ClearingTurnStands B.Blocks }
    ensures answer { B.tells → AnswerTurnStands B.Blocks }
    ensures both { B.tells → AnsweredClearingStands B.Blocks }
    ensures joins { B.tells → AnswerJoins B.Blocks }
{}

/// Runs nothing. Its contract: a fault in such a write stops the run with nothing in doubt.
pub fn rolling_stops<B: Blocks>()
    ensures member { B.tells → MemberStops B.Blocks }
    ensures clearing { B.tells → ClearingStops B.Blocks }
{}

/// Runs nothing. Its contract: a client that sets links is left the files by the turns of others
/// that change no version, and by the commits of other files.
pub fn links_are_left()
    ensures same { SameStoreLeavesLinks }
    ensures commit { CommitLeavesLinks }
{}

/// Runs nothing. Its contract: each kind of turn leaves every other client what it relies on and
/// the links that it sets: a turn by which the store is the same, the links of commits of one file
/// and of several, and the turns after these. `on` says so of turns that follow one another, and
/// `stay` that a client sets the same links then.
pub fn all_are_left<B: Blocks>()
    ensures on { LeavesAllGoOn }
    ensures stay { LeftLinksStay }
    ensures moved { MovedLeavesAll }
    ensures link { LinkLeavesAll B.Blocks }
    ensures commit { CommitLeavesAll }
    ensures top { AnsweredTopLeavesAll }
    ensures mark { MarkLeavesAll }
    ensures answer { AnswerLeavesAll }
{}
