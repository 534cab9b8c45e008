ghost use Rattle.std.specs.Prelude.{◌≡◌};
ghost use Rattle.ground_model.specs.CommitFacts.{EmptyCommitIsNoted, MayCommitIs, MomentIsPast};
ghost use Rattle.ground_model.specs.CommitFacts.{MergedNeedIsTold, MergedWritesAreTold, NeedIsTold};
ghost use Rattle.ground_model.specs.CommitFacts.{NeedOfOne, OneIsRefused, RefusalIsLawful};
ghost use Rattle.ground_model.specs.CommitFacts.{WritesAreTold};
ghost use Rattle.ground_model.specs.LineTurns.{GivingIsStep, HeldWriteStops, HoldingTakes};
ghost use Rattle.ground_model.specs.LineTurns.{LineTurnStands, PlainSetsNone, RefusalGivesBack};
ghost use Rattle.ground_model.specs.LineTurns.{ReadTurnStands, StandsStops, TakingIsStep};
ghost use Rattle.ground_model.specs.LineTurns.{UncommittedSetsNone};
ghost use Rattle.ground_model.specs.Noted.{AnswerEnds, LastIsLatest, NothingIsNoted, NotesGoOn};
ghost use Rattle.ground_model.specs.Noted.{NotesRest, NotesShow, UntimedAreOfTurn};

use pair_store::Blocks;

/// Runs nothing. Its contract says how a client's entries follow one another: none at all leave it
/// as it is, and what is noted where noted entries lead is noted with them. `shows` and `rests` say
/// what is seen of the client then.
pub fn notes_go_on()
    ensures nothing { NothingIsNoted }
    ensures on { NotesGoOn }
    ensures shows { NotesShow }
    ensures rests { NotesRest }
    ensures latest { LastIsLatest }
    ensures untimed { UntimedAreOfTurn }
{}

/// Runs nothing. Its contract: the update that is open as a script's last line was answered is
/// given up directly after it.
pub fn answer_ends()
    ensures { AnswerEnds }
{}

/// Runs nothing. Its contract: a run stands after a turn of a line that writes nothing, in which
/// its client may have taken blocks or given them back.
pub fn line_turn_stands<B: Blocks>()
    ensures { B.tells → LineTurnStands B.Blocks }
{}

/// Runs nothing. Its contract: so it does after a turn that only reads.
pub fn read_turn_stands<B: Blocks>()
    ensures { B.tells → ReadTurnStands B.Blocks }
{}

/// Runs nothing. Its contract: a client sets no links where its update is of one file, and where it
/// has not committed it.
pub fn no_links_are_set()
    ensures plain { PlainSetsNone }
    ensures uncommitted { UncommittedSetsNone }
{}

/// Runs nothing. Its contract: where a client takes free blocks or gives back its own, the map
/// agrees with what is noted of them: in any line, and in that of a commit.
pub fn maps_step()
    ensures taking { TakingIsStep }
    ensures giving { GivingIsStep }
    ensures held { HoldingTakes }
    ensures refused { RefusalGivesBack }
{}

/// Runs nothing. Its contract: a run that stands may stop there.
pub fn stands_stops<B: Blocks>()
    ensures { StandsStops B.Blocks }
{}

/// Runs nothing. Its contract: a fault in the write of a block that a client holds stops the run
/// with nothing in doubt.
pub fn held_write_stops<B: Blocks>()
    ensures { B.tells → HeldWriteStops B.Blocks }
{}

/// Runs nothing. Its contract: an update of one file needs a block for each fresh path that its
/// draft tells.
pub fn need_is_told()
    ensures one { NeedOfOne }
    ensures draft { NeedIsTold }
    ensures merged { MergedNeedIsTold }
{}

/// Runs nothing. Its contract: an update of one file wrote something where its draft tells so.
pub fn writes_are_told()
    ensures draft { WritesAreTold }
    ensures merged { MergedWritesAreTold }
{}

/// Runs nothing. Its contract says for which causes the commit of an update of one file is refused,
/// and that it may be committed where none of them is there.
pub fn commits_are_decided()
    ensures lawful { RefusalIsLawful }
    ensures refused { OneIsRefused }
    ensures may { MayCommitIs }
{}

/// Runs nothing. Its contract says what the commit of an update without writes notes.
pub fn empty_commit_is_noted()
    ensures { EmptyCommitIsNoted }
{}

/// Runs nothing. Its contract: what stands carries no later moment than its store tells.
pub fn moment_is_past<B: Blocks>()
    ensures { MomentIsPast B.Blocks }
{}
