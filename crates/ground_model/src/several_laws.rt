ghost use Rattle.std.specs.Prelude.{◌≡◌};
ghost use Rattle.ground_model.specs.Linking.{LinksStay};
ghost use Rattle.ground_model.specs.Several.{CommitLinksSeveral, SeveralAreLast};
ghost use Rattle.ground_model.specs.SeveralAnswers.{AnsweredTopStands};
ghost use Rattle.ground_model.specs.SeveralFacts.{CountsGoOn, DraftFlags, DraftPages};
ghost use Rattle.ground_model.specs.SeveralFacts.{FlagsAreTold, FlagsTell, NumbersGoOn};
ghost use Rattle.ground_model.specs.SeveralFacts.{FlushStaysBeside, HeldFromStays, HeldStays};
ghost use Rattle.ground_model.specs.SeveralFacts.{LeftHoldsAlike, NeedIsPlaced, NeedOfSeveral};
ghost use Rattle.ground_model.specs.SeveralFacts.{PlacesOfDraft, RenewedAreLeft};
ghost use Rattle.ground_model.specs.SeveralFacts.{RenewedAreNumbered, RenewedStay};
ghost use Rattle.ground_model.specs.SeveralTurns.{HeldAreApart, SeveralAreTested, SeveralStop};
ghost use Rattle.ground_model.specs.SeveralTurns.{SeveralTurnStands};
ghost use Rattle.ground_model.specs.SeveralWriting.{DoneBegins, DoneGoesOn, DoneIsLeft};
ghost use Rattle.ground_model.specs.SeveralWriting.{DoneIsWritten, DoneStays};

use pair_store::Blocks;

/// Runs nothing. Its contract: where all files of an update of several files that get a new version
/// are written, setting the one link that commits them leads to a scene, and the commit may be
/// noted; the client sets the members' links then. `last` says that each of these files began from
/// its last version, and `apart` that no two of their blocks are one.
pub fn commit_links_several()
    ensures links { CommitLinksSeveral }
    ensures last { SeveralAreLast }
    ensures apart { HeldAreApart }
{}

/// Runs nothing. Its contract: a run stands after the turn that sets that link.
pub fn several_turn_stands<B: Blocks>()
    ensures { B.tells → SeveralTurnStands B.Blocks }
{}

/// Runs nothing. Its contract: so it does where the first file alone gets a new version and the
/// commit is answered in that turn.
pub fn answered_top_stands<B: Blocks>()
    ensures { B.tells → AnsweredTopStands B.Blocks }
{}

/// Runs nothing. Its contract says what a test-and-set of that link came to: it was set, or a half
/// failed. Nobody else can have set it.
pub fn several_are_tested<B: Blocks>()
    ensures { B.tells → SeveralAreTested B.Blocks }
{}

/// Runs nothing. Its contract: where the write of that link failed, the run stopped with the commit
/// of all files in doubt.
pub fn several_are_in_doubt<B: Blocks>()
    ensures { B.tells → SeveralStop B.Blocks }
{}

/// Runs nothing. Its contract: a client sets the links that it set, where the turn of another one
/// left it what it relies on.
pub fn links_stay()
    ensures { LinksStay }
{}

/// Runs nothing. Its contract says what the drafts of an update of several files tell of it: which
/// files get a new version, and how many blocks it needs.
pub fn several_are_told()
    ensures draft { DraftFlags }
    ensures flags { FlagsTell }
    ensures numbers { RenewedAreNumbered }
    ensures pages { DraftPages }
    ensures places { PlacesOfDraft }
    ensures need { NeedOfSeveral }
    ensures placed { NeedIsPlaced }
{}

/// Runs nothing. Its contract says so file by file: flags that tell of each file tell of all, and
/// by one flag more there is one number more, and one count more of those that are set.
pub fn several_are_counted()
    ensures told { FlagsAreTold }
    ensures numbers { NumbersGoOn }
    ensures counts { CountsGoOn }
{}

/// Runs nothing. Its contract: the flush of one file is what it was after a page of another one's
/// was written, flushes that are done stay done, and so they do where another client had its turn.
pub fn flushes_stay_beside()
    ensures beside { FlushStaysBeside }
    ensures done { RenewedStay }
    ensures left { RenewedAreLeft }
{}

/// Runs nothing. Its contract: where a client holds the same blocks in two maps, as it does after
/// another one's turn, the places of its flushes are those blocks in both, counted upwards.
pub fn held_blocks_stay()
    ensures left { LeftHoldsAlike }
    ensures one { HeldStays }
    ensures all { HeldFromStays }
{}

/// Runs nothing. Its contract says how the files of an update of several files are written, one
/// after the other: one more flush is done, those that are done stay so, and where that of the
/// first file is done too all files are written.
pub fn files_are_written()
    ensures begins { DoneBegins }
    ensures on { DoneGoesOn }
    ensures stays { DoneStays }
    ensures left { DoneIsLeft }
    ensures all { DoneIsWritten }
{}
