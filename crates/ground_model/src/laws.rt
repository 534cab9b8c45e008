ghost use Rattle.std.specs.Prelude.{◌≡◌};
ghost use Rattle.ground_model.specs.Causes.{CauseOfAbandon, CauseOfBegin, CauseOfCommit};
ghost use Rattle.ground_model.specs.Causes.{CauseOfIdleStep, CauseOfStep};
ghost use Rattle.ground_model.specs.CommitLines.{CommitIsAnswered, HoldingIsNoted, RefusalIsNoted};
ghost use Rattle.ground_model.specs.Commits.{CommitLinks};
ghost use Rattle.ground_model.specs.Drafting.{BeginsDraft, DraftStays, FedDraft, SteppedDraft};
ghost use Rattle.ground_model.specs.Drafting.{MergeBegins, MergeGoesOn, WantedLies};
ghost use Rattle.ground_model.specs.Heads.{HeadsTell, NoHeadTells};
ghost use Rattle.ground_model.specs.Laws.{HeldWriteLeads, LineStepLeads, LinkLeads};
ghost use Rattle.ground_model.specs.Laws.{LeavesGoOn, LeftIsKept};
ghost use Rattle.ground_model.specs.Lines.{AbandonIsNoted, BeginIsNoted, RefusedIsNoted};
ghost use Rattle.ground_model.specs.Lines.{PickIsNoted, StepIsNoted};
ghost use Rattle.ground_model.specs.Maps.{EndIsNoted, GivingIsFixed, TakingIsFixed};
ghost use Rattle.ground_model.specs.Opened.{OpenedBegins};
ghost use Rattle.ground_model.specs.Quiet.{QuietTurnStands};
ghost use Rattle.ground_model.specs.Room.{FreeIsCounted, OpenedIsFitting};
ghost use Rattle.ground_model.specs.Runs.{RunRecovers, TurnStands};
ghost use Rattle.ground_model.specs.Stops.{ReadStops, WriteStops};
ghost use Rattle.ground_model.specs.Tables.{SealsStay, TableGoesOn, TableTells};
ghost use Rattle.ground_model.specs.Turns.{AnsweredLinkStands, LinkTurnStands};
ghost use Rattle.ground_model.specs.Walking.{WalkCarries, WalkStarts, WalkStays, WalksMayBegin};
ghost use Rattle.ground_model.specs.Writing.{FlushBegins, FlushGoesOn, WriteTurnStands};

use pair_store::Blocks;

/// Runs nothing. Its contract: a store as an opening leaves it, with no turn done, is a scene in
/// which a run stands.
pub fn opened_begins<B: Blocks>()
    ensures { OpenedBegins B.Blocks }
{}

/// Runs nothing. Its contract: the state of a store that was opened has no more blocks in use than
/// there are, and its versions share what is not fresh in them.
pub fn opened_is_fitting()
    ensures { OpenedIsFitting }
{}

/// Runs nothing. Its contract: the table of a store that is found has for each object the seal that
/// the object has in the state that is found.
pub fn table_tells()
    ensures { TableTells }
{}

/// Runs nothing. Its contract: by entries that make no file, remove none and take no version away
/// the seals stay as they were, and so a table has those where the journal leads.
pub fn seals_stay()
    ensures seals { SealsStay }
    ensures table { TableGoesOn }
{}

/// Runs nothing. Its contract: what is told of an object is so of its last version, and an object
/// of which nothing is told is not live.
pub fn heads_tell()
    ensures told { HeadsTell }
    ensures untold { NoHeadTells }
{}

/// Runs nothing. Its contract: the map of a scene has as many free blocks as are free where its
/// journal leads.
pub fn free_is_counted()
    ensures { FreeIsCounted }
{}

/// Runs nothing. Its contract says why the lines of an update of one file are refused before
/// anything is done for them.
pub fn causes_are()
    ensures begin { CauseOfBegin }
    ensures idle { CauseOfIdleStep }
    ensures step { CauseOfStep }
    ensures commit { CauseOfCommit }
    ensures abandon { CauseOfAbandon }
{}

/// Runs nothing. Its contract: a run that stands goes on to stand after each turn that leads to a
/// scene.
pub fn turn_stands<B: Blocks>()
    ensures { B.tells → TurnStands B.Blocks }
{}

/// Runs nothing. Its contract: whatever turns follow one another, a crash at any moment leaves the
/// state after a front of the journal, with each entry that was acknowledged by then, and at most
/// one more that changes the state.
pub fn turns_recover<B: Blocks>()
    ensures { RunRecovers B.Blocks }
{}

/// Runs nothing. Its contract: a client that is left what it relies on has its drafts and its flush
/// as they were. `on` says that what is left by one step and by the next is left by both.
pub fn left_is_kept()
    ensures kept { LeftIsKept }
    ensures on { LeavesGoOn }
{}

/// Runs nothing. Its contract: a step of a client's line leads to a scene, and leaves the others
/// what they rely on.
pub fn line_step_leads()
    ensures { LineStepLeads }
{}

/// Runs nothing. Its contract: so does a write of a block that the client holds, which changes
/// nothing that is found.
pub fn held_write_leads()
    ensures { HeldWriteLeads }
{}

/// Runs nothing. Its contract: so does the link of a commit of one file, which appends the new
/// version.
pub fn link_leads()
    ensures { LinkLeads }
{}

/// Runs nothing. Its contract says what the lines note that change nothing but their client: a line
/// that is refused, one that opens an update of a file, a step, and an update that is given up.
pub fn lines_are_noted()
    ensures refused { RefusedIsNoted }
    ensures begin { BeginIsNoted }
    ensures step { StepIsNoted }
    ensures pick { PickIsNoted }
    ensures abandon { AbandonIsNoted }
{}

/// Runs nothing. Its contract says how a client's draft comes, and that it stays one: it begins on
/// the last version's page, is fed pages of places, and has one step more by a step. `stays` says
/// so where every version is there again.
pub fn drafts_go_on()
    ensures begins { BeginsDraft }
    ensures wanted { WantedLies }
    ensures fed { FedDraft }
    ensures stepped { SteppedDraft }
    ensures stays { DraftStays }
{}

/// Runs nothing. Its contract: a draft is merged with nothing at its base, and with one version
/// more where a walk over that version found no clash and carried it over.
pub fn merges_go_on()
    ensures begins { MergeBegins }
    ensures on { MergeGoesOn }
{}

/// Runs nothing. Its contract: where a draft is merged with an earlier version than its file's
/// last, a walk over the next version may begin; it stays under way where both versions show their
/// pages, and where it ends without a clash the draft is merged with that version too.
pub fn walks_go_on()
    ensures begins { WalksMayBegin }
    ensures starts { WalkStarts }
    ensures stays { WalkStays }
    ensures carries { WalkCarries }
{}

/// Runs nothing. Its contract: where an update of one file is merged with every version of it, and
/// written, setting its link leads to a scene, and its commit may be noted.
pub fn commit_links()
    ensures { CommitLinks }
{}

/// Runs nothing. Its contract: a run stands after a turn of a line that writes nothing.
pub fn quiet_turn_stands<B: Blocks>()
    ensures { B.tells → QuietTurnStands B.Blocks }
{}

/// Runs nothing. Its contract: a run stands after the turn that sets the link of a commit of one
/// file.
pub fn link_turn_stands<B: Blocks>()
    ensures { B.tells → LinkTurnStands B.Blocks }
{}

/// Runs nothing. Its contract: so it does where the commit is answered in that turn.
pub fn answered_link_stands<B: Blocks>()
    ensures { B.tells → AnsweredLinkStands B.Blocks }
{}

/// Runs nothing. Its contract says what a commit's line notes: that blocks are held, that the
/// commit is refused, and its answer.
pub fn commits_are_noted()
    ensures held { HoldingIsNoted }
    ensures refused { RefusalIsNoted }
    ensures answered { CommitIsAnswered }
{}

/// Runs nothing. Its contract says what is kept of a run that a fault stopped: in a read, with
/// nothing in doubt; or in the write of an entry, which is then in doubt.
pub fn stops_recover<B: Blocks>()
    ensures read { B.tells → ReadStops B.Blocks }
    ensures write { B.tells → WriteStops B.Blocks }
{}

/// Runs nothing. Its contract: a run stands after a turn in which a client writes a block that it
/// holds.
pub fn write_turn_stands<B: Blocks>()
    ensures { B.tells → WriteTurnStands B.Blocks }
{}

/// Runs nothing. Its contract: a flush begins in blocks that its client holds, and goes on by each
/// page that is written.
pub fn flushes_go_on()
    ensures begins { FlushBegins }
    ensures on { FlushGoesOn }
{}

/// Runs nothing. Its contract: no block of another client and no block that is kept changes where
/// a client takes free blocks, or gives back its own.
pub fn maps_are_fixed()
    ensures taking { TakingIsFixed }
    ensures giving { GivingIsFixed }
{}

/// Runs nothing. Its contract says what is noted at a script's end, where an update is open.
pub fn end_is_noted()
    ensures { EndIsNoted }
{}
