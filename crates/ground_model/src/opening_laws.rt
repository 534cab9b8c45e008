ghost use Rattle.ground_model.specs.OpeningSeveral.{BaseBeginsDraft, BasesAreLeft, BasesBegin};
ghost use Rattle.ground_model.specs.OpeningSeveral.{BasesStay, CauseOfSuper, OpeningIsLeft};
ghost use Rattle.ground_model.specs.OpeningSeveral.{SuperAnswers};
ghost use Rattle.ground_model.specs.OpeningSeveral.{SuperBegins, SuperHasFiles, SuperIsAnswered};
ghost use Rattle.ground_model.specs.OpeningSeveral.{SuperIsNoted, SuperReads, WorkBegins};

use pair_store::Blocks;

/// Runs nothing. Its contract says why a line that opens an update of several files is refused, and
/// which files the update has and so locks.
pub fn super_is_opened()
    ensures cause { CauseOfSuper }
    ensures files { SuperHasFiles }
{}

/// Runs nothing. Its contract says what such a line notes: the bases of all files at once, and its
/// answer.
pub fn super_is_noted()
    ensures begins { SuperIsNoted }
    ensures answered { SuperIsAnswered }
{}

/// Runs nothing. Its contract: what is told of a file's last version is the base of an update that
/// is opened on it, and a draft begins on the version page of a base, whenever that is read.
pub fn bases_begin()
    ensures work { WorkBegins }
    ensures draft { BaseBeginsDraft }
{}

/// Runs nothing. Its contract: the bases of all files lie where it was told as the update was
/// opened, in the client's own turns and in those of the others; and its line stays under way.
pub fn bases_stay()
    ensures begin { BasesBegin }
    ensures stay { BasesStay }
    ensures left { BasesAreLeft }
    ensures line { OpeningIsLeft }
{}

/// Runs nothing. Its contract: a run stands after each turn of such a line, the first one, those
/// that read one page more, and the last one, which answers it.
pub fn super_turns_stand<B: Blocks>()
    ensures begins { B.tells → SuperBegins B.Blocks }
    ensures reads { B.tells → SuperReads B.Blocks }
    ensures answers { B.tells → SuperAnswers B.Blocks }
{}
