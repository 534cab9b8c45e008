ghost use Rattle.std.specs.Prelude.{◌≡◌};
ghost use Rattle.ground_model.specs.SeveralDecisions.{MayCommitSeveralIs, RefusableGivesBack};
ghost use Rattle.ground_model.specs.SeveralDecisions.{RefusableIsNoted, SerialsAreAt};
ghost use Rattle.ground_model.specs.SeveralDecisions.{SerialsOfEmpty};
ghost use Rattle.ground_model.specs.SeveralDecisions.{SerialsOfSeveral, SeveralAreBased};
ghost use Rattle.ground_model.specs.SeveralDecisions.{SeveralAreUnworn, SeveralAreWorn};

/// Runs nothing. Its contract: an update of several files that is not committed yet began from the
/// last versions of its files. `unworn` says that a serial is left for each of them that gets a new
/// version, and `worn` that none is.
pub fn several_are_based()
    ensures last { SeveralAreBased }
    ensures unworn { SeveralAreUnworn }
    ensures worn { SeveralAreWorn }
{}

/// Runs nothing. Its contract says what the refusal of a commit of any number of files notes, that
/// it gives back the blocks, and when an update of several files may be committed.
pub fn several_are_decided()
    ensures refused { RefusableIsNoted }
    ensures given { RefusableGivesBack }
    ensures may { MayCommitSeveralIs }
{}

/// Runs nothing. Its contract says by which serials the commit of an update of several files is
/// answered, and that of an update without writes. `at` says which one each file has.
pub fn several_are_answered()
    ensures written { SerialsOfSeveral }
    ensures empty { SerialsOfEmpty }
    ensures at { SerialsAreAt }
{}
