ghost use Rattle.prune_sweep.specs.Changing.{SweepingGoesOn, SweepingGrows};
ghost use Rattle.prune_sweep.specs.FoundFiles.{FilesMayBeSwept, KeptMayBeSwept, UntiedMayBeSwept, FreedOfFound, PruningFreesTheFound, DestroyingFreesTheFound};

/// Runs nothing. Its contract says that a sweep goes on being a sweep of the same file while some of its version pages get a
/// commit reference or lose their members, and other blocks are written.
pub fn sweeping_goes_on()
    ensures { SweepingGoesOn }
{}

/// Runs nothing. Its contract says that a sweep of a file is one of the file with more versions behind those that it reads.
pub fn sweeping_grows()
    ensures { SweepingGrows }
{}

/// Runs nothing. Its contract says that a sweep may begin with each live file that is found in a
/// store, and that what it frees is what no kept version of the file has.
pub fn files_may_be_swept()
    ensures swept { FilesMayBeSwept }
    ensures kept { KeptMayBeSwept }
    ensures untied { UntiedMayBeSwept }
    ensures freed { FreedOfFound }
{}

/// Runs nothing. Its contract says that what a sweep finds is what the write of the table frees when
/// the file is pruned so, or is destroyed.
pub fn what_is_found_becomes_free()
    ensures pruned { PruningFreesTheFound }
    ensures destroyed { DestroyingFreesTheFound }
{}
