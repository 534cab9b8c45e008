// Opening a store again: whatever openings were cut off, one after the other, the files that are
// found stay the same.
ghost use Rattle.recovery.specs.Reopening.{ReopeningFindsTheSame};

use drives::Drives;

/// Runs nothing. Its contract: each opening of a sequence begins on what a crash left of the one
/// before, and after any number of them the files that are found are those that were found before
/// the first.
pub fn reopening_law<V: Drives>()
    ensures { ReopeningFindsTheSame V.Drives }
{}
