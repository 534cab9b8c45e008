ghost use Rattle.ground_model.specs.Names.{BaseIsLow, CommitNames, UnlockedIsUnlinked};
ghost use Rattle.ground_model.specs.Tests.{LinkStops, MergedIsWritten, SetRewrites};

use pair_store::Blocks;

/// Runs nothing. Its contract: the page of a version whose file's links nobody sets names the next
/// version of the file, and none where it is the last. `free` says when nobody sets them, and `low`
/// that no version is later than the last one.
pub fn commits_name_versions()
    ensures free { UnlockedIsUnlinked }
    ensures low { BaseIsLow }
    ensures names { CommitNames }
{}

/// Runs nothing. Its contract says what a test-and-set came to of the commit reference in the page
/// that a draft was merged with last: the link was set, it was taken by the next version, or a half
/// failed; the page is never found closed or bad. `written` says that the update is written where
/// that page is the last version's.
pub fn links_are_tested<B: Blocks>()
    ensures came { B.tells → SetRewrites B.Blocks }
    ensures written { MergedIsWritten }
{}

/// Runs nothing. Its contract: where the write of a link failed, the run stopped with the commit in
/// doubt.
pub fn links_are_in_doubt<B: Blocks>()
    ensures { B.tells → LinkStops B.Blocks }
{}
