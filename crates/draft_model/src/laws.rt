ghost use Rattle.draft_model.specs.Laws.{BeginLaw, FeedAccessLaw, FeedLaw, FlagLaw, FlushLaw, FreshLaw, KeepLaw, LevelLaw, MaskLaw, StepAccessLaw, StepLaw, WriteLaw};

/// Runs nothing. Its contract: a step for which no page is wanted is answered as on the tree, and the draft then stands for one step
/// more.
pub fn step_law()
    ensures { StepLaw }
{}

/// Runs nothing. Its contract: copying a wanted page changes nothing of what a draft stands for.
pub fn feed_law()
    ensures { FeedLaw }
{}

/// Runs nothing. Its contract: a draft that has the page `/` alone stands for its base, with no step done.
pub fn begin_law()
    ensures { BeginLaw }
{}

/// Runs nothing. Its contract: a draft still stands for its update where the blocks to which its base leads show what they showed.
pub fn keep_law()
    ensures { KeepLaw }
{}

/// Runs nothing. Its contract: the page of its base that a draft wants has the level of its path.
pub fn level_law()
    ensures { LevelLaw }
{}

/// Runs nothing. Its contract: where each live page was accessed but those on the way that a step looks at, that is so after one more of
/// these was copied.
pub fn feed_access_law()
    ensures { FeedAccessLaw }
{}

/// Runs nothing. Its contract: where each live page was accessed but those on the way that a step looks at, each was after the step.
pub fn step_access_law()
    ensures { StepAccessLaw }
{}

/// Runs nothing. Its contract: the flags of every path, those of dropped pages included, are the accesses of the update.
pub fn flag_law()
    ensures { FlagLaw }
{}

/// Runs nothing. Its contract: the masks of every path are the slots that the update read and wrote there.
pub fn mask_law()
    ensures { MaskLaw }
{}

/// Runs nothing. Its contract: a draft wrote something just where the update did.
pub fn write_law()
    ensures { WriteLaw }
{}

/// Runs nothing. Its contract: the live pages on or below which the draft wrote are the fresh paths of the update.
pub fn fresh_law()
    ensures { FreshLaw }
{}

/// Runs nothing. Its contract: where the pages of a draft were written to their blocks, and no block of the base changed, the block of
/// `/` holds the draft's tree, and the pages at or below which nothing was written are in the blocks of the base.
pub fn flush_law()
    ensures { FlushLaw }
{}
