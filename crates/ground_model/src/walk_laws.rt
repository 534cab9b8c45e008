ghost use Rattle.ground_model.specs.Ahead.{AheadIn, AheadOf, BaseIsLeft, BaseStays, MergedStays};
ghost use Rattle.ground_model.specs.Ahead.{OneBase, WalkBegins, WalkClashes, WalkFeeds};
ghost use Rattle.ground_model.specs.Ahead.{WalkIsLeft, WalkMerges, WalkSettles, WalkStaysOwn};
ghost use Rattle.ground_model.specs.Ahead.{WritesHaveSteps};

/// Runs nothing. Its contract: where the block of the version after those that a draft is merged
/// with is known, that version is ahead of the draft, and no other lies under its serial.
pub fn versions_are_ahead()
    ensures one { OneBase }
    ensures some { AheadIn }
    ensures of { AheadOf }
{}

/// Runs nothing. Its contract says how a client's walk over the version ahead begins, goes on and
/// ends: the draft is merged with that version too, or its first clash is with it. `some` says that
/// an update that wrote something has steps.
pub fn walks_take_turns()
    ensures some { WritesHaveSteps }
    ensures begins { WalkBegins }
    ensures settles { WalkSettles }
    ensures feeds { WalkFeeds }
    ensures merges { WalkMerges }
    ensures clashes { WalkClashes }
{}

/// Runs nothing. Its contract: a client that is left what it relies on finds the versions of its
/// update's file where they were, and its walk under way.
pub fn walks_are_left()
    ensures base { BaseIsLeft }
    ensures walk { WalkIsLeft }
{}

/// Runs nothing. Its contract: so it does after a turn of its own that kept every version and made
/// none.
pub fn walks_stay()
    ensures base { BaseStays }
    ensures merged { MergedStays }
    ensures walk { WalkStaysOwn }
{}
