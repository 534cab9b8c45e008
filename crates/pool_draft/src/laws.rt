ghost use Rattle.pool_draft.specs.Sets.{OthersLaw, FramesLaw, BegunLaw};

/// Runs nothing. Its contract: a call that leaves what is beside the picked draft changes no other draft of the set.
pub fn others_law()
    ensures { OthersLaw }
{}

/// Runs nothing. Its contract: every set has at least 921 frames, and a call that leaves what is beside the picked draft leaves as many.
pub fn frames_law()
    ensures { FramesLaw }
{}

/// Runs nothing. Its contract: a version that is added to a set without roots and then picked is begun, alone.
pub fn begun_law()
    ensures { BegunLaw }
{}
