ghost use Rattle.joint_walk.specs.Laws.{LaterLaw};

/// Runs nothing. Its contract: where the pages of a draft were written to their blocks, the version that this makes is what a walk asks
/// of a later version, by its marks and masks.
pub fn later_law()
    ensures { LaterLaw }
{}
