ghost use Rattle.version_chain.specs.Laws.{NextLaw, OthersLaw, WholeLaw};

/// Runs nothing. Its contract: writing the block that was given out next is one place of a flush more.
pub fn next_law()
    ensures { NextLaw }
{}

/// Runs nothing. Its contract: what others write, into blocks that are no places of a flush, changes nothing of what it has written.
pub fn others_law()
    ensures { OthersLaw }
{}

/// Runs nothing. Its contract: after all places of a flush were written, the new version page stands for the tree of the draft, and the
/// pages that were not written are in the blocks that they had.
pub fn whole_law()
    ensures { WholeLaw }
{}
