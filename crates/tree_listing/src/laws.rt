ghost use Rattle.tree_listing.specs.FirstFault.{FirstFaultIsOne, HeldHasNoFault};

/// Runs nothing. Its contract: a version has one first fault at the most, so that a listing's refusal is determined.
pub fn first_fault_law()
    ensures { FirstFaultIsOne }
{}

/// Runs nothing. Its contract: a version whose blocks hold a tree, and are the store's, has no fault.
pub fn held_law()
    ensures { HeldHasNoFault }
{}
