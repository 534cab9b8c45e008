ghost use Rattle.tree_model.specs.Merge.{MergeLaw};

/// Runs nothing. Its contract is the merge law: where my reads meet none of their visible writes, my steps do after theirs
/// what they do without them.
pub fn merge_law()
    ensures { MergeLaw }
{}
