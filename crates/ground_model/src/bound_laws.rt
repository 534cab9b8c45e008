ghost use Rattle.ground_model.specs.Bounds.{BoundsAreSmall, FewAreMade, TurnsAreLeft, TurnsFit};
ghost use Rattle.ground_model.specs.Bounds.{TurnsGrow, TurnsOfMore, WalkIsWithin};

/// Runs nothing. Its contract: how many turns a commit may have taken, as it goes over one version
/// more, as it takes blocks, and as other clients have their turns; and that this is within the
/// bound of its line.
pub fn turns_are_bounded()
    ensures grow { TurnsGrow }
    ensures more { TurnsOfMore }
    ensures left { TurnsAreLeft }
    ensures walk { WalkIsWithin }
    ensures fit { TurnsFit }
{}

/// Runs nothing. Its contract: bounds are small numbers, as long as few entries were noted.
pub fn bounds_are_small()
    ensures made { FewAreMade }
    ensures small { BoundsAreSmall }
{}
