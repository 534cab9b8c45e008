// How many blocks are places of a store.
ghost use Rattle.store_check.specs.Counts.{PlacesAreCounted};

/// Runs nothing. Its contract is the law of places: of each store that is found there are as many as its table has parts and its
/// versions have pages of their own, none is there twice, and each is a block of the store, but not block 0.
pub fn places_are_counted()
    ensures { PlacesAreCounted }
{}
