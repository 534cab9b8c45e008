//! What a store is after a write that changes what is found: a file more, a file less, fewer
//! versions of a file, a table of the other format. Laws alone, beside those of `store_model`; what
//! writes a table cites them.
#![tactic(auto)]

ghost use Rattle.store_changes.specs.Creating.{FreeBlocksAreFree, CreatingAdds, CreatingAddsPart};
ghost use Rattle.store_changes.specs.Destroying.{DestroyingRemoves};
ghost use Rattle.store_changes.specs.Pruning.{PruningKeeps, KeptAreKept, ChainOfPlaces};
ghost use Rattle.store_changes.specs.Upgrading.{UpgradingWidens, UpgradingWidensPart};
ghost use Rattle.store_changes.specs.PlacePages.{PagesArePlaces, TablesShowNoPage, PartsShowNoPage, CommitsKeepVersions, LinksShowTheSame, EntriesShowTheSame};
ghost use Rattle.store_changes.specs.TableEntries.{TablesHoldEntries};

/// Runs nothing. Its contract says that a block that is no place may be written with anything: the
/// same store is found.
pub fn free_blocks_are_free()
    ensures { FreeBlocksAreFree }
{}

/// Runs nothing. Its contract is the law of creations: writing the entry of a new file adds it, and
/// nothing else changes. `part` says so where the entry is the first one of a part that was not
/// there.
pub fn creating_adds()
    ensures here { CreatingAdds }
    ensures part { CreatingAddsPart }
{}

/// Runs nothing. Its contract is the law of destructions: emptying the entry of a file removes it,
/// and nothing else changes.
pub fn destroying_removes()
    ensures { DestroyingRemoves }
{}

/// Runs nothing. Its contract is the law of prunings: naming a later version as the first one keeps
/// the versions from there on, and nothing else changes. `kept` says that no block of a kept
/// version becomes free.
pub fn pruning_keeps()
    ensures keeps { PruningKeeps }
    ensures kept { KeptAreKept }
{}

/// Runs nothing. Its contract says which blocks become free where a store has fewer places than it
/// had, and how many.
pub fn chain_of_places()
    ensures { ChainOfPlaces }
{}

/// Runs nothing. Its contract is the law of upgrades: the table of a store in the other format has
/// as many entries more, and nothing else changes; by a write of block 0 alone where no file ever
/// was, and else with part 0 in a block that was free.
pub fn upgrading_widens()
    ensures alone { UpgradingWidens }
    ensures part { UpgradingWidensPart }
{}

/// Runs nothing. Its contract says that each block that a version's own block leads to is a place.
pub fn pages_are_places()
    ensures { PagesArePlaces }
{}

/// Runs nothing. Its contract says that a block that holds a table, or a part of one, shows no
/// page.
pub fn tables_show_no_page()
    ensures root { TablesShowNoPage }
    ensures part { PartsShowNoPage }
{}

/// Runs nothing. Its contract says that after a commit each version that was there is there, in its
/// block and with its tree.
pub fn commits_keep_versions()
    ensures { CommitsKeepVersions }
{}

/// Runs nothing. Its contract says where the entries of the files of a store stand: in block 0, or
/// in the parts that it names.
pub fn tables_hold_entries()
    ensures { TablesHoldEntries }
{}

/// Runs nothing. Its contract says that each block shows the page that it showed, where a commit
/// reference was set, where members were cleared, and where an entry of the table was written.
pub fn writes_show_the_same()
    ensures links { LinksShowTheSame }
    ensures entries { EntriesShowTheSame }
{}
