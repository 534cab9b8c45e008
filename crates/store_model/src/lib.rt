//! Which files the blocks of a store stand for, and in which block each page lies: definitions and their laws, over
//! what each block holds. There is little code here; what opens a store and what writes one both cite these definitions.
#![tactic(auto)]

ghost use Rattle.store_model.specs.Laws.{PlacesDecide, VersionsAreHeld, FoundIsState};
ghost use Rattle.store_model.specs.VersionPages.{VersionsHavePages, LastsNameNone, VersionsSharePages};
ghost use Rattle.store_model.specs.Together.{CommittingAll};
ghost use Rattle.store_model.specs.Links.{MembersAreLast, LinksAreSet};
ghost use Rattle.store_model.specs.NewStores.{NewStoreIsFound, ClosedIsRefused};
ghost use Rattle.store_model.specs.Changes.{LinkingKeeps, ClearingKeeps, CommittingTogether, CommittingAppends};

/// Runs nothing. Its contract is the law of free blocks: block 0 and the places that were found decide which files a store
/// holds, whatever the other blocks hold.
pub fn places_decide()
    ensures { PlacesDecide }
{}

/// Runs nothing. Its contract says that each version that is found is a tree of pages in blocks: from its own block down, the
/// blocks hold its tree, and no other page.
pub fn versions_are_held()
    ensures { VersionsAreHeld }
{}

/// Runs nothing. Its contract says that what is found is a state: a table of one of the two formats, with as many entries as it
/// has, each of which is a file.
pub fn found_is_a_state()
    ensures { FoundIsState }
{}

/// Runs nothing. Its contract says that the block of each version that is found holds its version page: that of its file, with
/// its serial, its members and its commit reference, which is none at the last version of a file.
pub fn versions_have_pages()
    ensures pages { VersionsHavePages }
    ensures last { LastsNameNone }
{}

/// Runs nothing. Its contract says that each page that a version shares lies in the block that the version before has at its
/// path.
pub fn versions_share_pages()
    ensures { VersionsSharePages }
{}

/// Runs nothing. Its contract is the law of links: where a version without a commit reference is followed by another one all
/// the same, writing that reference into its block changes nothing else that is found.
pub fn linking_keeps()
    ensures { LinkingKeeps }
{}

/// Runs nothing. Its contract is the law of member lists: once no link is outstanding in the files of its members, writing a
/// version's block without them changes nothing else that is found.
pub fn clearing_keeps()
    ensures { ClearingKeeps }
{}

/// Runs nothing. Its contract is the law of commits: where the next version of a file lies whole in blocks that are no places,
/// and so do those of its members, writing its block into the commit reference of the last version appends it and them.
pub fn committing_together()
    ensures { CommittingTogether }
{}

/// Runs nothing. Its contract is the law of commits for several files: what is found has one more version of each of them.
pub fn committing_all()
    ensures { CommittingAll }
{}

/// Runs nothing. Its contract is the law of commits for one file: what is found has one more version of it.
pub fn committing_appends()
    ensures { CommittingAppends }
{}

/// Runs nothing. Its contract says which files a new store holds: those of its table, each with one version, a page without
/// data.
pub fn new_store_is_found()
    ensures { NewStoreIsFound }
{}

/// Runs nothing. Its contract says that a store whose block 0 holds nothing is refused for that block.
pub fn closed_is_refused()
    ensures { ClosedIsRefused }
{}

/// Runs nothing. Its contract says that each member that a version names is the last version of its file, linked or not.
pub fn members_are_last()
    ensures { MembersAreLast }
{}

/// Runs nothing. Its contract says that in each file every link is set, or the last one alone is outstanding.
pub fn links_are_set()
    ensures { LinksAreSet }
{}
