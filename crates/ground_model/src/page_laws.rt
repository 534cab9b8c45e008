ghost use Rattle.ground_model.specs.Shows.{BaseShows, NeededShows, VersionShows, WantedShows};

/// Runs nothing. Its contract: the block of each version, of each page that a draft wants, and of
/// the page that a walk needs next is a place of the store, and whoever decodes what it holds gets
/// its page.
pub fn blocks_show_pages()
    ensures version { VersionShows }
    ensures base { BaseShows }
    ensures wanted { WantedShows }
    ensures needed { NeededShows }
{}
