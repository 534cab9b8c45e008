ghost use Rattle.std.specs.Prelude.{◌≡◌};
ghost use Rattle.prune_sweep.specs.Marks.{is_unseen, is_open, is_found, as_shared};

/// What a sweep knows of a block.
#[derive(Clone, Copy, Debug)]
pub enum Mark {
    /// No page that was read names it.
    Unseen,
    /// The page of the next version, which is to be read when this version was read whole.
    Next,
    /// A page of this level, 1 to 8, which is to be read. No page that was read before has named it.
    Wanted(u8),
    /// A page of this level of the version that stays, which is to be read. An earlier version has it too.
    Shared(u8),
    /// A page that was read. So far only versions that go have it.
    Found,
    /// A page of the version that stays, which was read.
    Kept,
}

/// Whether no page names the block.
pub fn is_unseen(mark: Mark) -> bool
    ensures { result ≡ is_unseen mark }
{
    match mark {
        Mark::Unseen => true,
        Mark::Next | Mark::Wanted(_) | Mark::Shared(_) | Mark::Found | Mark::Kept => false,
    }
}

/// Whether the page is to be read before this version was read whole.
pub fn is_open(mark: Mark) -> bool
    ensures { result ≡ is_open mark }
{
    match mark {
        Mark::Wanted(_) | Mark::Shared(_) => true,
        Mark::Unseen | Mark::Next | Mark::Found | Mark::Kept => false,
    }
}

/// Whether only versions that go have the block.
pub fn is_found(mark: Mark) -> bool
    ensures { result ≡ is_found mark }
{
    match mark {
        Mark::Found => true,
        Mark::Unseen | Mark::Next | Mark::Wanted(_) | Mark::Shared(_) | Mark::Kept => false,
    }
}

/// The mark of a block when the version that stays names it as a page of this level that an earlier version has too.
pub fn as_shared(level: u8, mark: Mark) -> Mark
    ensures { result ≡ as_shared level mark }
{
    match mark {
        Mark::Unseen | Mark::Found => Mark::Shared(level),
        Mark::Next | Mark::Wanted(_) | Mark::Shared(_) | Mark::Kept => mark,
    }
}
