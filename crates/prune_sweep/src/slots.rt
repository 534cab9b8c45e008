ghost use Rattle.std.specs.Prelude.{◌≡◌, ◌<◌, ℕ};
ghost use Rattle.std.specs.List.{list_all};
ghost use Rattle.prune_sweep.specs.Slots.{new_block, shared_block, is_within, are_within};

use afs_base::BlockNo;
use page_codec::Reference;

/// Which slots of a page are followed.
#[derive(Clone, Copy, Debug)]
pub enum Following {
    /// Each, as a new place: of a version that is the first.
    AllNew,
    /// Those of copies, as new places: of a later version that goes.
    Copies,
    /// Those of copies, as new places, and all others, which name pages of the version before: of the version that stays.
    CopiesAndShared,
    /// Each, all of which name pages of the version before: of a page that the version before has too.
    AllShared,
}

/// The block that a slot names as a new place.
pub fn new_block(reference: &Reference, following: Following) -> Option<BlockNo>
    ensures { result ≡ new_block following reference.now }
{
    match following {
        Following::AllNew => reference.block,
        Following::Copies | Following::CopiesAndShared => {
            if reference.flags.copied() {
                reference.block
            } else {
                None
            }
        }
        Following::AllShared => None,
    }
}

/// The block that a slot names as a page of the version before.
pub fn shared_block(reference: &Reference, following: Following) -> Option<BlockNo>
    ensures { result ≡ shared_block following reference.now }
{
    match following {
        Following::AllNew | Following::Copies => None,
        Following::CopiesAndShared => {
            if reference.flags.copied() {
                None
            } else {
                reference.block
            }
        }
        Following::AllShared => reference.block,
    }
}

/// Whether the block, where there is one, is below so many.
pub fn is_below(block: Option<BlockNo>, blocks: u32) -> bool
    ensures { result ≡ is_within blocks block }
{
    match block {
        Some(block) => block.get() < blocks,
        None => true,
    }
}

/// Whether each slot that is followed names a block below so many.
pub fn are_within(refs: &[Reference], following: Following, blocks: u32) -> bool
    ensures { result ≡ are_within following blocks refs.now }
{
    refs.iter().all(|reference| {
        is_below(new_block(reference, following), blocks)
            & is_below(shared_block(reference, following), blocks)
    })
}
