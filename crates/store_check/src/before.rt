// What the version before has at a path.
ghost use Rattle.std.specs.Prelude.{◌≡◌, ◌==◌, ◌<◌, ℕ, length, Some, slice_get};
ghost use Rattle.std.specs.Option.{option_and_then};
ghost use Rattle.store_check.specs.Before.{befores_of, is_first, is_page, own_block, page_before};

use crate::refused::WalkRefused;
use afs_base::BlockNo;
use page_codec::{Reference, SLOTS, Why};

/// What the version before has at a path.
#[derive(Clone, Copy, Debug)]
pub enum Before {
    /// There is no version before.
    NoVersion,
    /// It has no page there.
    NoPage,
    /// Its page there is in this block.
    Page(BlockNo),
}

impl Before {
    /// A page in this block, or none.
    pub fn of(block: Option<BlockNo>) -> Before
        ensures { result ≡ page_before block }
    {
        match block {
            Some(block) => Before::Page(block),
            None => Before::NoPage,
        }
    }

    /// Whether there is no version before.
    fn is_first(&self) -> bool
        ensures { result ≡ is_first self.now }
    {
        match self {
            Before::NoVersion => true,
            Before::NoPage | Before::Page(_) => false,
        }
    }

    /// Whether it is the page in this block.
    fn is_page(&self, block: BlockNo) -> bool
        ensures { result ≡ is_page block self.now }
    {
        match self {
            Before::Page(other) => block.get() == other.get(),
            Before::NoVersion | Before::NoPage => false,
        }
    }
}

/// The same at each slot of a page.
pub fn all_before(before: Before) -> [Before; SLOTS]
    ensures { (k : ℕ) → k < 16 → slice_get result k ≡ Some before }
{
    [before; SLOTS]
}

/// Writes what the version before has at the slots of its page.
fn fill_befores(refs: &[Reference], befores: &mut [Before])
    requires { length refs.now ≡ length befores.old }
    ensures { befores.new ≡ befores_of refs.now }
{
    'slots: for k in 0..befores.len() {
        let reference = &refs[k];
        befores[k] = Before::of(reference.block);
    }
}

/// What the version before has at the slots of its page.
pub fn befores_of(refs: &[Reference; SLOTS]) -> [Before; SLOTS]
    ensures { (k : ℕ) → k < 16 → slice_get result k ≡ Some
        (page_before (option_and_then (λ r. r.block) (slice_get refs.now k))) }
{
    let mut befores = all_before(Before::NoPage);
    fill_befores(refs, &mut befores);
    befores
}

/// The block of a page of the version's own that a slot of the page in `namer` names, if it names one.
pub fn own_block(
    namer: BlockNo,
    reference: &Reference,
    before: &Before,
) -> Result<Option<BlockNo>, WalkRefused>
    ensures { result ≡ own_block namer reference.now before.now reference.now.block }
{
    match reference.block {
        None => Ok(None),
        Some(block) => {
            if before.is_first() || reference.flags.copied() {
                Ok(Some(block))
            } else if before.is_page(block) {
                Ok(None)
            } else {
                Err(WalkRefused::BadStore {
                    block: namer,
                    why: Why::Reference,
                })
            }
        }
    }
}
