// Reading the pages of a version, of which nothing is written.
ghost use Rattle.std.specs.Prelude.{◌≡◌, ℕ, IsErrOf};
ghost use Rattle.drives.specs.declared.device.Half.{Half};
ghost use Rattle.pair_store.specs.declared.fault.PairFault.{PairFault};
ghost use Rattle.pair_store.specs.Answers.{IsReadFault};
ghost use Rattle.pair_store.specs.Faults.{IsStopped};
ghost use Rattle.store_check.specs.Since.{IsUnreadSince, OnlyRead};
ghost use Rattle.store_check.specs.declared.refused.WalkRefused.{WalkRefused};
ghost use Rattle.tree_listing.specs.Listing.{IsOpen, blocks_of};
ghost use Rattle.tree_listing.specs.FirstFault.{block_named, page_named, root_in};
ghost use Rattle.tree_listing.specs.Results.{Finds};

use afs_base::BlockNo;
use page_codec::{Page, Why, decode_page, decode_version};
use pair_store::{Block, Blocks, PairFault};
use store_check::{WalkRefused, refused_read};

/// The content of block `n`, which the page in `namer` names.
#[tactic(auto, unfolding(crate::specs::FirstFault::block_named))]
fn block_named<B: Blocks>(store: &mut B, namer: BlockNo, n: BlockNo) -> Result<Block, WalkRefused>
    ensures only { OnlyRead B.Blocks store.old store.new }
    ensures found { B.tells → B.settled store.old n
        → Finds result (block_named (blocks_of B.content B.size store.old) namer n) }
    ensures stopped { B.tells → IsOpen (B.settled store.old) (B.content store.old) n
        → (h : Half) → IsErrOf result (WalkRefused.ReadFault h)
        → IsStopped (B.faults store.old) (B.faults store.new) (B.last_fault store.new)
        (B.moment store.new) h }
    ensures unread { (h : Half) → IsErrOf result (WalkRefused.ReadFault h)
        → IsUnreadSince B.Blocks store.old store.new h }
{
    if n.get() >= store.blocks() {
        return Err(WalkRefused::BadStore {
            block: namer,
            why: Why::Reference,
        });
    }
    let mut block = [0; 1024];
    match store.read(n, &mut block) {
        Ok(()) => Ok(block),
        Err(fault) => Err(refused_read(n, fault)),
    }
}

/// The page of this level, 1 to 7, in block `n`, which the page in `namer` names.
#[tactic(auto, unfolding(crate::specs::FirstFault::page_named))]
pub fn page_named<B: Blocks>(
    store: &mut B,
    namer: BlockNo,
    n: BlockNo,
    level: u8,
) -> Result<Page, WalkRefused>
    ensures only { OnlyRead B.Blocks store.old store.new }
    ensures found { B.tells → B.settled store.old n
        → Finds result (page_named (blocks_of B.content B.size store.old) namer n level) }
    ensures stopped { B.tells → IsOpen (B.settled store.old) (B.content store.old) n
        → (h : Half) → IsErrOf result (WalkRefused.ReadFault h)
        → IsStopped (B.faults store.old) (B.faults store.new) (B.last_fault store.new)
        (B.moment store.new) h }
    ensures unread { (h : Half) → IsErrOf result (WalkRefused.ReadFault h)
        → IsUnreadSince B.Blocks store.old store.new h }
{
    let block = block_named(store, namer, n)?;
    match decode_page(&block) {
        Ok(page) => {
            if page.level == level {
                Ok(page)
            } else {
                Err(WalkRefused::BadStore {
                    block: n,
                    why: Why::Level,
                })
            }
        }
        Err(bad) => Err(WalkRefused::BadStore {
            block: n,
            why: bad.why,
        }),
    }
}

/// The page `/` of the version in block `n`.
#[tactic(auto, unfolding(crate::specs::FirstFault::root_in))]
pub fn root_in<B: Blocks>(store: &mut B, n: BlockNo) -> Result<Page, WalkRefused>
    ensures only { OnlyRead B.Blocks store.old store.new }
    ensures found { B.tells → B.settled store.old n
        → Finds result (root_in (blocks_of B.content B.size store.old) n) }
    ensures stopped { B.tells → IsOpen (B.settled store.old) (B.content store.old) n
        → (h : Half) → IsErrOf result (WalkRefused.ReadFault h)
        → IsStopped (B.faults store.old) (B.faults store.new) (B.last_fault store.new)
        (B.moment store.new) h }
    ensures unread { (h : Half) → IsErrOf result (WalkRefused.ReadFault h)
        → IsUnreadSince B.Blocks store.old store.new h }
{
    let block = block_named(store, n, n)?;
    match decode_version(&block) {
        Ok(version) => Ok(version.page),
        Err(bad) => Err(WalkRefused::BadStore {
            block: n,
            why: bad.why,
        }),
    }
}
