//! A store behind a bounded list of blocks that are read without it.
ghost use Rattle.std.specs.Prelude.{◌≡◌, ◌≤◌, [], length, nat_eq, IfOk, IfErr};
ghost use Rattle.std.specs.List.{IsDistinct, IsDistinct-prop};
ghost use Rattle.page_cache.specs.Listing.{listing, is_listed, numbers};
ghost use Rattle.page_cache.specs.Backing.{IsBacked};

use crate::frames::Frames;
use afs_base::{BlockNo, Memory};
use pair_store::Blocks;
use std::alloc::Global;

/// A store of blocks, with a bounded list of blocks in memory, the latest used first. It answers as
/// the store does, but that a read of a listed block always answers Ok, and makes no call of the store.
#[derive(Drop)]
pub struct Cached<B: Blocks> {
    pub(crate) inner: B,
    pub(crate) frames: Frames,
    pub(crate) operations: u64,
    /// The blocks of the list are different, and no more than its pages.
    pub ghost different: { IsDistinct nat_eq (numbers frames) } by { IsDistinct-prop nat_eq (numbers frames) },
    pub ghost bounded: { length frames.entries ≤ frames.pages },
    ghost sized: { frames.blocks ≡ B.size inner },
    ghost backed: { IsBacked B.tells (B.size inner) (B.settled inner) (B.content inner)
        frames.entries },
}

impl<B: Blocks> Cached<B> {
    ghost use Rattle.page_cache.specs.Caches.{inner_of, list_of, operations_of};

    /// The store with an empty list of 1 to 4,096 pages. Only this takes memory; without it the store comes back.
    pub fn over(alloc: Global, inner: B, pages: u32) -> Result<Cached<B>, (B, Memory)>
        requires some { 1 ≤ pages }
        requires most { pages ≤ 4096 }
        ensures made { IfOk result (λ c. (inner_of c ≡ inner) × (operations_of c ≡ B.count inner)
            × (list_of c ≡ listing (B.size inner) pages [])) }
        ensures back { IfErr result (λ e. e.0 ≡ inner) }
    {
        let operations = inner.operations();
        match Frames::make(alloc, inner.blocks(), pages) {
            Ok(frames) => Ok(Cached {
                inner,
                frames,
                operations,
            }),
            Err(memory) => Err((inner, memory)),
        }
    }

    /// Whether a block is listed.
    pub fn holds(&self, n: BlockNo) -> bool
        ensures { result ≡ is_listed n (list_of self.now) }
    {
        self.frames.holds(n)
    }

    /// The store within. Its count of operations lacks the reads that the list answered.
    pub fn into_inner(self) -> B
        ensures { result ≡ inner_of self }
    {
        let Self { inner, .. } = self;
        inner
    }
}
