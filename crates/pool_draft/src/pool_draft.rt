ghost use Rattle.std.specs.Prelude.{◌≡◌, ◌+◌, ◌<◌, ◌≤◌, length};
ghost use Rattle.frame_pool.specs.Leasing.{left, IsOf};

use crate::pool_set::PoolSet;
use crate::row::Row;
use afs_base::{BlockNo, Memory, Path};
use arrayvec::ArrayVec;
use draft_tree::{Draft, MAX_FRESH, SlotMarks};
use frame_pool::{Lease, Pool};
use page_codec::{Page, VersionPage};
use ref_flags::Flags;
use tree_model::{Reply, Step};

/// The draft of one version in frames of a lease: a set of one root, which is picked. No call takes memory, and no call is refused.
#[derive(Drop)]
pub struct PoolDraft {
    set: PoolSet,
    ghost one: { length set.bases.items ≡ 1 },
    ghost ready: { set.pages.root < length set.bases.items },
}

impl PoolDraft {
    ghost use Rattle.draft_model.specs.Steps.{begun};
    ghost use Rattle.draft_model.specs.Stands.{Begins};
    ghost use Rattle.pool_draft.specs.Roots.{frames_beside};

    /// A draft on the version whose version page is given and lies in block `at`, which is not 0, in the frames of a lease of the pool, which
    /// can give at least 921. No step is done yet.
    pub fn begin(pool: Pool, lease: Lease<Row>, at: BlockNo, version: &VersionPage) -> PoolDraft
        requires named { 0 < at }
        requires of { IsOf lease.run (length pool) }
        requires left { 921 ≤ left lease.run }
        ensures view { ⟦<PoolDraft as Draft>⟧.view result ≡ begun version.now.page }
        ensures begins { Begins (⟦<PoolDraft as Draft>⟧.view result) at version.now.page }
        ensures root { ⟦<PoolDraft as Draft>⟧.root_of result ≡ at }
        ensures object { ⟦<PoolDraft as Draft>⟧.object_of result ≡ version.now.object }
        ensures serial { ⟦<PoolDraft as Draft>⟧.serial_of result ≡ version.now.serial }
        ensures count { (⟦<PoolDraft as Draft>⟧.count_of result ≡ 0)
            × (⟦<PoolDraft as Draft>⟧.fed_of result ≡ 0) }
        ensures frames { frames_beside (⟦<PoolDraft as Draft>⟧.rest_of result)
            ≡ left lease.run }
    {
        let mut set = PoolSet::over(pool, lease);
        set.begin(at, version);
        PoolDraft { set }
    }

    /// How many frames the lease can still give. It is never spent: at most 904 are out, `/`, seven for each of 128 steps, and seven.
    pub fn left(&self) -> u32
        ensures spare { frames_beside (⟦<PoolDraft as Draft>⟧.rest_of self.now) ≤ result + 904 }
        ensures some { 17 ≤ result }
    {
        self.set.left()
    }

    /// Gives all frames back.
    pub fn end(self) -> (Pool, Lease<Row>)
        ensures frames { left result.1.run
            ≡ frames_beside (⟦<PoolDraft as Draft>⟧.rest_of self) }
        ensures of { IsOf result.1.run (length result.0) }
    {
        let PoolDraft { set } = self;
        set.end()
    }
}

impl Draft for PoolDraft {
    ghost use Rattle.pool_draft.specs.Roots.{OtherDrafts, fresh_ready, few_ready};
    ghost use Rattle.pool_draft.specs.Sets.{others_of};

    ghost view = { λ d. ⟦<PoolSet as Draft>⟧.view d.set };

    ghost root_of = { λ d. ⟦<PoolSet as Draft>⟧.root_of d.set };

    ghost object_of = { λ d. ⟦<PoolSet as Draft>⟧.object_of d.set };

    ghost serial_of = { λ d. ⟦<PoolSet as Draft>⟧.serial_of d.set };

    ghost count_of = { λ d. ⟦<PoolSet as Draft>⟧.count_of d.set };

    ghost fed_of = { λ d. ⟦<PoolSet as Draft>⟧.fed_of d.set };

    ghost fresh_of = { λ d. ⟦<PoolSet as Draft>⟧.fresh_of d.set };

    ghost Rest = { OtherDrafts };

    ghost rest_of = { λ d. others_of d.set };

    ghost never_refuses = { Unit {0} };

    fn root(&self) -> BlockNo {
        self.set.root()
    }

    fn object(&self) -> u32 {
        self.set.object()
    }

    fn serial(&self) -> u64 {
        self.set.serial()
    }

    fn count(&self) -> u32 {
        self.set.count()
    }

    fn has_writes(&self) -> bool {
        self.set.has_writes()
    }

    fn fresh_count(&self) -> u32 {
        self.set.fresh_count()
    }

    fn fresh(&self, k: u32) -> Path {
        self.set.fresh(k)
    }

    fn list_fresh(&self, into: &mut ArrayVec<Path, MAX_FRESH>) {
        self.set.list_fresh(into);
    }

    fn flags(&self, at: &Path) -> Flags {
        self.set.flags(at)
    }

    fn slots(&self, at: &Path) -> SlotMarks {
        self.set.slots(at)
    }

    fn page(&self, at: &Path, into: &mut Page) -> bool {
        self.set.page(at, into)
    }

    fn need(&self, step: &Step) -> Option<(Path, BlockNo)> {
        self.set.need(step)
    }

    fn feed(&mut self, at: &Path, page: &Page) -> Result<(), Memory> {
        self.set.feed(at, page)
    }

    fn step(&mut self, done: &Step) -> Result<Reply, Memory> {
        self.set.step(done)
    }

    fn take_merged(&mut self, at: &Path, merged: &Page) {
        self.set.take_merged(at, merged);
    }

    fn rebase(&mut self, root: BlockNo, serial: u64) {
        self.set.rebase(root, serial);
    }

    ghost top = { λ d _. d.set.drafts.top d.set.pages.root d.ready };

    ghost levels = { λ d _. d.set.drafts.levels d.set.pages.root d.ready };

    ghost most = { λ d _. d.set.most };

    ghost are_fresh = { λ d _. fresh_ready d.set.pages (length d.set.bases.items) d.set.count
        d.set.fed d.set.drafts d.ready };

    ghost few = { λ d _. few_ready d.set.pages (length d.set.bases.items) d.set.count d.set.fed
        d.set.most d.set.few d.set.drafts d.ready };
}
