ghost use Rattle.std.specs.Prelude.{◌≡◌, ◌+◌, ◌<◌, ◌≤◌, ◌↔◌, true, false, length, slice_set, Some};
ghost use Rattle.frame_pool.specs.Leasing.{left, IsOf};
ghost use Rattle.pool_draft.specs.Held.{picked_tree, tree_of};
ghost use Rattle.pool_draft.specs.Roots.{AreDrafts, AreDrafts-prop, IsRootBegun};

use crate::base::Base;
use crate::frame_pages::FramePages;
use crate::row::Row;
use afs_base::{BlockNo, Memory, Path};
use arrayvec::ArrayVec;
use draft_tree::{
    Change, CopiedPage, Draft, MAX_FRESH, PageList, SlotMarks, flags, live_page, need, slots, step,
};
use frame_pool::{Lease, Pool};
use page_codec::{Page, VersionPage};
use ref_flags::Flags;
use tree_model::{Reply, Step};

/// The most roots of a set.
pub const MAX_ROOTS: usize = 17;

/// The number of no root.
const NONE: u8 = 17;

/// Puts the page `/` of a root that has no pages. The root that is picked stays so.
fn begin_root(pages: &mut FramePages, root: u8, page: &Page)
    requires none { length (tree_of pages.old root) ≡ 0 }
    requires room { 0 < left pages.old.run }
    ensures { IsRootBegun pages.old root page.now pages.new }
{
    let picked = pages.picked();
    pages.pick(root);
    let put = pages.put(&Path::root(), CopiedPage::fed(page));
    let Ok(()) = put else { unreachable!() };
    pages.pick(picked);
}

/// Puts a version in the place of another.
fn set_base(bases: &mut ArrayVec<Base, MAX_ROOTS>, k: usize, base: Base)
    requires { k < length bases.old.items }
    ensures { bases.new.items ≡ slice_set bases.old.items k base }
{
    bases.as_mut_slice()[k] = base;
}

/// The drafts of up to seventeen versions in frames of one lease. As a draft it is that of the root that is picked; steps and pages that
/// were fed count over all roots. No call takes memory, and no call is refused.
#[derive(Drop)]
pub struct PoolSet {
    bases: ArrayVec<Base, MAX_ROOTS>,
    count: u32,
    // How many pages were fed since the set began or since its last step.
    fed: u32,
    pages: FramePages,
    ghost most: { count ≤ 128 },
    ghost few: { fed ≤ 7 },
    ghost drafts: { AreDrafts pages (length bases.items) count fed } by { AreDrafts-prop _ _ _ _ },
}

impl PoolSet {
    ghost use Rattle.pool_draft.specs.Sets.{AreSameDrafts, IsAdded, IsBegun};
    ghost use Rattle.pool_draft.specs.Sets.{base_at, frames_in, picked_of, roots_of};
    ghost use Rattle.pool_draft.specs.Roots.{root_in, object_in, serial_in};

    /// A set without roots in the frames of a lease of the pool, which can give at least 921.
    pub fn over(pool: Pool, lease: Lease<Row>) -> PoolSet
        requires of { IsOf lease.run (length pool) }
        requires left { 921 ≤ left lease.run }
        ensures roots { roots_of result ≡ 0 }
        ensures counts { (⟦<PoolSet as Draft>⟧.count_of result ≡ 0)
            × (⟦<PoolSet as Draft>⟧.fed_of result ≡ 0) }
        ensures frames { frames_in result ≡ left lease.run }
    {
        PoolSet {
            bases: ArrayVec::new(),
            count: 0,
            fed: 0,
            pages: FramePages::over(pool, lease, NONE),
        }
    }

    /// Adds the version whose version page is given and lies in block `at`, which is not 0, as a root. Which root is picked stays. False
    /// exactly where there are seventeen roots, and then nothing changes.
    pub fn add(&mut self, at: BlockNo, version: &VersionPage) -> bool
        requires { 0 < at }
        ensures full { (result ≡ false) ↔ (roots_of self.old ≡ 17) }
        ensures none { result ≡ false → self.new ≡ self.old }
        ensures added { result ≡ true → IsAdded self.old self.new at version.now }
    {
        let number = self.bases.len();
        if number == MAX_ROOTS {
            return false;
        }
        begin_root(&mut self.pages, number as u8, &version.page);
        self.bases.push(Base {
            root: at,
            object: version.object,
            serial: version.serial,
        });
        true
    }

    /// How many roots there are, at most seventeen.
    pub fn roots(&self) -> usize
        ensures value { result ≡ roots_of self.now }
        ensures most { result ≤ 17 }
    {
        self.bases.len()
    }

    /// The number of the root that is picked.
    pub fn picked(&self) -> u8
        ensures { result ≡ picked_of self.now }
    {
        self.pages.picked()
    }

    /// Picks the root of a number, from 0 in the order in which they were added.
    pub fn pick(&mut self, k: u8)
        requires { k < roots_of self.old }
        ensures picked { picked_of self.new ≡ k }
        ensures same { AreSameDrafts self.old self.new }
    {
        self.pages.pick(k);
    }

    /// Lets go of all roots and of the steps that were done, so that all frames are back. Which number is picked stays.
    pub fn clear(&mut self)
        ensures roots { roots_of self.new ≡ 0 }
        ensures counts { (⟦<PoolSet as Draft>⟧.count_of self.new ≡ 0)
            × (⟦<PoolSet as Draft>⟧.fed_of self.new ≡ 0) }
        ensures frames { frames_in self.new ≡ frames_in self.old }
        ensures back { left self.new.pages.run ≡ frames_in self.old }
        ensures picked { picked_of self.new ≡ picked_of self.old }
    {
        self.pages.clear();
        self.bases.clear();
        self.count = 0;
        self.fed = 0;
    }

    /// Lets go of what the set had, and begins the draft of the version whose version page is given and lies in block `at`, which is not 0, as
    /// its one root, which is picked.
    pub fn begin(&mut self, at: BlockNo, version: &VersionPage)
        requires { 0 < at }
        ensures begun { IsBegun self.new at version.now }
        ensures frames { frames_in self.new ≡ frames_in self.old }
    {
        self.clear();
        let _added = self.add(at, version);
        self.pick(0);
    }

    /// How many pages were fed since the set began or since its last step, at most seven.
    pub fn fed(&self) -> u32
        ensures value { result ≡ self.now.fed }
        ensures most { result ≤ 7 }
    {
        self.fed
    }

    /// How many frames the lease can still give. It is never spent: at most seven for each of 128 steps are out, one for each root and seven.
    pub fn left(&self) -> u32
        ensures value { result ≡ left self.now.pages.run }
        ensures spare { frames_in self.now ≤ result + (roots_of self.now + 903) }
        ensures some { 0 < result }
    {
        self.pages.left()
    }

    /// The block of the version page that the draft of a number is based on.
    pub fn root_at(&self, k: u8) -> BlockNo
        requires { k < roots_of self.now }
        ensures value { result ≡ root_in (base_at self.now k) }
        ensures named { 0 < result }
    {
        self.bases.as_slice()[k as usize].root
    }

    /// The file of the draft of a number.
    pub fn object_at(&self, k: u8) -> u32
        requires { k < roots_of self.now }
        ensures value { result ≡ object_in (base_at self.now k) }
        ensures some { 0 < result }
    {
        self.bases.as_slice()[k as usize].object
    }

    /// The serial of the version that the draft of a number is based on.
    pub fn serial_at(&self, k: u8) -> u64
        requires { k < roots_of self.now }
        ensures { result ≡ serial_in (base_at self.now k) }
    {
        self.bases.as_slice()[k as usize].serial
    }

    /// Gives all frames back.
    pub fn end(self) -> (Pool, Lease<Row>)
        ensures frames { left result.1.run ≡ frames_in self }
        ensures of { IsOf result.1.run (length result.0) }
    {
        let PoolSet {
            bases: _,
            count: _,
            fed: _,
            pages,
        } = self;
        pages.end()
    }

    /// The version of the picked root.
    fn base(&self) -> &Base
        requires { picked_of self.now < roots_of self.now }
        ensures { base_at self.now (picked_of self.now) ≡ Some result.now }
    {
        &self.bases.as_slice()[self.pages.picked() as usize]
    }
}

impl Draft for PoolSet {
    ghost use Rattle.draft_model.specs.Entries.{shown, fresh_paths};
    ghost use Rattle.pool_draft.specs.Roots.{OtherDrafts, fresh_ready, few_ready};
    ghost use Rattle.pool_draft.specs.Roots.{root_in, object_in, serial_in};
    ghost use Rattle.pool_draft.specs.Sets.{base_at, others_of, picked_of, roots_of, view_at};

    ghost view = { λ s. view_at s (picked_of s) };

    ghost root_of = { λ s. root_in (base_at s (picked_of s)) };

    ghost object_of = { λ s. object_in (base_at s (picked_of s)) };

    ghost serial_of = { λ s. serial_in (base_at s (picked_of s)) };

    ghost count_of = { λ s. s.count };

    ghost fed_of = { λ s. s.fed };

    ghost fresh_of = { λ s. fresh_paths (picked_tree s.pages) };

    ghost is_ready = { λ s. picked_of s < roots_of s };

    ghost Rest = { OtherDrafts };

    ghost rest_of = { others_of };

    ghost never_refuses = { Unit {0} };

    fn root(&self) -> BlockNo {
        self.base().root
    }

    fn object(&self) -> u32 {
        self.base().object
    }

    fn serial(&self) -> u64 {
        self.base().serial
    }

    fn count(&self) -> u32 {
        self.count
    }

    fn has_writes(&self) -> bool {
        self.pages.has_writes()
    }

    fn fresh_count(&self) -> u32 {
        self.pages.fresh_count()
    }

    fn fresh(&self, k: u32) -> Path {
        match self.pages.fresh(k) {
            Some(path) => path,
            None => unreachable!(),
        }
    }

    fn list_fresh(&self, into: &mut ArrayVec<Path, MAX_FRESH>) {
        self.pages.list_fresh(into);
    }

    fn flags(&self, at: &Path) -> Flags {
        flags(&self.pages, at)
    }

    fn slots(&self, at: &Path) -> SlotMarks {
        slots(&self.pages, at)
    }

    fn page(&self, at: &Path, into: &mut Page) -> bool {
        match live_page(&self.pages, at) {
            Some(page) => {
                *into = page;
                true
            }
            None => false,
        }
    }

    fn need(&self, step: &Step) -> Option<(Path, BlockNo)> {
        need(&self.pages, &step.end())
    }

    fn feed(&mut self, at: &Path, page: &Page) -> Result<(), Memory> {
        let put = self.pages.put(at, CopiedPage::fed(page));
        let Ok(()) = put else { unreachable!() };
        self.fed += 1;
        Ok(())
    }

    fn step(&mut self, done: &Step) -> Result<Reply, Memory> {
        self.count += 1;
        self.fed = 0;
        step(&mut self.pages, done)
    }

    fn take_merged(&mut self, at: &Path, merged: &Page) {
        self.pages.change(at, &Change::Merge(*merged));
    }

    fn rebase(&mut self, root: BlockNo, serial: u64) {
        let object = self.object();
        let number = self.pages.picked() as usize;
        self.pages.keep_accessed();
        set_base(
            &mut self.bases,
            number,
            Base {
                root,
                object,
                serial,
            },
        );
    }

    ghost top = { λ s ready. s.drafts.top s.pages.root ready };

    ghost levels = { λ s ready. s.drafts.levels s.pages.root ready };

    ghost most = { λ s _. s.most };

    ghost are_fresh = { λ s ready.
        fresh_ready s.pages (length s.bases.items) s.count s.fed s.drafts ready };

    ghost few = { λ s ready.
        few_ready s.pages (length s.bases.items) s.count s.fed s.most s.few s.drafts ready };
}
