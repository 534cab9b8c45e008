ghost use Rattle.std.specs.Prelude.{◌≡◌, ℕ, ◌+◌, ◌<◌, ◌≤◌, ◌↔◌, List, [], ◌∷◌, length, map, filter, option_map, slice_get, nat_eq, ◌&&◌, Some, IfErr, IfOk, IfSome, IsTrue};
ghost use Rattle.std.specs.List.{remove};
ghost use Rattle.std.specs.List.Sorted.{IsStrictlySortedBy};
ghost use Rattle.std.specs.Map.{keys_of};
ghost use Rattle.afs_base.specs.Path.{is_prefix, path_cmp};
ghost use Rattle.draft_model.specs.Entries.{shown, is_fresh, is_touched, fresh_paths};
ghost use Rattle.draft_model.specs.Told.{Wrote};
ghost use Rattle.draft_tree.specs.Looking.{looked};
ghost use Rattle.draft_tree.specs.declared.draft.TheConstants.{MAX_FRESH};
ghost use Rattle.frame_pool.specs.Leasing.{left, IsOf};
ghost use Rattle.pool_draft.specs.Held.{picked_tree, beside, IsHeld};
ghost use Rattle.pool_draft.specs.Keys.{key_list};
ghost use Rattle.pool_draft.specs.Rows.{key_of, copied_in};
ghost use Rattle.pool_draft.specs.Writes.{row_stays};
ghost use Rattle.draft_tree.specs.Pages.{is_kept};
ghost use Rattle.pool_draft.specs.Seeking.{AreBefore, IsFoundAt, IsFromAt, IsGapAt};

use crate::row::Row;
use crate::row_key::{Branch, RowKey};
use crate::row_writes::{change_row, cut_rows, insert_row, write_row};
use afs_base::{Memory, Path};
use arrayvec::ArrayVec;
use draft_tree::{Change, CopiedPage, Look, MAX_FRESH, PageList};
use frame_pool::{Lease, Pool};
use std::marker::Model;

/// The pages of several roots in frames of a lease, by root and path. Calls speak of the root that is picked.
#[derive(Drop)]
pub struct FramePages {
    pool: Pool,
    lease: Lease<Row>,
    root: u8,
}

impl Model for FramePages {
    ghost use Rattle.pool_draft.specs.Held.{Held, IsHeld};

    ghost Value = { Held };

    ghost view = { λ p. record {
      pages = p.pool;
      rows = p.lease.rows.items;
      run = p.lease.run;
      root = p.root;
    } };

    ghost invariant = { λ p. IsHeld (record {
      pages = p.pool;
      rows = p.lease.rows.items;
      run = p.lease.run;
      root = p.root;
    }) };
}

/// Where the row of a key stands, or else where it belongs.
fn place_in(rows: &[Row], key: &RowKey) -> Result<usize, usize>
    requires { IsStrictlySortedBy path_cmp (map key_of rows.now) }
    ensures found { IfOk result (λ k. (k < length rows.now)
        × IsFoundAt (map key_of rows.now) (key_list key.now) k) }
    ensures gap { IfErr result (λ k. (k ≤ length rows.now)
        × IsGapAt (map key_of rows.now) (key_list key.now) k) }
{
    rows.binary_search_by(|row| row.key.order(key))
}

impl FramePages {
    /// No pages, in the frames of a lease. A root has to be picked before pages are put.
    pub fn over(pool: Pool, lease: Lease<Row>, root: u8) -> FramePages
        requires { IsOf lease.run (length pool) }
        ensures { result
            ≡ record { pages = pool; rows = []; run = lease.run; root = root } }
    {
        let mut lease = lease;
        lease.rows.clear();
        let _left = lease.left();
        FramePages { pool, lease, root }
    }

    /// Picks a root.
    pub fn pick(&mut self, root: u8)
        ensures { self.new ≡ record self.old { root = root } }
    {
        self.root = root;
    }

    /// The root that is picked.
    pub fn picked(&self) -> u8
        ensures { result ≡ self.now.root }
    {
        self.root
    }

    /// How many frames the lease can still give.
    pub fn left(&self) -> u32
        ensures { result ≡ left self.now.run }
    {
        self.lease.left()
    }

    /// Where the row of a path of the picked root stands, or else where it belongs.
    fn find(&self, at: &Path) -> Result<usize, usize>
        ensures found { IfOk result (λ k. (k < length self.now.rows)
            × IsFoundAt (map key_of self.now.rows) (self.now.root ∷ at.now) k) }
        ensures gap { IfErr result (λ k. (k ≤ length self.now.rows)
            × IsGapAt (map key_of self.now.rows) (self.now.root ∷ at.now) k) }
        ensures held { IsHeld self.now }
    {
        place_in(&self.lease.rows, &RowKey::of(self.root, at))
    }

    /// How many rows there are.
    fn row_count(&self) -> usize
        ensures value { result ≡ length self.now.rows }
        ensures held { IsHeld self.now }
    {
        self.lease.rows.len()
    }

    /// A look at the page of a row.
    fn look_at(&self, k: usize) -> Look<'_>
        requires { k < length self.now.rows }
        ensures { option_map (copied_in self.now.pages) (slice_get self.now.rows k)
            ≡ Some (looked result) }
    {
        let row = &self.lease.rows[k];
        Look {
            marks: row.marks,
            page: self.pool.page(&row.frame),
        }
    }

    /// Takes the k-th row away, and gives its frame back.
    fn let_go(&mut self, k: usize)
        requires { k < length self.old.rows }
        ensures rows { self.new.rows ≡ remove self.old.rows k }
        ensures pages { self.new.pages ≡ self.old.pages }
        ensures root { self.new.root ≡ self.old.root }
        ensures left { left self.new.run ≡ left self.old.run + 1 }
    {
        let Row {
            key: _,
            marks: _,
            frame,
        } = self.lease.rows.remove(k);
        self.pool.give(&mut self.lease, frame);
    }

    /// Whether a row stays when the base of the picked root changes: it is of another root, it is `/`, or the update accessed its page.
    fn stays(&self, k: usize) -> bool
        requires { k < length self.now.rows }
        ensures { IfSome (slice_get self.now.rows k)
            (λ r. result ≡ row_stays self.now.root self.now.pages r) }
    {
        let row = &self.lease.rows[k];
        if row.key.root() != self.root || row.key.is_top() {
            return true;
        }
        let look = self.look_at(k);
        look.is_accessed()
    }

    /// Lets go of the pages of the picked root that were copied and never accessed, and gives their frames back. `/` stays.
    pub fn keep_accessed(&mut self)
        ensures tree { picked_tree self.new
            ≡ filter (λ e. is_kept e.0 e.1) (picked_tree self.old) }
        ensures ordered { IsStrictlySortedBy path_cmp (keys_of (picked_tree self.old)) }
        ensures others { beside self.new ≡ beside self.old }
    {
        let mut k = self.row_count();
        while k > 0 {
            k -= 1;
            if !self.stays(k) {
                self.let_go(k);
            }
        }
    }

    /// Lets go of the pages of all roots, and gives their frames back. The root that is picked stays so.
    pub fn clear(&mut self)
        ensures rows { self.new.rows ≡ [] }
        ensures left { left self.new.run ≡ length self.old.rows + left self.old.run }
        ensures pages { self.new.pages ≡ self.old.pages }
        ensures root { self.new.root ≡ self.old.root }
    {
        let count = self.row_count();
        for k in 0..count {
            self.let_go(count - 1 - k);
        }
    }

    /// Gives all frames back.
    pub fn end(self) -> (Pool, Lease<Row>)
        ensures left { left result.1.run ≡ length self.rows + left self.run }
        ensures pool { result.0 ≡ self.pages }
        ensures of { IsOf result.1.run (length result.0) }
    {
        let mut pages = self;
        pages.clear();
        let FramePages {
            pool,
            lease,
            root: _,
        } = pages;
        (pool, lease)
    }

    /// A path of the picked root, with all that is below it.
    fn branch(&self, at: &Path) -> Branch
        ensures { result ≡ record { root = self.now.root; path = at.now } }
    {
        Branch::of(self.root, at)
    }

    /// Whether something was written at or below a path of the picked root, whose place is that of the k-th row or between the row before and it.
    fn touches_from(&self, k: usize, at: &Path) -> bool
        requires within { k ≤ length self.now.rows }
        requires before { AreBefore (self.now.root ∷ at.now) (map key_of self.now.rows) k }
        requires from { IsFromAt (self.now.root ∷ at.now) (map key_of self.now.rows) k }
        ensures { result ≡ is_touched (picked_tree self.now) at.now }
    {
        let branch = self.branch(at);
        for i in k..self.row_count() {
            if !self.is_below(i, &branch) {
                return false;
            }
            let look = self.look_at(i);
            if look.is_written() {
                return true;
            }
        }
        false
    }

    /// The path of a row.
    fn path_at(&self, k: usize) -> Path
        requires { k < length self.now.rows }
        ensures { IfSome (slice_get self.now.rows k) (λ r. result ≡ r.key.path) }
    {
        let row = &self.lease.rows[k];
        row.key.path()
    }

    /// Whether a row is one of a branch.
    fn is_below(&self, k: usize, branch: &Branch) -> bool
        requires { k < length self.now.rows }
        ensures below { IfSome (slice_get self.now.rows k)
            (λ r. result ≡ is_prefix (key_list branch.now) (key_of r)) }
        ensures held { IsHeld self.now }
    {
        let row = &self.lease.rows[k];
        branch.has(&row.key)
    }

    /// Whether a row has a page of the picked root that is live and has something written on or below it.
    fn is_fresh(&self, k: usize) -> bool
        requires { k < length self.now.rows }
        ensures { IfSome (slice_get self.now.rows k) (λ r. result
            ≡ (nat_eq r.key.root self.now.root
            && is_fresh (picked_tree self.now) (r.key.path, copied_in self.now.pages r))) }
    {
        let row = &self.lease.rows[k];
        if row.key.root() != self.root || !row.marks.live {
            return false;
        }
        self.touches_from(k, &row.key.path())
    }

    /// Whether something was written anywhere in the picked root.
    pub fn has_writes(&self) -> bool
        ensures { IsTrue result ↔ Wrote (shown (picked_tree self.now)) }
    {
        let root = Path::root();
        match self.find(&root) {
            Ok(k) => self.touches_from(k, &root),
            Err(k) => self.touches_from(k, &root),
        }
    }

    /// Lists the paths of the pages of the picked root that are live and have something written on or below them, in order.
    pub fn list_fresh(&self, into: &mut ArrayVec<Path, MAX_FRESH>)
        requires empty { into.old.items ≡ [] }
        requires room { length (picked_tree self.now) ≤ MAX_FRESH }
        ensures { into.new.items ≡ fresh_paths (picked_tree self.now) }
    {
        for k in 0..self.row_count() {
            if self.is_fresh(k) {
                into.push(self.path_at(k));
            }
        }
    }

    /// How many they are.
    pub fn fresh_count(&self) -> u32
        requires { length (picked_tree self.now) ≤ MAX_FRESH }
        ensures { result ≡ length (fresh_paths (picked_tree self.now)) }
    {
        let mut count = 0;
        for k in 0..self.row_count() {
            if self.is_fresh(k) {
                count += 1;
            }
        }
        count
    }

    /// The k-th of them, from 0.
    pub fn fresh(&self, k: u32) -> Option<Path>
        requires { length (picked_tree self.now) ≤ MAX_FRESH }
        ensures { result ≡ slice_get (fresh_paths (picked_tree self.now)) k }
    {
        let mut before = 0;
        for i in 0..self.row_count() {
            if self.is_fresh(i) {
                if before == k {
                    return Some(self.path_at(i));
                }
                before += 1;
            }
        }
        None
    }
}

impl PageList for FramePages {
    ghost use Rattle.pool_draft.specs.Held.{Beside, space_of};

    ghost entries = { picked_tree };

    ghost Others = { Beside };

    ghost others = { beside };

    ghost space = { space_of };

    ghost never_refuses = { Unit {0} };

    fn look(&self, at: &Path) -> Option<Look<'_>> {
        match self.find(at) {
            Ok(k) => Some(self.look_at(k)),
            Err(_) => None,
        }
    }

    fn put(&mut self, at: &Path, copied: CopiedPage) -> Result<(), Memory> {
        // A path that is looked at is known to have at most seven slots.
        let _depth = at.len();
        match self.find(at) {
            Ok(k) => {
                write_row(&mut self.pool, &mut self.lease.rows, k, &copied);
                Ok(())
            }
            Err(k) => {
                match insert_row(&mut self.pool, &mut self.lease, k, self.root, at, &copied) {
                    Ok(()) => Ok(()),
                    Err(memory) => Err(memory),
                }
            }
        }
    }

    fn change(&mut self, at: &Path, change: &Change) {
        if let Ok(k) = self.find(at) {
            change_row(&mut self.pool, &mut self.lease.rows, k, change);
        }
    }

    fn cut_below(&mut self, at: &Path) {
        cut_rows(&mut self.lease.rows, self.root, at);
    }
}
