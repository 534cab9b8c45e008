//! Writes into rows and their frames.
ghost use Rattle.std.specs.Prelude.{◌≡◌, ◌+◌, ◌<◌, ◌≤◌, ◌∷◌, Some, length, map, slice_get, vec_capacity, OnErr, OnOk};
ghost use Rattle.std.specs.List.{insert};
ghost use Rattle.frame_pool.specs.Leasing.{left, IsOf};
ghost use Rattle.draft_tree.specs.Marking.{after_change, FitsPage};
ghost use Rattle.pool_draft.specs.declared.row.Row.{Row as RowSeen};
ghost use Rattle.pool_draft.specs.Rows.{key_of, copied_in, forest, frames_of, AreApart, AreAllOut};
ghost use Rattle.pool_draft.specs.Writes.{IsPageWritten, IsRowPut, cut_row};

use crate::row::Row;
use crate::row_key::{Branch, RowKey};
use afs_base::{Memory, Path};
use draft_tree::{Change, CopiedPage};
use frame_pool::{Lease, Pool};

/// Does a change of the page of a row, whose frame no other row has.
pub fn change_row(pool: &mut Pool, rows: &mut Vec<Row>, k: usize, change: &Change)
    requires row { k < length rows.old.items }
    requires apart { AreApart (frames_of rows.old.items) }
    requires frame { (r : RowSeen) → slice_get rows.old.items k ≡ Some r
        → r.frame < length pool.old }
    requires fits { (r : RowSeen) → slice_get rows.old.items k ≡ Some r
        → FitsPage change.now (copied_in pool.old r) }
    ensures written { IsPageWritten pool.old rows.old.items k (after_change change.now)
        pool.new rows.new.items }
    ensures capacity { vec_capacity rows.new ≡ vec_capacity rows.old }
{
    let row = &mut rows[k];
    change.apply(&mut row.marks, pool.page_mut(&row.frame));
}

/// Writes a page over that of a row, whose frame no other row has.
pub fn write_row(pool: &mut Pool, rows: &mut Vec<Row>, k: usize, copied: &CopiedPage)
    requires row { k < length rows.old.items }
    requires apart { AreApart (frames_of rows.old.items) }
    requires frame { (r : RowSeen) → slice_get rows.old.items k ≡ Some r
        → r.frame < length pool.old }
    ensures written { IsPageWritten pool.old rows.old.items k (λ _. copied.now)
        pool.new rows.new.items }
    ensures capacity { vec_capacity rows.new ≡ vec_capacity rows.old }
{
    let row = &mut rows[k];
    row.marks = copied.marks;
    *pool.page_mut(&row.frame) = copied.page;
}

/// Puts a row to a place of a vector that has room. The rows behind are moved all at once, as `insert` does not.
fn put_at(rows: &mut Vec<Row>, k: usize, row: Row)
    requires place { k ≤ length rows.old.items }
    requires room { length rows.old.items < vec_capacity rows.old }
    ensures items { rows.new.items ≡ insert rows.old.items k row }
    ensures capacity { vec_capacity rows.old ≤ vec_capacity rows.new }
{
    match rows.push(row) {
        Ok(()) => (),
        Err(_) => unreachable!(),
    }
    rows[k..].rotate_right(1);
}

/// Puts a page into a frame, and its row to a place. Refused exactly where the lease has no frame left, and then nothing changes.
pub fn insert_row(
    pool: &mut Pool,
    lease: &mut Lease<Row>,
    k: usize,
    root: u8,
    at: &Path,
    copied: &CopiedPage,
) -> Result<(), Memory>
    requires place { k ≤ length lease.old.rows.items }
    requires of { IsOf lease.old.run (length pool.old) }
    requires out { AreAllOut lease.old.run (frames_of lease.old.rows.items) }
    requires room { length lease.old.rows.items + left lease.old.run ≤ 1024 }
    ensures put { OnOk result (IsRowPut pool.old lease.old.run lease.old.rows.items
        k (root ∷ at.now) copied.now pool.new lease.new.run lease.new.rows.items) }
    ensures none { OnErr result (left lease.old.run ≡ 0) }
    ensures err { OnErr result ((pool.new ≡ pool.old) × (lease.new.run ≡ lease.old.run)
        × (lease.new.rows.items ≡ lease.old.rows.items)) }
{
    let Some(frame) = pool.take(lease) else {
        return Err(Memory);
    };
    *pool.page_mut(&frame) = copied.page;
    let row = Row {
        key: RowKey::of(root, at),
        marks: copied.marks,
        frame,
    };
    put_at(&mut lease.rows, k, row);
    Ok(())
}

/// Takes away the pages of a root at and below a path. Their marks stay.
pub fn cut_rows(rows: &mut Vec<Row>, root: u8, at: &Path)
    ensures rows { rows.new.items ≡ map (cut_row root at.now) rows.old.items }
    ensures capacity { vec_capacity rows.new ≡ vec_capacity rows.old }
{
    let branch = Branch::of(root, at);
    for k in 0..rows.len() {
        rows[k].cut(&branch);
    }
}
