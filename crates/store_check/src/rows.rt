// The table of a store, and the entries that it has.
ghost use Rattle.std.specs.Prelude.{◌≡◌, ◌≢◌, ◌<◌, ◌≤◌, ◌*◌, map, length, replicate, IsErrOf, IfOk, Some};
ghost use Rattle.drives.specs.declared.device.Half.{Half};
ghost use Rattle.page_codec.specs.Blank.{no_entry};
ghost use Rattle.store_model.specs.Tables.{part_rows, parts_from, rows_in, table_rows};
ghost use Rattle.store_check.specs.Since.{IsUnreadSince, is_past};
ghost use Rattle.store_check.specs.Surveyed.{IsTold, blocks_in};
ghost use Rattle.store_check.specs.declared.refused.WalkRefused.{WalkRefused};
ghost use Rattle.store_check.specs.Results.{Walks};
ghost use Rattle.store_check.specs.Rows.{row_of};

use crate::refused::WalkRefused;
use crate::survey::{Survey, place};
use afs_base::{BlockNo, Memory, PARTS};
use page_codec::{PART_ENTRIES, TableEntry, TableRoot, decode_part};
use pair_store::Blocks;
use std::alloc::Global;

/// An entry, and the block of the table that has it.
#[derive(Clone, Copy, Debug)]
pub struct Row {
    pub entry: TableEntry,
    pub block: BlockNo,
}

/// Block 0.
pub fn root_block() -> BlockNo
    ensures { result ≡ 0 }
{
    BlockNo::at(0)
}

/// These entries of this block.
fn rows_from(alloc: Global, block: BlockNo, entries: &[TableEntry]) -> Result<Vec<Row>, Memory>
    ensures rows { IfOk result (λ rows. map row_of rows.items ≡ rows_in block entries.now) }
    ensures entries { IfOk result (λ rows. map (λ row. row.entry) rows.items ≡ entries.now) }
    ensures size { IfOk result (λ rows. length rows.items ≡ length entries.now) }
{
    let mut rows = Vec::new(alloc);
    'entries: for entry in entries {
        rows.push(Row {
            entry: *entry,
            block,
        })?;
    }
    Ok(rows)
}

/// No entries of a part.
fn no_part_entries() -> [TableEntry; PART_ENTRIES]
    ensures { result ≡ replicate 63 no_entry }
{
    [TableEntry::none(); PART_ENTRIES]
}

/// The entries of part j of a table of format 2, whose block is `n`.
#[tactic(auto, unfolding(store_model::specs::Tables::part_rows, store_model::specs::Walk::bind, store_model::specs::Walk::decoded, store_model::specs::Walk::refuse, store_model::specs::Walk::done))]
fn read_part<B: Blocks>(
    survey: &mut Survey<B>,
    alloc: Global,
    j: u8,
    n: BlockNo,
) -> Result<Vec<Row>, WalkRefused>
    requires { j < PARTS }
    ensures began { survey.new.began ≡ survey.old.began }
    ensures count { survey.new.count ≡ survey.old.count }
    ensures walk { IsTold B.Blocks survey.old
        → Walks (is_past B.Blocks survey.new.store) (λ rows. map row_of rows.items) result
        (part_rows (blocks_in B.content survey.old) j (Some n) survey.old.list) survey.new.list }
    ensures size { IfOk result (λ rows. length rows.items ≡ 63) }
    ensures unread { (h : Half) → IsErrOf result (WalkRefused.ReadFault h)
        → IsUnreadSince B.Blocks survey.new.began survey.new.store h }
{
    let block = place(survey, root_block(), n)?;
    match decode_part(&block, j) {
        Ok(entries) => Ok(rows_from(alloc, n, &entries)?),
        Err(bad) => Err(WalkRefused::BadStore {
            block: n,
            why: bad.why,
        }),
    }
}

/// The entries of part j of a table of format 2. One that is not there stands for entries where no file ever was.
#[tactic(auto, unfolding(store_model::specs::Tables::part_rows, store_model::specs::Walk::done))]
fn part_rows<B: Blocks>(
    survey: &mut Survey<B>,
    alloc: Global,
    j: u8,
    part: &Option<BlockNo>,
) -> Result<Vec<Row>, WalkRefused>
    requires { j < PARTS }
    ensures began { survey.new.began ≡ survey.old.began }
    ensures count { survey.new.count ≡ survey.old.count }
    ensures walk { IsTold B.Blocks survey.old
        → Walks (is_past B.Blocks survey.new.store) (λ rows. map row_of rows.items) result
        (part_rows (blocks_in B.content survey.old) j part.now survey.old.list) survey.new.list }
    ensures size { IfOk result (λ rows. length rows.items ≡ 63) }
    ensures unread { (h : Half) → IsErrOf result (WalkRefused.ReadFault h)
        → IsUnreadSince B.Blocks survey.new.began survey.new.store h }
{
    match part {
        None => Ok(rows_from(alloc, root_block(), &no_part_entries())?),
        Some(n) => read_part(survey, alloc, j, *n),
    }
}

/// The entries of all parts of a table of format 2.
fn all_parts<B: Blocks>(
    survey: &mut Survey<B>,
    alloc: Global,
    parts: &[Option<BlockNo>],
) -> Result<Vec<Row>, WalkRefused>
    requires { length parts.now ≤ 64 }
    ensures began { survey.new.began ≡ survey.old.began }
    ensures count { survey.new.count ≡ survey.old.count }
    ensures walk { IsTold B.Blocks survey.old
        → Walks (is_past B.Blocks survey.new.store) (λ rows. map row_of rows.items) result
        (parts_from (blocks_in B.content survey.old) 0 parts.now survey.old.list) survey.new.list }
    ensures size { IfOk result (λ rows. length rows.items ≡ 63 * length parts.now) }
    ensures unread { (h : Half) → IsErrOf result (WalkRefused.ReadFault h)
        → IsUnreadSince B.Blocks survey.new.began survey.new.store h }
{
    let mut rows = Vec::new(alloc);
    'parts: for j in 0..parts.len() {
        let part = part_rows(survey, alloc, j as u8, &parts[j])?;
        rows.extend_from_slice(part.as_slice())?;
    }
    Ok(rows)
}

/// All entries of a table, object 1 first.
#[tactic(auto, unfolding(store_model::specs::Tables::table_rows, store_model::specs::Walk::done))]
pub fn table_rows<B: Blocks>(
    survey: &mut Survey<B>,
    alloc: Global,
    root: &TableRoot,
) -> Result<Vec<Row>, WalkRefused>
    ensures began { survey.new.began ≡ survey.old.began }
    ensures count { survey.new.count ≡ survey.old.count }
    ensures walk { IsTold B.Blocks survey.old
        → Walks (is_past B.Blocks survey.new.store) (λ rows. map row_of rows.items) result
        (table_rows (blocks_in B.content survey.old) root.now survey.old.list) survey.new.list }
    ensures one { root.now.format ≡ 1
        → IfOk result (λ rows. map (λ row. row.entry) rows.items ≡ root.now.first) }
    ensures two { root.now.format ≢ 1 → IfOk result (λ rows. length rows.items ≡ 4032) }
    ensures most { IfOk result (λ rows. length rows.items ≤ 4032) }
    ensures unread { (h : Half) → IsErrOf result (WalkRefused.ReadFault h)
        → IsUnreadSince B.Blocks survey.new.began survey.new.store h }
{
    if root.format == 1 {
        Ok(rows_from(alloc, root_block(), &root.first)?)
    } else {
        all_parts(survey, alloc, &root.parts)
    }
}
