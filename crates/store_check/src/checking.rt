// The check of a store.
ghost use Rattle.std.specs.Prelude.{◌≡◌, ◌≢◌, ◌≤◌, ◌<◌, ℕ, List, [], ◌∷◌, map, length, replicate, false, IsErrOf, IfOk, OnOk};
ghost use Rattle.drives.specs.declared.device.Half.{Half};
ghost use Rattle.store_model.specs.Laid.{LaidFile};
ghost use Rattle.store_model.specs.Laws.{pages_of};
ghost use Rattle.store_model.specs.Members.{Linked as ModelLinked, tops_from, tops_linked};
ghost use Rattle.store_model.specs.Found.{LaidStore, laid};
ghost use Rattle.store_check.specs.Since.{IsUnreadSince, OnlyRead, is_past};
ghost use Rattle.store_check.specs.Surveyed.{IsTold, blocks_in};
ghost use Rattle.store_check.specs.declared.refused.WalkRefused.{WalkRefused};
ghost use Rattle.store_check.specs.Results.{Shows, Walks};
ghost use Rattle.store_check.specs.Files.{LikeFiles, chains_of};
ghost use Rattle.store_check.specs.Counts.{kept_in};
ghost use Rattle.store_check.specs.Checked.{Answers, IsEnded, AreSettled, LikeTable, root_from, walk_from};

use crate::chain::FoundFile;
use crate::files::files_from;
use crate::places::Places;
use crate::reading::Reading;
use crate::refused::WalkRefused;
use crate::rows::{Row, root_block, table_rows};
use crate::survey::Survey;
use crate::tops::{Linked, link_tops, tops_of};
use afs_base::Memory;
use block_map::BlockMap;
use page_codec::{Table, TableRoot, Why, decode_root};
use pair_store::Blocks;
use std::alloc::Global;

/// A lawful store: its table, which blocks are in use, and what is kept of the file of each object where it is live.
#[derive(Drop)]
pub struct Checked {
    pub table: Table,
    pub map: BlockMap,
    pub heads: Vec<Option<FoundFile>>,
}

/// Block 0 of a store on halves of so many blocks.
#[tactic(auto, unfolding(crate::specs::Checked::root_from, store_model::specs::Walk::bind, store_model::specs::Walk::decoded, store_model::specs::Walk::check, store_model::specs::Walk::refuse, store_model::specs::Walk::done))]
fn read_root<B: Blocks>(reading: &mut Reading<B>, most: u32) -> Result<TableRoot, WalkRefused>
    requires { 0 < B.size reading.old.began }
    ensures began { reading.new.began ≡ reading.old.began }
    ensures fits { IfOk result (λ root. root.blocks ≤ most) }
    ensures walk { B.tells → B.settled reading.old.began 0
        → Walks (is_past B.Blocks reading.new.store) (λ root. root) result
        (root_from (B.content reading.old.began) most []) [] }
    ensures unread { (h : Half) → IsErrOf result (WalkRefused.ReadFault h)
        → IsUnreadSince B.Blocks reading.new.began reading.new.store h }
{
    let block = reading.read(root_block())?;
    match decode_root(&block) {
        Ok(root) => {
            if root.blocks > most {
                return Err(WalkRefused::BadStore {
                    block: root_block(),
                    why: Why::Blocks,
                });
            }
            Ok(root)
        }
        Err(bad) => Err(WalkRefused::BadStore {
            block: root_block(),
            why: bad.why,
        }),
    }
}

/// Sets the entries of a table of format 2.
fn fill_table(table: &mut Table, rows: &[Row])
    requires two { table.old.format ≢ 1 }
    requires size { length rows.now ≡ length table.old.entries }
    ensures format { table.new.format ≡ table.old.format }
    ensures blocks { table.new.blocks ≡ table.old.blocks }
    ensures key { table.new.key ≡ table.old.key }
    ensures parts { table.new.parts ≡ table.old.parts }
    ensures entries { table.new.entries ≡ map (λ row. row.entry) rows.now }
{
    'entries: for i in 0..rows.len() {
        let row = &rows[i];
        table.set_entry(i + 1, row.entry);
    }
}

/// The table with all its entries.
fn table_of(alloc: Global, root: &TableRoot, rows: &[Row]) -> Result<Table, Memory>
    requires one { root.now.format ≡ 1 → map (λ row. row.entry) rows.now ≡ root.now.first }
    requires two { root.now.format ≢ 1 → length rows.now ≡ 4032 }
    ensures format { IfOk result (λ t. t.format ≡ root.now.format) }
    ensures blocks { IfOk result (λ t. t.blocks ≡ root.now.blocks) }
    ensures key { IfOk result (λ t. t.key ≡ root.now.key) }
    ensures parts { IfOk result (λ t. t.parts ≡ root.now.parts) }
    ensures entries { IfOk result (λ t. t.entries ≡ map (λ row. row.entry) rows.now) }
{
    let mut table = Table::of_root(alloc, root)?;
    if table.format() != 1 {
        fill_table(&mut table, rows);
    }
    Ok(table)
}

/// What a walk found: the table, and the files.
#[derive(Drop)]
struct Found {
    table: Table,
    linked: Linked,
}

/// No object was named yet.
fn none_named(alloc: Global, count: usize) -> Result<Vec<bool>, Memory>
    ensures { IfOk result (λ named. named.items ≡ replicate count false) }
{
    Ok(vec![in alloc; false; count]?)
}

/// The files of a store with the members that are to be linked.
fn link_files<B: Blocks>(
    alloc: Global,
    survey: &mut Survey<B>,
    table: Table,
    chains: Vec<Option<FoundFile>>,
) -> Result<Found, WalkRefused>
    requires { length chains.items ≤ 4032 }
    ensures began { survey.new.began ≡ survey.old.began }
    ensures count { survey.new.count ≡ survey.old.count }
    ensures walk { IsTold B.Blocks survey.old → (files : List LaidFile)
        → LikeFiles (pages_of (B.content survey.old.began)) survey.old.count chains.items files
        → kept_in files ≤ length survey.old.list
        → Shows (is_past B.Blocks survey.new.store)
        (λ found (linked : ModelLinked). (found.table ≡ table)
        × (found.linked.chains.items ≡ chains_of linked.files)) result
        (tops_linked (blocks_in B.content survey.old) (tops_from 1 files)
        (record { files = files; named = [] }) survey.old.list) survey.new.list }
    ensures unread { (h : Half) → IsErrOf result (WalkRefused.ReadFault h)
        → IsUnreadSince B.Blocks survey.new.began survey.new.store h }
{
    let tops = tops_of(alloc, chains.as_slice())?;
    let named = none_named(alloc, chains.len())?;
    let mut linked = Linked { chains, named };
    link_tops(survey, tops.as_slice(), &mut linked)?;
    Ok(Found { table, linked })
}

/// The walk over a store, from its block 0 on.
fn walk<B: Blocks>(
    alloc: Global,
    survey: &mut Survey<B>,
    root: &TableRoot,
) -> Result<Found, WalkRefused>
    ensures began { survey.new.began ≡ survey.old.began }
    ensures count { survey.new.count ≡ survey.old.count }
    ensures walk { IsTold B.Blocks survey.old
        → Shows (is_past B.Blocks survey.new.store)
        (λ found (store : LaidStore). LikeTable found.table store
        × (found.linked.chains.items ≡ chains_of store.files) × (store.root ≡ root.now)) result
        (walk_from (blocks_in B.content survey.old) root.now survey.old.list) survey.new.list }
    ensures unread { (h : Half) → IsErrOf result (WalkRefused.ReadFault h)
        → IsUnreadSince B.Blocks survey.new.began survey.new.store h }
{
    let rows = table_rows(survey, alloc, root)?;
    let table = table_of(alloc, root, rows.as_slice())?;
    let chains = files_from(survey, alloc, rows.as_slice())?;
    link_files(alloc, survey, table, chains)
}

/// What was found, with the map of the blocks.
fn checked_of(found: Found, map: BlockMap) -> Checked
    ensures table { result.table ≡ found.table }
    ensures map { result.map ≡ map }
    ensures heads { result.heads ≡ found.linked.chains }
{
    let Found { table, linked } = found;
    let Linked { chains, named: _ } = linked;
    Checked {
        table,
        map,
        heads: chains,
    }
}

/// The answer of the check whose walk ended so, with the store.
fn ended<B: Blocks>(
    survey: Survey<B>,
    found: Result<Found, WalkRefused>,
) -> (B, Result<Checked, WalkRefused>)
    ensures only { OnlyRead B.Blocks survey.began result.0 }
    ensures store { result.0 ≡ survey.store }
    ensures answer { IsEnded found survey.count survey.list result.1 }
    ensures fits { IfOk result.1 (λ checked. length checked.map ≤ B.size survey.began) }
{
    let (store, map) = survey.into_parts();
    match found {
        Ok(found) => (store, Ok(checked_of(found, map))),
        Err(e) => (store, Err(e)),
    }
}

/// The check of a store whose block 0 was read.
fn walk_store<B: Blocks>(
    alloc: Global,
    reading: Reading<B>,
    root: &TableRoot,
) -> (B, Result<Checked, WalkRefused>)
    requires { root.now.blocks ≤ B.size reading.began }
    ensures only { OnlyRead B.Blocks reading.began result.0 }
    ensures fits { IfOk result.1 (λ checked. length checked.map ≤ B.size reading.began) }
    ensures answer { B.tells → ((n : ℕ) → n < root.now.blocks → B.settled reading.began n)
        → Answers (is_past B.Blocks result.0) result.1
        (walk_from (record { content = B.content reading.began; count = root.now.blocks }) root.now
        []) }
    ensures unread { (h : Half) → IsErrOf result.1 (WalkRefused.ReadFault h)
        → IsUnreadSince B.Blocks reading.began result.0 h }
{
    match Places::make(alloc, root.blocks) {
        Err(_) => (reading.into_store(), Err(WalkRefused::Memory)),
        Ok(places) => {
            let mut survey = Survey::over(reading, places);
            let found = walk(alloc, &mut survey, root);
            ended(survey, found)
        }
    }
}

/// Checks which files a store holds. It reads each place once, and each page that a later version copied once more, and writes nothing.
pub fn check<B: Blocks>(alloc: Global, store: B) -> (B, Result<Checked, WalkRefused>)
    ensures only { OnlyRead B.Blocks store result.0 }
    ensures fits { IfOk result.1 (λ checked. length checked.map ≤ B.size store) }
    ensures answer { B.tells → AreSettled (B.settled store) (B.content store) (B.size store)
        → Answers (is_past B.Blocks result.0) result.1 (laid (B.content store) (B.size store) []) }
    ensures unread { (h : Half) → IsErrOf result.1 (WalkRefused.ReadFault h)
        → IsUnreadSince B.Blocks store result.0 h }
{
    let most = store.blocks();
    let mut reading = Reading::of(store);
    match read_root(&mut reading, most) {
        Err(e) => (reading.into_store(), Err(e)),
        Ok(root) => walk_store(alloc, reading, &root),
    }
}
