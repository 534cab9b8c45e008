//! Each call failing once, and each image of each moment then: the old store, none, or the new one.
ghost use Rattle.std.specs.Prelude.{◌≡◌, IfOk, length};

use super::*;
use page_codec::fresh_image;
use pair_store::{Block, Blocks, Pair, PairFault};
use std::process::Abort;
use std::test::*;

/// What the contents of blocks 0 and 1 are.
#[derive(Clone, Copy, Debug, PartialEq, Eq)]
enum Found {
    /// Those of the old store.
    Old,
    /// Block 0 has none.
    Closed,
    /// Those of the new store.
    New,
    Other,
}

/// The old store and the new one.
#[derive(Drop)]
struct Stores {
    alloc: Global,
    old: Vec<u8>,
    new: Vec<u8>,
}

/// A store of one file, whose page `/` is the byte `A`, in four blocks; and a new one of another key.
fn make_stores(alloc: Global) -> Result<Stores, Memory>
    ensures { IfOk result (λ s. length s.old.items ≡ 4096) }
{
    let mut old = vec![in alloc; 0; 4096]?;
    old[..2048].copy_from_slice(&fresh_image(alloc, 1, 4, 9)?);
    old[1024 + 69] = 1;
    old[1024 + 219] = b'A';
    // A block that no page lies in.
    old[3072] = 0xa5;
    Ok(Stores {
        alloc,
        old,
        new: fresh_image(alloc, 1, 4, 7)?,
    })
}

/// The content of a block, or none; a block that cannot be read has all ones.
fn content(pair: &mut Pair<MemDrives>, n: u32) -> Option<Block> {
    let number = afs_base::BlockNo::of(n).ok()?;
    let mut block = [0; 1024];
    if n >= pair.blocks() {
        return None;
    }
    match pair.read(number, &mut block) {
        Ok(()) => Some(block),
        Err(PairFault::BothClosed { block: _ }) => None,
        Err(_) => Some([0xff; 1024]),
    }
}

/// Whether the content of a block is that of a store's half.
fn is_block(found: &Option<Block>, half: &[u8], at: usize) -> bool {
    match found {
        Some(block) => block.as_slice() == piece(half, at, 1024),
        None => false,
    }
}

/// Whether blocks 0 and 1 are those of a store's half.
fn is_store(table: &Option<Block>, page: &Option<Block>, half: &[u8]) -> bool {
    is_block(table, half, 0) && is_block(page, half, 1024)
}

fn found_in(pair: &mut Pair<MemDrives>, stores: &Stores) -> Found {
    let table = content(pair, 0);
    let page = content(pair, 1);
    let beyond = content(pair, 3);
    if !is_block(&beyond, &stores.old, 3072) {
        Found::Other
    } else if table.is_none() {
        Found::Closed
    } else if is_store(&table, &page, &stores.old) {
        Found::Old
    } else if is_store(&table, &page, &stores.new) {
        Found::New
    } else {
        Found::Other
    }
}

/// The new store made over the old one, where the call of one number fails; 0 for none.
fn made(stores: &Stores, failing: u64) -> Result<(bool, MemDrives, Option<Half>), Memory>
    requires { length stores.now.old.items ≡ 4096 }
{
    let old = stores.old.as_slice();
    let mut drives = MemDrives::of_halves(
        stores.alloc,
        Vec::from_slice(stores.alloc, old)?,
        Vec::from_slice(stores.alloc, old)?,
    )?;
    let mut calls = Vec::new(stores.alloc);
    calls.push(failing)?;
    drives.fail_at(calls);
    match NewStore::of(7, 1, 4) {
        Some(store) => Ok(formatted(drives, &store)),
        None => Ok((false, drives, None)),
    }
}

/// How many moments show the old store, none, the new one and anything else, by one pick.
fn counts(drives: &MemDrives, stores: &Stores, pick: Pick) -> Result<[u32; 4], Memory> {
    let mut counts = [0u32; 4];
    for moment in 0..=drives.now() {
        let mut pair = Pair::over(drives.image(moment, pick)?);
        let place = match found_in(&mut pair, stores) {
            Found::Old => 0,
            Found::Closed => 1,
            Found::New => 2,
            Found::Other => 3,
        };
        counts[place] = counts[place].saturating_add(1);
    }
    Ok(counts)
}

/// Whether every image of every moment is the old store, none or the new one.
fn are_fine(drives: &MemDrives, stores: &Stores) -> Result<bool, Memory> {
    let mut fine = true;
    for pick in [Pick::Old, Pick::New, Pick::Fill(0xa5)] {
        fine = fine && counts(drives, stores, pick)?[3] == 0;
    }
    Ok(fine)
}

/// Compares how many moments show the old store, none, the new one and anything else, by one pick.
fn shows(
    rt: &impl Abort,
    drives: &MemDrives,
    stores: &Stores,
    pick: Pick,
    wanted: [u32; 4],
) -> Result<(), Memory> {
    assert_eq!(rt; counts(drives, stores, pick)?, wanted);
    Ok(())
}

#[test]
fn the_old_store_is_closed_first_and_the_table_comes_last(rt: HostRuntime) -> Result<(), Fail> {
    let stores = make_stores(rt.alloc())?;
    let (done, drives, _) = made(&stores, 0)?;
    assert!(rt; done);
    show_all(&rt, &drives, &stores)?;
    Ok(())
}

/// Three calls close half A, three half B; fourteen write block 1; five write block 0 on half B, and five on half A.
fn show_all(rt: &impl Abort, drives: &MemDrives, stores: &Stores) -> Result<(), Memory> {
    assert_eq!(rt; drives.now(), 30);
    shows(rt, drives, stores, Pick::New, [5, 19, 7, 0])?;
    shows(rt, drives, stores, Pick::Old, [6, 19, 6, 0])?;
    shows(rt, drives, stores, Pick::Fill(0xa5), [6, 18, 7, 0])
}

/// The call of one number fails: it names its half, and leaves one of the stores or none.
fn fails_on(rt: &impl Abort, stores: &Stores, failing: u64, half: Half) -> Result<(), Memory>
    requires { length stores.now.old.items ≡ 4096 }
{
    let (done, drives, failed) = made(stores, failing)?;
    assert_eq!(rt; (done, failed), (false, Some(half)), "call {failing}");
    leaves_one(rt, &drives, stores, failing)
}

fn leaves_one(
    rt: &impl Abort,
    drives: &MemDrives,
    stores: &Stores,
    failing: u64,
) -> Result<(), Memory> {
    assert_eq!(rt; drives.now(), failing);
    assert!(rt; are_fine(drives, stores)?, "call {failing}");
    Ok(())
}

#[test]
fn each_failing_call_names_its_half_and_leaves_one_of_them(rt: HostRuntime) -> Result<(), Fail> {
    let stores = make_stores(rt.alloc())?;
    let table = [
        (1, 3, Half::A),
        (4, 6, Half::B),
        (7, 13, Half::B),
        (14, 20, Half::A),
        (21, 25, Half::B),
        (26, 30, Half::A),
    ];
    for (first, last, half) in table {
        for failing in first..=last {
            fails_on(&rt, &stores, failing, half)?;
        }
    }
    Ok(())
}
