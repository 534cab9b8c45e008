//! Sweeps over stores made by hand. What is expected was worked out by hand, from the versions'
//! trees.
ghost use Rattle.std.specs.Prelude.{◌≡◌, ◌<◌, ◌≤◌, ◌+◌, length, IfOk};

use afs_base::{BlockNo, ClientNo};
use page_codec::{Block, Why};
use prune_sweep::{Keeper1, Sweep};
use std::alloc::{AllocError, Global};
use std::process::Abort;
use std::test::Fail;

/// The number of blocks of the stores.
const BLOCKS: u32 = 16;

/// The slot of a copy.
const COPY: u32 = 0x1000_0000;

/// A slot of which nothing was copied is the block's number alone, and an empty slot is 0.
const NONE: u32 = 0;

fn put(block: &mut Block, at: usize, number: u32)
    requires { at ≤ 1020 }
{
    let bytes = number.to_be_bytes();
    'bytes: for k in 0..4 {
        block[at + k] = bytes[k];
    }
}

/// A page of a level, a version page at level 0, with these slots.
fn page(level: u8, slots: &[u32]) -> Block {
    let mut block = [0; 1024];
    block[0] = 0xa5;
    block[1] = if level == 0 { 0x56 } else { 0x50 };
    block[2] = level;
    'slots: for k in 0..slots.len() {
        if k < 16 {
            put(&mut block, 4 + 4 * k, slots[k]);
        }
    }
    block
}

/// A version page of object 1, with its serial, and the block of the next version or 0.
fn version(serial: u8, next: u32, slots: &[u32]) -> Block {
    let mut block = page(0, slots);
    block[73] = 1;
    block[81] = serial;
    put(&mut block, 82, next);
    block
}

fn empty_store(alloc: Global) -> Result<Vec<Block>, AllocError>
    ensures { IfOk result (λ store. length store.items ≡ 16) }
{
    vec![in alloc; [0; 1024]; BLOCKS as usize]
}

/// Five versions of a page, each in a block of its own: serials 1 to 5 in blocks 1, 3, 4, 5, 6.
fn lone_pages(alloc: Global) -> Result<Vec<Block>, AllocError>
    ensures { IfOk result (λ store. length store.items ≡ 16) }
{
    let mut store = empty_store(alloc)?;
    store[1] = version(1, 3, &[]);
    store[3] = version(2, 4, &[]);
    store[4] = version(3, 5, &[]);
    store[5] = version(4, 6, &[]);
    store[6] = version(5, 0, &[]);
    Ok(store)
}

/// Four versions that share pages at several levels. Version 1 has `/` in 1, `/0` in 2, `/1` in 3,
/// `/0/0` in 4, `/0/0/2` in 5. Version 2 has `/` in 6, `/0` in 7, `/0/1` in 8, and shares `/1` and
/// `/0/0` with what is below. Version 3 has `/` in 9 and shares all else. Version 4 has `/` in 10,
/// has dropped `/1`, and shares all else.
fn shared_pages(alloc: Global) -> Result<Vec<Block>, AllocError>
    ensures { IfOk result (λ store. length store.items ≡ 16) }
{
    let mut store = empty_store(alloc)?;
    store[1] = version(1, 6, &[COPY + 2, COPY + 3]);
    store[2] = page(1, &[COPY + 4]);
    store[3] = page(1, &[]);
    store[4] = page(2, &[NONE, NONE, COPY + 5]);
    store[5] = page(3, &[]);
    store[6] = version(2, 9, &[COPY + 7, 3]);
    store[7] = page(1, &[4, COPY + 8]);
    store[8] = page(2, &[]);
    store[9] = version(3, 10, &[7, 3]);
    store[10] = version(4, 0, &[7]);
    Ok(store)
}

/// Feeds the sweep until it needs nothing, or refuses a block, and tells how many it took.
fn feed_all(sweep: &mut Sweep, store: &[Block]) -> Result<u32, Why>
    ensures { length sweep.new.known.marks ≡ length sweep.old.known.marks }
{
    let mut fed = 0;
    'feeds: for k in 0..2 * BLOCKS {
        let Some(n) = sweep.need() else {
            return Ok(fed);
        };
        let Some(block) = store.get(n.get() as usize) else {
            return Err(Why::Closed);
        };
        if let Err(refused) = sweep.feed(block) {
            return Err(refused.why);
        }
        fed = k + 1;
    }
    Ok(fed)
}

/// What a sweep of a store comes to: how many blocks it was fed, the block of the version that
/// stays, and the blocks that are freed.
#[derive(Debug, Drop)]
struct Outcome {
    fed: u32,
    stays: Option<u32>,
    freed: Vec<u32>,
}

fn swept(
    alloc: Global,
    blocks: u32,
    store: &[Block],
    upto: Option<u64>,
) -> Result<Result<Outcome, Why>, Fail>
    requires least { 2 ≤ blocks }
    requires most { blocks ≤ 65536 }
{
    let mut sweep = Sweep::start(alloc, blocks, BlockNo::at(1), upto)?;
    let fed = match feed_all(&mut sweep, store) {
        Ok(fed) => fed,
        Err(why) => return Ok(Err(why)),
    };
    let stays = sweep.upto_block().map(|n| n.get());
    let mut freed = Vec::new(alloc);
    if sweep.need().is_none() {
        let count = sweep.freed();
        'blocks: for _k in 0..count {
            if let Some(n) = next_of(&mut sweep) {
                freed.push(n.get())?;
            }
        }
    }
    Ok(Ok(Outcome { fed, stays, freed }))
}

fn next_of(sweep: &mut Sweep) -> Option<BlockNo> {
    if sweep.need().is_none() {
        sweep.next_free()
    } else {
        None
    }
}

/// A sweep: the serial up to which it goes, how many blocks it is fed, the block of that version,
/// and what is freed.
type Row = (Option<u64>, u32, Option<u32>, &'static [u32]);

fn try_rows(
    rt: &impl Abort,
    alloc: Global,
    blocks: u32,
    store: &[Block],
    rows: &[Row],
) -> Result<(), Fail>
    requires least { 2 ≤ blocks }
    requires most { blocks ≤ 65536 }
{
    for (upto, fed, stays, freed) in rows {
        let swept = swept(alloc, blocks, store, *upto)?.ok().ok_or("refused")?;
        assert_eq!(rt; swept.fed, *fed);
        assert_eq!(rt; swept.stays, *stays);
        assert_eq!(rt; swept.freed.as_slice(), *freed);
    }
    Ok(())
}

#[test]
fn sweeps_find_what_no_kept_version_has(rt: HostRuntime) -> Result<(), Fail> {
    let lone = lone_pages(rt.alloc())?;
    try_rows(
        &rt,
        rt.alloc(),
        BLOCKS,
        &lone,
        &[
            (Some(3), 3, Some(4), &[1, 3]),
            (Some(5), 5, Some(6), &[1, 3, 4, 5]),
            (Some(1), 1, Some(1), &[]),
            (None, 5, None, &[1, 3, 4, 5, 6]),
        ],
    )?;
    let shared = shared_pages(rt.alloc())?;
    try_rows(
        &rt,
        rt.alloc(),
        BLOCKS,
        &shared,
        &[
            (Some(2), 11, Some(6), &[1, 2]),
            (Some(3), 14, Some(9), &[1, 2, 6]),
            (Some(4), 14, Some(10), &[1, 2, 3, 6, 9]),
            (None, 10, None, &[1, 2, 3, 4, 5, 6, 7, 8, 9, 10]),
        ],
    )?;
    // In the greatest store a sweep is fed no more blocks.
    try_rows(
        &rt,
        rt.alloc(),
        65_536,
        &shared,
        &[(Some(3), 14, Some(9), &[1, 2, 6])],
    )?;
    // The room of one sweep serves the next one.
    let room = Sweep::reserve(rt.alloc(), BLOCKS)?;
    let mut sweep = Sweep::start_in(room, BlockNo::at(1), Some(2));
    assert_eq!(rt; feed_all(&mut sweep, &shared), Ok(11));
    let mut sweep = Sweep::start_in(sweep.end(), BlockNo::at(9), None);
    assert_eq!(rt; feed_all(&mut sweep, &shared), Ok(7));
    Ok(())
}

/// A block, a byte of it, and what is there instead; the serial up to which the sweep goes; and
/// the cause for which it is refused.
type Refusal = (usize, usize, u8, Option<u64>, Why);

const REFUSALS: [Refusal; 9] = [
    // It is no page.
    (4, 1, 0x56, Some(4), Why::Kind),
    // The level is not the length of the path.
    (4, 2, 3, Some(4), Why::Level),
    // A slot, and a commit reference, name a block behind the last one.
    (2, 7, 16, Some(4), Why::Reference),
    (1, 85, 16, None, Why::Reference),
    // They name a block that was found before.
    (2, 7, 1, Some(4), Why::Seen),
    (1, 85, 2, None, Why::Seen),
    // The first cause counts.
    (4, 2, 0, Some(4), Why::Level),
    // No version has the serial.
    (15, 0, 0, Some(9), Why::Serial),
    // Two slots of a page name one block.
    (1, 11, 2, Some(4), Why::Seen),
];

#[test]
fn each_cause_is_told(rt: HostRuntime) -> Result<(), Fail> {
    for (n, at, byte, upto, why) in REFUSALS {
        let mut store = shared_pages(rt.alloc())?;
        if n < store.len() && at < 1024 {
            store[n][at] = byte;
        }
        let refused = swept(rt.alloc(), BLOCKS, &store, upto)?
            .err()
            .ok_or("taken")?;
        assert_eq!(rt; refused, why);
    }
    Ok(())
}

#[test]
fn one_client_keeps_the_maintenance(rt: HostRuntime) -> Result<(), Fail> {
    let one = ClientNo::of(1).ok().ok_or("client")?;
    let two = ClientNo::of(2).ok().ok_or("client")?;
    let mut keeper = Keeper1::make();
    assert_eq!(rt; keeper.take(one).is_ok(), true);
    assert_eq!(rt; keeper.take(one).is_ok(), true);
    assert_eq!(rt; keeper.take(two).err().ok_or("taken")?.by, one);
    keeper.leave(two);
    assert_eq!(rt; keeper.take(two).is_ok(), false);
    keeper.leave(one);
    assert_eq!(rt; keeper.take(two).is_ok(), true);
    Ok(())
}
