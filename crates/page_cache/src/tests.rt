//! The cache beside the same store without it, and beside a plain list.
ghost use Rattle.std.specs.Prelude.{◌≡◌, ◌<◌, slice_index, IfOk};
ghost use Rattle.page_cache.specs.Caches.{inner_of};

use crate::Cached;
use afs_base::{BlockNo, Memory};
use drives::{Drives, Half, MemDrives};
use pair_store::{Block, Blocks, Pair, PairFault, Tas};
use std::alloc::{AllocError, Global};
use std::process::Abort;
use std::test::Fail;

const BLOCKS: u32 = 16;

const PAGES: u32 = 5;

const CALLS: u32 = 10_000;

type Store = Pair<MemDrives>;

fn number(n: u32) -> BlockNo
    requires { n < 268435456 }
    ensures { result ≡ n }
{
    match BlockNo::of(n) {
        Ok(block) => block,
        Err(_) => unreachable!(),
    }
}

/// A block of this byte, with an open gate.
fn filled(fill: u8) -> Block
    ensures { slice_index result 0 ≡ 165 }
{
    let mut block = [fill; 1024];
    block[0] = 0xa5;
    block
}

/// A version page of object 7 with serial 1, without a commit reference, with one member.
fn version() -> Block
    ensures { slice_index result 0 ≡ 165 }
{
    let mut block = [0; 1024];
    block[0] = 0xa5;
    block[1] = 0x56;
    block[73] = 7;
    block[81] = 1;
    block[90] = 1;
    block[94] = 9;
    block[98] = 5;
    block
}

/// Numbers in an order that a seed fixes.
#[derive(Drop)]
struct Seed {
    state: u64,
}

impl Seed {
    fn next(&mut self, below: u32) -> u32
        requires { 0 < below }
        ensures { result < below }
    {
        self.state = self
            .state
            .wrapping_mul(6364136223846793005)
            .wrapping_add(1442695040888963407);
        ((self.state >> 33) % below as u64) as u32
    }
}

/// What the cache should have in memory, the latest first.
#[derive(Drop)]
struct Plain {
    entries: Vec<(u32, Block)>,
}

impl Plain {
    fn find(&self, n: u32) -> Option<Block> {
        self.entries.iter().find(|e| e.0 == n).map(|e| e.1)
    }

    fn take_out(&mut self, n: u32) {
        if let Some(i) = self.entries.iter().position(|e| e.0 == n) {
            self.entries.remove(i);
        }
    }

    fn put_front(&mut self, n: u32, body: &Block) -> Result<(), AllocError> {
        self.take_out(n);
        self.entries.insert(0, (n, *body))?;
        self.entries.truncate(PAGES as usize);
        Ok(())
    }
}

/// Two stores to which the same calls of the drives were made, and what the cache of the one should have.
#[derive(Drop)]
struct Twins {
    cache: Cached<Store>,
    bare: Store,
    list: Plain,
    ghost cached: { ⟦<Pair<MemDrives> as Blocks>⟧.size (inner_of cache) ≡ 16 },
    ghost uncached: { ⟦<Pair<MemDrives> as Blocks>⟧.size bare ≡ 16 },
}

impl Twins {
    /// Each answers alike, makes as many calls of the drives, and the cache has what it should.
    fn check(&self, rt: &impl Abort) {
        assert_eq!(rt; self.cache.now(), self.bare.now());
        for n in 0..BLOCKS {
            assert_eq!(rt; self.cache.holds(number(n)), self.list.find(n).is_some());
        }
    }

    fn read(&mut self, rt: &impl Abort, n: u32) -> Result<(), AllocError>
        requires { n < 16 }
    {
        let mut seen = [0; 1024];
        let answer = self.cache.read(number(n), &mut seen);
        if let Some(body) = self.list.find(n) {
            assert!(rt; answer == Ok(()) && seen == body);
            return self.list.put_front(n, &body);
        }
        let mut wanted = [0; 1024];
        assert_eq!(rt; answer, self.bare.read(number(n), &mut wanted));
        if answer.is_ok() {
            assert!(rt; seen == wanted);
            self.list.put_front(n, &wanted)?;
        }
        Ok(())
    }

    fn write(&mut self, rt: &impl Abort, n: u32, body: &Block) -> Result<(), AllocError>
        requires block { n < 16 }
        requires open { slice_index body.now 0 ≡ 165 }
    {
        let answer = self.cache.write(number(n), body);
        assert_eq!(rt; answer, self.bare.write(number(n), body));
        match answer {
            Ok(()) => self.list.put_front(n, body)?,
            Err(_) => self.list.take_out(n),
        }
        Ok(())
    }

    fn test_and_set(&mut self, rt: &impl Abort, n: u32)
        requires { n < 16 }
    {
        let answer = self.cache.test_and_set(number(n), number(3));
        assert_eq!(rt; answer, self.bare.test_and_set(number(n), number(3)));
        if !matches!(answer, Ok(Tas::Taken { .. })) {
            self.list.take_out(n);
        }
    }

    fn clear_members(&mut self, rt: &impl Abort, n: u32)
        requires { n < 16 }
    {
        let answer = self.cache.clear_members(number(n));
        assert_eq!(rt; answer, self.bare.clear_members(number(n)));
        self.list.take_out(n);
    }

    /// A call that the seed picks: as many reads as all others.
    fn step(&mut self, rt: &impl Abort, seed: &mut Seed) -> Result<(), AllocError> {
        let n = seed.next(BLOCKS);
        match seed.next(8) {
            0 => self.write(rt, n, &filled(seed.next(256) as u8))?,
            1 => self.write(rt, n, &version())?,
            2 => self.test_and_set(rt, n),
            3 => self.clear_members(rt, n),
            _ => self.read(rt, n)?,
        }
        self.check(rt);
        Ok(())
    }
}

/// Drives of sixteen blocks, on which every so manieth call fails.
fn failing_drives(alloc: Global, every: u64) -> Result<MemDrives, Memory>
    ensures { IfOk result (λ d. ⟦<MemDrives as Drives>⟧.size d ≡ 16) }
{
    let mut calls = Vec::new(alloc);
    for k in 1..500u64 {
        calls.push(k.saturating_mul(every))?;
    }
    let mut drives = MemDrives::blank(alloc, BLOCKS)?;
    drives.fail_at(calls);
    Ok(drives)
}

fn make_twins(alloc: Global) -> Result<Twins, Memory> {
    let bare = Pair::over(failing_drives(alloc, 97)?);
    let list = Plain {
        entries: Vec::new(alloc),
    };
    match Cached::over(alloc, Pair::over(failing_drives(alloc, 97)?), PAGES) {
        Ok(cache) => Ok(Twins { cache, bare, list }),
        Err((_, memory)) => Err(memory),
    }
}

#[test]
fn ten_thousand_calls_answer_as_without_the_cache(rt: HostRuntime) -> Result<(), Fail> {
    let mut both = make_twins(rt.alloc())?;
    let mut seed = Seed { state: 20261201 };
    for _ in 0..CALLS {
        both.step(&rt, &mut seed)?;
    }
    let Twins { cache, bare, .. } = both;
    let (cached, uncached) = (cache.into_inner().into_drives(), bare.into_drives());
    for half in [Half::A, Half::B] {
        assert!(rt; cached.half_bytes(half) == uncached.half_bytes(half));
    }
    Ok(())
}

#[test]
fn a_block_that_is_read_twice_costs_no_second_call(rt: HostRuntime) -> Result<(), Fail> {
    let mut store = Pair::over(MemDrives::blank(rt.alloc(), 3)?);
    assert_eq!(rt; store.write(number(1), &version()), Ok(()));
    let Ok(mut cache) = Cached::over(rt.alloc(), store, 1) else {
        panic!(rt; "no memory")
    };
    let mut seen = [0; 1024];
    let mut counts = [(0, 0, false); 6];
    let _ = cache.read(number(1), &mut seen);
    counts[0] = (cache.now(), cache.operations(), cache.holds(number(1)));
    let _ = cache.read(number(1), &mut seen);
    counts[1] = (cache.now(), cache.operations(), cache.holds(number(1)));
    let _ = cache.test_and_set(number(1), number(2));
    counts[2] = (cache.now(), cache.operations(), cache.holds(number(1)));
    let _ = cache.read(number(1), &mut seen);
    let _ = cache.test_and_set(number(1), number(2));
    counts[3] = (cache.now(), cache.operations(), cache.holds(number(1)));
    let _ = cache.clear_members(number(1));
    counts[4] = (cache.now(), cache.operations(), cache.holds(number(1)));
    let _ = cache.write(number(2), &filled(1));
    counts[5] = (cache.now(), cache.operations(), cache.holds(number(2)));
    assert_eq!(rt;
        counts,
        [
            (11, 2, true),
            (11, 3, true),
            (26, 4, false),
            (28, 6, true),
            (43, 7, false),
            (53, 8, true),
        ]
    );
    Ok(())
}
