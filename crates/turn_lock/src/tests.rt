ghost use Rattle.std.specs.Prelude.{IfOk};
ghost use Rattle.turn_lock.specs.Passes.{IsIdleAt, AreIdleAt};

use crate::{Busy, Named, Pass, TurnLock};
use std::alloc::{AllocError, Global};
use std::snapshot::Snapshot;
use std::sync::Wait;
use std::test::Fail;
use std::thread;
use std::thread::Threads;

const THREADS: u64 = 16;

const TURNS: u64 = 1000;

// A count, by where it began.
#[derive(Drop)]
struct Tally {
    first: u64,
    now: u64,
    opened: Snapshot<Vec<u8>>,
}

// What a count is called: where it began, and what it remembers. No value of it is made.
struct TallyName {
    first: u64,
    opened: Snapshot<Vec<u8>>,
}

impl Named for Tally {
    type Name = TallyName;

    ghost name = { λ t. record { first = t.first; opened = t.opened } };
}

fn tally_from(alloc: Global, first: u64) -> Tally {
    Tally {
        first,
        now: first,
        opened: Snapshot::of(&Vec::new(alloc)),
    }
}

// Takes so many turns, and counts up in each.
fn count_up<R: Wait>(rt: &R, lock: &TurnLock<Tally>, pass: &mut Pass<Tally>, times: u64)
    requires { IsIdleAt pass.old lock.now }
    ensures { IsIdleAt pass.new lock.now }
{
    for _ in 0..times {
        let mut value = lock.hold(rt, pass);
        value.now = value.now.saturating_add(1);
        lock.give(pass, value);
    }
}

// Sixteen passes more.
fn sixteen(
    alloc: Global,
    lock: &TurnLock<Tally>,
    first: &mut Pass<Tally>,
) -> Result<Vec<Pass<Tally>>, AllocError>
    requires { IsIdleAt first.old lock.now }
    ensures first { IsIdleAt first.new lock.now }
    ensures passes { IfOk result (λ v. AreIdleAt v.items lock.now) }
{
    let mut passes = Vec::with_capacity(alloc, THREADS as usize)?;
    for _ in 0..THREADS {
        let pass = lock.split(first);
        passes.push_reserved(pass);
    }
    Ok(passes)
}

// Each pass takes its turns, in a thread of its own.
fn count_side_by_side<R: Threads + Wait + Sync>(
    rt: &R,
    lock: &TurnLock<Tally>,
    passes: &mut [Pass<Tally>],
)
    requires { AreIdleAt passes.old lock.now }
    ensures { AreIdleAt passes.new lock.now }
{
    thread::for_each_mut(
        rt,
        passes,
        THREADS as usize,
        &|_, pass| count_up(rt, lock, pass, TURNS),
    );
}

// Ends the other passes.
fn join_all(lock: &TurnLock<Tally>, first: &mut Pass<Tally>, mut others: Vec<Pass<Tally>>)
    requires first { IsIdleAt first.old lock.now }
    requires others { AreIdleAt others.items lock.now }
    ensures { IsIdleAt first.new lock.now }
{
    while let Some(other) = others.pop() {
        lock.join(first, other);
    }
    others.destroy_empty();
}

#[test]
fn a_second_pass_is_busy_until_the_first_gives(rt: HostRuntime) -> Result<(), Fail> {
    let Ok((lock, mut first)) = TurnLock::make(rt.alloc(), tally_from(rt.alloc(), 5)) else {
        panic!(rt; "no memory")
    };
    let mut second = lock.split(&mut first);
    let Ok(held) = lock.try_hold(&mut first) else {
        panic!(rt; "the turn was free")
    };
    let refused = lock.try_hold(&mut second);
    assert!(rt; matches!(&refused, Err(Busy { word: 1 })));
    drop(refused);
    lock.give(&mut first, held);
    let Ok(held) = lock.try_hold(&mut second) else {
        panic!(rt; "the turn was free again")
    };
    assert!(rt; held.now == 5);
    lock.give(&mut second, held);
    lock.join(&mut first, second);
    let last = TurnLock::close(&rt, lock, first);
    assert!(rt; last.now == 5);
    Ok(())
}

#[test]
fn sixteen_threads_take_a_thousand_turns_each(rt: HostRuntime) -> Result<(), Fail> {
    let Ok((lock, mut first)) = TurnLock::make(rt.alloc(), tally_from(rt.alloc(), 7)) else {
        panic!(rt; "no memory")
    };
    let Ok(mut passes) = sixteen(rt.alloc(), &lock, &mut first) else {
        panic!(rt; "no memory")
    };
    count_side_by_side(&rt, &lock, &mut passes);
    join_all(&lock, &mut first, passes);
    let last = TurnLock::close(&rt, lock, first);
    assert!(rt; last.now == 7 + THREADS * TURNS && last.first == 7);
    Ok(())
}
