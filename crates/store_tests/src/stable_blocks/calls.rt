//! What each call costs and answers.
ghost use Rattle.std.specs.Prelude.{◌≡◌, IfOk};

use super::*;
use drives::{Half, SureDrives};
use std::process::Abort;
use std::test::*;

/// The first two bytes of block 1 on a half, as one number.
fn first_two(drives: &MemDrives, half: Half) -> u16 {
    let bytes = drives.half_bytes(half);
    if bytes.len() < 1026 {
        return 0xffff;
    }
    u16::from_be_bytes([bytes[1024], bytes[1025]])
}

/// Halves whose block 1 begins with these two bytes, on which one call fails; 0 for none.
fn begun(alloc: Global, a: u16, b: u16, failing: u64) -> Result<Pair<MemDrives>, Memory>
    ensures { IfOk result (λ p. ⟦<Pair<MemDrives> as Blocks>⟧.size p ≡ 3) }
{
    let (a, b) = (a.to_be_bytes(), b.to_be_bytes());
    let drives = halves(alloc, &block(a[0], a[1]), &block(b[0], b[1]), failing)?;
    Ok(Pair::over(drives))
}

/// The half that failed in a write.
fn unwritten(answer: Result<(), PairFault>) -> Option<Half> {
    match answer {
        Err(PairFault::WriteFault { half }) => Some(half),
        _ => None,
    }
}

/// What an image of the last moment has as the second byte of block 1.
fn second_in(drives: &MemDrives, pick: Pick) -> Result<u8, Memory> {
    Ok(image_content(drives, drives.now(), pick)?[1])
}

/// A stable write of block 1: its first two bytes on half A and on half B, and the call that fails; the half that
/// failed in it, how many device
/// calls it made, the second byte of the block's content in the images `Old` and `New` then, and its first two bytes on
/// both halves.
type Write = (u16, u16, u64, Option<Half>, u64, u8, u8, u16, u16);

const WRITES: [Write; 8] = [
    // Seven calls for a half that was open, five for one that was closed.
    (0xa511, 0xa511, 0, None, 14, 0x22, 0x22, 0xa522, 0xa522),
    (0x0011, 0x0011, 0, None, 10, 0x22, 0x22, 0xa522, 0xa522),
    (0x0011, 0xa511, 0, None, 12, 0x22, 0x22, 0xa522, 0xa522),
    // Half B's body fails: half B is closed, and half A has the old content.
    (
        0xa511,
        0xa511,
        4,
        Some(Half::B),
        4,
        0x11,
        0x11,
        0xa511,
        0x0011,
    ),
    // Half B's last sync fails.
    (
        0xa511,
        0xa511,
        7,
        Some(Half::B),
        7,
        0x11,
        0x22,
        0xa511,
        0xa522,
    ),
    // Half A's gate fails: half B has the new content.
    (
        0xa511,
        0xa511,
        8,
        Some(Half::A),
        8,
        0x22,
        0x22,
        0xa511,
        0xa522,
    ),
    (
        0xa511,
        0xa511,
        9,
        Some(Half::A),
        9,
        0x22,
        0x22,
        0xa511,
        0xa522,
    ),
    // Half A's body fails: half A is closed.
    (
        0xa511,
        0xa511,
        11,
        Some(Half::A),
        11,
        0x22,
        0x22,
        0x0011,
        0xa522,
    ),
];

/// Compares the moment and the number of operations.
fn counts<V: Drives>(rt: &impl Abort, pair: &Pair<V>, now: u64, operations: u64) {
    assert_eq!(rt; pair.now(), now);
    assert_eq!(rt; pair.operations(), operations);
}

/// Compares the first two bytes of block 1 on both halves.
fn are_left(rt: &impl Abort, drives: &MemDrives, a: u16, b: u16) {
    assert_eq!(rt; first_two(drives, Half::A), a);
    assert_eq!(rt; first_two(drives, Half::B), b);
}

/// Compares what a write left with a row.
fn is_written(rt: &impl Abort, drives: &MemDrives, row: &Write) -> Result<(), Memory> {
    let (_, _, _, _, calls, old, new, a, b) = *row;
    assert_eq!(rt; drives.now(), calls);
    assert_eq!(rt; second_in(drives, Pick::Old)?, old);
    assert_eq!(rt; second_in(drives, Pick::New)?, new);
    are_left(rt, drives, a, b);
    Ok(())
}

#[test]
fn a_write_is_fourteen_calls_half_b_first(rt: HostRuntime) -> Result<(), Fail> {
    for row in WRITES {
        let mut pair = begun(rt.alloc(), row.0, row.1, row.2)?;
        let failed = unwritten(pair.write(number(1), &block(0xa5, 0x22)));
        assert_eq!(rt; failed, row.3);
        is_written(&rt, pair.faults_of(), &row)?;
    }
    Ok(())
}

/// A mending of block 1: its first two bytes on half A and on half B, and the call that fails; the answer, how many
/// device calls it makes, and
/// the first two bytes of the block on both halves then.
type Mending = (u16, u16, u64, Result<Mended, PairFault>, u64, u16, u16);

const FROM_A: Result<Mended, PairFault> = Ok(Mended::Copied { from: Half::A });

const FROM_B: Result<Mended, PairFault> = Ok(Mended::Copied { from: Half::B });

const UNREAD_A: Result<Mended, PairFault> = Err(PairFault::ReadFault { half: Half::A });

const UNREAD_B: Result<Mended, PairFault> = Err(PairFault::ReadFault { half: Half::B });

const UNWRITTEN_B: Result<Mended, PairFault> = Err(PairFault::WriteFault { half: Half::B });

const MENDINGS: [Mending; 8] = [
    (0xa501, 0xa501, 0, Ok(Mended::Same), 2, 0xa501, 0xa501),
    (0xa501, 0x0002, 0, FROM_A, 7, 0xa501, 0xa501),
    (0xa501, 0xa502, 0, FROM_B, 9, 0xa502, 0xa502),
    (0x0001, 0xa502, 0, FROM_B, 7, 0xa502, 0xa502),
    (0x0001, 0x0002, 0, Ok(Mended::Nothing), 2, 0x0001, 0x0002),
    (0xa501, 0xa501, 1, UNREAD_B, 1, 0xa501, 0xa501),
    (0xa501, 0x0002, 2, UNREAD_A, 2, 0xa501, 0x0002),
    (0xa501, 0x0002, 3, UNWRITTEN_B, 3, 0xa501, 0x0002),
];

/// Mends block 1, and compares with a row.
fn is_mended(rt: &impl Abort, pair: &mut Pair<MemDrives>, row: &Mending)
    requires { ⟦<Pair<MemDrives> as Blocks>⟧.size pair.old ≡ 3 }
{
    assert_eq!(rt; pair.mend(number(1)), row.3);
    assert_eq!(rt; pair.now(), row.4);
    are_left(rt, pair.faults_of(), row.5, row.6);
}

#[test]
fn mending_makes_the_halves_equal(rt: HostRuntime) -> Result<(), Fail> {
    for row in MENDINGS {
        let mut pair = begun(rt.alloc(), row.0, row.1, row.2)?;
        is_mended(&rt, &mut pair, &row);
    }
    Ok(())
}

/// The first two bytes of block 1 on both halves, the call that fails, how many of the three blocks need no mending
/// before one that
/// does, and how many device calls it takes to tell.
type Settled = (u16, u16, u64, Result<u32, PairFault>, u64);

const RUNS: [Settled; 7] = [
    (0xa501, 0xa501, 0, Ok(3), 2),
    (0x0001, 0x0002, 0, Ok(3), 2),
    (0xa501, 0xa502, 0, Ok(1), 2),
    (0xa501, 0x0002, 0, Ok(1), 2),
    (0x0001, 0xa502, 0, Ok(1), 2),
    (
        0xa501,
        0xa501,
        1,
        Err(PairFault::ReadFault { half: Half::B }),
        1,
    ),
    (
        0xa501,
        0xa501,
        2,
        Err(PairFault::ReadFault { half: Half::A }),
        2,
    ),
];

/// Counts from block 0 on, and compares with a row.
fn is_run(rt: &impl Abort, pair: &mut Pair<MemDrives>, run: &mut Run, row: &Settled)
    requires { ⟦<Pair<MemDrives> as Blocks>⟧.size pair.old ≡ 3 }
{
    assert_eq!(rt; pair.count_settled(number(0), 3, run), row.3);
    counts(rt, pair, row.4, 0);
}

#[test]
fn a_run_ends_at_the_first_block_that_needs_mending(rt: HostRuntime) -> Result<(), Fail> {
    let mut run = Run::new();
    for row in RUNS {
        let mut pair = begun(rt.alloc(), row.0, row.1, row.2)?;
        is_run(&rt, &mut pair, &mut run, &row);
    }
    Ok(())
}

/// A version page is tested and set twice, and its members are cleared, on any drives of three blocks: ten calls for
/// closed halves, one read and
/// fourteen for open ones, one read, one and fourteen again.
fn tested<V: Drives>(rt: &impl Abort, pair: &mut Pair<V>)
    requires { ⟦<Pair<V> as Blocks>⟧.size pair.old ≡ 3 }
{
    let _ = pair.write(number(1), &version(0, 1));
    counts(rt, pair, 10, 1);
    assert_eq!(rt; pair.test_and_set(number(1), number(2)), Ok(Tas::Set));
    counts(rt, pair, 25, 2);
    let taken = Ok(Tas::Taken { by: number(2) });
    assert_eq!(rt; pair.test_and_set(number(1), number(4)), taken);
    counts(rt, pair, 26, 3);
    let _ = pair.clear_members(number(1));
    counts(rt, pair, 41, 4);
}

/// Compares both kinds of drives after that.
fn are_same(rt: &impl Abort, drives: &MemDrives, sure: &SureDrives) -> Result<(), Memory> {
    assert!(rt; image_content(drives, 41, Pick::Old)? == version(2, 0));
    assert!(rt; drives.half_bytes(Half::A) == sure.half_bytes(Half::A));
    assert!(rt; drives.half_bytes(Half::B) == sure.half_bytes(Half::B));
    Ok(())
}

#[test]
fn a_reference_is_set_once_on_both_kinds_of_drives(rt: HostRuntime) -> Result<(), Fail> {
    let mut pair = Pair::over(MemDrives::blank(rt.alloc(), 3)?);
    tested(&rt, &mut pair);
    let mut sure = Pair::over(SureDrives::blank(rt.alloc(), 3)?);
    tested(&rt, &mut sure);
    are_same(&rt, pair.faults_of(), sure.faults_of())?;
    Ok(())
}
