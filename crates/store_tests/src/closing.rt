//! What closing costs and leaves, by the gates that it finds.
ghost use Rattle.std.specs.Prelude.{◌≡◌, IfOk, length};

use afs_base::BlockNo;
use drives::{Drives, Half, MemDrives, Memory};
use pair_store::{PairFault, close_block};
use std::alloc::{AllocError, Global};
use std::process::Abort;
use std::test::Fail;

/// A half of one block with this gate.
fn half(alloc: Global, gate: u8) -> Result<Vec<u8>, AllocError>
    ensures { IfOk result (λ half. length half.items ≡ 1024) }
{
    let mut bytes = vec![in alloc; 0x11; 1024]?;
    bytes[0] = gate;
    Ok(bytes)
}

/// A half's gate.
fn gate_of(drives: &MemDrives, half: Half) -> Option<u8> {
    drives.half_bytes(half).first().copied()
}

/// Halves of one block with these gates, of which one call fails; 0 for none.
fn gated(alloc: Global, a: u8, b: u8, failing: u64) -> Result<MemDrives, Memory> {
    let mut drives = MemDrives::of_halves(alloc, half(alloc, a)?, half(alloc, b)?)?;
    let mut calls = Vec::new(alloc);
    calls.push(failing)?;
    drives.fail_at(calls);
    Ok(drives)
}

/// Closes block 0, and gives the half that failed.
fn closed(drives: &mut MemDrives) -> Option<Half> {
    let block = BlockNo::of(0).ok()?;
    if drives.blocks() <= block.get() {
        return None;
    }
    match close_block(drives, block) {
        Err(PairFault::WriteFault { half }) => Some(half),
        _ => None,
    }
}

/// The gates on half A and on half B before, and the call that fails; the half that failed, the number of calls, and the
/// gates then.
type Row = (u8, u8, u64, Option<Half>, u64, u8, u8);

const ROWS: [Row; 8] = [
    (0xa5, 0xa5, 0, None, 6, 0, 0),
    (0xa5, 7, 0, None, 4, 0, 7),
    (7, 0xa5, 0, None, 4, 7, 0),
    (0, 7, 0, None, 2, 0, 7),
    (0xa5, 0xa5, 1, Some(Half::A), 1, 0xa5, 0xa5),
    (0xa5, 0xa5, 3, Some(Half::A), 3, 0, 0xa5),
    (0xa5, 0xa5, 4, Some(Half::B), 4, 0, 0xa5),
    (0xa5, 0xa5, 6, Some(Half::B), 6, 0, 0),
];

/// Closes block 0, and compares with a row.
fn is_closed(rt: &impl Abort, drives: &mut MemDrives, at: usize, row: &Row) {
    let (_, _, _, half, calls, a, b) = *row;
    assert_eq!(rt; closed(drives), half, "row {at}");
    assert_eq!(rt; drives.now(), calls, "row {at}");
    assert_eq!(rt; gate_of(drives, Half::A), Some(a), "row {at}");
    assert_eq!(rt; gate_of(drives, Half::B), Some(b), "row {at}");
}

#[test]
fn half_a_is_closed_first_and_a_closed_gate_is_not_written(rt: HostRuntime) -> Result<(), Fail> {
    for (at, row) in ROWS.iter().enumerate() {
        let mut drives = gated(rt.alloc(), row.0, row.1, row.2)?;
        is_closed(&rt, &mut drives, at, row);
    }
    Ok(())
}
