//! Calls on halves of three blocks: block 0 is closed, block 2 is open, and block 1 is what the call is made on.
ghost use Rattle.std.specs.Prelude.{◌≡◌, ◌*◌, ◌+◌, ◌<◌, ◌≤◌, IfOk, length, slice_index};

use afs_base::BlockNo;
use drives::{Drives, MemDrives, Memory, Pick};
use pair_store::*;
use std::alloc::{AllocError, Global};

mod calls;
mod crashes;

/// A block of this byte but for its gate.
fn block(gate: u8, fill: u8) -> Block
    ensures { slice_index result 0 ≡ gate }
{
    let mut block = [fill; 1024];
    block[0] = gate;
    block
}

/// A version page of object 7 with serial 1, with a commit reference, and with one member or none.
fn version(commit: u8, members: u8) -> Block
    requires { members < 2 }
    ensures { slice_index result 0 ≡ 165 }
{
    let mut block = [0; 1024];
    block[0] = 0xa5;
    block[1] = 0x56;
    block[73] = 7;
    block[81] = 1;
    block[85] = commit;
    block[90] = members;
    block[94] = 9 * members;
    block[98] = 5 * members;
    block
}

fn number(n: u32) -> BlockNo
    requires { n < 268435456 }
    ensures { result ≡ n }
{
    match BlockNo::of(n) {
        Ok(block) => block,
        Err(_) => unreachable!(),
    }
}

/// A half whose block 1 is this one.
fn half(alloc: Global, block_1: &Block) -> Result<Vec<u8>, AllocError>
    ensures { IfOk result (λ half. length half.items ≡ 3072) }
{
    let mut bytes = vec![in alloc; 0; 3072]?;
    bytes[1024..2048].copy_from_slice(block_1);
    bytes[2048..].copy_from_slice(&block(0xa5, 0x33));
    Ok(bytes)
}

/// Halves whose block 1 is these two, on which the call of one number fails; 0 for none.
fn halves(alloc: Global, a: &Block, b: &Block, failing: u64) -> Result<MemDrives, Memory>
    ensures { IfOk result (λ d. ⟦<MemDrives as Drives>⟧.size d ≡ 3) }
{
    let mut calls = Vec::new(alloc);
    calls.push(failing)?;
    let mut drives = MemDrives::of_halves(alloc, half(alloc, a)?, half(alloc, b)?)?;
    drives.fail_at(calls);
    Ok(drives)
}

/// The content of a block; all zeros where it has none, and all ones where it cannot be read.
fn content<V: Drives>(pair: &mut Pair<V>, n: BlockNo) -> Block {
    let mut block = [0; 1024];
    if n.get() >= pair.blocks() {
        return [0xff; 1024];
    }
    match pair.read(n, &mut block) {
        Ok(()) => block,
        Err(PairFault::BothClosed { block: _ }) => [0; 1024],
        Err(_) => [0xff; 1024],
    }
}

/// What an image of a moment has as the content of block 1; all ones where there is no such moment.
fn image_content(drives: &MemDrives, moment: u64, pick: Pick) -> Result<Block, Memory> {
    if moment > drives.now() {
        return Ok([0xff; 1024]);
    }
    Ok(content(&mut Pair::over(drives.image(moment, pick)?), number(1)))
}
