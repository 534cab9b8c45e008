//! New stores on halves in memory.
ghost use Rattle.std.specs.Prelude.{◌≡◌, ◌≤◌, ◌*◌, ◌+◌, IfOk, length};

use drives::{Drives, Half, MemDrives, Memory, Pick};
use new_store::*;
use std::alloc::Global;

mod bytes;
mod crashes;
mod ranges;

/// A new store on drives, and the half that failed where one did; the first is false where the drives have too few blocks.
fn formatted(drives: MemDrives, store: &NewStore) -> (bool, MemDrives, Option<Half>) {
    if drives.blocks() < store.blocks {
        return (false, drives, None);
    }
    match format(drives, store) {
        Ok(drives) => (true, drives, None),
        Err(e) => (false, e.drives, Some(e.half)),
    }
}

/// So many bytes from one on; none where there are not so many.
fn piece(bytes: &[u8], at: usize, len: usize) -> &[u8] {
    if at < bytes.len() && len <= bytes.len() - at {
        &bytes[at..at + len]
    } else {
        &[]
    }
}
