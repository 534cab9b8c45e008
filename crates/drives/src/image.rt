// The image of a half at a moment that has passed, made from the record of its calls.
ghost use Rattle.std.specs.Prelude.{◌≡◌, ℕ, ◌+◌, ◌<◌, ◌≤◌, true, length, slice_index, IfOk};
ghost use Rattle.drives.specs.Bytes.{IsBytes};
ghost use Rattle.drives.specs.Crash.{Torn};
ghost use Rattle.drives.specs.Replay.{State, what_fits, calls_fit, replay_step, replayed};
ghost use Rattle.drives.specs.Picked.{Touches, Tears, IsReplayed};

use crate::bytes::write_over;
use crate::call::{Call, Pick, What};
use afs_base::Memory;
use std::alloc::Global;

// One byte over a whole range.
fn fill(half: &mut Vec<u8>, at: u64, len: u64, byte: u8)
    requires { at + len ≤ length half.old.items }
    ensures range { Torn at len half.old.items half.new.items }
    ensures filled { (i : ℕ) → at ≤ i → i < at + len → slice_index half.new.items i ≡ byte }
{
    let start = at as usize;
    let end = start + len as usize;
    for i in start..end {
        half[i] = byte;
    }
}

// What a write that is not synced shows in the image.
fn touch(image: &mut Vec<u8>, pick: Pick, at: u64, bytes: &[u8])
    requires { at + length bytes.now ≤ length image.old.items }
    ensures { Touches pick at bytes.now image.old.items image.new.items }
{
    match pick {
        Pick::Old => {}
        Pick::New => write_over(image, at, bytes),
        Pick::Fill(byte) => fill(image, at, bytes.len() as u64, byte),
    }
}

// What a failed write shows in the image.
fn tear(image: &mut Vec<u8>, pick: Pick, at: u64, len: u64)
    requires { at + len ≤ length image.old.items }
    ensures { Tears pick at len image.old.items image.new.items }
{
    if let Pick::Fill(byte) = pick {
        fill(image, at, len, byte);
    }
}

// One more call of the record, if it was not after the moment.
fn replay(call: &Call, moment: u64, pick: Pick, bytes: &mut Vec<u8>, image: &mut Vec<u8>)
    requires fits { what_fits (length bytes.old.items) call.now.what ≡ true }
    requires size { length image.old.items ≡ length bytes.old.items }
    ensures replayed { (s : State) → IsReplayed pick s bytes.old.items image.old.items
        → IsReplayed pick (replay_step moment s call.now) bytes.new.items image.new.items }
    ensures bytes { length bytes.new.items ≡ length bytes.old.items }
    ensures image { length image.new.items ≡ length image.old.items }
    ensures fits { IsBytes image.new.items }
{
    if call.when > moment {
        return;
    }
    match &call.what {
        What::Write { at, bytes: written } => {
            write_over(bytes, *at, written);
            touch(image, pick, *at, written);
        }
        What::Tear { at, len } => tear(image, pick, *at, *len),
        What::Sync => image.copy_from_slice(bytes),
    }
}

/// The image that a pick names, after the recorded calls up to a moment on a half that began with
/// `first`.
pub fn image_at(
    alloc: Global,
    first: &Vec<u8>,
    calls: &Vec<Call>,
    moment: u64,
    pick: Pick,
) -> Result<Vec<u8>, Memory>
    requires { calls_fit (length first.now.items) calls.now.items ≡ true }
    ensures length { IfOk result (λ image. length image.items ≡ length first.now.items) }
    ensures fits { IfOk result (λ image. IsBytes image.items) }
    ensures replayed { IfOk result (λ image. let state = replayed first.now.items moment
        calls.now.items in IsReplayed pick state state.bytes image.items) }
{
    let mut bytes = first.to_vec(alloc)?;
    let mut image = first.to_vec(alloc)?;
    for call in calls {
        replay(call, moment, pick, &mut bytes, &mut image);
    }
    Ok(image)
}
