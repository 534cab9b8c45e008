//! Halves made by hand: those of a new store of three files, with words put over them.
ghost use Rattle.std.specs.Prelude.{◌≡◌, ◌≤◌, ◌<◌, ◌*◌, length, IfOk};

use drives::MemDrives;
use page_codec::fresh_image;
use std::alloc::Global;
use std::test::Fail;
use test_words::put_text;

/// Files 1 to 3 in blocks 1 to 3. File 1 has a second version in block 4. File 3 names a second
/// version of file 2 as its member, in block 5, to which no link was set.
const HISTORY: &str =
    "1.82:00000004 4.3:07 4.81:02 4.86:00000001 3.90:010000000200000005 5.3:07 5.81:02 \
    5.86:00000002";

/// Puts the words of a text over a half.
fn put(half: &mut Vec<u8>, text: &str) -> Result<(), Fail>
    ensures { length half.new.items ≡ length half.old.items }
{
    put_text(half, text).ok_or("no words of a half")?;
    Ok(())
}

fn copy_block(half: &mut Vec<u8>, from: usize, to: usize)
    ensures { length half.new.items ≡ length half.old.items }
{
    'bytes: for k in 0..1024 {
        if k < half.len() && from < half.len() - k && to < half.len() - k {
            half[to + k] = half[from + k];
        }
    }
}

/// A half of so many blocks with a new store of three files, and all bytes zero behind it.
fn new_half(alloc: Global, blocks: u32) -> Result<Vec<u8>, Fail>
    requires least { 4 ≤ blocks }
    requires most { blocks ≤ 16 }
    ensures { IfOk result (λ half. length half.items ≡ 1024 * blocks) }
{
    let mut half = fresh_image(alloc, 3, blocks, 7)?;
    half.resize(1024 * blocks as usize, 0)?;
    Ok(half)
}

/// A half of sixteen blocks with a new store of three files, and these words over it.
fn plain_half(alloc: Global, pages: &str, words: &str) -> Result<Vec<u8>, Fail>
    ensures { IfOk result (λ half. length half.items ≡ 16384) }
{
    let mut half = new_half(alloc, 16)?;
    put(&mut half, pages)?;
    put(&mut half, words)?;
    Ok(half)
}

/// A half of eight blocks with the history, and these words over it.
pub fn history_half(alloc: Global, base: &str, words: &str) -> Result<Vec<u8>, Fail>
    ensures { IfOk result (λ half. length half.items ≡ 8192) }
{
    let mut half = new_half(alloc, 8)?;
    copy_block(&mut half, 1024, 4096);
    copy_block(&mut half, 2048, 5120);
    put(&mut half, HISTORY)?;
    put(&mut half, base)?;
    put(&mut half, words)?;
    Ok(half)
}

/// Halves of sixteen blocks, both with these words.
pub fn plain_drives(alloc: Global, pages: &str, words: &str) -> Result<MemDrives, Fail> {
    let a = plain_half(alloc, pages, words)?;
    let b = plain_half(alloc, pages, words)?;
    Ok(MemDrives::of_halves(alloc, a, b)?)
}

/// Halves of eight blocks with the history, both with the first words, half A with the second and
/// half B with the third.
pub fn history_drives(
    alloc: Global,
    base: &str,
    on_a: &str,
    on_b: &str,
) -> Result<MemDrives, Fail> {
    let a = history_half(alloc, base, on_a)?;
    let b = history_half(alloc, base, on_b)?;
    Ok(MemDrives::of_halves(alloc, a, b)?)
}
