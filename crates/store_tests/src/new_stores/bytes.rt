//! The bytes of new stores of both formats.
use super::*;
use drives::SureDrives;
use page_codec::fresh_image;
use std::test::*;
use test_words::put_text;

/// Two files, 64 blocks and the key 7: the table in block 0, and version pages in blocks 1 and 2.
const OF_TWO: &str = "0.0:a554010000000040000000000000000700000001 \
    0.16:0000000100000001ffda0d45b760bed5 0.32:000000020000000132413d93a210b9d9 \
    1.0:a5560000 1.70:000000010000000000000001 2.70:000000020000000000000001";

/// Sixty-one files: version pages up to block 61, and the one part of the table in block 62.
const OF_SIXTY_ONE: &str = "0.0:a55402000000004000000000000000070000003e 0.20:00000000 \
    1.0:a5560000 61.70:0000003d0000000000000001 62.0:a5450000000000000000000000000000 \
    62.16:0000000100000001ffda0d45b760bed5 62.976:0000003d00000001d48446a4637b5e96 \
    62.992:00000000000000000000000000000000";

/// Whether a half has the words of a text.
fn has_words(alloc: Global, half: &[u8], text: &str) -> Result<bool, Fail> {
    let mut with = Vec::from_slice(alloc, half)?;
    put_text(&mut with, text).ok_or("no words of a half")?;
    Ok(with.as_slice() == half)
}

/// Whether both halves are the same, and have the words of a text.
fn both_have(alloc: Global, a: &[u8], b: &[u8], text: &str) -> Result<bool, Fail> {
    Ok(a == b && has_words(alloc, a, text)?)
}

/// A new store of the key 7 on blank halves of as many blocks.
fn new_of(alloc: Global, files: u32, blocks: u32) -> Result<MemDrives, Fail> {
    let store = NewStore::of(7, files, blocks).ok_or("out of range")?;
    match formatted(MemDrives::blank(alloc, store.blocks)?, &store) {
        (true, drives, _) => Ok(drives),
        (false, _, _) => Err(Fail::new("a half failed")),
    }
}

#[test]
fn both_halves_have_the_bytes(rt: HostRuntime) -> Result<(), Fail> {
    for (files, text) in [(2, OF_TWO), (61, OF_SIXTY_ONE)] {
        let drives = new_of(rt.alloc(), files, 64)?;
        let (a, b) = (drives.half_bytes(Half::A), drives.half_bytes(Half::B));
        assert!(rt; both_have(rt.alloc(), a, b, text)?);
    }
    Ok(())
}

/// Whether a half is the image of the store of two files, with zeros behind it.
fn is_image(alloc: Global, half: &[u8]) -> Result<bool, Fail> {
    let image = fresh_image(alloc, 2, 64, 7)?;
    let has_zeros = half.iter().skip(3 * 1024).all(|byte| *byte == 0);
    Ok(has_zeros && half.starts_with(&image))
}

#[test]
fn a_half_is_the_image_and_zeros(rt: HostRuntime) -> Result<(), Fail> {
    let drives = new_of(rt.alloc(), 2, 64)?;
    assert!(rt; is_image(rt.alloc(), drives.half_bytes(Half::A))?);
    Ok(())
}

/// The new store of two files on halves that never fail.
fn sure_new(alloc: Global) -> Result<SureDrives, Fail> {
    let store = NewStore::of(7, 2, 64).ok_or("out of range")?;
    match format(SureDrives::blank(alloc, store.blocks)?, &store) {
        Ok(drives) => Ok(drives),
        Err(_) => Err(Fail::new("a half failed")),
    }
}

#[test]
fn drives_that_never_fail_have_them_too(rt: HostRuntime) -> Result<(), Fail> {
    let drives = sure_new(rt.alloc())?;
    let (a, b) = (drives.half_bytes(Half::A), drives.half_bytes(Half::B));
    assert!(rt; both_have(rt.alloc(), a, b, OF_TWO)?);
    Ok(())
}
