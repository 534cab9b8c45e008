//! The table and its parts, byte by byte, and new stores.
ghost use Rattle.std.specs.Prelude.{◌≤◌};

use super::*;
use std::test::*;

/// Entries from one to another, both included and counted from 0: the first block, the generation and each byte of
/// the secret; the others are zero.
type Entries = &'static [(usize, usize, u32, u32, [u8; 8])];

fn entry_at(entries: Entries, i: usize) -> (u32, u32, [u8; 8]) {
    for (first, last, block, generation, secret) in entries {
        if *first <= i && i <= *last {
            return (*block, *generation, *secret);
        }
    }
    (0, 0, [0; 8])
}

fn are_entries(rt: &impl Abort, entries: &[TableEntry], expected: Entries) {
    for (i, entry) in entries.iter().enumerate() {
        let (block, generation, secret) = entry_at(expected, i);
        assert_eq!(rt;
            (number_of(entry.first), entry.generation),
            (block, generation),
            "entry {i}"
        );
        assert_eq!(rt; entry.secret, secret, "entry {i}");
    }
}

/// Parts from one to another, both included, with their block; the others are not there.
type Parts = &'static [(usize, usize, u32)];

fn are_parts(rt: &impl Abort, parts: &[Option<BlockNo>], expected: Parts) {
    for (j, part) in parts.iter().enumerate() {
        let mut block = 0;
        for (first, last, number) in expected {
            if *first <= j && j <= *last {
                block = *number;
            }
        }
        assert_eq!(rt; number_of(*part), block, "part {j}");
    }
}

/// A block, and of the table in it the format, the number of blocks and the key; the parts and the entries.
const ROOTS: [(&str, [u64; 3], Parts, Entries); 8] = [
    // A new store of two files.
    (
        "0:a554010000000040 8:0000000000000007 16:0000000100000001ffda0d45b760bed5 32:000000020000000132413d93a210b9d9",
        [1, 64, 7],
        &[],
        &[
            (0, 0, 1, 1, [0xff, 0xda, 0x0d, 0x45, 0xb7, 0x60, 0xbe, 0xd5]),
            (1, 1, 2, 1, [0x32, 0x41, 0x3d, 0x93, 0xa2, 0x10, 0xb9, 0xd9]),
        ],
    ),
    // A new store of sixty-one files: its one part is in block 62.
    (
        "0:a5540200000000400000000000000007 16:0000003e",
        [2, 64, 7],
        &[(0, 0, 62)],
        &[],
    ),
    // The greatest numbers, and the least.
    (
        "0:a554010000010000 8:ff*8 16:0000ffffffffffffffffffffffffffff*60",
        [1, 65536, u64::MAX],
        &[],
        &[(0, 59, 65535, 0xffff_ffff, [0xff; 8])],
    ),
    (
        "0:a554020000010000 8:ff*8 16:0000ffff*64",
        [2, 65536, u64::MAX],
        &[(0, 63, 65535)],
        &[],
    ),
    (
        "0:a554010000000002 16:0000000100000001",
        [1, 2, 0],
        &[],
        &[(0, 0, 1, 1, [0; 8])],
    ),
    (
        "0:a554020000000002 268:00000001",
        [2, 2, 0],
        &[(63, 63, 1)],
        &[],
    ),
    ("0:a554020000000002", [2, 2, 0], &[], &[]),
    // A file that is not live any more.
    (
        "0:a554010000000002 964:ffffffff",
        [1, 2, 0],
        &[],
        &[(59, 59, 0, 0xffff_ffff, [0; 8])],
    ),
];

#[test]
fn tables(rt: HostRuntime) -> Result<(), Fail> {
    for (text, numbers, parts, entries) in ROOTS.iter() {
        let block = block_of(&rt, text);
        let root = decode_root(&block)?;
        let table = Table::of_root(rt.alloc(), &root)?;
        assert_eq!(rt;
            [
                u64::from(table.format()),
                u64::from(table.blocks()),
                table.key()
            ],
            *numbers
        );
        are_parts(&rt, table.parts(), parts);
        are_entries(&rt, table.entries(), entries);
        let mut again = [9; 1024];
        encode_table(&table, &mut again);
        assert_eq!(rt; again.as_slice(), block.as_slice(), "{text}");
    }
    Ok(())
}

/// A block, the index of the part in it, and its entries.
const PARTS: [(&str, u8, Entries); 4] = [
    (
        "0:a54501 16:0000000300000002aabbccddeeff0011 32:0000000000000009",
        1,
        &[
            (0, 0, 3, 2, [0xaa, 0xbb, 0xcc, 0xdd, 0xee, 0xff, 0x00, 0x11]),
            (1, 1, 0, 9, [0; 8]),
        ],
    ),
    // The greatest numbers, and the least.
    (
        "0:a5453f 16:0fffffffffffffffffffffffffffffff*63",
        63,
        &[(0, 62, 0x0fff_ffff, 0xffff_ffff, [0xff; 8])],
    ),
    ("0:a54500 16:0000000100000001", 0, &[(0, 0, 1, 1, [0; 8])]),
    ("0:a54500 1012:00000001", 0, &[(62, 62, 0, 1, [0; 8])]),
];

#[test]
fn parts(rt: HostRuntime) -> Result<(), Fail> {
    for (text, j, expected) in PARTS.iter() {
        assert!(rt; *j < 64);
        let block = block_of(&rt, text);
        let entries = decode_part(&block, *j)?;
        are_entries(&rt, &entries, expected);
        let mut again = [9; 1024];
        encode_entries(*j, &entries, &mut again);
        assert_eq!(rt; again.as_slice(), block.as_slice(), "{text}");
    }
    Ok(())
}

/// The files, blocks and key of a new store, and some of its blocks.
const STORES: [(u32, u32, u64, &[(usize, &str)]); 3] = [
    (
        2,
        64,
        7,
        &[
            (
                0,
                "0:a554010000000040 8:0000000000000007 16:0000000100000001ffda0d45b760bed5 32:000000020000000132413d93a210b9d9",
            ),
            (1, "0:a5560000 70:000000010000000000000001"),
            (2, "0:a5560000 70:000000020000000000000001"),
        ],
    ),
    (60, 61, 7, &[(60, "0:a5560000 70:0000003c0000000000000001")]),
    (1, 2, 0, &[(1, "0:a5560000 70:000000010000000000000001")]),
];

#[test]
fn new_stores(rt: HostRuntime) -> Result<(), Fail> {
    for (files, blocks, key, expected) in STORES.iter() {
        assert!(rt; 1 <= *files && *files <= 60 && *files < *blocks && *blocks <= 65536);
        let image = fresh_image(rt.alloc(), *files, *blocks, *key)?;
        assert_eq!(rt; image.chunks(1024).len(), *files as usize + 1);
        for (n, text) in expected.iter() {
            let block = image.chunks(1024).nth(*n).ok_or("no such block")?;
            assert_eq!(rt; block, block_of(&rt, text).as_slice(), "{text}");
        }
    }
    Ok(())
}

/// The entry of an object of a new store of key 7.
fn new_entry(object: u32) -> TableEntry
    requires low { 1 ≤ object }
    requires high { object ≤ 63 }
{
    TableEntry::live(BlockNo::at(object), 1, secret_of(7, object, 1))
}

#[test]
fn the_part_of_a_store_of_sixty_one_files(rt: HostRuntime) -> Result<(), Fail> {
    let root = decode_root(&block_of(&rt, "0:a5540200000000400000000000000007"))?;
    let mut table = Table::of_root(rt.alloc(), &root)?;
    for object in 1..=61u32 {
        if table.format() == 2 {
            table.set_entry(object as usize, new_entry(object));
        }
    }
    assert!(rt; table.format() == 2);
    assert!(rt; table.is_used_part(0));
    let mut part = [9; 1024];
    encode_part(&table, 0, &mut part);
    let mut same = part;
    let words =
        "0:a54500 3:00*13 16:0000000100000001ffda0d45b760bed5 32:000000020000000132413d93a210b9d9 960:0000003c00000001fad82c645537d795 976:0000003d00000001d48446a4637b5e96 992:00*32";
    assert!(rt; put_text(&mut same, words).is_some());
    assert_eq!(rt; same.as_slice(), part.as_slice());
    Ok(())
}
