//! Pages and version pages, byte by byte.
use super::*;
use std::test::*;

/// Slots from one to another, both included, with their flag code and their block; the others are empty.
type Slots = &'static [(usize, usize, u8, u32)];

fn slot_at(slots: &[(usize, usize, u8, u32)], k: usize) -> (u8, u32) {
    for (first, last, code, block) in slots {
        if *first <= k && k <= *last {
            return (*code, *block);
        }
    }
    (0, 0)
}

/// A page's level, mask, slots and data.
fn is_page(
    rt: &impl Abort,
    page: &Page,
    numbers: [u64; 2],
    slots: &[(usize, usize, u8, u32)],
    data: &[u8],
) {
    assert_eq!(rt; [u64::from(page.level), u64::from(page.modified)], numbers);
    assert_eq!(rt; page.bytes.bytes(), data);
    for (k, slot) in page.refs.iter().enumerate() {
        assert_eq!(rt;
            (slot.flags.code(), number_of(slot.block)),
            slot_at(slots, k),
            "slot {k}"
        );
    }
}

/// A block, and the level, mask, slots and data of the page in it.
const PAGES: [(&str, [u64; 2], Slots, &[u8]); 7] = [
    // A page that an update made.
    ("0:a5500100 1019:ffff", [1, 0xffff], &[], b""),
    // The pages `/0` and `/1` of two updates that wrote one each.
    ("0:a5500100 68:0001 219:aa", [1, 0], &[], &[0xaa]),
    ("0:a5500100 68:0001 219:bb", [1, 0], &[], &[0xbb]),
    // The thirteen codes.
    (
        "0:a5500200 4:00000001100000022000000330000004 20:40000005500000066000000770000008 36:800000099000000aa000000bb000000c 52:c000000d",
        [2, 0],
        &[
            (0, 0, 0, 1),
            (1, 1, 1, 2),
            (2, 2, 2, 3),
            (3, 3, 3, 4),
            (4, 4, 4, 5),
            (5, 5, 5, 6),
            (6, 6, 6, 7),
            (7, 7, 7, 8),
            (8, 8, 8, 9),
            (9, 9, 9, 10),
            (10, 10, 10, 11),
            (11, 11, 11, 12),
            (12, 12, 12, 13),
        ],
        b"",
    ),
    // The greatest numbers, and the least.
    (
        "0:a5500600 4:cfffffff*16 68:0320 219:ff*800 1019:ffff",
        [6, 0xffff],
        &[(0, 15, 12, 0x0fff_ffff)],
        &[0xff; 800],
    ),
    ("0:a5500700 68:0320", [7, 0], &[], &[0; 800]),
    ("0:a5500100 64:00000001", [1, 0], &[(15, 15, 0, 1)], b""),
];

#[test]
fn pages(rt: HostRuntime) -> Result<(), Fail> {
    for (text, numbers, slots, data) in PAGES.iter() {
        let block = block_of(&rt, text);
        let page = decode_page(&block)?;
        is_page(&rt, &page, *numbers, slots, data);
        let mut again = [9; 1024];
        encode_page(&page, &mut again);
        assert_eq!(rt; again.as_slice(), block.as_slice(), "{text}");
    }
    Ok(())
}

/// A block, and of the version page in it the flag code of `/`, the object, the serial, the commit reference, the base
/// reference and the mask; the slots, the data and the members.
type Version = (
    &'static str,
    [u64; 6],
    Slots,
    &'static [u8],
    &'static [(u32, u32)],
);

const VERSIONS: [Version; 11] = [
    // A new file's version; with data that was written and then read; and the new file's version, linked to it.
    (
        "0:a5560000 70:000000010000000000000001",
        [0, 1, 1, 0, 0, 0],
        &[],
        b"",
        &[],
    ),
    (
        "0:a5560007 68:0002 70:000000010000000000000002 82:0000000000000001 219:6869",
        [7, 1, 2, 0, 1, 0],
        &[],
        b"hi",
        &[],
    ),
    (
        "0:a5560000 70:000000010000000000000001 82:00000003",
        [0, 1, 1, 3, 0, 0],
        &[],
        b"",
        &[],
    ),
    // `/0` and `/1` were made.
    (
        "0:a5560003 4:9000000490000005 70:000000010000000000000002 82:0000000000000001 1019:0003",
        [3, 1, 2, 0, 1, 3],
        &[(0, 0, 9, 4), (1, 1, 9, 5)],
        b"",
        &[],
    ),
    // The same with its link, and two updates of it that wrote `/0` and `/1`: what they did not write is shared.
    (
        "0:a5560003 4:9000000490000005 70:000000010000000000000002 82:0000000600000001 1019:0003",
        [3, 1, 2, 6, 1, 3],
        &[(0, 0, 9, 4), (1, 1, 9, 5)],
        b"",
        &[],
    ),
    (
        "0:a5560002 4:7000000700000005 70:000000010000000000000003 82:0000000800000003",
        [2, 1, 3, 8, 3, 0],
        &[(0, 0, 7, 7), (1, 1, 0, 5)],
        b"",
        &[],
    ),
    (
        "0:a5560002 4:0000000770000009 70:000000010000000000000004 82:0000000000000006",
        [2, 1, 4, 0, 6, 0],
        &[(0, 0, 0, 7), (1, 1, 7, 9)],
        b"",
        &[],
    ),
    // A slot that names a block which is another page's: the block alone does not show it.
    (
        "0:a5560000 4:00000001 70:000000010000000000000001",
        [0, 1, 1, 0, 0, 0],
        &[(0, 0, 0, 1)],
        b"",
        &[],
    ),
    // The greatest numbers, the least, and two members.
    (
        "0:a556000c 4:cfffffff*16 68:0320 70:ff*12 82:0fffffff*2 90:10 91:ffffffff0fffffff*16 219:ff*800 1019:ffff",
        [12, 0xffff_ffff, u64::MAX, 0x0fff_ffff, 0x0fff_ffff, 0xffff],
        &[(0, 15, 12, 0x0fff_ffff)],
        &[0xff; 800],
        &[(0xffff_ffff, 0x0fff_ffff); 16],
    ),
    (
        "0:a5560001 64:00000001 68:0001 70:000000010000000000000001 82:00000001 90:01 91:0000000100000001 1019:0001",
        [1, 1, 1, 1, 0, 1],
        &[(15, 15, 0, 1)],
        &[0],
        &[(1, 1)],
    ),
    (
        "0:a5560007 70:000000010000000000000002 86:00000001 90:02 91:00000002000000060000000300000007",
        [7, 1, 2, 0, 1, 0],
        &[],
        b"",
        &[(2, 6), (3, 7)],
    ),
];

/// The flag code of `/`, the object, the serial, the commit reference, the base reference and the mask.
fn numbers_of(version: &VersionPage) -> [u64; 6] {
    [
        u64::from(version.root.code()),
        u64::from(version.object),
        version.serial,
        u64::from(number_of(version.commit)),
        u64::from(number_of(version.base)),
        u64::from(version.page.modified),
    ]
}

fn are_members(rt: &impl Abort, members: &Members, expected: &[(u32, u32)]) {
    assert_eq!(rt; members.len(), expected.len());
    for (member, numbers) in members.as_slice().iter().zip(expected) {
        assert_eq!(rt; (member.object, member.block.get()), *numbers);
    }
}

#[test]
fn version_pages(rt: HostRuntime) -> Result<(), Fail> {
    for (text, numbers, slots, data, members) in VERSIONS.iter() {
        let block = block_of(&rt, text);
        let version = decode_version(&block)?;
        assert_eq!(rt; numbers_of(&version), *numbers);
        is_page(&rt, &version.page, [0, numbers[5]], slots, data);
        are_members(&rt, &version.members, members);
        let mut again = [9; 1024];
        encode_version(&version, &mut again);
        assert_eq!(rt; again.as_slice(), block.as_slice(), "{text}");
    }
    Ok(())
}
