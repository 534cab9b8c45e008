// The bytes that two updates which merge leave: all of both halves.
use super::*;

/// The bytes that are not zero, block by block, the same on both halves.
const BLOCKS: [&str; 10] = [
    // The table: its gate, its kind `T`, format 1, 64 blocks, and the key. Then for each file the block of its first
    // version, how often it was made, and its secret: the first bytes of SHA-256 over the key, the object, and the generation.
    "0.0:a5 0.1:54 0.2:01 0.4:00000040 0.8:0000000000000007 \
    0.16:00000001 0.20:00000001 0.24:ffda0d45b760bed5 \
    0.32:00000002 0.36:00000001 0.40:32413d93a210b9d9",
    // File 1 as it was made. A version page begins with its gate, its kind `V`, its level 0 and the flag code of `/`, here
    // of no update. Then come its object, its serial, and the block of the next version.
    "1.0:a5560000 1.70:00000001 1.74:0000000000000001 1.82:00000003",
    // File 2 as it was made, and left: no next version.
    "2.0:a5560000 2.70:00000002 2.74:0000000000000001",
    // Version 2 of file 1, whose update searched and modified the slots of `/` (code 3). Slots 0 and 1 name the pages that
    // it made, with code 9: written, searched and modified. Behind the block of the next version comes that of the one before.
    // The mask says that slots 0 and 1 were modified.
    "3.0:a5560003 3.4:90000004 3.8:90000005 3.70:00000001 3.74:0000000000000002 3.82:00000006 \
    3.86:00000001 3.1019:0003",
    // `/0` and `/1` as they were made: pages of kind `P` at level 1, whose mask has all slots.
    "4.0:a5500100 4.1019:ffff",
    "5.0:a5500100 5.1019:ffff",
    // Version 3, by the first client. It searched `/` on its way (code 2), wrote the data of `/0` (code 7), and shares `/1` with
    // version 2 (code 0).
    "6.0:a5560002 6.4:70000007 6.8:00000005 6.70:00000001 6.74:0000000000000003 6.82:00000008 \
    6.86:00000003",
    // Its `/0`: how many bytes of data, and these.
    "7.0:a5500100 7.68:0001 7.219:aa",
    // Version 4, by the second client, the last one. It shares `/0` with version 3, though its update began with version 2.
    "8.0:a5560002 8.4:00000007 8.8:70000009 8.70:00000001 8.74:0000000000000004 8.86:00000006",
    // Its `/1`.
    "9.0:a5500100 9.68:0001 9.219:bb",
];

/// A half with these bytes.
fn half_of(alloc: Global) -> Result<Vec<u8>, Fail> {
    let mut half = Vec::new(alloc);
    half.resize(65536, 0)?;
    for words in BLOCKS {
        put_text(&mut half, words).ok_or("words of a half")?;
    }
    Ok(half)
}

/// Compares a half, block by block.
fn compare(rt: &impl Abort, half: &[u8], wanted: &[u8]) {
    assert_eq!(rt; half.len(), wanted.len());
    for (number, (block, bytes)) in half.chunks(1024).zip(wanted.chunks(1024)).enumerate() {
        assert_eq!(rt; block, bytes, "block {number}");
    }
}

#[test]
fn two_updates_that_merge_leave_these_blocks(rt: HostRuntime) -> Result<(), Fail> {
    let drives = two_pages(rt.alloc())?;
    let (ended, out) = called(rt.alloc(), "play 1 2", WRITERS, (0, 0), drives)?;
    let answers = "1.1 base 2\n1.2 ok\n1.3 committed 3\n2.1 base 2\n2.2 ok\n2.3 committed 4\n\
        file 1: 1 2 3 4\nfile 2: 1\n";
    expect(&rt, 0, (ended.status.code(), &out), (0, answers));
    let half = half_of(rt.alloc())?;
    compare(&rt, ended.drives.half_bytes(Half::A), &half);
    compare(&rt, ended.drives.half_bytes(Half::B), &half);
    Ok(())
}
