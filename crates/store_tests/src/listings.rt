//! Versions made by hand: pages with data and without, seven levels, and each cause once.
use crate::patched::plain_drives;
use afs_base::BlockNo;
use page_codec::Why;
use pair_store::Pair;
use std::alloc::Global;
use std::test::Fail;
use store_check::WalkRefused;
use tree_listing::list_tree;

/// `/` in block 1 has data and the slots 0 and 1, `/0` in block 4 has slot 3 and no data, `/1` in block 5 and `/0/3` in
/// block 6 have data.
const FOUR_PAGES: &str =
    "1.4:0000000400000005 1.68:0002 1.219:6869 4.0:a55001 4.16:00000006 5.0:a55001 5.68:0003 \
    5.219:ff00ab 6.0:a55002 6.68:00010000";

/// A chain of pages down to level 7, in blocks 4 to 10.
const SEVEN_LEVELS: &str =
    "1.52:00000004 4.0:a55001 4.64:00000005 5.0:a55002 5.4:00000006 6.0:a55003 6.8:00000007 \
    7.0:a55004 7.12:00000008 8.0:a55005 8.16:00000009 9.0:a55006 9.20:0000000a \
    10.0:a55007";

/// What is put over the store, and what its first version is listed as.
const TEXTS: [(&str, &str); 3] = [
    ("", "/ -\n"),
    (FOUR_PAGES, "/ 6869\n/0 -\n/0/3 00\n/1 ff00ab\n"),
    (
        SEVEN_LEVELS,
        "/ -\n/12 -\n/12/15 -\n/12/15/0 -\n/12/15/0/1 -\n/12/15/0/1/2 -\n/12/15/0/1/2/3 -\n/12/15/0/1/2/3/4 -\n",
    ),
];

/// The block that is listed, what is put over the four pages, and the block and the cause of the refusal.
const CASES: [(u32, &str, u32, Why); 8] = [
    (16, "", 16, Why::Reference),
    (9, "", 9, Why::Closed),
    (4, "", 4, Why::Kind),
    (1, "1.4:00000010", 1, Why::Reference),
    (1, "1.4:00000009", 9, Why::Closed),
    (1, "1.4:00000002", 2, Why::Kind),
    (1, "4.2:02", 4, Why::Level),
    (1, "6.2:01", 6, Why::Level),
];

/// What the version in block `root` is listed as, with these words over the store.
fn listed(
    alloc: Global,
    pages: &str,
    words: &str,
    root: u32,
) -> Result<(Vec<u8>, Result<(), WalkRefused>), Fail> {
    let mut pair = Pair::over(plain_drives(alloc, pages, words)?);
    let mut out = Vec::new(alloc);
    let answer = list_tree(alloc, &mut pair, BlockNo::of(root)?, &mut out);
    Ok((out, answer))
}

fn bad(block: u32, why: Why) -> Result<Option<WalkRefused>, Fail> {
    Ok(Some(WalkRefused::BadStore {
        block: BlockNo::of(block)?,
        why,
    }))
}

#[test]
fn pages_stand_in_the_order_of_their_paths(rt: HostRuntime) -> Result<(), Fail> {
    for (pages, text) in TEXTS {
        let (out, answer) = listed(rt.alloc(), pages, "", 1)?;
        answer?;
        assert_eq!(rt; out.as_slice(), text.as_bytes());
    }
    Ok(())
}

#[test]
fn each_cause_is_told(rt: HostRuntime) -> Result<(), Fail> {
    for (root, words, block, why) in CASES {
        let (_out, answer) = listed(rt.alloc(), FOUR_PAGES, words, root)?;
        assert_eq!(rt; answer.err(), bad(block, why)?);
    }
    Ok(())
}
