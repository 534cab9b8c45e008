//! Stores made by hand: a file with two versions, a member that is not linked yet, and each cause once.
use crate::patched::history_drives;
use afs_base::BlockNo;
use page_codec::Why;
use pair_store::Pair;
use std::alloc::Global;
use std::process::Abort;
use std::test::Fail;
use store_check::{Checked, FoundFile, WalkRefused, check};

/// A page at `/0` of the second version of file 1, in block 6.
const PAGE: &str = "4.4:10000006 6.0:a55001";

/// A table of format 2, whose part 0 in block 7 has the entry of file 1.
const PARTS: &str = "0.2:02 0.16:00*960 0.16:00000007 7.0:a54500 7.16:0000000100000001";

/// What is put on top of the files, and the block and the cause for which the store is refused
/// then, if it is.
type Case = (&'static str, u32, Option<Why>);

/// Causes of block 0.
const TABLE_CASES: [Case; 14] = [
    ("", 0, None),
    ("0.0:00", 0, Some(Why::Closed)),
    ("0.1:50", 0, Some(Why::Kind)),
    ("0.2:03", 0, Some(Why::Format)),
    ("0.4:00000001", 0, Some(Why::Blocks)),
    ("0.4:00010001", 0, Some(Why::Blocks)),
    // In range, and above the number of the halves.
    ("0.4:00000009", 0, Some(Why::Blocks)),
    ("0.16:00000008", 0, Some(Why::Reference)),
    ("0.23:00", 0, Some(Why::Generation)),
    ("0.72:01", 0, Some(Why::Secret)),
    ("0.3:01", 0, Some(Why::Zero)),
    ("0.976:01", 0, Some(Why::Zero)),
    ("0.32:00000001", 1, Some(Why::Seen)),
    ("0.48:00000007", 7, Some(Why::Closed)),
];

/// Causes of version pages, and of how they follow each other.
const VERSION_CASES: [Case; 26] = [
    // The base of a first version is not looked at.
    ("1.86:00000007", 0, None),
    ("1.0:00", 1, Some(Why::Closed)),
    ("1.1:50", 1, Some(Why::Kind)),
    ("1.2:01", 1, Some(Why::Level)),
    ("1.3:0d", 1, Some(Why::Code)),
    ("1.4:d0", 1, Some(Why::Code)),
    ("1.4:10", 1, Some(Why::Reference)),
    ("1.4:00000008", 1, Some(Why::Reference)),
    ("1.82:10", 1, Some(Why::Reference)),
    ("1.86:10", 1, Some(Why::Reference)),
    ("1.68:0321", 1, Some(Why::Length)),
    ("1.73:00", 1, Some(Why::Object)),
    ("1.73:02", 1, Some(Why::Object)),
    ("1.81:00", 1, Some(Why::Serial)),
    ("1.90:11", 1, Some(Why::Member)),
    ("1.99:01", 1, Some(Why::Zero)),
    ("1.219:01", 1, Some(Why::Zero)),
    ("1.1023:01", 1, Some(Why::Zero)),
    ("1.82:00000001", 1, Some(Why::Seen)),
    // It is not the last one, and names a member.
    ("1.90:010000000200000005", 1, Some(Why::Member)),
    ("4.81:03", 4, Some(Why::Serial)),
    ("4.89:02", 4, Some(Why::Base)),
    ("4.3:00", 4, Some(Why::Code)),
    ("4.82:00000008", 4, Some(Why::Reference)),
    // A page that was not copied is that of the version before, which has none.
    ("4.4:00000006", 4, Some(Why::Reference)),
    ("4.4:10000006", 6, Some(Why::Closed)),
];

/// Causes of members and of the versions that they name.
const MEMBER_CASES: [Case; 14] = [
    // No object, no block, and a block that is too great.
    ("3.94:00", 3, Some(Why::Member)),
    ("3.98:00", 3, Some(Why::Member)),
    ("3.95:10", 3, Some(Why::Member)),
    // The top itself, a file that is not live, and none that there may be.
    ("3.94:03", 3, Some(Why::Member)),
    ("3.94:04", 3, Some(Why::Member)),
    ("3.93:01", 3, Some(Why::Member)),
    ("3.98:08", 3, Some(Why::Reference)),
    ("3.98:04", 4, Some(Why::Seen)),
    ("5.73:01", 5, Some(Why::Object)),
    ("5.81:03", 5, Some(Why::Serial)),
    ("5.89:01", 5, Some(Why::Base)),
    ("5.3:00", 5, Some(Why::Code)),
    ("5.82:00000006", 5, Some(Why::Member)),
    ("5.90:010000000100000004", 5, Some(Why::Member)),
];

/// Causes of a page below the root.
const PAGE_CASES: [Case; 9] = [
    ("", 0, None),
    ("6.1:56", 6, Some(Why::Kind)),
    ("6.2:00", 6, Some(Why::Level)),
    ("6.2:02", 6, Some(Why::Level)),
    ("6.3:01", 6, Some(Why::Code)),
    ("6.4:00000007", 6, Some(Why::Reference)),
    ("6.4:10000006", 6, Some(Why::Seen)),
    ("6.68:0321", 6, Some(Why::Length)),
    ("6.70:01", 6, Some(Why::Zero)),
];

/// Causes of a table of two blocks.
const PART_CASES: [Case; 14] = [
    ("", 0, None),
    ("7.0:00", 7, Some(Why::Closed)),
    ("7.1:50", 7, Some(Why::Kind)),
    ("7.2:01", 7, Some(Why::Index)),
    ("7.16:10", 7, Some(Why::Reference)),
    ("7.19:08", 7, Some(Why::Reference)),
    ("7.23:00", 7, Some(Why::Generation)),
    ("7.47:01", 7, Some(Why::Secret)),
    ("7.3:01", 7, Some(Why::Zero)),
    ("7.16:0000000000000000", 7, Some(Why::Empty)),
    ("7.19:07", 7, Some(Why::Seen)),
    ("0.19:08", 0, Some(Why::Reference)),
    ("0.23:07", 7, Some(Why::Seen)),
    ("0.272:01", 0, Some(Why::Zero)),
];

/// What a store with these words over it is checked as.
fn checked(alloc: Global, base: &str, words: &str) -> Result<Result<Checked, WalkRefused>, Fail> {
    let drives = history_drives(alloc, base, words, words)?;
    let (_pair, checked) = check(alloc, Pair::over(drives));
    Ok(checked)
}

/// Why a store with these words over it is refused, where it is.
fn refused(alloc: Global, base: &str, words: &str) -> Result<Option<WalkRefused>, Fail> {
    Ok(checked(alloc, base, words)?.err())
}

fn bad(n: u32, why: Option<Why>) -> Result<Option<WalkRefused>, Fail> {
    let block = BlockNo::of(n)?;
    Ok(why.map(|why| WalkRefused::BadStore { block, why }))
}

fn are_found(rt: &impl Abort, alloc: Global, base: &str, cases: &[Case]) -> Result<(), Fail> {
    for (words, block, why) in cases {
        let found = refused(alloc, base, words)?;
        assert_eq!(rt; found, bad(*block, *why)?, "{words}");
    }
    Ok(())
}

#[test]
fn each_cause_is_found(rt: HostRuntime) -> Result<(), Fail> {
    let alloc = rt.alloc();
    are_found(&rt, alloc, "", &TABLE_CASES)?;
    are_found(&rt, alloc, "", &VERSION_CASES)?;
    are_found(&rt, alloc, "", &MEMBER_CASES)?;
    are_found(&rt, alloc, PAGE, &PAGE_CASES)?;
    are_found(&rt, alloc, PARTS, &PART_CASES)
}

/// The link that is outstanding is set.
const LINKED: &str = "2.82:00000005";

/// Both versions of file 1 have the page in block 6, which counts once.
const SHARED: &str = "1.4:00000006 4.4:00000006 6.0:a55001";

/// What is kept of a file with words over the store: its place, the block of its last version, the
/// serial of its first one, the block of the version whose link to the last one is outstanding or
/// 0, and how many blocks its versions hold. Of a file that is not live all are 0.
type Kept = (&'static str, usize, u32, u64, u32, u32);

const KEPT: [Kept; 16] = [
    ("", 0, 4, 1, 0, 2),
    ("", 1, 5, 1, 2, 2),
    ("", 2, 3, 1, 0, 1),
    ("", 3, 0, 0, 0, 0),
    (LINKED, 0, 4, 1, 0, 2),
    (LINKED, 1, 5, 1, 0, 2),
    (LINKED, 2, 3, 1, 0, 1),
    (LINKED, 3, 0, 0, 0, 0),
    (PAGE, 0, 4, 1, 0, 3),
    (PAGE, 1, 5, 1, 2, 2),
    (PAGE, 2, 3, 1, 0, 1),
    (PAGE, 3, 0, 0, 0, 0),
    (SHARED, 0, 4, 1, 0, 3),
    (SHARED, 1, 5, 1, 2, 2),
    (SHARED, 2, 3, 1, 0, 1),
    (SHARED, 3, 0, 0, 0, 0),
];

/// How many blocks are free then.
const FREE: [(&str, u32); 4] = [("", 2), (LINKED, 2), (PAGE, 1), (SHARED, 1)];

/// What is kept of the file at a place; zeros where there is none.
fn kept_at(heads: &[Option<FoundFile>], place: usize) -> (u32, u64, u32, u32) {
    match heads.get(place) {
        Some(Some(chain)) => (
            chain.last.block.get(),
            chain.first,
            chain.unset.map_or(0, |block| block.get()),
            chain.kept,
        ),
        _ => (0, 0, 0, 0),
    }
}

fn is_kept(rt: &impl Abort, alloc: Global, row: &Kept) -> Result<(), Fail> {
    let (words, place, last, first, unset, kept) = *row;
    let checked = checked(alloc, "", words)??;
    assert_eq!(rt;
        kept_at(checked.heads.as_slice(), place),
        (last, first, unset, kept),
        "{words}, {place}"
    );
    Ok(())
}

/// How many blocks are free in a store with these words over it.
fn free_in(alloc: Global, words: &str) -> Result<u32, Fail> {
    Ok(checked(alloc, "", words)??.map.free())
}

#[test]
fn what_is_kept_of_each_file(rt: HostRuntime) -> Result<(), Fail> {
    for row in KEPT {
        is_kept(&rt, rt.alloc(), &row)?;
    }
    for (words, free) in FREE {
        assert_eq!(rt; free_in(rt.alloc(), words)?, free, "{words}");
    }
    Ok(())
}
