//! Each call failing once while a store is made, and each image of each moment then: no store, or the new one.
use super::*;
use drives::Pick;

/// The words that make a store of one file in four blocks.
const SMALL: Call = ("format 7 1 4", "", 0, 0);

/// Makes it, on halves of four blocks whose call of one number fails; 0 for none.
fn small(alloc: Global, failing: u64) -> Result<(Ended<MemDrives>, MemSink), Fail> {
    let fails = one(alloc, failing)?;
    let mut drives = MemDrives::blank(alloc, 4)?;
    drives.fail_at(fails);
    Ok(called(alloc, SMALL, drives)?)
}

/// Whether halves are checked as no store, or as the new one.
fn is_none_or_new(alloc: Global, drives: MemDrives) -> Result<bool, Fail> {
    let (ended, out) = called(alloc, CHECK, drives)?;
    Ok(match ended.status.code() {
        0 => out.bytes() == b"files 1 versions 1 blocks 1 free 2\n".as_slice(),
        4 => out.bytes() == b"bad store: block 0 closed\n".as_slice(),
        _ => false,
    })
}

/// Whether each image of each moment by one pick is.
fn are_none_or_new(alloc: Global, drives: &MemDrives, pick: Pick) -> Result<bool, Fail> {
    let mut all = true;
    for moment in 0..=drives.now() {
        all = is_none_or_new(alloc, drives.image(moment, pick)?)? && all;
    }
    Ok(all)
}

/// From which call to which one the making of the store uses a half, and what is printed where it fails there. One call
/// finds block 0 closed on half A, one on half B; five write block 1 on half B, five on half A; and so block 0.
const CALLS: [(u64, u64, &str); 6] = [
    (1, 1, "drive A;"),
    (2, 2, "drive B;"),
    (3, 7, "drive B;"),
    (8, 12, "drive A;"),
    (13, 17, "drive B;"),
    (18, 22, "drive A;"),
];

/// Looks at the images of all moments.
fn leaves_none_or_new(
    rt: &(impl Abort + AllocGlobal),
    alloc: Global,
    drives: &MemDrives,
) -> Result<(), Fail> {
    for pick in [Pick::Old, Pick::New, Pick::Fill(0xa5)] {
        assert!(rt; are_none_or_new(alloc, drives, pick)?);
    }
    Ok(())
}

/// Makes the store with one call that fails, and looks at what is printed and left.
fn fails_at(
    rt: &(impl Abort + AllocGlobal),
    alloc: Global,
    failing: u64,
    line: &str,
) -> Result<(), Fail> {
    let (ended, out) = small(alloc, failing)?;
    expect(rt, 0, (ended.status.code(), &out), (3, line))?;
    leaves_none_or_new(rt, alloc, &ended.drives)
}

#[test]
fn each_failing_call_names_its_half_and_leaves_no_store_or_the_new_one(
    rt: HostRuntime,
) -> Result<(), Fail> {
    for (first, last, line) in CALLS {
        for failing in first..=last {
            fails_at(&rt, rt.alloc(), failing, line)?;
        }
    }
    Ok(())
}

#[test]
fn a_small_store_takes_22_calls(rt: HostRuntime) -> Result<(), Fail> {
    let (ended, out) = small(rt.alloc(), 0)?;
    expect(&rt, 0, (ended.status.code(), &out), (0, "file 1;"))?;
    assert_eq!(rt; ended.drives.now(), 22);
    Ok(())
}
