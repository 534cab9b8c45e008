//! Each call failing once, and each image of each moment then: the old content or the new one, and mending changes neither.
use super::*;
use std::test::*;

/// A call on block 1.
#[derive(Clone, Copy, Debug)]
enum Act {
    Write,
    Mend,
    TestAndSet,
    ClearMembers,
}

/// A call, block 1 on both halves before it, and its contents before and after.
#[derive(Drop)]
struct Case {
    act: Act,
    a: Block,
    b: Block,
    before: Block,
    after: Block,
}

/// Makes the call, and tells whether it succeeded.
fn made(pair: &mut Pair<MemDrives>, case: &Case) -> bool {
    if pair.blocks() < 2 {
        return false;
    }
    match case.act {
        Act::Write => pair.write(number(1), &block(0xa5, 0x22)).is_ok(),
        Act::Mend => pair.mend(number(1)).is_ok(),
        Act::TestAndSet => pair.test_and_set(number(1), number(2)).is_ok(),
        Act::ClearMembers => pair.clear_members(number(1)).is_ok(),
    }
}

/// Whether mending block 1 keeps this content of it.
fn keeps(pair: &mut Pair<MemDrives>, found: &Block) -> bool {
    if pair.blocks() < 2 {
        return false;
    }
    pair.mend(number(1)).is_ok() && content(pair, number(1)) == *found
}

/// Whether an image has the blocks that it may have, before it is mended and after.
fn is_fine(image: MemDrives, case: &Case, done: bool) -> bool {
    let mut pair = Pair::over(image);
    let found = content(&mut pair, number(1));
    let others = content(&mut pair, number(0)) == [0; 1024]
        && content(&mut pair, number(2)) == block(0xa5, 0x33);
    let new = found == case.after;
    others && keeps(&mut pair, &found) && (new || !done && found == case.before)
}

/// Whether all images of a moment are fine, for each of the picks.
fn are_fine(drives: &MemDrives, moment: u64, case: &Case, done: bool) -> Result<bool, Memory> {
    let mut fine = moment <= drives.now();
    if fine {
        for pick in [Pick::Old, Pick::New, Pick::Fill(0xa5)] {
            fine = fine && is_fine(drives.image(moment, pick)?, case, done);
        }
    }
    Ok(fine)
}

/// Makes a call of which one device call fails, and gives how many there were, and whether the images of all moments are fine.
fn outcome(alloc: Global, case: &Case, failing: u64) -> Result<(u64, bool), Memory> {
    let mut pair = Pair::over(halves(alloc, &case.a, &case.b, failing)?);
    let done = made(&mut pair, case);
    let drives = pair.into_drives();
    let mut fine = true;
    for moment in 0..drives.now() {
        fine = fine && are_fine(&drives, moment, case, false)?;
    }
    Ok((
        drives.now(),
        fine && are_fine(&drives, drives.now(), case, done)?,
    ))
}

/// The first of so many device calls after whose failure an image is not fine.
fn first_not_fine(alloc: Global, case: &Case, calls: u64) -> Result<Option<u64>, Memory> {
    for failing in 1..=calls {
        if !outcome(alloc, case, failing)?.1 {
            return Ok(Some(failing));
        }
    }
    Ok(None)
}

fn cases() -> [(Case, u64); 5] {
    let case = |act: Act, a: Block, b: Block, before: Block, after: Block| Case {
        act,
        a,
        b,
        before,
        after,
    };
    let one = block(0xa5, 0x11);
    let two = block(0xa5, 0x22);
    let page = version(0, 1);
    [
        (case(Act::Write, one, one, one, two), 14),
        (case(Act::Mend, one, block(0, 0x22), one, one), 7),
        (case(Act::Mend, one, two, two, two), 9),
        (case(Act::TestAndSet, page, page, page, version(2, 1)), 15),
        (case(Act::ClearMembers, page, page, page, version(0, 0)), 15),
    ]
}

#[test]
fn each_image_is_old_or_new(rt: HostRuntime) -> Result<(), Fail> {
    for (case, calls) in &cases() {
        assert_eq!(rt;
            outcome(rt.alloc(), case, 0)?,
            (*calls, true),
            "{:?}",
            case.act
        );
        assert_eq!(rt;
            first_not_fine(rt.alloc(), case, *calls)?,
            None,
            "{:?}",
            case.act
        );
    }
    Ok(())
}
