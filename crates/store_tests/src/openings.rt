//! Stores made by hand, opened: with a link that a commit left outstanding, cut off at each call, and with a half that was torn.
use crate::patched::{history_drives, history_half};
use afs_base::{BlockNo, Head};
use drives::{Drives, Half, MemDrives, Pick, SureDrives};
use page_codec::Why;
use recovery::{OpenRefused, Opened, open};
use std::alloc::Global;
use std::test::Fail;

/// The link that is to be set.
const LINK: &str = "2.82:00000005";

/// The same, and the members that are to be cleared.
const LINK_AND_CLEARED: &str = "2.82:00000005 3.90:000000000000000000";

/// What is told of files 1 to 3: the block of the last version, its serial, and how many blocks are kept.
type Told = (u32, u64, u32);

/// What is told of the file at place `i`; zeros where there is none.
fn told_at(heads: &[Option<Head>], i: usize) -> Told {
    match heads.get(i) {
        Some(Some(head)) => (head.block.get(), head.serial, head.kept),
        _ => (0, 0, 0),
    }
}

/// What all openings of the store have to tell of files 1 to 4, of which the last is not live.
const TOLD: [Told; 4] = [(4, 2, 2), (5, 2, 2), (3, 1, 1), (0, 0, 0)];

fn is_told<V>(opened: &Opened<V>) -> bool {
    let heads = opened.heads.as_slice();
    let mut same = opened.map.free() == 2 && heads.len() == 60;
    'files: for i in 0..4 {
        same = same && told_at(heads, i) == TOLD[i];
    }
    same
}

/// Whether a half has the link, and no members.
fn is_rolled(half: &[u8]) -> bool {
    half.get(2048 + 85) == Some(&5) && half.get(3072 + 90) == Some(&0)
}

fn opens(alloc: Global, drives: MemDrives) -> bool {
    match open(alloc, drives) {
        Ok(opened) => {
            let drives = opened.pair.faults_of();
            is_told(&opened)
                && is_rolled(drives.half_bytes(Half::A))
                && is_rolled(drives.half_bytes(Half::B))
        }
        Err(_) => false,
    }
}

/// Whether each image of these drives at a moment opens as the store does.
fn images_open(alloc: Global, drives: &MemDrives, moment: u64) -> Result<bool, Fail> {
    let mut all = moment <= drives.now();
    if all {
        'picks: for pick in [Pick::Old, Pick::New, Pick::Fill(0xA5)] {
            all = all && opens(alloc, drives.image(moment, pick)?);
        }
    }
    Ok(all)
}

#[test]
fn each_stage_of_a_commit_is_rolled_forward(rt: HostRuntime) -> Result<(), Fail> {
    let alloc = rt.alloc();
    'stages: for stage in ["", LINK, LINK_AND_CLEARED] {
        // The halves of a block that was being written: half B has the new bytes.
        for a in [stage, ""] {
            assert!(rt; opens(alloc, history_drives(alloc, "", a, stage)?));
        }
    }
    Ok(())
}

/// The drives that an opening with one failing call leaves; 0 for none.
fn left_by(alloc: Global, failing: u64) -> Result<MemDrives, Fail> {
    let mut drives = history_drives(alloc, "", "", "")?;
    let mut calls = Vec::new(alloc);
    calls.push(failing)?;
    drives.fail_at(calls);
    Ok(match open(alloc, drives) {
        Ok(opened) => opened.pair.into_drives(),
        Err(unopened) => unopened.drives,
    })
}

#[test]
fn each_image_of_an_opening_opens_alike(rt: HostRuntime) -> Result<(), Fail> {
    let drives = left_by(rt.alloc(), 0)?;
    assert!(rt; drives.now() > 30);
    'moments: for moment in 0..drives.now() {
        assert!(rt; images_open(rt.alloc(), &drives, moment)?);
    }
    Ok(())
}

#[test]
fn an_opening_that_failed_is_begun_anew(rt: HostRuntime) -> Result<(), Fail> {
    'calls: for failing in 1..90 {
        let left = left_by(rt.alloc(), failing)?;
        assert!(rt; images_open(rt.alloc(), &left, left.now())?);
    }
    Ok(())
}

/// What is put over both halves, and the block and the cause of the refusal.
const CAUSES: [(&str, u32, Why); 4] = [
    ("0.0:00", 0, Why::Closed),
    ("4.3:00", 4, Why::Code),
    ("0.32:00000001", 1, Why::Seen),
    ("3.98:04", 4, Why::Seen),
];

fn cause_of(alloc: Global, drives: MemDrives) -> Option<OpenRefused> {
    match open(alloc, drives) {
        Ok(_) => None,
        Err(unopened) => Some(unopened.why),
    }
}

fn bad(block: u32, why: Why) -> Result<Option<OpenRefused>, Fail> {
    Ok(Some(OpenRefused::BadStore {
        block: BlockNo::of(block)?,
        why,
    }))
}

#[test]
fn the_first_cause_is_told(rt: HostRuntime) -> Result<(), Fail> {
    for (words, block, why) in CAUSES {
        let drives = history_drives(rt.alloc(), words, "", "")?;
        assert_eq!(rt; cause_of(rt.alloc(), drives), bad(block, why)?);
    }
    Ok(())
}

#[test]
fn a_half_that_is_closed_is_mended_from_the_other(rt: HostRuntime) -> Result<(), Fail> {
    let alloc = rt.alloc();
    // Half B's gates are closed, and half A has the bytes; and the other way round.
    let gates = "0.0:00 2.0:00 4.0:00";
    for (a, b) in [("", gates), (gates, "")] {
        assert!(rt; opens(alloc, history_drives(alloc, "", a, b)?));
    }
    Ok(())
}

#[test]
fn halves_that_never_fail_are_opened(rt: HostRuntime) -> Result<(), Fail> {
    let alloc = rt.alloc();
    let a = history_half(alloc, "", "")?;
    let b = history_half(alloc, "", "")?;
    let opened = open(alloc, SureDrives::of_halves(alloc, a, b)?);
    assert!(rt; opened.is_ok_and(|opened| is_told(&opened)));
    Ok(())
}
