//! Merges of two pages made by hand.
ghost use Rattle.std.specs.Prelude.{◌≡◌, ◌<◌, ◌^◌};

use super::*;
use afs_base::{BlockNo, Kind, PageData, Slot, Steps};
use page_codec::{Page, Reference};
use ref_flags::{Flags, Mark};
use std::process::Abort;
use std::test::Fail;

/// A slot that names a block, with the marks of a page that was copied.
fn named(block: u32) -> Reference
    requires some { 0 < block }
    requires below { block < 2 ^ 28 }
{
    Reference {
        flags: Flags::none().see(Mark::Copy),
        block: Some(BlockNo::at(block)),
    }
}

/// A page of level 2 with this data, whose first four slots are these.
fn page(data: &[u8; 2], slots: [Reference; 4]) -> Page
    ensures { result.level ≡ 2 }
{
    let mut page = Page::empty(2);
    page.bytes = PageData::of(data);
    let [first, second, third, fourth] = slots;
    page.refs[0] = first;
    page.refs[1] = second;
    page.refs[2] = third;
    page.refs[3] = fourth;
    page
}

/// Mine keeps children in slots 0 and 1, and changed slots 0 and 2; theirs has pages in slots 0, 2 and 3.
fn job(marks: Flags, searched: u16, changed: Flags, modified: u16) -> Job {
    let none = Reference::empty();
    let mut theirs = page(b"th", [named(10), none, named(12), named(13)]);
    theirs.modified = modified;
    Job {
        mine: page(b"me", [none, named(21), none, named(23)]),
        marks,
        searched,
        modified: 5,
        theirs,
        changed,
        kept: 3,
    }
}

/// The blocks of the first four slots, 0 for none.
fn blocks(page: &Page) -> [u32; 4] {
    let mut found = [0; 4];
    for slot in 0..4 {
        let reference = page.refs[slot];
        found[slot] = reference.block.map_or(0, |block| block.get());
    }
    found
}

/// Compares the page that comes of a job with the data that it should have.
fn has_data(rt: &impl Abort, done: &Done, data: &[u8; 2]) -> bool {
    match done.result() {
        Ok(page) => {
            assert_eq!(rt; (page.level, page.modified), (2, 5));
            assert_eq!(rt; blocks(page), [10, 21, 0, 13]);
            page.bytes == PageData::of(data)
        }
        Err(_) => false,
    }
}

#[test]
fn a_merged_page_has_the_slots_of_both(rt: HostRuntime) {
    let read = Flags::none().see(Mark::Read);
    let wrote = Done::of(job(Flags::none().see(Mark::Write), 2, read, 12));
    assert!(rt; has_data(&rt, &wrote, b"me"));
    let searched = Done::of(job(Flags::none().see(Mark::Search), 2, read, 12));
    assert!(rt; has_data(&rt, &searched, b"th"));
}

/// The marks that I have and the mask of the slots that I read; the marks that they have and the mask of the slots that they wrote; and
/// the clash.
type Row = (Mark, u16, Mark, u16, Option<Kind>);

#[test]
fn a_clash_is_the_least(rt: HostRuntime) -> Result<(), Fail> {
    let slot = |number: u8| Slot::of(number).ok().map(Kind::Slot);
    let rows: [Row; 6] = [
        (Mark::Read, 0xffff, Mark::Write, 0xffff, Some(Kind::Data)),
        (Mark::Write, 0xffff, Mark::Write, 0, None),
        (Mark::Write, 0xffff, Mark::Write, 0x8000, slot(15)),
        (Mark::Read, 6, Mark::Search, 12, slot(2)),
        (Mark::Search, 5, Mark::Write, 10, None),
        (Mark::Search, 1, Mark::Modify, 1, slot(0)),
    ];
    for (mine, searched, theirs, modified, clash) in rows {
        let job = job(
            Flags::none().see(mine),
            searched,
            Flags::none().see(theirs),
            modified,
        );
        let mut steps = Steps::new();
        let found = merge_page(&job, &mut steps).err().map(|c| c.kind);
        assert_eq!(rt; found, clash);
        assert_eq!(rt; steps.count(), 1);
        assert!(rt; Done::of(job).is_of(&job));
    }
    Ok(())
}

#[test]
fn an_outcome_is_of_its_own_job(rt: HostRuntime) -> Result<(), Fail> {
    let none = Flags::none();
    let job_at = |searched: u16| job(none, searched, none, 1);
    let done = Done::of(job_at(2));
    let mut other = *done.job();
    other.theirs.bytes = PageData::of(b"to");
    for job in [job_at(4), other] {
        assert!(rt; !done.is_of(&job));
    }
    Ok(())
}
