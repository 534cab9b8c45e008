//! The blocks that are written, byte by byte.
ghost use Rattle.std.specs.Prelude.{◌≡◌, ◌+◌, ◌<◌, ◌^◌, IfSome, OnSome};
ghost use Rattle.draft_model.specs.Flush.{IsPlaced};

use super::updates::{begun, done, new_file, number, planned};
use super::*;

/// The value of a hexadecimal digit.
fn digit(c: u8) -> Option<u8>
    ensures { IfSome result (λ n. n < 16) }
{
    match c {
        b'0'..=b'9' => Some(c - b'0'),
        b'a'..=b'f' => Some(c - b'a' + 10),
        _ => None,
    }
}

/// Writes the bytes of a word `PLACE:DIGITS`.
fn put_word(block: &mut Block, word: &str) -> Option<()> {
    let (place, digits) = word.split_once(':')?;
    let at = place.parse::<u16>().ok()? as usize;
    let digits = digits.as_bytes();
    for i in 0..digits.len() / 2 {
        if at + i >= 1024 {
            return None;
        }
        block[at + i] = digit(digits[2 * i])? * 16 + digit(digits[2 * i + 1])?;
    }
    Some(())
}

/// A block that is zero but for the words of a text, parted by spaces.
fn block_of(text: &str) -> Option<Block> {
    let mut block = [0; 1024];
    for word in text.split(' ') {
        put_word(&mut block, word)?;
    }
    Some(block)
}

/// A block that is to be written: its number, and what is not zero in it.
struct Expected {
    block: u32,
    text: &'static str,
}

/// Takes all blocks out of a flush and compares each with what is expected.
fn compare<D: Draft>(rt: &impl Abort, draft: &D, flush: &mut Flush, expected: &[Expected])
    requires ready { D.is_ready draft.now }
    requires serial { D.serial_of draft.now + 1 < 2 ^ 64 }
    requires placed { IsPlaced (D.view draft.now) flush.old.placed }
{
    for next in expected {
        let mut bytes = [0xee; 1024];
        let given = flush.next(draft, &mut bytes);
        assert_eq!(rt; given.map_or(0, |block| block.get()), next.block);
        assert_eq!(rt; Some(bytes), block_of(next.text), "block {}", next.block);
    }
    let mut bytes = [0xee; 1024];
    assert!(rt; flush.next(draft, &mut bytes).is_none());
    assert_eq!(rt; bytes, [0xee; 1024]);
}

/// The path of the page in a slot of `/`.
fn below(slot: u8) -> Option<Path> {
    Path::root().child(Slot::of(slot).ok()?).ok()
}

/// Makes a page in a slot of `/`.
fn made(draft: &mut BoxDraft, slot: u8, at: BlockNo, page: &Page) -> Option<()>
    requires none_fed { ⟦<BoxDraft as Draft>⟧.fed_of draft.old ≡ 0 }
    ensures fed { OnSome result (⟦<BoxDraft as Draft>⟧.fed_of draft.new ≡ 0) }
{
    let child = Child::of(&below(slot)?)?;
    done(draft, &Step::MakeAt { at: child }, at, page)
}

/// A new file in block 1, and an update that makes `/0` and `/1`.
fn two_made(alloc: Global) -> Option<BoxDraft> {
    let at = number(1)?;
    let page = Page::empty(0);
    let mut draft = begun(alloc, at, &new_file())?;
    made(&mut draft, 0, at, &page)?;
    made(&mut draft, 1, at, &page)?;
    Some(draft)
}

const MADE: [Expected; 3] = [
    Expected {
        block: 4,
        text: "0:a5500100 1019:ffff",
    },
    Expected {
        block: 5,
        text: "0:a5500100 1019:ffff",
    },
    Expected {
        block: 3,
        text: "0:a55600039000000490000005 70:000000010000000000000002 86:00000001 1019:0003",
    },
];

/// A version page of this serial with pages in these two blocks.
fn two_below(serial: u64, first: BlockNo, second: BlockNo) -> Option<VersionPage>
    requires serial { 0 < serial }
    requires first { 0 < first }
    requires second { 0 < second }
{
    let flags = Flags::of_code(9).ok()?;
    Some(VersionPage {
        root: Flags::of_code(3).ok()?,
        page: with_two(
            Reference {
                flags,
                block: Some(first),
            },
            Reference {
                flags,
                block: Some(second),
            },
        ),
        object: 1,
        serial,
        commit: None,
        base: Some(number(1)?),
        members: Members::none(),
    })
}

/// A page `/` with two slots in use.
fn with_two(first: Reference, second: Reference) -> Page
    ensures { result.level ≡ 0 }
{
    let mut page = Page::empty(0);
    page.refs[0] = first;
    page.refs[1] = second;
    page
}

/// The version in these blocks, and an update that writes `bb` at `/1`.
fn other_written(alloc: Global) -> Option<BoxDraft> {
    let at = number(5)?;
    let version = two_below(3, number(7)?, at)?;
    let leaf = Page::empty(1);
    let step = Step::WriteAt {
        at: below(1)?,
        bytes: PageData::of(&[0xbb]),
    };
    let mut draft = begun(alloc, number(6)?, &version)?;
    done(&mut draft, &step, at, &leaf)?;
    Some(draft)
}

const OTHER_WROTE: [Expected; 2] = [
    Expected {
        block: 9,
        text: "0:a5500100 68:0001 219:bb",
    },
    Expected {
        block: 8,
        text: "0:a55600020000000770000009 70:000000010000000000000004 86:00000006",
    },
];

/// A new file in block 1, and an update that only lists `/`.
fn none_written(alloc: Global) -> Option<BoxDraft> {
    let at = number(1)?;
    let page = Page::empty(0);
    let mut draft = begun(alloc, at, &new_file())?;
    done(&mut draft, &Step::ListAt { at: Path::root() }, at, &page)?;
    Some(draft)
}

const NAMED: [Expected; 1] = [Expected {
    block: 4,
    text: "0:a5560002 70:000000010000000000000002 86:00000001 90:010000000200000009",
}];

/// Flushes a draft into the blocks behind those that are kept, and compares them with what is expected.
fn flushes(
    rt: &impl Abort,
    alloc: Global,
    draft: &BoxDraft,
    kept: u32,
    from: u32,
    members: Members,
    expected: &[Expected],
) -> Option<()> {
    if draft.serial() == u64::MAX {
        return None;
    }
    let mut flush = planned(alloc, draft, kept, from, members)?;
    compare(rt, draft, &mut flush, expected);
    Some(())
}

#[test]
fn writes_pages_that_were_made(rt: HostRuntime) -> Result<(), Fail> {
    let draft = two_made(rt.alloc()).ok_or("draft")?;
    flushes(&rt, rt.alloc(), &draft, 2, 0, Members::none(), &MADE).ok_or("flush")?;
    Ok(())
}

#[test]
fn shares_what_the_version_before_wrote(rt: HostRuntime) -> Result<(), Fail> {
    let draft = other_written(rt.alloc()).ok_or("draft")?;
    flushes(&rt, rt.alloc(), &draft, 7, 0, Members::none(), &OTHER_WROTE).ok_or("flush")?;
    Ok(())
}

#[test]
fn writes_members_without_pages(rt: HostRuntime) -> Result<(), Fail> {
    let draft = none_written(rt.alloc()).ok_or("draft")?;
    let mut members = Members::none();
    members.push(Member {
        object: 2,
        block: BlockNo::of(9)?,
    });
    flushes(&rt, rt.alloc(), &draft, 2, 1, members, &NAMED).ok_or("flush")?;
    Ok(())
}
