//! What drafts of each kind tell after lists of steps, and where frames go back.
ghost use Rattle.std.specs.Prelude.{◌≡◌};

use super::kinds::{base, box_draft, pool_draft, pool_set, run_all, stored_at};
use super::texts::{path, step};
use afs_base::{BlockNo, PageData, Path};
use arrayvec::ArrayVec;
use draft_tree::{Draft, SlotMarks};
use page_codec::Page;
use std::process::Abort;
use std::test::Fail;

/// Steps on the base; of a path after them the code of its flags, and the masks of the slots that were read and written; the fresh paths.
type Marked = (&'static str, &'static str, u8, u16, u16, &'static str);

const MARKED: [Marked; 19] = [
    // What another update wrote is read: the way is searched, the page is read.
    ("read /0/1", "/", 2, 1, 0, ""),
    ("read /0/1", "/0", 2, 2, 0, ""),
    ("read /0/1", "/0/1", 4, 0, 0, ""),
    ("read /0/1;list /", "/0/2", 0, 0, 0, ""),
    // Written and not read, and read only after that.
    ("write /0 new;read /0", "/", 2, 1, 0, "/ /0"),
    ("write /0 new;read /0", "/0", 7, 0, 0, "/ /0"),
    ("list /0", "/0", 2, 0xffff, 0, ""),
    // A make marks the slot above and all of the new page.
    ("make /0/9", "/0", 3, 0x200, 0x200, "/ /0 /0/9"),
    ("make /0/9", "/0/9", 9, 0xffff, 0xffff, "/ /0 /0/9"),
    ("drop /0/1", "/0", 3, 2, 2, "/ /0"),
    ("drop /0/1", "/0/1", 0, 0, 0, "/ /0"),
    // What is dropped keeps its marks, and what was written there makes the pages above it fresh.
    ("read /0/1;write /0/1 new;drop /0", "/", 3, 1, 1, "/"),
    ("read /0/1;write /0/1 new;drop /0", "/0", 2, 2, 0, "/"),
    ("read /0/1;write /0/1 new;drop /0", "/0/1", 10, 0, 0, "/"),
    ("write /0/1 new;drop /0/1", "/0", 3, 2, 2, "/ /0"),
    // Dropped and made again: what was read before stays read.
    (
        "read /0;drop /0;make /0;read /0",
        "/0",
        12,
        0xffff,
        0xffff,
        "/ /0",
    ),
    (
        "make /9;drop /9;make /9;read /9",
        "/9",
        9,
        0xffff,
        0xffff,
        "/ /9",
    ),
    // Rows come in between others, of all depths.
    (
        "make /8;write /0/1 new;make /8/1",
        "/",
        3,
        0x101,
        0x100,
        "/ /0 /0/1 /8 /8/1",
    ),
    (
        "write /0/0/0/0/0/0 new;make /0/0/0/0/0/0/9",
        "/0/0/0/0/0/0",
        9,
        0x200,
        0x200,
        "/ /0 /0/0 /0/0/0 /0/0/0/0 /0/0/0/0/0 /0/0/0/0/0/0 /0/0/0/0/0/0/9",
    ),
];

/// Compares the fresh paths of a draft with those of a text, parted by spaces.
fn is_fresh<D: Draft>(rt: &impl Abort, draft: &D, text: &str)
    requires { D.is_ready draft.now }
{
    assert_eq!(rt; draft.has_writes(), !text.is_empty());
    let mut paths = ArrayVec::new();
    draft.list_fresh(&mut paths);
    assert_eq!(rt; draft.fresh_count() as usize, paths.len(), "{text}");
    let mut known = paths.as_slice().iter();
    for word in text.split(' ') {
        if !word.is_empty() {
            assert_eq!(rt; known.next().copied(), path(word), "{word} of {text}");
        }
    }
    assert!(rt; known.next().is_none(), "{text}");
}

/// Does the steps of a row, and compares what the draft tells.
fn passes<D: Draft>(rt: &impl Abort, draft: &mut D, row: &Marked) -> Result<(), Fail>
    requires ready { D.is_ready draft.old }
    requires none { D.fed_of draft.old ≡ 0 }
{
    let (text, page, code, searched, modified, fresh) = *row;
    run_all(rt, draft, text)?;
    let at = path(page).ok_or("no path")?;
    let slots = SlotMarks { searched, modified };
    assert_eq!(rt; draft.flags(&at).code(), code, "{page} after {text}");
    assert_eq!(rt; draft.slots(&at), slots, "{page} after {text}");
    is_fresh(rt, draft, fresh);
    Ok(())
}

#[test]
fn frames_pass_the_table_of_boxes(rt: HostRuntime) -> Result<(), Fail> {
    let alloc = rt.alloc();
    for row in MARKED {
        passes(&rt, &mut box_draft(alloc)?, &row)?;
        passes(&rt, &mut pool_draft(alloc)?, &row)?;
        passes(&rt, &mut pool_set(alloc, 3)?, &row)?;
    }
    Ok(())
}

/// Copies a page that no step looks into, takes over a merged page, and changes the base.
fn changes_base<D: Draft>(rt: &impl Abort, draft: &mut D) -> Result<(), Fail>
    requires ready { D.is_ready draft.old }
    requires none { D.fed_of draft.old ≡ 0 }
    ensures ready { D.is_ready draft.new }
{
    run_all(rt, draft, "make /8;read /0/1")?;
    let step = step("read /7/7/7").ok_or("no step")?;
    let (above, block) = draft.need(&step).ok_or("nothing is needed")?;
    let mut page = stored_at(&above, block).ok_or("no page")?;
    draft.feed(&above, &page)?;
    assert_eq!(rt; draft.flags(&above).code(), 1);

    let root = Path::root();
    let mut merged = base().ok_or("no version")?.page;
    merged.modified = 1;
    merged.bytes = PageData::of(b"z");
    assert!(rt; draft.page(&root, &mut page));
    assert_eq!(rt; page.level, merged.level);
    draft.take_merged(&root, &merged);
    assert!(rt; draft.page(&root, &mut page));
    assert_eq!(rt; (page.modified, page.bytes), (0x100, PageData::of(b"z")));

    draft.rebase(BlockNo::at(8), 12);
    assert_eq!(rt;
        (draft.root().get(), draft.object(), draft.serial()),
        (8, 5, 12)
    );
    assert_eq!(rt; draft.flags(&above).code(), 0);
    assert_eq!(rt; draft.flags(&path("/0/1").ok_or("no path")?).code(), 4);
    Ok(())
}

#[test]
fn frames_go_back_where_a_page_is_let_go(rt: HostRuntime) -> Result<(), Fail> {
    changes_base(&rt, &mut box_draft(rt.alloc())?)?;
    let mut draft = pool_draft(rt.alloc())?;
    changes_base(&rt, &mut draft)?;
    // `/`, `/8`, `/0` and `/0/1` stay; `/7` went.
    assert_eq!(rt; draft.left(), 1020);
    let (_pool, lease) = draft.end();
    assert_eq!(rt; lease.left(), 1024);

    let mut set = pool_set(rt.alloc(), 16)?;
    changes_base(&rt, &mut set)?;
    assert_eq!(rt; set.left(), 1004);
    set.pick(0);
    assert_eq!(rt; (set.root().get(), set.has_writes()), (3, false));
    assert_eq!(rt; set.flags(&path("/8").ok_or("no path")?).code(), 0);
    let version = base().ok_or("no version")?;
    assert!(rt; !set.add(BlockNo::at(9), &version));
    let (_pool, lease) = set.end();
    assert_eq!(rt; lease.left(), 1024);
    Ok(())
}

#[test]
fn a_set_lets_go_of_all_and_begins_anew(rt: HostRuntime) -> Result<(), Fail> {
    let mut set = pool_set(rt.alloc(), 2)?;
    run_all(&rt, &mut set, "make /8;write /0/1 new")?;
    assert_eq!(rt; set.left(), 1024 - 17 - 3);
    set.clear();
    assert_eq!(rt; (set.roots(), set.left()), (0, 1024));

    let version = base().ok_or("no version")?;
    set.begin(BlockNo::at(8), &version);
    assert_eq!(rt; (set.roots(), set.left()), (1, 1023));
    assert_eq!(rt; (set.root().get(), set.object(), set.serial()), (8, 5, 9));
    assert_eq!(rt; (set.count(), set.has_writes()), (0, false));
    run_all(&rt, &mut set, "make /8")?;
    is_fresh(&rt, &set, "/ /8");
    Ok(())
}
