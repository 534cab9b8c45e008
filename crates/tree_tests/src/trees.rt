//! What steps do to a tree, and when two updates clash.
use super::texts::{answer, path, step};
use afs_base::{Kind, PageData, Path, Slot};
use std::alloc::Global;
use std::process::Abort;
use std::test::Fail;
use tree_model::{Reply, Step, Tree, accesses, first_clash};

/// The steps of a text, parted by semicolons.
pub fn steps(alloc: Global, text: &str) -> Result<Vec<Step>, Fail> {
    let mut steps = Vec::new(alloc);
    for word in text.split(';') {
        if !word.is_empty() {
            steps.push(step(word).ok_or("no step")?)?;
        }
    }
    Ok(steps)
}

pub fn apply(tree: &mut Tree, steps: &[Step]) -> Result<(), Fail> {
    for step in steps {
        tree.step(step)?;
    }
    Ok(())
}

/// Updates on one base: those that are committed first, and mine.
pub struct Meeting {
    pub base: &'static str,
    /// The others, parted by bars, each on the version of the one before.
    pub theirs: &'static str,
    pub mine: &'static str,
    /// A page that mine copies and does not access, if any.
    pub copied: &'static str,
    /// Where mine clashes with the first of them that it clashes with: a page, and `data` or the slot.
    pub clash: &'static str,
    /// How many pages of theirs are read until the clash is found, or until all are merged.
    pub feeds: u64,
    /// Pages of the tree that all leave, with their data, and pages that are not there.
    pub pages: &'static str,
}

pub const MEETINGS: [Meeting; 12] = [
    Meeting {
        base: "make /0;make /1",
        theirs: "write /0 aa",
        mine: "write /1 bb",
        copied: "",
        clash: "",
        feeds: 1,
        pages: "/: /0:aa /1:bb",
    },
    Meeting {
        base: "make /0;make /1",
        theirs: "write /0 aa",
        mine: "read /0;write /1 bb",
        copied: "",
        clash: "/0 data",
        feeds: 2,
        pages: "",
    },
    Meeting {
        base: "make /0;make /0/1",
        theirs: "write /0/1 aa",
        mine: "read /0/1;drop /0",
        copied: "",
        clash: "/0/1 data",
        feeds: 3,
        pages: "",
    },
    Meeting {
        base: "make /0;make /1",
        theirs: "make /3",
        mine: "list /;write /0 bb",
        copied: "",
        clash: "/ 3",
        feeds: 1,
        pages: "",
    },
    Meeting {
        base: "make /0;make /1",
        theirs: "write /0 aa",
        mine: "write /0 bb",
        copied: "",
        clash: "",
        feeds: 2,
        pages: "/0:bb /1:",
    },
    Meeting {
        base: "make /0;make /1",
        theirs: "write /0 aa",
        mine: "drop /0;make /0",
        copied: "",
        clash: "",
        feeds: 2,
        pages: "/0: /1:",
    },
    Meeting {
        base: "make /0;make /1",
        theirs: "write / cc;write /0 aa",
        mine: "make /3",
        copied: "",
        clash: "",
        feeds: 1,
        pages: "/:cc /0:aa /1: /3:",
    },
    Meeting {
        base: "make /0;make /1",
        theirs: "make /2",
        mine: "make /3",
        copied: "",
        clash: "",
        feeds: 1,
        pages: "/0: /1: /2: /3:",
    },
    // The one that docs/ARCHITECTURE.md follows.
    Meeting {
        base: "make /0;make /7",
        theirs: "write /0 aa;make /2",
        mine: "read /7;make /0/1;make /3",
        copied: "",
        clash: "",
        feeds: 2,
        pages: "/0:aa /0/1: /2: /3: /7:",
    },
    // Three later versions in a row.
    Meeting {
        base: "make /0;make /1",
        theirs: "write /0 aa|make /2|write /2 cc;drop /1",
        mine: "make /3;write / bb",
        copied: "",
        clash: "",
        feeds: 3,
        pages: "/:bb /0:aa /1 /2:cc /3:",
    },
    // A page that was fed and not accessed.
    Meeting {
        base: "make /0;make /1",
        theirs: "write /0 aa",
        mine: "write / bb",
        copied: "/0",
        clash: "",
        feeds: 1,
        pages: "/:bb /0:aa /1:",
    },
    Meeting {
        base: "make /0;make /1",
        theirs: "drop /0",
        mine: "write / bb",
        copied: "/0",
        clash: "",
        feeds: 1,
        pages: "/:bb /0 /1:",
    },
];

/// Where mine clashes with the other update, which is then done on the tree.
pub fn clash_with(
    alloc: Global,
    tree: &mut Tree,
    theirs: &[Step],
    mine: &[Step],
) -> Result<Option<(Path, Kind)>, Fail> {
    let my_access = accesses(alloc, tree, mine)?;
    let their_access = accesses(alloc, tree, theirs)?;
    apply(tree, theirs)?;
    Ok(first_clash(&my_access, &their_access.visible(alloc, tree)?))
}

/// The place of a clash, as the table has it.
pub fn place(text: &str) -> Option<(Path, Kind)> {
    match text.split_once(' ')? {
        (page, "data") => Some((path(page)?, Kind::Data)),
        (page, slot) => Some((
            path(page)?,
            Kind::Slot(Slot::of(slot.parse::<u8>().ok()?).ok()?),
        )),
    }
}

/// Finds where the updates of a meeting clash, and compares the tree that all leave.
fn meets(rt: &impl Abort, alloc: Global, meeting: &Meeting) -> Result<(), Fail> {
    let mine = steps(alloc, meeting.mine)?;
    let mut tree = Tree::single(alloc)?;
    apply(&mut tree, &steps(alloc, meeting.base)?)?;
    let mut clash = None;
    for theirs in meeting.theirs.split('|') {
        let found = clash_with(alloc, &mut tree, &steps(alloc, theirs)?, &mine)?;
        clash = clash.or(found);
    }
    assert_eq!(rt; clash, place(meeting.clash));
    apply(&mut tree, &mine)?;
    for word in meeting.pages.split(' ') {
        if !word.is_empty() {
            let (at, wanted) = answer(word).ok_or("no page")?;
            assert_eq!(rt; tree.step(&Step::ReadAt { at })?, wanted, "{word}");
        }
    }
    Ok(())
}

#[test]
fn updates_clash_or_merge(rt: HostRuntime) -> Result<(), Fail> {
    for meeting in &MEETINGS {
        meets(&rt, rt.alloc(), meeting)?;
    }
    Ok(())
}

/// Steps one after the other, and their answers.
const ANSWERS: [(&str, Reply); 16] = [
    ("read /5", Reply::Absent),
    ("make /0", Reply::Done),
    ("make /0", Reply::Present),
    ("drop /9", Reply::Absent),
    ("make /3/3", Reply::Absent),
    ("list /", Reply::Slots(1)),
    ("make /15", Reply::Done),
    ("list /", Reply::Slots(0x8001)),
    ("list /1", Reply::Absent),
    ("write /0 a", Reply::Done),
    ("write /7 a", Reply::Absent),
    ("make /0/4", Reply::Done),
    ("make /0/4/4", Reply::Done),
    ("drop /0", Reply::Done),
    ("read /0/4/4", Reply::Absent),
    ("list /", Reply::Slots(0x8000)),
];

#[test]
fn steps_answer_by_the_table(rt: HostRuntime) -> Result<(), Fail> {
    let mut tree = Tree::single(rt.alloc())?;
    for (text, reply) in ANSWERS {
        assert_eq!(rt; tree.step(&step(text).ok_or("no step")?)?, reply, "{text}");
    }
    Ok(())
}

#[test]
fn a_page_is_filled_and_read(rt: HostRuntime) -> Result<(), Fail> {
    let mut tree = Tree::single(rt.alloc())?;
    let mut at = Path::root();
    for number in 0..7u8 {
        at = at.child(Slot::of(number)?)?;
        tree.step(&step_to(&at).ok_or("no step")?)?;
    }
    let bytes = PageData::of(&[7; 800]);
    assert_eq!(rt; tree.step(&Step::WriteAt { at, bytes })?, Reply::Done);
    assert_eq!(rt; tree.step(&Step::ReadAt { at })?, Reply::Bytes(bytes));
    assert_eq!(rt; tree.step(&Step::ListAt { at })?, Reply::Slots(0));
    Ok(())
}

/// The make of the page at a path.
fn step_to(at: &Path) -> Option<Step> {
    Some(Step::MakeAt {
        at: tree_model::Child::of(at)?,
    })
}
