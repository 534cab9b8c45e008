//! Deep paths, many steps, and what a walk does to a draft.
ghost use Rattle.std.specs.Prelude.{◌≡◌, OnOk};

use super::*;

/// Reads the page at a path of seven slots 7, whose pages are needed one by one from the top.
fn read_down(rt: &impl Abort, draft: &mut BoxDraft, at: &Path) -> Result<Reply, Fail>
    requires { ⟦<BoxDraft as Draft>⟧.fed_of draft.old ≡ 0 }
    ensures { OnOk result (⟦<BoxDraft as Draft>⟧.fed_of draft.new ≡ 0) }
{
    let step = Step::ReadAt { at: *at };
    assert!(rt; draft.count() < 128);
    for level in 0..7u32 {
        let (above, block) = draft.need(&step).ok_or("nothing is needed")?;
        assert_eq!(rt;
            (above.len(), block.get()),
            (level as usize + 1, 11 + level)
        );
        draft.feed(&above, &stored_at(&above, block).ok_or("no page")?)?;
    }
    match draft.need(&step) {
        Some(_) => Err(Fail::new("more is needed")),
        None => Ok(draft.step(&step)?),
    }
}

#[test]
fn seven_pages_are_fed_from_the_top(rt: HostRuntime) -> Result<(), Fail> {
    let mut draft = begun(rt.alloc(), base())?;
    let at = path("/7/7/7/7/7/7/7").ok_or("no path")?;
    assert_eq!(rt;
        read_down(&rt, &mut draft, &at)?,
        Reply::Bytes(PageData::empty())
    );
    assert_eq!(rt; draft.flags(&at).code(), 4);
    let reply = run(&rt, &mut draft, &Step::ListAt { at })?;
    assert_eq!(rt; reply, Reply::Slots(0));
    Ok(())
}

#[test]
fn a_draft_has_128_steps(rt: HostRuntime) -> Result<(), Fail> {
    let mut draft = begun(rt.alloc(), version(Page::empty(0)))?;
    let make = step("make /0").ok_or("no step")?;
    let taken = step("drop /0").ok_or("no step")?;
    for _round in 0..64u32 {
        assert_eq!(rt; run(&rt, &mut draft, &make)?, Reply::Done);
        assert_eq!(rt; run(&rt, &mut draft, &taken)?, Reply::Done);
    }
    assert_eq!(rt; draft.count(), 128);
    Ok(())
}

/// The block in a slot of a page.
fn block_in(page: &Page, slot: usize) -> Option<u32> {
    let reference = *page.refs.get(slot)?;
    Some(reference.block?.get())
}

/// Merges a page at a path where a page of its level is live.
fn merge(draft: &mut BoxDraft, at: &Path, merged: &Page) -> Option<()> {
    let mut page = Page::empty(0);
    if !draft.page(at, &mut page) {
        return None;
    }
    if page.level != merged.level {
        return None;
    }
    draft.take_merged(at, merged);
    Some(())
}

#[test]
fn a_walk_changes_pages_and_the_base(rt: HostRuntime) -> Result<(), Fail> {
    let mut draft = begun(rt.alloc(), base())?;
    let root = Path::root();
    run(&rt, &mut draft, &step("make /3").ok_or("no step")?)?;
    let mut page = Page::empty(0);
    assert!(rt; draft.page(&root, &mut page));
    assert_eq!(rt; (page.modified, block_in(&page, 0)), (8, Some(4)));

    let mut merged = with_child(0, b'z', 5, 6).ok_or("no page")?;
    merged.modified = 1;
    assert!(rt; merge(&mut draft, &root, &merged).is_some());
    assert!(rt; draft.page(&root, &mut page));
    assert_eq!(rt;
        (page.level, page.modified, page.bytes),
        (0, 8, PageData::of(b"z"))
    );
    assert_eq!(rt; (block_in(&page, 0), block_in(&page, 5)), (None, Some(6)));

    assert_eq!(rt;
        (draft.root().get(), draft.object(), draft.serial()),
        (3, 5, 9)
    );
    draft.rebase(BlockNo::of(8).ok().ok_or("no block")?, 12);
    assert_eq!(rt;
        (draft.root().get(), draft.object(), draft.serial()),
        (8, 5, 12)
    );
    Ok(())
}
