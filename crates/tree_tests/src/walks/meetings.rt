//! Walks over one later version and over several, by hand.
ghost use Rattle.std.specs.Prelude.{◌≡◌, OnOk};

use super::super::texts::{answer, path, step};
use super::super::trees::{MEETINGS, Meeting, place, steps};
use super::{
    Offers, Version, Walked, Written, begun, carry, commit, draft_on, page_at, run, update,
};
use afs_base::Path;
use draft_tree::{BoxDraft, Draft};
use page_codec::Page;
use std::alloc::Global;
use std::process::Abort;
use std::test::Fail;
use tree_model::Step;

/// Copies the page at a path, which is in a slot of `/` and is not copied yet, for no step.
fn copy_page(draft: &mut BoxDraft, written: &Written, at: &Path) -> Result<(), Fail>
    requires { ⟦<BoxDraft as Draft>⟧.fed_of draft.old ≡ 0 }
{
    let (needed, block) = draft.need(&Step::ReadAt { at: *at }).ok_or("no need")?;
    draft.feed(&needed, &page_at(written, &needed, block).ok_or("no page")?)?;
    Ok(())
}

/// Reads pages of a version, as a text has them.
fn has_pages(
    rt: &impl Abort,
    alloc: Global,
    version: &Version,
    written: &Written,
    pages: &str,
) -> Result<(), Fail> {
    let mut reader = draft_on(alloc, version, written, &[])?;
    for word in pages.split(' ') {
        let (at, wanted) = answer(word).ok_or("no page")?;
        assert_eq!(rt;
            run(&mut reader, written, &Step::ReadAt { at })?,
            wanted,
            "{word}"
        );
    }
    Ok(())
}

/// A page that was copied and not accessed is let go by the first walk.
fn is_let_go(rt: &impl Abort, draft: &BoxDraft, page: &str) {
    if let Some(at) = path(page) {
        assert!(rt;
            page.is_empty() || !draft.page(&at, &mut Page::empty(0)),
            "{page}"
        );
    }
}

/// A draft with my steps on the base of a meeting, with one more page copied where the meeting names one; the base, and all pages.
fn begun_by(alloc: Global, meeting: &Meeting) -> Result<(BoxDraft, Version, Written), Fail> {
    let (base, written) = begun(alloc, &steps(alloc, meeting.base)?)?;
    let mut draft = draft_on(alloc, &base, &written, &steps(alloc, meeting.mine)?)?;
    if !meeting.copied.is_empty() {
        copy_page(
            &mut draft,
            &written,
            &path(meeting.copied).ok_or("no path")?,
        )?;
    }
    Ok((draft, base, written))
}

/// Writes the next version, and carries my draft over to it.
fn carried(
    alloc: Global,
    draft: &mut BoxDraft,
    last: &mut Version,
    written: &mut Written,
    theirs: &str,
    offers: Offers,
) -> Result<Walked, Fail> {
    *last = update(alloc, last, written, &steps(alloc, theirs)?)?;
    carry(draft, last, written, offers)
}

/// The sum of two walks, with the clash of the second.
fn sum(first: &Walked, second: &Walked) -> Walked {
    Walked {
        clash: second.clash,
        feeds: first.feeds.saturating_add(second.feeds),
        own: first.own.saturating_add(second.own),
    }
}

/// Carries my draft over to each of their versions, as long as they do not clash.
fn carried_over(
    alloc: Global,
    meeting: &Meeting,
    offers: Offers,
) -> Result<(BoxDraft, Written, Walked), Fail> {
    let (mut draft, mut last, mut written) = begun_by(alloc, meeting)?;
    let mut all = Walked {
        clash: None,
        feeds: 0,
        own: 0,
    };
    for theirs in meeting.theirs.split('|') {
        if all.clash.is_none() {
            let walked = carried(alloc, &mut draft, &mut last, &mut written, theirs, offers)?;
            all = sum(&all, &walked);
        }
    }
    Ok((draft, written, all))
}

/// Carries my update over theirs, and compares what comes of it with what the table says; the walks merge so many pairs by themselves.
fn meets(
    rt: &impl Abort,
    alloc: Global,
    meeting: &Meeting,
    offers: Offers,
    own: u64,
) -> Result<(), Fail> {
    let (draft, mut written, walked) = carried_over(alloc, meeting, offers)?;
    let clash = walked.clash.map(|clash| (clash.path, clash.kind));
    assert_eq!(rt; clash, place(meeting.clash));
    assert_eq!(rt; (walked.feeds, u64::from(walked.own)), (meeting.feeds, own));
    if walked.clash.is_none() {
        is_let_go(rt, &draft, meeting.copied);
        let version = commit(alloc, &draft, &mut written)?;
        has_pages(rt, alloc, &version, &written, meeting.pages)?;
    }
    Ok(())
}

#[test]
fn a_walk_finds_the_clash_or_carries_over(rt: HostRuntime) -> Result<(), Fail> {
    for meeting in &MEETINGS {
        meets(&rt, rt.alloc(), meeting, Offers::Nothing, meeting.feeds)?;
        meets(&rt, rt.alloc(), meeting, Offers::TheOutcome, 0)?;
        meets(
            &rt,
            rt.alloc(),
            meeting,
            Offers::AnotherOutcome,
            meeting.feeds,
        )?;
    }
    Ok(())
}
