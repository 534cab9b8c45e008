//! Flags, masks and fresh paths after lists of steps.
ghost use Rattle.std.specs.Prelude.{◌≡◌, IfOk};

use super::*;

/// Steps on the base, and of a path after them the code of its flags, and the masks of the slots that were read and written.
const MARKED: [(&str, &str, u8, u16, u16); 21] = [
    // What another update wrote is read: the way is searched, the page is read.
    ("read /0/1", "/", 2, 1, 0),
    ("read /0/1", "/0", 2, 2, 0),
    ("read /0/1", "/0/1", 4, 0, 0),
    ("read /0/1", "/0/2", 0, 0, 0),
    // Written and not read, and read only after that.
    ("write /0 new;read /0", "/", 2, 1, 0),
    ("write /0 new;read /0", "/0", 7, 0, 0),
    ("list /0", "/", 2, 1, 0),
    ("list /0", "/0", 2, 0xffff, 0),
    // A make marks the slot above and all of the new page.
    ("make /0/3", "/", 2, 1, 0),
    ("make /0/3", "/0", 3, 8, 8),
    ("make /0/3", "/0/3", 9, 0xffff, 0xffff),
    ("drop /0/1", "/", 2, 1, 0),
    ("drop /0/1", "/0", 3, 2, 2),
    ("drop /0/1", "/0/1", 0, 0, 0),
    // What is dropped keeps its marks.
    ("read /0/1;write /0/1 new;drop /0", "/", 3, 1, 1),
    ("read /0/1;write /0/1 new;drop /0", "/0", 2, 2, 0),
    ("read /0/1;write /0/1 new;drop /0", "/0/1", 10, 0, 0),
    // Dropped and made again: what was read before stays read.
    ("read /0;drop /0;make /0;read /0", "/", 3, 1, 1),
    ("read /0;drop /0;make /0;read /0", "/0", 12, 0xffff, 0xffff),
    ("make /2;drop /2;make /2;read /2", "/", 3, 4, 4),
    ("make /2;drop /2;make /2;read /2", "/2", 9, 0xffff, 0xffff),
];

/// Steps on the base, and the fresh paths after them.
const FRESH: [(&str, &str); 4] = [
    ("read /0/1;list /", ""),
    ("make /3;write /0/1 new;make /3/1", "/ /0 /0/1 /3 /3/1"),
    // What was written below a dropped page makes the pages above it fresh.
    ("write /0/1 new;drop /0", "/"),
    ("write /0/1 new;drop /0/1", "/ /0"),
];

/// A draft on the base that has done the steps of a text, parted by semicolons.
fn done(rt: &impl Abort, alloc: Global, text: &str) -> Result<BoxDraft, Fail>
    ensures { IfOk result (λ d. ⟦<BoxDraft as Draft>⟧.fed_of d ≡ 0) }
{
    let mut draft = begun(alloc, base())?;
    for word in text.split(';') {
        run(rt, &mut draft, &step(word).ok_or("no step")?)?;
    }
    Ok(draft)
}

/// Compares the fresh paths of a draft with those of a text.
fn is_fresh(rt: &impl Abort, draft: &BoxDraft, text: &str) {
    assert_eq!(rt; draft.has_writes(), !text.is_empty());
    let mut paths = ArrayVec::new();
    draft.list_fresh(&mut paths);
    assert_eq!(rt; draft.fresh_count() as usize, paths.len(), "{text}");
    let mut known = paths.as_slice().iter();
    for word in text.split(' ') {
        if !word.is_empty() {
            assert_eq!(rt; known.next().copied(), path(word), "{word} of {text}");
        }
    }
    assert!(rt; known.next().is_none(), "{text}");
}

#[test]
fn marks_and_fresh_paths_are_read_off(rt: HostRuntime) -> Result<(), Fail> {
    for (text, page, code, searched, modified) in MARKED {
        let draft = done(&rt, rt.alloc(), text)?;
        let at = path(page).ok_or("no path")?;
        let slots = SlotMarks { searched, modified };
        assert_eq!(rt; draft.flags(&at).code(), code, "{page} after {text}");
        assert_eq!(rt; draft.slots(&at), slots, "{page} after {text}");
    }
    for (text, fresh) in FRESH {
        is_fresh(&rt, &done(&rt, rt.alloc(), text)?, fresh);
    }
    Ok(())
}
