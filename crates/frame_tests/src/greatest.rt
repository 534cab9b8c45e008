//! The greatest update: 128 writes of pages of level 7, spread over seventeen roots, each on a way of its own.
ghost use Rattle.std.specs.Prelude.{◌≡◌, OnOk};

use super::kinds::{pool_set, stored_at};
use afs_base::{PageData, Path, Slot};
use draft_tree::Draft;
use std::process::Abort;
use std::test::Fail;
use tree_model::{Reply, Step};

/// A path of seven slots, of which the first is given.
fn way_down(first: u8) -> Option<Path> {
    let mut at = Path::root();
    for number in [first, 0, 0, 0, 0, 0, 0] {
        at = at.child(Slot::of(number).ok()?).ok()?;
    }
    Some(at)
}

/// Writes a page at a path of seven slots, of which the first is given, where the seven pages on the way are fed one by one.
fn write_down<D: Draft>(rt: &impl Abort, draft: &mut D, first: u8) -> Result<Reply, Fail>
    requires ready { D.is_ready draft.old }
    requires none { D.fed_of draft.old ≡ 0 }
    ensures ready { D.is_ready draft.new }
    ensures none { OnOk result (D.fed_of draft.new ≡ 0) }
    ensures rest { D.rest_of draft.new ≡ D.rest_of draft.old }
{
    let at = way_down(first).ok_or("no path")?;
    let bytes = PageData::of(&[first]);
    let step = Step::WriteAt { at, bytes };
    assert!(rt; draft.count() < 128);
    for _level in 0..7u32 {
        let (above, block) = draft.need(&step).ok_or("nothing is needed")?;
        draft.feed(&above, &stored_at(&above, block).ok_or("no page")?)?;
    }
    match draft.need(&step) {
        Some(_) => Err(Fail::new("more is needed")),
        None => Ok(draft.step(&step)?),
    }
}

#[test]
fn the_greatest_update_leaves_frames(rt: HostRuntime) -> Result<(), Fail> {
    let mut set = pool_set(rt.alloc(), 0)?;
    for k in 0..128u8 {
        set.pick(k % 17);
        write_down(&rt, &mut set, k / 17)?;
    }
    assert_eq!(rt; (set.count(), set.left()), (128, 1024 - 17 - 128 * 7));
    assert!(rt; set.left() >= 103);
    for k in 0..17u8 {
        set.pick(k);
        let writes = if k < 9 { 8 } else { 7 };
        assert_eq!(rt; set.fresh_count(), 1 + 7 * writes);
    }
    let (_pool, lease) = set.end();
    assert_eq!(rt; lease.left(), 1024);
    Ok(())
}
