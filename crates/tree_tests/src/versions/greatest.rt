//! The greatest commit: 128 pages of level 7, each made on a way of its own.
ghost use Rattle.std.specs.Prelude.{◌+◌, ◌<◌, ◌^◌};
ghost use Rattle.draft_model.specs.Flush.{IsPlaced};

use super::super::drafts::{begun, run, wide_base};
use super::updates::planned;
use super::*;

/// The make of the k-th of these pages.
fn make(k: u8) -> Option<Step> {
    let mut at = Path::root();
    for number in [k % 16, k / 16, 0, 0, 0, 0, 0] {
        at = at.child(Slot::of(number).ok()?).ok()?;
    }
    Some(Step::MakeAt {
        at: Child::of(&at)?,
    })
}

/// How many blocks a flush gives out.
fn count_blocks<D: Draft>(draft: &D, flush: &mut Flush) -> u32
    requires ready { D.is_ready draft.now }
    requires serial { D.serial_of draft.now + 1 < 2 ^ 64 }
    requires placed { IsPlaced (D.view draft.now) flush.old.placed }
{
    let mut bytes = [0; 1024];
    for count in 0..1000u32 {
        if flush.next(draft, &mut bytes).is_none() {
            return count;
        }
    }
    1000
}

/// How many blocks the commit of a draft takes.
fn blocks_of(alloc: Global, draft: &BoxDraft) -> Option<u32> {
    if draft.serial() == u64::MAX {
        return None;
    }
    let mut flush = planned(alloc, draft, 2, 0, Members::none())?;
    Some(count_blocks(draft, &mut flush))
}

#[test]
fn flushes_785_pages(rt: HostRuntime) -> Result<(), Fail> {
    let mut draft = begun(rt.alloc(), wide_base())?;
    for k in 0..128u8 {
        run(&rt, &mut draft, &make(k).ok_or("no step")?)?;
    }
    assert_eq!(rt; draft.fresh_count(), 785);
    assert_eq!(rt; blocks_of(rt.alloc(), &draft), Some(785));
    Ok(())
}
