//! Updates that a seed picks, on a draft in memory and on one in frames at once.
ghost use Rattle.std.specs.Prelude.{◌≡◌, ◌<◌, OnOk};

use super::kinds::{box_draft, pool_draft, pool_set, stored_at};
use afs_base::{PageData, Path, Slot};
use arrayvec::ArrayVec;
use draft_tree::Draft;
use page_codec::Page;
use std::process::Abort;
use std::test::Fail;
use tree_model::{Child, Step};

/// A number below another, in an order that a seed fixes.
fn next(seed: &mut u64, below: u8) -> u8
    requires { 0 < below }
    ensures { result < below }
{
    *seed = seed
        .wrapping_mul(6364136223846793005)
        .wrapping_add(1442695040888963407);
    ((*seed >> 33) % u64::from(below)) as u8
}

/// A step that the seed picks, at a path of at most six slots, each below a number, or a make one below it.
fn any_step(seed: &mut u64, width: u8) -> Option<Step>
    requires { 0 < width }
{
    let mut at = Path::root();
    for _slot in 0..next(seed, 7) {
        at = at.child(Slot::of(next(seed, width)).ok()?).ok()?;
    }
    let kind = next(seed, 8);
    match (kind, Child::of(&at)) {
        (0, _) => Some(Step::ReadAt { at }),
        (1, _) => Some(Step::ListAt { at }),
        (2, Some(child)) => Some(Step::DropAt { at: child }),
        (3..=4, Some(child)) => Some(Step::MakeAt { at: child }),
        (5, _) => {
            let below = at.child(Slot::of(next(seed, width)).ok()?).ok()?;
            Some(Step::MakeAt {
                at: Child::of(&below)?,
            })
        }
        _ => Some(Step::WriteAt {
            at,
            bytes: PageData::of(&[kind]),
        }),
    }
}

/// Compares what two drafts tell of a path.
fn agree<A: Draft, B: Draft>(rt: &impl Abort, one: &A, other: &B, at: &Path)
    requires one { A.is_ready one.now }
    requires other { B.is_ready other.now }
{
    let mut page = Page::empty(0);
    let mut same = Page::empty(0);
    assert_eq!(rt; one.page(at, &mut page), other.page(at, &mut same));
    assert_eq!(rt;
        (page.level, page.modified, page.bytes),
        (same.level, same.modified, same.bytes)
    );
    assert_eq!(rt; one.flags(at).code(), other.flags(at).code());
    assert_eq!(rt; one.slots(at), other.slots(at));
    assert_eq!(rt; one.count(), other.count());
}

/// Compares the fresh paths of two drafts, and what the drafts tell of each.
fn agree_on_fresh<A: Draft, B: Draft>(rt: &impl Abort, one: &A, other: &B)
    requires one { A.is_ready one.now }
    requires other { B.is_ready other.now }
{
    let mut paths = ArrayVec::new();
    let mut same = ArrayVec::new();
    one.list_fresh(&mut paths);
    other.list_fresh(&mut same);
    assert_eq!(rt; paths.len(), same.len());
    for (at, path) in paths.as_slice().iter().zip(same.as_slice()) {
        assert_eq!(rt; at, path);
        agree(rt, one, other, at);
    }
}

/// Does a step on two drafts, call by call, and compares them after each. How many calls there were.
fn run_both<A: Draft, B: Draft>(
    rt: &impl Abort,
    one: &mut A,
    other: &mut B,
    step: &Step,
) -> Result<u32, Fail>
    requires one { A.is_ready one.old }
    requires other { B.is_ready other.old }
    requires none { (A.fed_of one.old ≡ 0) × (B.fed_of other.old ≡ 0) }
    ensures one { A.is_ready one.new }
    ensures other { B.is_ready other.new }
    ensures none { OnOk result ((A.fed_of one.new ≡ 0) × (B.fed_of other.new ≡ 0)) }
{
    assert!(rt; one.count() < 128 && other.count() < 128);
    for fed in 0..7u32 {
        let need = one.need(step);
        assert_eq!(rt; need, other.need(step));
        match need {
            Some((at, block)) => {
                let page = stored_at(&at, block).ok_or("no page")?;
                one.feed(&at, &page)?;
                other.feed(&at, &page)?;
                agree(rt, one, other, &at);
            }
            None => {
                assert_eq!(rt; one.step(step)?, other.step(step)?);
                agree(rt, one, other, &step.target());
                return Ok(2 * fed + 2);
            }
        }
    }
    Err(Fail::new("too deep"))
}

/// An update that the seed picks, on two drafts, at paths of slots below a number. How many calls there were.
fn update_both<A: Draft, B: Draft>(
    rt: &impl Abort,
    one: &mut A,
    other: &mut B,
    seed: &mut u64,
    width: u8,
) -> Result<u32, Fail>
    requires one { A.is_ready one.old }
    requires other { B.is_ready other.old }
    requires none { (A.fed_of one.old ≡ 0) × (B.fed_of other.old ≡ 0) }
    requires width { 0 < width }
{
    let mut calls = 0u32;
    for _step in 0..128u32 {
        let step = any_step(seed, width).ok_or("no step")?;
        calls = calls.saturating_add(run_both(rt, one, other, &step)?);
    }
    agree_on_fresh(rt, one, other);
    Ok(calls)
}

#[test]
fn frames_agree_with_boxes(rt: HostRuntime) -> Result<(), Fail> {
    let mut seed = 20261201;
    let mut calls = 0u32;
    for k in 0..32u8 {
        let (mut one, mut other) = (box_draft(rt.alloc())?, pool_draft(rt.alloc())?);
        let made = update_both(&rt, &mut one, &mut other, &mut seed, k / 2 + 1)?;
        calls = calls.saturating_add(made);
    }
    assert!(rt; calls >= 10_000, "{calls} calls");
    for k in 0..16u8 {
        let (mut one, mut other) = (box_draft(rt.alloc())?, pool_set(rt.alloc(), k)?);
        update_both(&rt, &mut one, &mut other, &mut seed, k + 1)?;
    }
    Ok(())
}
