//! Walks over pairs of updates that a seed picks, compared with the trees that they stand for.
ghost use Rattle.std.specs.Prelude.{◌<◌};

use super::super::trees::{apply, clash_with};
use super::{Offers, Version, Written, begun, carry, commit, draft_on, run, update};
use afs_base::{PageData, Path, Slot};
use std::alloc::Global;
use std::process::Abort;
use std::test::Fail;
use tree_model::{Child, Step, Tree};

/// Numbers in an order that a seed fixes.
#[derive(Drop)]
struct Seed {
    state: u64,
}

impl Seed {
    fn next(&mut self, below: u8) -> u8
        requires { 0 < below }
        ensures { result < below }
    {
        self.state = self
            .state
            .wrapping_mul(6364136223846793005)
            .wrapping_add(1442695040888963407);
        ((self.state >> 33) % u64::from(below)) as u8
    }

    /// A path of at most three slots, each 0 to 2.
    fn path(&mut self) -> Option<Path> {
        let mut path = Path::root();
        for _slot in 0..self.next(4) {
            path = path.child(Slot::of(self.next(3)).ok()?).ok()?;
        }
        Some(path)
    }

    /// A step; more makes than drops.
    fn step(&mut self) -> Option<Step> {
        let at = self.path()?;
        let kind = self.next(8);
        if kind == 0 {
            return Some(Step::ReadAt { at });
        }
        if kind == 1 {
            return Some(Step::ListAt { at });
        }
        match Child::of(&at) {
            Some(child) if kind == 2 => Some(Step::DropAt { at: child }),
            Some(child) if kind < 6 => Some(Step::MakeAt { at: child }),
            _ => Some(Step::WriteAt {
                at,
                bytes: PageData::of(&[kind]),
            }),
        }
    }

    /// So many steps.
    fn steps(&mut self, alloc: Global, count: u8) -> Result<Vec<Step>, Fail> {
        let mut steps = Vec::new(alloc);
        for _step in 0..count {
            steps.push(self.step().ok_or("no step")?)?;
        }
        Ok(steps)
    }
}

/// The k-th path of at most three slots, each 0 to 2.
fn path_of(k: u8) -> Option<Path> {
    let mut path = Path::root();
    for digit in [k / 16, k / 4 % 4, k % 4] {
        if digit < 3 {
            path = path.child(Slot::of(digit).ok()?).ok()?;
        }
    }
    Some(path)
}

/// Reads and lists every page of a version, and compares with the tree.
fn compare(
    rt: &impl Abort,
    alloc: Global,
    version: &Version,
    written: &Written,
    tree: &mut Tree,
) -> Result<(), Fail> {
    let mut reader = draft_on(alloc, version, written, &[])?;
    for k in 0..64u8 {
        let at = path_of(k).ok_or("no path")?;
        for step in [Step::ReadAt { at }, Step::ListAt { at }] {
            assert_eq!(rt; run(&mut reader, written, &step)?, tree.step(&step)?);
        }
    }
    Ok(())
}

/// Two updates that the seed picks on a base that it picks, as trees and by a walk. Whether they clash.
fn is_clash(rt: &impl Abort, alloc: Global, seed: &mut Seed) -> Result<bool, Fail> {
    let steps = seed.steps(alloc, 8)?;
    let theirs = seed.steps(alloc, 4)?;
    let mine = seed.steps(alloc, 4)?;
    let mut tree = Tree::single(alloc)?;
    apply(&mut tree, &steps)?;
    let clash = clash_with(alloc, &mut tree, &theirs, &mine)?;
    let (base, mut written) = begun(alloc, &steps)?;
    let later = update(alloc, &base, &mut written, &theirs)?;
    let mut draft = draft_on(alloc, &base, &written, &mine)?;
    let walked = carry(&mut draft, &later, &written, Offers::Nothing)?;
    assert_eq!(rt; walked.clash.map(|found| (found.path, found.kind)), clash);
    if clash.is_none() {
        apply(&mut tree, &mine)?;
        let version = commit(alloc, &draft, &mut written)?;
        compare(rt, alloc, &version, &written, &mut tree)?;
    }
    Ok(clash.is_some())
}

#[test]
fn walks_do_what_trees_do(rt: HostRuntime) -> Result<(), Fail> {
    let mut seed = Seed { state: 20261201 };
    let mut clashes = 0u32;
    for _round in 0..200u32 {
        if is_clash(&rt, rt.alloc(), &mut seed)? {
            clashes = clashes.saturating_add(1);
        }
    }
    assert!(rt; 20 < clashes && clashes < 180, "{clashes} clashes");
    Ok(())
}
