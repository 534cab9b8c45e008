//! How far a sweep has come, and what reading one more block makes of it.
ghost use Rattle.std.specs.Prelude.{◌≡◌, ◌<◌, ◌≤◌, ◌&&◌, ℕ, is_some, true, false, not, length, option_to_list, Some, None, Ok, OnOk, OnErr, MatchResult, if◌then◌else◌};
ghost use Rattle.std.specs.Option.{is_none};
ghost use Rattle.page_codec.specs.Causes.{page_of, version_of};
ghost use Rattle.prune_sweep.specs.declared.mark.Mark.TheVariants.{Next};
ghost use Rattle.prune_sweep.specs.Slots.{is_within};
ghost use Rattle.prune_sweep.specs.Marks.{mark_at, left_of, is_open, is_to_read, reads_left};
ghost use Rattle.prune_sweep.specs.Searching.{IsNext};
ghost use Rattle.prune_sweep.specs.Progress.{begun, is_reached, read_mark};
ghost use Rattle.prune_sweep.specs.Naming.{Stays, StaysBut};
ghost use Rattle.prune_sweep.specs.Causes.{has_seen, page_cause, version_cause, cause_of};
ghost use Rattle.prune_sweep.specs.Reading.{named_at, PageRead, VersionTaken, VersionRead, Reads};

use crate::mark::Mark;
use crate::marks::Marks;
use crate::naming::{name_new, share_all};
use crate::slots::{Following, are_within, is_below};
use crate::stage::{Stage, begun, following_at};
use afs_base::BlockNo;
use page_codec::{BadPage, Block, Reference, VersionPage, Why, decode_page, decode_version};

/// What a sweep knows of each block, and which version it reads.
#[derive(Drop)]
pub struct Progress {
    pub marks: Marks,
    /// The serial of the version that stays.
    pub upto: Option<u64>,
    pub stage: Stage,
    /// The page of the version that is read after this one.
    pub after: Option<BlockNo>,
    /// The page of the version that stays, once it was read.
    pub reached: Option<BlockNo>,
}

impl Progress {
    /// What is to be read next: the least page that this version needs, or else the page of the next version; none where
    /// neither is left.
    pub fn next(&mut self) -> Option<BlockNo>
        ensures same { self.new ≡ self.old }
        ensures next { IsNext self.old.marks self.old.after result }
    {
        match self.marks.least_open() {
            Some(open) => Some(open),
            None => self.after,
        }
    }

    /// Takes the bytes that were read from a block that is to be read.
    pub fn read(&mut self, at: BlockNo, block: &Block) -> Result<(), BadPage>
        requires within { at < length self.old.marks }
        requires needed { is_to_read (mark_at self.old.marks at) ≡ true }
        ensures causes { MatchResult result (λ _. cause_of self.old at block.now ≡ None)
            (λ e. cause_of self.old at block.now ≡ Some e.why) }
        ensures reads { OnOk result (Reads at block.now self.old self.new) }
        ensures left { OnOk result (left_of self.new.marks < left_of self.old.marks) }
        ensures stays { OnErr result (StaysBut self.old self.new) }
    {
        let stays = self.reached.is_some();
        let following = following_at(self.stage, stays);
        match self.marks.get(at) {
            Mark::Next => self.read_version(at, block),
            Mark::Wanted(level) => self.read_page(at, level, following, stays, block),
            Mark::Shared(level) => self.read_page(at, level, Following::AllShared, true, block),
            Mark::Unseen | Mark::Found | Mark::Kept => unreachable!(),
        }
    }

    /// Takes the bytes of a page below `/` of this level.
    fn read_page(
        &mut self,
        at: BlockNo,
        level: u8,
        following: Following,
        stays: bool,
        block: &Block,
    ) -> Result<(), BadPage>
        requires within { at < length self.old.marks }
        requires needed { reads_left (read_mark stays) < reads_left (mark_at self.old.marks at) }
        requires opened { is_open (mark_at self.old.marks at) ≡ true }
        ensures causes { let cause = page_cause self.old.marks following level (page_of block.now)
            in MatchResult result (λ _. cause ≡ None) (λ e. cause ≡ Some e.why) }
        ensures reads { OnOk result
            (PageRead at level following stays block.now self.old self.new) }
        ensures left { OnOk result (left_of self.new.marks < left_of self.old.marks) }
        ensures stays { OnErr result (StaysBut self.old self.new) }
    {
        let page = decode_page(block)?;
        if page.level != level {
            return Err(BadPage { why: Why::Level });
        }
        if !are_within(&page.refs, following, self.marks.blocks()) {
            return Err(BadPage {
                why: Why::Reference,
            });
        }
        let below = page.level + 1;
        if !name_new(&mut self.marks, &page.refs, following, below) {
            return Err(BadPage { why: Why::Seen });
        }
        share_all(&mut self.marks, &page.refs, following, below);
        self.marks.set(at, read_mark(stays));
        Ok(())
    }

    /// Takes the bytes of the page of the next version, which is the version that is read then.
    fn read_version(&mut self, at: BlockNo, block: &Block) -> Result<(), BadPage>
        requires within { at < length self.old.marks }
        requires needed { mark_at self.old.marks at ≡ Next }
        ensures causes { let cause = version_cause self.old.marks self.old.upto
            (begun self.old.stage) (version_of block.now)
            in MatchResult result (λ _. cause ≡ None) (λ e. cause ≡ Some e.why) }
        ensures reads { OnOk result (VersionRead at block.now self.old self.new) }
        ensures left { OnOk result (left_of self.new.marks < left_of self.old.marks) }
        ensures stays { OnErr result (StaysBut self.old self.new) }
    {
        let version = decode_version(block)?;
        self.take_version(at, &version)
    }

    /// Takes the page of the next version.
    fn take_version(&mut self, at: BlockNo, version: &VersionPage) -> Result<(), BadPage>
        requires within { at < length self.old.marks }
        requires needed { mark_at self.old.marks at ≡ Next }
        ensures causes { let cause = version_cause self.old.marks self.old.upto
            (begun self.old.stage) (Ok version.now)
            in MatchResult result (λ _. cause ≡ None) (λ e. cause ≡ Some e.why) }
        ensures takes { OnOk result (VersionTaken at version.now self.old self.new) }
        ensures left { OnOk result (left_of self.new.marks < left_of self.old.marks) }
        ensures stays { OnErr result (StaysBut self.old self.new) }
    {
        let stays = is_reached(self.upto, version);
        let stage = begun(self.stage);
        let following = following_at(stage, stays);
        let refs = slots_of(version);
        let blocks = self.marks.blocks();
        let next = next_version(stays, version);
        if !(are_within(refs, following, blocks) & is_below(next, blocks)) {
            return Err(BadPage {
                why: Why::Reference,
            });
        }
        if !name_new(&mut self.marks, refs, following, 1) {
            return Err(BadPage { why: Why::Seen });
        }
        let linked = next_version(stays, version);
        if !name_next(&mut self.marks, linked) {
            return Err(BadPage { why: Why::Seen });
        }
        if is_serial_missing(self.upto, stays, version) {
            return Err(BadPage { why: Why::Serial });
        }
        share_all(&mut self.marks, refs, following, 1);
        self.marks.set(at, read_mark(stays));
        self.stage = stage;
        let after = next_version(stays, version);
        self.after = after;
        let reached = reached_at(stays, at);
        self.reached = reached;
        Ok(())
    }
}

/// The slots of the page of a version.
fn slots_of(version: &VersionPage) -> &[Reference]
    ensures { result.now ≡ version.now.page.refs }
{
    &version.page.refs
}

/// Whether the version is the one that stays.
fn is_reached(upto: Option<u64>, version: &VersionPage) -> bool
    ensures { result ≡ is_reached upto version.now.serial }
{
    match upto {
        Some(last) => last == version.serial,
        None => false,
    }
}

/// Whether a version with some serial is to stay, and this one is another, with none behind it.
fn is_serial_missing(upto: Option<u64>, stays: bool, version: &VersionPage) -> bool
    ensures { result ≡ (is_some upto && (not stays && is_none version.now.commit)) }
{
    upto.is_some() & (!stays & version.commit.is_none())
}

/// The next version that is to be read, behind one that stays or goes.
fn next_version(stays: bool, version: &VersionPage) -> Option<BlockNo>
    ensures { result ≡ (if stays then None else version.now.commit) }
{
    if stays { None } else { version.commit }
}

/// What a page that was read is marked as, by whether its version stays.
fn read_mark(stays: bool) -> Mark
    ensures { result ≡ read_mark stays }
{
    if stays { Mark::Kept } else { Mark::Found }
}

/// The block of the version that stays, once this one was read.
fn reached_at(stays: bool, at: BlockNo) -> Option<BlockNo>
    ensures { result ≡ (if stays then Some at else None) }
{
    if stays { Some(at) } else { None }
}

/// Marks the page of the next version, where there is one, and tells whether it was not named before.
fn name_next(marks: &mut Marks, next: Option<BlockNo>) -> bool
    requires { is_within (length marks.old) next ≡ true }
    ensures new { result ≡ not (has_seen marks.old (option_to_list next)) }
    ensures marks { result ≡ true → (n : ℕ) → mark_at marks.new n
        ≡ named_at Next (option_to_list next) (mark_at marks.old) n }
    ensures stays { Stays marks.old marks.new }
{
    match next {
        Some(block) => marks.name(block, Mark::Next),
        None => true,
    }
}
