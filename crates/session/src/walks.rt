ghost use Rattle.std.specs.Prelude.{◌≡◌, length, IsSome, MatchOption, None, Some};
ghost use Rattle.joint_walk.specs.Calls.{next_of, waiting_job};
ghost use Rattle.pool_draft.specs.Sets.{picked_of};
ghost use Rattle.script_text.specs.ScriptValue.{ScriptValue};
ghost use Rattle.session.specs.Calls.{IsReady, TurnCall};
ghost use Rattle.session.specs.Own.{IsBehind, IsClashing, IsNamingAt, IsWalkingBy};
ghost use Rattle.session.specs.Safe.{HasDraftIn, drafts_of};
ghost use Rattle.session.specs.Values.{one_more};
ghost use Rattle.session.specs.Walks.{BeginsWalk, CountsMerge, GoesFurther, HasSettled, HasTaken, counted_by};
ghost use Rattle.session.specs.declared.stage.Stage.TheVariants.{Naming};
ghost use Rattle.std.specs.Option.{ForSome, option_copied};

// How a commit goes over the versions that were committed after its base.

use crate::common::Common;
use crate::course::Course;
use crate::stage::Stage;
use crate::turned::{Fault, Turned};
use afs_base::{BlockNo, Path, Steps};
use draft_tree::Draft;
use joint_walk::{PathClash, Settled, Walk};
use page_codec::{Page, VersionPage, Why};
use page_merge::Done;
use pair_store::Blocks;
use script_text::Script;
use service_model::Refusal;

/// What a turn answers that leaves two pages of a walk to be merged.
fn work_of(walk: &Walk) -> Turned
    ensures { MatchOption (waiting_job walk.now) (result ≡ Turned.Again)
        (λ job. result ≡ Turned.Work job) }
{
    match walk.job() {
        Some(job) => Turned::Work(*job),
        None => Turned::Again,
    }
}

/// How many pairs of pages a client merged itself, with one that was merged so.
fn counted(merges: u64, by: Settled) -> u64
    ensures { result ≡ counted_by by merges }
{
    match by {
        Settled::ByWalk => merges.saturating_add(1),
        Settled::ByOffer | Settled::NoPair => merges,
    }
}

impl Course {
    /// Goes on with the version in this block, which follows the draft's base.
    pub(crate) fn name(&mut self, next: BlockNo) -> Turned
        ensures named { self.new ≡ record self.old {
          stage = Naming next;
          turns = one_more self.old.turns;
        } }
        ensures again { result ≡ Turned.Again }
    {
        self.stage = Stage::Naming { next };
        self.go_on();
        Turned::Again
    }

    /// Reads the version page of the draft's base, which names the version after it.
    pub(crate) fn find_next<B: Blocks>(&mut self, common: &mut Common<B>) -> Turned
        requires draft { HasDraftIn (B.size common.old.store) self.old }
        ensures { (script : ScriptValue) → IsReady B.Blocks script common.old self.old
            → TurnCall B.Blocks IsBehind script common.old common.new self.old self.new result }
    {
        let base = self.drafts.root();
        match common.read_version(base) {
            Ok(version) => match version.commit {
                Some(next) => self.name(next),
                None => Turned::Stopped {
                    fault: Fault::Bad {
                        block: base,
                        why: Why::Serial,
                    },
                },
            },
            Err(fault) => Turned::Stopped { fault },
        }
    }

    /// Reads the version page in block `next`, and begins the walk over that version.
    pub(crate) fn open_next<B: Blocks>(&mut self, common: &mut Common<B>, next: BlockNo) -> Turned
        requires draft { HasDraftIn (B.size common.old.store) self.old }
        ensures { (script : ScriptValue) → IsReady B.Blocks script common.old self.old
            → TurnCall B.Blocks (IsNamingAt next) script common.old common.new self.old self.new
            result }
    {
        match common.read_version(next) {
            Ok(version) => self.begin_walk(next, &version),
            Err(fault) => Turned::Stopped { fault },
        }
    }

    /// Begins the walk over the version whose version page was read in block `next`.
    fn begin_walk(&mut self, next: BlockNo, version: &VersionPage) -> Turned
        requires draft { drafts_of self.old ≡ 1 }
        requires picked { picked_of self.old.drafts ≡ 0 }
        ensures { BeginsWalk next version.now self.old self.new result }
    {
        let follows = version.base == Some(self.drafts.root());
        if !follows || next.get() == 0 || self.drafts.count() == 0 {
            return Turned::Stopped {
                fault: Fault::Bad {
                    block: next,
                    why: Why::Base,
                },
            };
        }
        let walk = Walk::start(&mut self.drafts, next, version, &mut Steps::new());
        self.walk_further(walk)
    }

    /// Keeps a walk after a turn that read a page for it.
    fn walk_further(&mut self, walk: Walk) -> Turned
        ensures { GoesFurther walk self.old self.new result }
    {
        let turned = work_of(&walk);
        self.stage = Stage::Walking { walk };
        self.go_on();
        turned
    }

    /// Goes on with a walk: the two pages that wait are merged, and then the next page is read, or
    /// the walk ends.
    pub(crate) fn walk_on<B: Blocks>(
        &mut self,
        common: &mut Common<B>,
        script: &Script,
        walk: Walk,
        offer: Option<&Done>,
        merges: &mut u64,
    ) -> Turned
        requires ready { IsReady B.Blocks script.now common.old self.old }
        requires draft { drafts_of self.old ≡ 1 }
        ensures turn { TurnCall B.Blocks (IsWalkingBy walk) script.now common.old common.new
            self.old self.new result }
        ensures merges { CountsMerge (waiting_job walk) (option_copied offer.entry) merges.old
            merges.new }
    {
        let mut walk = walk;
        self.settle_walk(&mut walk, offer, merges);
        match walk.need() {
            Some((path, block)) => self.feed_walk(common, walk, &path, block),
            None => self.end_walk(common, script, walk),
        }
    }

    /// Merges the two pages of a walk that wait for it, if there are any, or takes what is offered
    /// for them where it is their outcome. Those that it merges itself are counted.
    fn settle_walk(&mut self, walk: &mut Walk, offer: Option<&Done>, merges: &mut u64)
        requires draft { drafts_of self.old ≡ 1 }
        requires picked { picked_of self.old.drafts ≡ 0 }
        ensures settled { HasSettled walk.old walk.new self.old self.new }
        ensures merges { CountsMerge (waiting_job walk.old) (option_copied offer.entry) merges.old
            merges.new }
    {
        if walk.job().is_some() {
            let by = walk.settle(&mut self.drafts, offer);
            *merges = counted(*merges, by);
        }
    }

    /// Reads the page that a walk needs next.
    fn feed_walk<B: Blocks>(
        &mut self,
        common: &mut Common<B>,
        walk: Walk,
        path: &Path,
        block: BlockNo,
    ) -> Turned
        requires next { next_of walk ≡ Some (path.now, block) }
        requires settled { waiting_job walk ≡ None }
        requires draft { HasDraftIn (B.size common.old.store) self.old }
        ensures { (script : ScriptValue) → IsReady B.Blocks script common.old self.old
            → TurnCall B.Blocks (IsWalkingBy walk) script common.old common.new self.old self.new
            result }
    {
        match common.read_page(block, path.len()) {
            Ok(page) => self.take_page(walk, &page),
            Err(fault) => Turned::Stopped { fault },
        }
    }

    /// Gives a walk the page that it needs next.
    fn take_page(&mut self, walk: Walk, page: &Page) -> Turned
        requires draft { drafts_of self.old ≡ 1 }
        requires picked { picked_of self.old.drafts ≡ 0 }
        requires wanted { IsSome (next_of walk) }
        requires level { ForSome (next_of walk) (λ x. page.now.level ≡ length x.0) }
        ensures { HasTaken walk page.now self.old self.new result }
    {
        let mut walk = walk;
        let _by = walk.feed(&mut self.drafts, page, None, &mut Steps::new());
        self.walk_further(walk)
    }

    /// Ends a walk: the draft is merged with one version more, or the commit is refused.
    fn end_walk<B: Blocks>(&mut self, common: &mut Common<B>, script: &Script, walk: Walk) -> Turned
        requires ready { IsReady B.Blocks script.now common.old self.old }
        requires draft { drafts_of self.old ≡ 1 }
        requires settled { waiting_job walk ≡ None }
        requires read { next_of walk ≡ None }
        ensures { TurnCall B.Blocks (IsWalkingBy walk) script.now common.old common.new self.old
            self.new result }
    {
        match walk.finish(&mut self.drafts) {
            Ok(()) => self.decide(common, script),
            Err(clash) => self.refuse_clash(common, script, &clash),
        }
    }

    /// Refuses a commit for a clash with the version that the walk went over, unless another client
    /// has the file locked, which comes first.
    fn refuse_clash<B: Blocks>(
        &mut self,
        common: &mut Common<B>,
        script: &Script,
        clash: &PathClash,
    ) -> Turned
        requires ready { IsReady B.Blocks script.now common.old self.old }
        requires draft { drafts_of self.old ≡ 1 }
        ensures { TurnCall B.Blocks (IsClashing (clash.now.path, clash.now.kind)) script.now
            common.old common.new self.old self.new result }
    {
        let object = self.drafts.object();
        if let Some(by) = common.locked_by(self.client, object) {
            return self.refuse_locked(common, script, by);
        }
        let why = Refusal::Conflict {
            serial: self.drafts.serial(),
            path: clash.path,
            kind: clash.kind,
        };
        self.refuse_commit(common, script, why)
    }
}
