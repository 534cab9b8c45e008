ghost use Rattle.std.specs.Prelude.{◌≡◌, ◌+◌, ◌-◌, ◌^◌, ◌<◌, min, length, IsSome, MatchResult, Some, None};
ghost use Rattle.std.specs.Option.{option_copied, ForSome};
ghost use Rattle.draft_tree.specs.Drafts.{accessed_pages};
ghost use Rattle.page_merge.specs.Jobs.{outcome_of};
ghost use Rattle.joint_walk.specs.Pairs.{settled_view};
ghost use Rattle.joint_walk.specs.Calls.{next_of, waiting_job, settled_if, draft_if, ChangesPages, IsOnBase, WasDone, WasSettled, BeganWith, FedBy, Starts, Settles, Feeds, Ends};

use crate::job::{add_children, is_live, job_of};
use crate::pending::PendingList;
use crate::settled::Settled;
use afs_base::{BlockNo, Kind, Path, Steps};
use draft_tree::Draft;
use page_codec::{Page, VersionPage};
use page_merge::{Clash, Done, Job, merge_page};
use std::marker::Model;

/// What an update read of a page that a later version's update wrote: the least such place.
#[derive(Clone, Copy, Debug, PartialEq, Eq)]
pub struct PathClash {
    pub path: Path,
    pub kind: Kind,
}

/// Two pages at one path that are not merged yet.
#[derive(Clone, Copy, Debug)]
struct Pair {
    path: Path,
    job: Job,
}

impl Model for Pair {
    ghost use Rattle.std.specs.Prelude.{◌≡◌, length};
    ghost use Rattle.joint_walk.specs.Walks.{Pair as PairValue};

    ghost Value = { PairValue };

    ghost view = { λ p. record { path = p.path; job = p.job } };

    ghost invariant = { λ p. p.job.mine.level ≡ length p.path };

    ghost inverse = { λ p. record { path = p.path; job = p.job } };
}

/// A walk over a draft and a later version, page by page in the order of paths: the pair of pages that waits to be merged, the pages of
/// the later version that are to be read, and the clash, where one was found. Takes no memory.
#[derive(Debug, Drop)]
pub struct Walk {
    pair: Option<Pair>,
    pending: PendingList,
    clash: Option<PathClash>,
}

impl Model for Walk {
    ghost use Rattle.std.specs.Prelude.{option_map};
    ghost use Rattle.joint_walk.specs.Walks.{WalkValue};

    ghost Value = { WalkValue };

    ghost view = { λ w. record {
      pair = w.pair;
      pending = w.pending;
      clash = option_map (λ c. (c.path, c.kind)) w.clash;
    } };
}

/// What comes of a job, and who did it: what is offered is taken where it is the outcome of this very job.
fn outcome(job: &Job, offer: Option<&Done>) -> (Result<Page, Clash>, Settled)
    ensures value { result.0 ≡ outcome_of job.now }
    ensures by { WasDone job.now (option_copied offer.entry) result.1 }
{
    match offer {
        None => (merge_page(job, &mut Steps::new()), Settled::ByWalk),
        Some(done) => {
            if done.is_of(job) {
                (*done.result(), Settled::ByOffer)
            } else {
                (merge_page(job, &mut Steps::new()), Settled::ByWalk)
            }
        }
    }
}

/// Gives the draft's page at the path the merged page's slots and data, where it is live.
fn merge_into<D: Draft>(draft: &mut D, at: &Path, page: &Page)
    requires ready { D.is_ready draft.old }
    requires level { page.now.level ≡ length at.now }
    ensures view { D.view draft.new ≡ settled_view (D.view draft.old) at.now page.now }
    ensures same { ChangesPages D.Draft draft.old draft.new }
    ensures rest { D.rest_of draft.new ≡ D.rest_of draft.old }
    ensures ready { D.is_ready draft.new }
{
    if is_live(draft, at) {
        draft.take_merged(at, page);
    }
}

impl Walk {
    /// Begins the walk to the version whose version page is given and lies in block `at`, which is not 0; it is the next one after the
    /// draft's base, and the draft has a step. From here on that version is the draft's base, and pages that the draft copied and never
    /// accessed are let go. This counts as the feed of `/`. One step.
    pub fn start<D: Draft>(
        draft: &mut D,
        at: BlockNo,
        version: &VersionPage,
        steps: &mut Steps,
    ) -> Walk
        requires ready { D.is_ready draft.old }
        requires named { 0 < at }
        requires base { version.now.base ≡ Some (D.root_of draft.old) }
        requires some { 0 < D.count_of draft.old }
        ensures view { D.view draft.new ≡ accessed_pages (D.view draft.old) }
        ensures walk { BeganWith (D.view draft.new) at version.now.page version.now.root result }
        ensures starts { Starts (D.view draft.old) (D.view draft.new) at version.now.page
            version.now.root result }
        ensures base { IsOnBase D.Draft draft.old draft.new at version.now.serial }
        ensures steps { steps.new ≡ min (steps.old + 1) (2 ^ 64 - 1) }
        ensures rest { D.rest_of draft.new ≡ D.rest_of draft.old }
        ensures ready { D.is_ready draft.new }
    {
        steps.tick();
        draft.rebase(at, version.serial);
        let root = Path::root();
        let mut pending = PendingList::none();
        add_children(draft, &root, &version.page, &mut pending);
        let job = job_of(draft, &root, &version.page, version.root);
        Walk {
            pair: Some(Pair { path: root, job }),
            pending,
            clash: None,
        }
    }

    /// The page of the later version that is to be read next, and its block; none exactly where none is needed.
    pub fn need(&self) -> Option<(Path, BlockNo)>
        ensures { result ≡ next_of self.now }
    {
        match self.pending.first() {
            Some(page) => Some((page.path, page.block)),
            None => None,
        }
    }

    /// The pair of pages that waits to be merged.
    pub fn job(&self) -> Option<&Job>
        ensures { option_copied result ≡ waiting_job self.now }
    {
        match &self.pair {
            Some(pair) => Some(&pair.job),
            None => None,
        }
    }

    /// Merges the pair that waits, if one does.
    fn settle_any<D: Draft>(&mut self, draft: &mut D, offer: Option<&Done>) -> Settled
        requires ready { D.is_ready draft.old }
        ensures walk { self.new ≡ settled_if self.old self.old.pair }
        ensures draft { D.view draft.new ≡ draft_if (D.view draft.old) self.old.pair }
        ensures by { WasSettled self.old.pair (option_copied offer.entry) result }
        ensures same { ChangesPages D.Draft draft.old draft.new }
        ensures rest { D.rest_of draft.new ≡ D.rest_of draft.old }
        ensures ready { D.is_ready draft.new }
    {
        match self.pair {
            None => Settled::NoPair,
            Some(pair) => {
                self.pair = None;
                let (merged, by) = outcome(&pair.job, offer);
                match merged {
                    Ok(page) => {
                        merge_into(draft, &pair.path, &page);
                        by
                    }
                    Err(clash) => {
                        self.pending = PendingList::none();
                        self.clash = Some(PathClash {
                            path: pair.path,
                            kind: clash.kind,
                        });
                        by
                    }
                }
            }
        }
    }

    /// Merges the pair of `job`, by what is offered where that is the outcome of this very job, else by itself, and says which. What is
    /// offered changes neither the draft nor the walk.
    pub fn settle<D: Draft>(&mut self, draft: &mut D, offer: Option<&Done>) -> Settled
        requires ready { D.is_ready draft.old }
        requires waits { IsSome (waiting_job self.old) }
        ensures walk { self.new ≡ settled_if self.old self.old.pair }
        ensures draft { D.view draft.new ≡ draft_if (D.view draft.old) self.old.pair }
        ensures settles { Settles self.old (D.view draft.old) self.new (D.view draft.new) }
        ensures by { WasSettled self.old.pair (option_copied offer.entry) result }
        ensures same { ChangesPages D.Draft draft.old draft.new }
        ensures rest { D.rest_of draft.new ≡ D.rest_of draft.old }
        ensures ready { D.is_ready draft.new }
    {
        self.settle_any(draft, offer)
    }

    /// Takes the first page that is to be read, where no clash was found.
    fn take<D: Draft>(&mut self, draft: &D, page: &Page)
        requires ready { D.is_ready draft.now }
        requires settled { self.old.pair ≡ None }
        requires level { ForSome (next_of self.old) (λ x. page.now.level ≡ length x.0) }
        ensures { FedBy (D.view draft.now) page.now self.old self.new }
    {
        if let Some(next) = self.pending.pop() {
            add_children(draft, &next.path, page, &mut self.pending);
            let job = job_of(draft, &next.path, page, next.flags);
            self.pair = Some(Pair {
                path: next.path,
                job,
            });
        }
    }

    /// Takes the page that is needed, which has the level of its path, after a pair that still waits was merged, as by `settle`. The pair
    /// of this page waits then, unless a clash was found. One step.
    pub fn feed<D: Draft>(
        &mut self,
        draft: &mut D,
        page: &Page,
        offer: Option<&Done>,
        steps: &mut Steps,
    ) -> Settled
        requires ready { D.is_ready draft.old }
        requires wanted { IsSome (next_of self.old) }
        requires level { ForSome (next_of self.old) (λ x. page.now.level ≡ length x.0) }
        ensures walk { FedBy (D.view draft.new) page.now (settled_if self.old self.old.pair)
            self.new }
        ensures draft { D.view draft.new ≡ draft_if (D.view draft.old) self.old.pair }
        ensures feeds { Feeds self.old (D.view draft.old) page.now self.new (D.view draft.new) }
        ensures by { WasSettled self.old.pair (option_copied offer.entry) result }
        ensures same { ChangesPages D.Draft draft.old draft.new }
        ensures steps { steps.new ≡ min (steps.old + 1) (2 ^ 64 - 1) }
        ensures rest { D.rest_of draft.new ≡ D.rest_of draft.old }
        ensures ready { D.is_ready draft.new }
    {
        steps.tick();
        let by = self.settle_any(draft, offer);
        self.take(draft, page);
        by
    }

    /// Ends a walk that needs no page and has no pair. An error exactly where my steps read what the others wrote, and it is the least such
    /// place; the draft is then only given up. Otherwise the draft stands for its steps on the later tree, with the same accesses.
    pub fn finish<D: Draft>(self, draft: &mut D) -> Result<(), PathClash>
        requires ready { D.is_ready draft.old }
        requires settled { waiting_job self ≡ None }
        requires read { next_of self ≡ None }
        ensures result { MatchResult result (λ _. self.clash ≡ None)
            (λ e. self.clash ≡ Some (e.path, e.kind)) }
        ensures ends { Ends self (D.view draft.new) self.clash }
        ensures draft { D.view draft.new ≡ D.view draft.old }
        ensures same { ChangesPages D.Draft draft.old draft.new }
        ensures rest { D.rest_of draft.new ≡ D.rest_of draft.old }
        ensures ready { D.is_ready draft.new }
    {
        match self.clash {
            Some(clash) => Err(clash),
            None => Ok(()),
        }
    }
}
