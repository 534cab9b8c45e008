ghost use Rattle.std.specs.Prelude.{◌≡◌, ◌↔◌, IsTrue};

use crate::clash::Clash;
use crate::job::Job;
use crate::merge::merge_page;
use crate::same::is_same_job;
use afs_base::Steps;
use page_codec::Page;
use std::marker::Model;

/// A job that is done: its result is that of `merge_page`. Contracts see the job.
#[derive(Clone, Copy, Debug)]
pub struct Done {
    job: Job,
    result: Result<Page, Clash>,
}

impl Model for Done {
    ghost use Rattle.std.specs.Prelude.{◌≡◌};
    ghost use Rattle.page_merge.specs.Jobs.{JobValue, outcome_of};

    ghost Value = { JobValue };

    ghost view = { λ d. d.job };

    ghost invariant = { λ d. d.result ≡ outcome_of d.job };

    ghost inverse = { λ j. record { job = j; result = outcome_of j } };
}

impl Done {
    ghost use Rattle.page_merge.specs.Jobs.{outcome_of};

    /// Does the job.
    pub fn of(job: Job) -> Done
        ensures { result ≡ job }
    {
        let result = merge_page(&job, &mut Steps::new());
        Done { job, result }
    }

    /// The job.
    pub fn job(&self) -> &Job
        ensures { result.now ≡ self.now }
    {
        &self.job
    }

    /// What came of it.
    pub fn result(&self) -> &Result<Page, Clash>
        ensures { result.now ≡ outcome_of self.now }
    {
        &self.result
    }

    /// Whether this is the outcome of that job.
    pub fn is_of(&self, job: &Job) -> bool
        ensures { IsTrue result ↔ (self.now ≡ job.now) }
    {
        is_same_job(&self.job, job)
    }
}
