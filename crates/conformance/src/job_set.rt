//! A set of jobs.

ghost use Rattle.std.specs.Prelude.{◌≡◌, ◌||◌, ◌==◌, ℕ, OnOk, IsTrue, false};
ghost use Rattle.conformance.specs.JobSet.{has_job};

use std::alloc::{AllocError, Global};
use std::collections::HashSet;

/// A set of job numbers.
#[derive(Drop)]
pub(crate) struct JobSet {
    jobs: HashSet<usize>,
}

impl JobSet {
    /// Creates an empty set.
    pub(crate) fn new(alloc: Global) -> JobSet
        ensures { (job : ℕ) → has_job result job ≡ false }
    {
        JobSet {
            jobs: HashSet::new(alloc),
        }
    }

    pub(crate) fn is_empty(&self) -> bool
        ensures { IsTrue result → (job : ℕ) → has_job self.now job ≡ false }
    {
        self.jobs.is_empty()
    }

    pub(crate) fn contains(&self, job: usize) -> bool
        ensures { result ≡ has_job self.now job }
    {
        self.jobs.contains(&job)
    }

    /// Adds a job.
    ///
    /// # Errors
    ///
    /// Returns `AllocError` if memory runs out.
    pub(crate) fn insert(&mut self, job: usize) -> Result<(), AllocError>
        ensures { OnOk result
            ((one : ℕ) → has_job self.new one ≡ (has_job self.old one || job == one)) }
    {
        self.jobs.insert(job)?;
        Ok(())
    }
}
