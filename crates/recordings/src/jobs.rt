//! The jobs of a recording, as the rule check stores them. A job is done after its `end` or `threw`
//! line.

ghost use Rattle.std.specs.Prelude.{◌≡◌, ◌+◌, ◌&&◌, not, ℕ, OnOk, OnErr, None, Some, is_some, if◌then◌else◌, ◌==◌};
ghost use Rattle.std.specs.Option.{option_map};
ghost use Rattle.recordings.specs.StoredState.{job_at, has_started, is_done, is_settled, last_submit_in, new_job, with_start, with_cancel, with_last_submit};

use std::alloc::{AllocError, Global};
use support::IdMap;

/// The state of a job that is not done.
#[derive(Clone, Copy)]
pub(crate) struct JobState {
    started: bool,
    cancelled: bool,
    /// The other job that the last line of this job submits, or `None` if that line is not a
    /// submit. `refused` lines are ignored. By rule O6, a `refused` line whose actor is this job
    /// must name that other job.
    last_submit: Option<usize>,
}

/// The jobs in the lines read so far. Stores the number of submitted jobs, and the state of each
/// submitted job that is not done.
#[derive(Drop)]
pub(crate) struct Jobs {
    pub(crate) submitted: usize,
    unfinished: IdMap<JobState>,
}

impl Jobs {
    /// Creates an empty set of jobs.
    pub(crate) fn new(alloc: Global) -> Jobs
        ensures submitted { result.submitted ≡ 0 }
        ensures unfinished { (j : ℕ) → job_at result j ≡ None }
    {
        Jobs {
            submitted: 0,
            unfinished: IdMap::new(alloc),
        }
    }

    fn get(&self, job: usize) -> Option<JobState>
        ensures { result ≡ job_at self.now job }
    {
        self.unfinished.get(job).copied()
    }

    pub(crate) fn has_started(&self, job: usize) -> bool
        ensures { result ≡ has_started self.now job }
    {
        job < self.submitted && self.get(job).is_none_or(|state| state.started)
    }

    /// Returns true if the job has started and is not done.
    pub(crate) fn is_running(&self, job: usize) -> bool
        ensures { result ≡ (has_started self.now job && not (is_done self.now job)) }
    {
        job < self.submitted && self.get(job).is_some_and(|state| state.started)
    }

    /// Returns true if the job is done or cancelled. Returns false if the job was not submitted.
    pub(crate) fn is_settled(&self, job: usize) -> bool
        ensures { result ≡ is_settled self.now job }
    {
        job < self.submitted && self.get(job).is_none_or(|state| state.cancelled)
    }

    /// Returns the last job that `job` submitted. Returns `None` in these cases:
    ///
    /// - `job` has submitted no job.
    /// - After its last submit, `job` has another line that is not a `refused` line.
    /// - `job` itself was not submitted.
    /// - `job` is done.
    pub(crate) fn last_submit(&self, job: usize) -> Option<usize>
        ensures { result ≡ last_submit_in (job_at self.now job) }
    {
        self.get(job)?.last_submit
    }

    /// Adds a submitted job.
    ///
    /// # Errors
    ///
    /// Returns `AllocError` if memory runs out, or if the number of submitted jobs would overflow.
    /// The jobs are then unchanged.
    pub(crate) fn submit(&mut self, job: usize) -> Result<(), AllocError>
        ensures submitted { OnOk result (self.new.submitted ≡ self.old.submitted + 1) }
        ensures unfinished { OnOk result
            ((j : ℕ) → job_at self.new j ≡ (if job == j then Some new_job else job_at self.old j)) }
        ensures same_submitted { OnErr result (self.new.submitted ≡ self.old.submitted) }
        ensures same_unfinished { OnErr result ((j : ℕ) → job_at self.new j ≡ job_at self.old j) }
    {
        let submitted = self.submitted.checked_add(1).ok_or(AllocError)?;
        let state = JobState {
            started: false,
            cancelled: false,
            last_submit: None,
        };
        self.unfinished.insert(job, state)?;
        self.submitted = submitted;
        Ok(())
    }

    /// Marks the job as started, unless it is done.
    pub(crate) fn start(&mut self, job: usize)
        ensures submitted { self.new.submitted ≡ self.old.submitted }
        ensures unfinished { (j : ℕ)
            → job_at self.new j
            ≡ (if job == j then option_map with_start (job_at self.old j) else job_at self.old j) }
    {
        if let Some(state) = self.unfinished.get_mut(job) {
            state.started = true;
        }
    }

    /// Marks the job as cancelled, unless it is done.
    pub(crate) fn cancel(&mut self, job: usize)
        ensures submitted { self.new.submitted ≡ self.old.submitted }
        ensures unfinished { (j : ℕ)
            → job_at self.new j
            ≡ (if job == j then option_map with_cancel (job_at self.old j) else job_at self.old j) }
    {
        if let Some(state) = self.unfinished.get_mut(job) {
            state.cancelled = true;
        }
    }

    /// Sets the value that [`last_submit`](Jobs::last_submit) returns for `job`. Does nothing if
    /// `job` was not submitted or is done.
    pub(crate) fn set_last_submit(&mut self, job: usize, last_submit: Option<usize>)
        ensures submitted { self.new.submitted ≡ self.old.submitted }
        ensures unfinished { (j : ℕ)
            → job_at self.new j
            ≡ (if job == j then option_map (with_last_submit last_submit) (job_at self.old j) else job_at
            self.old j) }
    {
        if let Some(state) = self.unfinished.get_mut(job) {
            state.last_submit = last_submit;
        }
    }

    /// Removes the state of a job that is done.
    pub(crate) fn finish(&mut self, job: usize)
        ensures submitted { self.new.submitted ≡ self.old.submitted }
        ensures unfinished { (j : ℕ)
            → job_at self.new j ≡ (if job == j then None else job_at self.old j) }
    {
        self.unfinished.remove(job);
    }
}
