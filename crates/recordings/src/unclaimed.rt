//! Unclaimed jobs: the submitted jobs that were not yet got by their submitters.

ghost use Rattle.std.specs.Prelude.{◌≡◌, ℕ, ◌==◌, OnOk, None, Some, if◌then◌else◌};
ghost use Rattle.recordings.specs.RecordingLine.{line_view};
ghost use Rattle.recordings.specs.UnclaimedJobs.{submitter_in, entry_after_line, entry_after_get};
ghost use Rattle.recordings.specs.ForeignGets as spec;

use crate::line_events::is_same_actor;
use crate::{Line, RecordedActor};
use std::alloc::{AllocError, Global};
use support::IdMap;

/// A map from each unclaimed job to its submitter. A job is unclaimed until its submitter gets it.
#[derive(Drop)]
pub(crate) struct UnclaimedJobs {
    submitters: IdMap<RecordedActor>,
}

impl UnclaimedJobs {
    /// Creates an empty map.
    pub(crate) fn new(alloc: Global) -> UnclaimedJobs
        ensures { (job : ℕ) → submitter_in result job ≡ None }
    {
        UnclaimedJobs {
            submitters: IdMap::new(alloc),
        }
    }

    /// Returns true if the job is unclaimed and `actor` is not its submitter.
    pub(crate) fn is_foreign(&self, job: usize, actor: RecordedActor) -> bool
        ensures { result ≡ spec.is_foreign (submitter_in self.now job) actor }
    {
        match self.submitters.get(job) {
            Some(submitter) => !is_same_actor(*submitter, actor),
            None => false,
        }
    }

    /// Processes the next line.
    ///
    /// # Errors
    ///
    /// Returns `AllocError` if memory runs out.
    pub(crate) fn take(&mut self, line: &Line<'_>) -> Result<(), AllocError>
        ensures { OnOk result
            ((job : ℕ)
            → submitter_in self.new job
            ≡ entry_after_line (line_view line.now) job (submitter_in self.old job)) }
    {
        match *line {
            Line::Submits { actor, job, .. } => {
                self.submitters.insert(job, actor)?;
                Ok(())
            }
            Line::Got { actor, job } => {
                self.remove_own(actor, job);
                Ok(())
            }
            _ => Ok(()),
        }
    }

    // Removes the job, which the actor got, if the actor is its submitter.
    fn remove_own(&mut self, actor: RecordedActor, job: usize)
        ensures { (one : ℕ)
            → submitter_in self.new one
            ≡ (if job == one then entry_after_get actor (submitter_in self.old one) else submitter_in
            self.old one) }
    {
        if let Some(submitter) = self.submitters.get(job) {
            if is_same_actor(*submitter, actor) {
                self.submitters.remove(job);
            }
        }
    }
}
