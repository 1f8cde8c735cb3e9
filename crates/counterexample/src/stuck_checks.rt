//! The checks of a walk for jobs that wait only for each other. A check visits all jobs, so a walk
//! does not check after each step.

use crate::waiting_sets::JobSet;
use crate::walks::{Violation, Walk};
use std::alloc::{AllocError, Global};

/// The steps of a walk at which the next check is due, and the result of the checks so far.
#[derive(Clone, Copy)]
pub(crate) struct StuckChecks {
    /// The first step at which a check is due if an actor has stopped since the last check.
    after_a_stop: usize,
    /// The first step at which a check is due if core threads of some pool may time out and
    /// [`Walk::has_closed`] returns `true`. No such check is due after a check has found jobs that
    /// wait only for each other.
    in_passing: usize,
    /// The number of events after which a check found, for the first time, jobs that wait only for
    /// each other. A later event may end their wait. `None` if no check has found such jobs.
    stuck_now: Option<usize>,
}

impl StuckChecks {
    /// Returns the checks of a walk that has made no step.
    pub(crate) fn new() -> StuckChecks {
        StuckChecks {
            after_a_stop: 8,
            in_passing: 0,
            stuck_now: None,
        }
    }

    /// Returns `true` if a check is due after the step with this number.
    fn are_due(&self, walk: &Walk, step: usize) -> bool {
        let in_passing = walk.choices.has_core_timeout
            && self.stuck_now.is_none()
            && step >= self.in_passing;
        (walk.has_blocked && step >= self.after_a_stop) || (in_passing && walk.has_closed())
    }

    /// Schedules the next check. The last check was after the step with the number `step`, in a
    /// state with `jobs` jobs.
    fn schedule(&mut self, step: usize, jobs: usize) {
        self.after_a_stop = step.saturating_add(8).saturating_add(jobs / 4);
        self.in_passing = step.saturating_add(jobs / 16);
    }
}

impl Walk<'_> {
    /// Checks for jobs that wait only for each other, if a check is due after the step with this
    /// number. Returns the violation if it is permanent. Records in `checks` the first violation
    /// that is not permanent.
    pub(crate) fn check_if_due(
        &mut self,
        alloc: Global,
        step: usize,
        checks: &mut StuckChecks,
    ) -> Result<Option<Violation>, AllocError> {
        if !checks.are_due(self, step) {
            return Ok(None);
        }
        self.has_blocked = false;
        checks.schedule(step, self.machine.jobs.len());
        match self.stuck(alloc, checks.stuck_now.is_none())? {
            Some(Violation::StuckNow) => {
                checks.stuck_now = Some(self.script.steps.len());
                Ok(None)
            }
            violation => Ok(violation),
        }
    }

    /// Returns the violation at the end of the walk. If there is none, but an earlier check found
    /// one, returns that violation and removes the later events from the script.
    pub(crate) fn check_at_end(
        &mut self,
        alloc: Global,
        checks: &StuckChecks,
    ) -> Result<Option<Violation>, AllocError> {
        let violation = self.stuck(alloc, true)?;
        if violation.is_none() {
            if let Some(length) = checks.stuck_now {
                self.script.steps.truncate(length);
                return Ok(Some(Violation::StuckNow));
            }
        }
        Ok(violation)
    }

    /// Returns the violation if some jobs wait only for each other, and `None` otherwise. If `now`
    /// is `false`, also returns `None` if the violation is not permanent.
    pub(crate) fn stuck(&self, alloc: Global, now: bool) -> Result<Option<Violation>, AllocError> {
        if JobSet::greatest(alloc, &self.machine, false)?.is_empty() {
            return Ok(None);
        }
        if !JobSet::greatest(alloc, &self.machine, true)?.is_empty() {
            return Ok(Some(Violation::StuckForever));
        }
        Ok(if now { Some(Violation::StuckNow) } else { None })
    }
}
