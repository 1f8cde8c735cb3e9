//! The path of a live actor: the submits and gets of a round or a job that has not ended.

ghost use Rattle.std.specs.Prelude.{◌≡◌, ◌++◌, ◌∷◌, [], OnOk, OnErr};
ghost use Rattle.recordings.specs.ActorPath as spec;

use crate::step::RecordedStep;
use crate::submit_index::SubmitIndex;
use std::alloc::{AllocError, Global};
use std::marker::Model;

/// The path of a live actor, with an index that finds the submit of a job.
///
/// In contracts, the value of this type is the list of the path's actions.
#[derive(Drop)]
pub(crate) struct LivePath {
    steps: Vec<RecordedStep>,
    submits: SubmitIndex,
}

impl Model for LivePath {
    ghost use Rattle.std.specs.Prelude.{◌≡◌, List};
    ghost use Rattle.recordings.specs.declared.step.RecordedStep.{RecordedStep};
    ghost use Rattle.recordings.specs.SubmitIndex.{entries_of, IsOrdered};

    ghost Value = { List RecordedStep };

    ghost view = { λ p. p.steps.items };

    ghost invariant = { λ p. (p.submits.entries.items ≡ entries_of p.steps.items) × IsOrdered p.submits };
}

impl LivePath {
    /// Creates an empty path.
    pub(crate) fn new(alloc: Global) -> LivePath
        ensures { result ≡ [] }
    {
        LivePath {
            steps: Vec::new(alloc),
            submits: SubmitIndex::new(alloc),
        }
    }

    pub(crate) fn steps(&self) -> &[RecordedStep]
        ensures { result.now ≡ self.now }
    {
        self.steps.as_slice()
    }

    pub(crate) fn into_steps(self) -> Vec<RecordedStep>
        ensures { result.items ≡ self }
    {
        let LivePath { steps, .. } = self;
        steps
    }

    /// Appends a submit of the job.
    ///
    /// # Errors
    ///
    /// Returns `AllocError` if memory runs out. The path is then unchanged.
    pub(crate) fn push_submit(&mut self, job: usize) -> Result<(), AllocError>
        ensures done { OnOk result (self.new ≡ self.old ++ RecordedStep.Submits job ∷ []) }
        ensures same { OnErr result (self.new ≡ self.old) }
    {
        self.steps.push(RecordedStep::Submits(job))?;
        let place = self.steps.len() - 1;
        if let Err(error) = self.submits.push(job, place) {
            self.steps.pop();
            return Err(error);
        }
        Ok(())
    }

    /// Appends a get of the job if the path has a submit of the job and no get of the job.
    ///
    /// # Errors
    ///
    /// Returns `AllocError` if memory runs out. The path is then unchanged.
    pub(crate) fn push_get(&mut self, job: usize) -> Result<(), AllocError>
        ensures got { OnOk result (self.new ≡ spec.with_get job self.old) }
        ensures same { OnErr result (self.new ≡ self.old) }
    {
        let Some(at) = self.submits.find(job) else {
            return Ok(());
        };
        if self.submits.entries[at].got {
            return Ok(());
        }
        self.steps
            .push(RecordedStep::Gets(self.submits.entries[at].place))?;
        self.submits.entries[at].got = true;
        Ok(())
    }

    /// Removes the submit of this refused job if the submit is the last action of the path.
    pub(crate) fn drop_submit(&mut self, job: usize)
        ensures { self.new ≡ spec.without_submit job self.old }
    {
        if self.ends_with_submit(job) {
            self.steps.pop();
            self.submits.entries.pop();
        }
    }

    fn ends_with_submit(&self, job: usize) -> bool
        ensures { result ≡ spec.ends_with_submit job self.now }
    {
        match self.steps.last() {
            Some(step) => step.submits(job),
            None => false,
        }
    }
}
