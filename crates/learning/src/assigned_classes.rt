//! The classes that a pass over a recording assigns to jobs. To classify an actor means to search
//! for the class of a job, or for the client kind of a round.

use conformance::PathStep;
use recordings::RecordedStep;
use std::alloc::{AllocError, Global};
use std::collections::{HashMap, HashSet};

/// A map from classified jobs to their classes. A job remains in the map until its submitter is
/// classified, because classifying the submitter requires the class of the job.
#[derive(Drop)]
pub(crate) struct AssignedClasses {
    /// The class of each job, by job number. The class is `None` if no class was found for the job.
    jobs: HashMap<usize, Option<usize>>,
    /// The refused jobs that are not yet classified. The class of a refused job is never stored,
    /// because the path of its submitter does not include the job.
    refused: HashSet<usize>,
}

impl AssignedClasses {
    /// Creates an empty map.
    pub(crate) fn new(alloc: Global) -> AssignedClasses {
        AssignedClasses {
            jobs: HashMap::new(alloc),
            refused: HashSet::new(alloc),
        }
    }

    /// Records that the job was refused.
    ///
    /// # Errors
    ///
    /// Returns `AllocError` if memory runs out.
    pub(crate) fn refuse(&mut self, job: usize) -> Result<(), AllocError> {
        self.refused.insert(job)?;
        Ok(())
    }

    /// Stores the class of a job that was just classified. `class` is `None` if no class was found.
    /// If the job was refused, stores nothing and removes the job from the refused jobs.
    ///
    /// # Errors
    ///
    /// Returns `AllocError` if memory runs out.
    pub(crate) fn insert(&mut self, job: usize, class: Option<usize>) -> Result<(), AllocError> {
        if !self.refused.remove(&job) {
            self.jobs.insert(job, class)?;
        }
        Ok(())
    }

    /// Removes the jobs that this path submits. Once the submitter of a job is classified, the
    /// class of the job is no longer needed.
    pub(crate) fn forget(&mut self, path: &[RecordedStep]) {
        for step in path {
            if let RecordedStep::Submits(job) = *step {
                self.jobs.remove(&job);
            }
        }
    }

    /// Returns the steps of the path, with the class of each submitted job. Returns `None` if a
    /// submitted job has no class.
    ///
    /// # Errors
    ///
    /// Returns `AllocError` if memory runs out.
    pub(crate) fn steps(
        &self,
        alloc: Global,
        path: &[RecordedStep],
    ) -> Result<Option<Vec<PathStep>>, AllocError> {
        let mut steps = Vec::new(alloc);
        for step in path {
            match self.step(alloc, *step)? {
                Some(step) => steps.push(step)?,
                None => return Ok(None),
            }
        }
        Ok(Some(steps))
    }

    fn step(&self, alloc: Global, step: RecordedStep) -> Result<Option<PathStep>, AllocError> {
        match step {
            RecordedStep::Gets(place) => Ok(Some(PathStep::Gets(place))),
            RecordedStep::Submits(job) => match self.class(job) {
                Some(class) => Ok(Some(PathStep::Submits(vec![in alloc; class]?))),
                None => Ok(None),
            },
        }
    }

    fn class(&self, job: usize) -> Option<usize> {
        *self.jobs.get(&job)?
    }
}
