//! The steps of a path, each with its job.

use conformance::PathStep;
use job_bodies::MAX_ACTIONS;
use std::alloc::{AllocError, Global};

/// The maximum length of a path that can match a body. Such a path has at most one submit for each
/// action of the body, and at most one get for each submit.
const MAX_STEPS: usize = 2 * MAX_ACTIONS;

/// A job of a path, without its position in the path. Equal jobs of different paths can be matched
/// with the same submit of a body.
#[derive(Clone, Copy, PartialEq, Eq)]
pub(crate) struct PathJob {
    pub(crate) class: usize,
    /// True if the body that is being made may have a get of the job.
    pub(crate) is_got: bool,
}

/// A step of a path, with its job.
#[derive(Clone, Copy)]
pub(crate) enum JobStep {
    Submits(PathJob),
    Gets(PathJob),
}

/// Returns the steps of the path, each with its job. The class of a job is the first class that it
/// can belong to. If `marks_gets` is true, the field `is_got` of a job is true only if the path
/// gets the job. Otherwise it is true for all jobs.
///
/// Returns `None` in these cases:
///
/// - The job of a submit cannot belong to any class.
/// - A get names no submit.
/// - The path is too long for any body.
///
/// # Errors
///
/// Returns `AllocError` if memory runs out.
pub(crate) fn job_steps(
    alloc: Global,
    path: &[PathStep],
    marks_gets: bool,
) -> Result<Option<Vec<JobStep>>, AllocError> {
    if path.len() > MAX_STEPS {
        return Ok(None);
    }
    let mut steps = Vec::new(alloc);
    for place in 0..path.len() {
        match job_step(path, place, marks_gets) {
            Some(step) => steps.push(step)?,
            None => return Ok(None),
        }
    }
    Ok(Some(steps))
}

fn job_step(path: &[PathStep], place: usize, marks_gets: bool) -> Option<JobStep> {
    match path.get(place)? {
        PathStep::Submits(_) => Some(JobStep::Submits(job_at(path, place, marks_gets)?)),
        PathStep::Gets(submit) => Some(JobStep::Gets(job_at(path, *submit, marks_gets)?)),
    }
}

/// Returns the job of the submit at this index of the path. Returns `None` if there is no submit at
/// this index, or if its job cannot belong to any class. `marks_gets` is as in [`job_steps`].
fn job_at(path: &[PathStep], place: usize, marks_gets: bool) -> Option<PathJob> {
    match path.get(place)? {
        PathStep::Submits(classes) => Some(PathJob {
            class: *classes.first()?,
            is_got: !marks_gets || is_got(path, place),
        }),
        PathStep::Gets(_) => None,
    }
}

/// Returns true if the path gets the job of the submit at this index.
fn is_got(path: &[PathStep], place: usize) -> bool {
    path.iter().any(|step| gets(step, place))
}

fn gets(step: &PathStep, place: usize) -> bool {
    match step {
        PathStep::Gets(submit) => *submit == place,
        PathStep::Submits(_) => false,
    }
}

/// Returns the jobs that the steps submit, in order.
///
/// # Errors
///
/// Returns `AllocError` if memory runs out.
pub(crate) fn submitted_jobs(alloc: Global, steps: &[JobStep]) -> Result<Vec<PathJob>, AllocError> {
    let mut jobs = Vec::new(alloc);
    for step in steps {
        if let JobStep::Submits(job) = *step {
            jobs.push(job)?;
        }
    }
    Ok(jobs)
}
