//! Candidates: bodies that may cover several paths. A body covers a path if the path matches it.

use crate::get_times::get_times;
use crate::path_jobs::{JobStep, PathJob, job_steps};
use crate::supersequence::common_supersequence;
use conformance::PathStep;
use job_bodies::Action;
use std::alloc::{AllocError, Global};

/// The number of different values of [`Choices`]. There is one candidate for each value.
pub(crate) const CANDIDATES: usize = 8;

/// The options of [`candidate`]. Different options can result in different bodies.
#[derive(Clone, Copy)]
pub(crate) struct Choices {
    /// True if each submit of the candidate is matched either only with jobs that are got later in
    /// the recorded path, or only with jobs that are never got there. If it is false, one submit
    /// may be matched with jobs of both sorts.
    pub(crate) marks_gets: bool,
    /// True if the submits of the paths are merged from the last path to the first. If it is false,
    /// they are merged from the first path to the last.
    pub(crate) is_reversed: bool,
    /// True if each path is matched with the last possible submits of the candidate, and false if
    /// it is matched with the first possible submits.
    pub(crate) is_late: bool,
}

impl Choices {
    /// Returns the choices with this number. The number is from 0 to [`CANDIDATES`] - 1.
    pub(crate) fn with_number(number: usize) -> Choices {
        Choices {
            marks_gets: number % 8 >= 4,
            is_reversed: number % 4 >= 2,
            is_late: number % 2 == 1,
        }
    }
}

/// Returns a body that has the submits of all paths and gets each job as soon as the paths allow.
/// Some path may still not match the body. `choices` selects one of several such bodies.
///
/// Returns `None` if a path is invalid or too long (see [`job_steps`]), or if the body would have
/// more submits than a body may have actions.
///
/// # Errors
///
/// Returns `AllocError` if memory runs out.
pub(crate) fn candidate(
    alloc: Global,
    paths: &[Vec<PathStep>],
    choices: Choices,
) -> Result<Option<Vec<Action>>, AllocError> {
    let Some(paths) = all_job_steps(alloc, paths, choices.marks_gets)? else {
        return Ok(None);
    };
    let Some(common) = common_supersequence(alloc, &paths, choices.is_reversed)? else {
        return Ok(None);
    };
    let times = get_times(alloc, &common, &paths, choices.is_late)?;
    Ok(Some(body_with_gets(alloc, &common, &times)?))
}

fn all_job_steps(
    alloc: Global,
    paths: &[Vec<PathStep>],
    marks_gets: bool,
) -> Result<Option<Vec<Vec<JobStep>>>, AllocError> {
    let mut all = Vec::new(alloc);
    for path in paths {
        match job_steps(alloc, path, marks_gets)? {
            Some(steps) => all.push(steps)?,
            None => return Ok(None),
        }
    }
    Ok(Some(all))
}

/// Returns the body that submits the jobs in `common`, in this order, and gets them at `times`. The
/// time of a job is the number of a submit, counted from 0: the body gets the job directly after
/// this submit. If the time is `None`, the body does not get the job.
fn body_with_gets(
    alloc: Global,
    common: &[PathJob],
    times: &[Option<usize>],
) -> Result<Vec<Action>, AllocError> {
    let mut body = Vec::new(alloc);
    let mut submits = Vec::new(alloc);
    for (time, job) in common.iter().enumerate() {
        submits.push(body.len())?;
        body.push(Action::Submit(job.class))?;
        push_gets(&mut body, &submits, times, time)?;
    }
    Ok(body)
}

/// Appends the gets that the body makes directly after its submit number `time`, counted from 0.
/// The gets are in the order in which the body submits their jobs.
///
/// - `submits` has, for each job submitted so far, the index of its submit in the body.
/// - `times` has, for each job, the number of the submit after which the body gets the job. The
///   number is `None` if the body does not get the job.
fn push_gets(
    body: &mut Vec<Action>,
    submits: &[usize],
    times: &[Option<usize>],
    time: usize,
) -> Result<(), AllocError> {
    for (submit, at) in submits.iter().zip(times) {
        if *at == Some(time) {
            body.push(Action::Get(*submit))?;
        }
    }
    Ok(())
}
