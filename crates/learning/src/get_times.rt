//! The times at which a body gets its jobs: as early as the paths that must match the body allow.

use crate::path_jobs::{JobStep, PathJob, submitted_jobs};
use std::alloc::{AllocError, Global};

/// Returns, for each job that a body submits, the earliest *time* at which the body may get the
/// job. A time is the number of a submit, from 0: the body gets the job after this submit. The time
/// is `None` if the body must not get the job.
///
/// - `common` has the jobs that the body submits, in order. The jobs of each path are a subsequence
///   of `common`.
/// - If `is_late` is true, each path is matched with the last possible submits of the body, and
///   otherwise with the first possible ones.
///
/// A job is open from its submit to its get. With these times, the body always has at least as many
/// open jobs as each path that is matched with it.
///
/// # Errors
///
/// Returns `AllocError` if memory runs out.
pub(crate) fn get_times(
    alloc: Global,
    common: &[PathJob],
    paths: &[Vec<JobStep>],
    is_late: bool,
) -> Result<Vec<Option<usize>>, AllocError> {
    let mut times = Vec::from_elem(alloc, Some(0), common.len())?;
    for path in paths {
        let jobs = submitted_jobs(alloc, path)?;
        let made = made_submits(alloc, common, &jobs, is_late)?;
        let of_path = times_of_path(alloc, common, path, &made)?;
        delay(&mut times, &of_path);
    }
    Ok(times)
}

/// Compares each time with the time at the same index of `others`, and keeps the later one. `None`
/// is later than any time.
fn delay(times: &mut [Option<usize>], others: &[Option<usize>]) {
    for (time, other) in times.iter_mut().zip(others) {
        *time = later(*time, *other);
    }
}

fn later(time: Option<usize>, other: Option<usize>) -> Option<usize> {
    match (time, other) {
        (Some(time), Some(other)) => Some(time.max(other)),
        _ => None,
    }
}

/// Returns, for each submit of the body, whether a submit of the path is matched with it. `common`
/// has the jobs that the body submits, and `jobs` has the jobs that the path submits. `is_late` is
/// as in [`get_times`].
fn made_submits(
    alloc: Global,
    common: &[PathJob],
    jobs: &[PathJob],
    is_late: bool,
) -> Result<Vec<bool>, AllocError> {
    let mut made = Vec::from_elem(alloc, false, common.len())?;
    if is_late {
        mark_last(common, jobs, &mut made);
    } else {
        mark_first(common, jobs, &mut made);
    }
    Ok(made)
}

fn mark_first(common: &[PathJob], jobs: &[PathJob], made: &mut [bool]) {
    let mut found: usize = 0;
    for index in 0..common.len() {
        if jobs.get(found).is_some() && jobs.get(found) == common.get(index) {
            mark(made, index);
            found = found.saturating_add(1);
        }
    }
}

fn mark_last(common: &[PathJob], jobs: &[PathJob], made: &mut [bool]) {
    let mut left = jobs.len();
    for index in (0..common.len()).rev() {
        if left > 0 && jobs.get(left.saturating_sub(1)) == common.get(index) {
            mark(made, index);
            left = left.saturating_sub(1);
        }
    }
}

fn mark(made: &mut [bool], index: usize) {
    if let Some(slot) = made.get_mut(index) {
        *slot = true;
    }
}

/// Returns the times of [`get_times`] for a single path. `made` says, for each submit of the body,
/// whether a submit of the path is matched with it. The time of a job is one of these:
///
/// - `None` if `is_got` of the job is false.
/// - `None` if the path submits the job and never gets it.
/// - The number of the job's own submit if the path does not submit the job.
/// - Otherwise, the number of the last matched submit before the path's get of the job.
///
/// If several jobs in `common` are equal, their times are sorted in ascending order, with `None`
/// last.
fn times_of_path(
    alloc: Global,
    common: &[PathJob],
    path: &[JobStep],
    made: &[bool],
) -> Result<Vec<Option<usize>>, AllocError> {
    let mut times = Vec::from_elem(alloc, None, common.len())?;
    let mut place: usize = 0;
    for (time, job) in common.iter().enumerate() {
        if made.get(time) == Some(&true) {
            place = record_gets(common, path, place.saturating_add(1), time, &mut times);
        } else {
            record_get(common, *job, time, &mut times);
        }
    }
    Ok(times)
}

/// Sets the time to `time` for each job that the path gets at index `from` or later, before the
/// next submit (see [`record_get`]). Returns the index of this submit, or the length of the path if
/// there is no such submit.
fn record_gets(
    common: &[PathJob],
    path: &[JobStep],
    from: usize,
    time: usize,
    times: &mut [Option<usize>],
) -> usize {
    let mut place = from;
    for step in path.iter().skip(from) {
        match *step {
            JobStep::Gets(job) => record_get(common, job, time, times),
            JobStep::Submits(_) => break,
        }
        place = place.saturating_add(1);
    }
    place
}

/// Sets the time of a job to `time`. The job is the first one in `common` that equals `job` and has
/// no time yet. Does nothing if `job.is_got` is false.
fn record_get(common: &[PathJob], job: PathJob, time: usize, times: &mut [Option<usize>]) {
    if !job.is_got {
        return;
    }
    for (other, slot) in common.iter().zip(times.iter_mut()) {
        if *other == job && slot.is_none() {
            *slot = Some(time);
            return;
        }
    }
}
