//! A common supersequence of the submits of several paths.

use crate::path_jobs::{JobStep, PathJob, submitted_jobs};
use job_bodies::MAX_ACTIONS;
use std::alloc::{AllocError, Global};

/// Returns a list of jobs that has the submitted jobs of each path as a subsequence. Returns `None`
/// if the list would be longer than a body may be. The paths are merged one by one, from the last
/// to the first if `is_reversed` is true, and otherwise from the first to the last.
///
/// # Errors
///
/// Returns `AllocError` if memory runs out.
pub(crate) fn common_supersequence(
    alloc: Global,
    paths: &[Vec<JobStep>],
    is_reversed: bool,
) -> Result<Option<Vec<PathJob>>, AllocError> {
    let mut common = Vec::new(alloc);
    for number in 0..paths.len() {
        let jobs = submitted_jobs(alloc, path_at(paths, number, is_reversed))?;
        if !is_subsequence(&jobs, &common) {
            if jobs.len() > MAX_ACTIONS {
                return Ok(None);
            }
            common = shortest_supersequence(alloc, &common, &jobs)?;
            if common.len() > MAX_ACTIONS {
                return Ok(None);
            }
        }
    }
    Ok(Some(common))
}

/// Returns the path with this number. The number counts from the last path if `is_reversed` is
/// true. Returns an empty path if no path has this number.
fn path_at(paths: &[Vec<JobStep>], number: usize, is_reversed: bool) -> &[JobStep] {
    let index = if is_reversed {
        paths.len().saturating_sub(number).saturating_sub(1)
    } else {
        number
    };
    match paths.get(index) {
        Some(path) => path.as_slice(),
        None => &[],
    }
}

fn is_subsequence(jobs: &[PathJob], of: &[PathJob]) -> bool {
    let mut found: usize = 0;
    for job in of {
        if jobs.get(found) == Some(job) {
            found = found.saturating_add(1);
        }
    }
    found >= jobs.len()
}

/// Returns a shortest common supersequence of two lists. If the next job can be taken from either
/// list, it is taken from the first list.
fn shortest_supersequence(
    alloc: Global,
    first: &[PathJob],
    second: &[PathJob],
) -> Result<Vec<PathJob>, AllocError> {
    let lengths = common_lengths(alloc, first, second)?;
    let mut merged = Vec::new(alloc);
    let mut index = 0;
    let mut other = 0;
    while index < first.len() && other < second.len() {
        let is_equal = first[index] == second[other];
        if is_equal || continues_first(&lengths, first.len() - index, second.len() - other) {
            merged.push(first[index])?;
            index += 1;
            if is_equal {
                other += 1;
            }
        } else {
            merged.push(second[other])?;
            other += 1;
        }
    }
    push_from(&mut merged, first, index)?;
    push_from(&mut merged, second, other)?;
    Ok(merged)
}

fn push_from(jobs: &mut Vec<PathJob>, more: &[PathJob], index: usize) -> Result<(), AllocError> {
    for job in more.iter().skip(index) {
        jobs.push(*job)?;
    }
    Ok(())
}

/// Returns true if the merged list can continue with the next job of the first list and still
/// become a shortest common supersequence. The next jobs of the two lists must differ.
///
/// The longer the common subsequence of the remaining jobs, the shorter the merged list. So the
/// result is true if the longest common subsequence of the remaining jobs is at least as long after
/// taking the first list's job as after taking the second list's job.
///
/// - `left` is the number of jobs that remain in the first list, and `other_left` the number that
///   remain in the second list.
/// - `lengths` is the table that [`common_lengths`] returns.
fn continues_first(lengths: &[Vec<usize>], left: usize, other_left: usize) -> bool {
    length_at(lengths, left.saturating_sub(1), other_left)
        >= length_at(lengths, left, other_left.saturating_sub(1))
}

fn length_at(lengths: &[Vec<usize>], left: usize, other_left: usize) -> usize {
    match lengths.get(left) {
        Some(row) => row.get(other_left).copied().unwrap_or(0),
        None => 0,
    }
}

/// Returns a table with one entry for each pair of a suffix of the first list and a suffix of the
/// second list. The entry is the length of the longest common subsequence of the two suffixes. The
/// outer index of an entry is the length of the first list's suffix, and the inner index is the
/// length of the second list's suffix.
fn common_lengths(
    alloc: Global,
    first: &[PathJob],
    second: &[PathJob],
) -> Result<Vec<Vec<usize>>, AllocError> {
    let mut rows = Vec::new(alloc);
    rows.push(Vec::from_elem(alloc, 0, second.len().saturating_add(1))?)?;
    for job in first.iter().rev() {
        let row = next_row(alloc, *job, second, &rows)?;
        rows.push(row)?;
    }
    Ok(rows)
}

/// Returns the next row of the table that [`common_lengths`] computes. `rows` has the rows for all
/// shorter suffixes of the first list. The new row is for the suffix that begins with `job`.
fn next_row(
    alloc: Global,
    job: PathJob,
    second: &[PathJob],
    rows: &[Vec<usize>],
) -> Result<Vec<usize>, AllocError> {
    let last = rows.len().saturating_sub(1);
    let mut row = Vec::new(alloc);
    let mut before = 0;
    row.push(before)?;
    for (left, other) in second.iter().rev().enumerate() {
        before = if job == *other {
            length_at(rows, last, left).saturating_add(1)
        } else {
            before.max(length_at(rows, last, left.saturating_add(1)))
        };
        row.push(before)?;
    }
    Ok(row)
}
