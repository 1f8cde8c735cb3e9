//! Counts of the gets in a recording that timed out or were interrupted, for each actor and job.

ghost use Rattle.std.specs.Prelude.{◌≡◌, ◌<◌, ◌+◌, ◌^◌, ◌++◌, ◌∷◌, [], List, OnOk, IfOk, length};
ghost use Rattle.recordings.specs.RecordingLine.{RecordedLine, line_view};
ghost use Rattle.conformance.specs.Lines.{lines_of};
ghost use Rattle.conformance.specs.FailedGets as spec;

use crate::well_formed_lines::WellFormedLines;
use recordings::{Line, RecordedActor};
use std::alloc::{AllocError, Global};
use std::collections::HashMap;

/// An actor, and a job that it gets.
#[derive(Clone, Copy, PartialEq, Eq, Hash)]
pub(crate) struct JobGet {
    pub(crate) actor: RecordedActor,
    pub(crate) job: usize,
}

/// A map from an actor and a job to a count of failed gets. A get fails if it times out or is
/// interrupted. The count is the number of lines that record a failed get of the job by the actor.
/// There is no entry if there is no such line.
pub(crate) type FailedGets = HashMap<JobGet, usize>;

/// Counts the gets in a text that timed out or were interrupted.
///
/// # Errors
///
/// Returns `AllocError` if memory runs out.
pub(crate) fn failed_gets_in(alloc: Global, text: &[u8]) -> Result<FailedGets, AllocError>
    ensures { IfOk result (spec.AreCounts (lines_of text.now)) }
{
    let mut counts = HashMap::new(alloc);
    let mut lines = WellFormedLines::new(text);
    while let Some(line) = lines.next() {
        note_line(&mut counts, &line)?;
    }
    Ok(counts)
}

/// Returns how often a get of the job by the actor timed out or was interrupted.
pub(crate) fn count_of(counts: &FailedGets, get: JobGet) -> usize
    ensures { result ≡ spec.count_in counts.now get }
{
    match counts.get(&get) {
        Some(count) => *count,
        None => 0,
    }
}

fn note_line(counts: &mut FailedGets, line: &Line<'_>) -> Result<(), AllocError>
    ensures { (before : List RecordedLine)
        → length before + 1 < 2 ^ 64
        → spec.AreCounts before counts.old
        → OnOk result (spec.AreCounts (before ++ line_view line.now ∷ []) counts.new) }
{
    match failed_get_of(line) {
        Some(get) => note_get(counts, get),
        None => Ok(()),
    }
}

fn note_get(counts: &mut FailedGets, get: JobGet) -> Result<(), AllocError>
    ensures { spec.count_in counts.old get + 1 < 2 ^ 64
        → OnOk result (spec.IsCountedOnce get counts.old counts.new) }
{
    // Never saturates, since the number of lines is below `usize::MAX`.
    let count = count_of(counts, get).saturating_add(1);
    counts.insert(get, count)?;
    Ok(())
}

/// Returns the actor and the job of the line, if the line records a get that timed out or was
/// interrupted.
fn failed_get_of(line: &Line<'_>) -> Option<JobGet>
    ensures { result ≡ spec.failed_get_of (line_view line.now) }
{
    match *line {
        Line::TimedOut { actor, job } | Line::Interrupted { actor, job } => {
            Some(JobGet { actor, job })
        }
        _ => None,
    }
}
