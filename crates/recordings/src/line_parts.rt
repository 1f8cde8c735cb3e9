//! The actor, the job and the pool that a line names.

ghost use Rattle.std.specs.Prelude.{◌≡◌};
ghost use Rattle.std.specs.Option.{option_map};
ghost use Rattle.recordings.specs.RecordingLine.{line_view};
ghost use Rattle.recordings.specs.LineParts as spec;

use crate::{Line, RecordedActor};

/// Returns the actor of a line that reports an action or the end of this actor, such as round 2 in
/// `round 2 got 5`. Returns `None` for a line that begins a round or starts a job, and for a line
/// that names no actor.
pub(crate) fn actor_of(line: &Line<'_>) -> Option<RecordedActor>
    ensures { result ≡ spec.actor_of (line_view line.now) }
{
    match *line {
        Line::RoundEnds { round } => Some(RecordedActor::Round(round)),
        Line::JobEnds { job } | Line::JobThrew { job } => Some(RecordedActor::Job(job)),
        Line::Submits { actor, .. }
        | Line::Refused { actor, .. }
        | Line::Got { actor, .. }
        | Line::TimedOut { actor, .. }
        | Line::Interrupted { actor, .. }
        | Line::Cancels { actor, .. }
        | Line::InvokesAny { actor, .. } => Some(actor),
        Line::Head
        | Line::Pool { .. }
        | Line::RoundBegins { .. }
        | Line::JobStarts { .. }
        | Line::Removed { .. }
        | Line::ShutDown { .. }
        | Line::Unseen { .. }
        | Line::End => None,
    }
}

/// Returns the job that the line names, such as job 5 in `round 2 got 5` and in `job 5 start`. A
/// valid recording has an earlier `submit` line of this job. Returns `None` for a `submit` line,
/// and for a line that names no job other than its actor (see [`actor_of`]).
pub(crate) fn job_of(line: &Line<'_>) -> Option<usize>
    ensures { result ≡ spec.job_of (line_view line.now) }
{
    match *line {
        Line::Refused { job, .. }
        | Line::JobStarts { job }
        | Line::Got { job, .. }
        | Line::TimedOut { job, .. }
        | Line::Interrupted { job, .. }
        | Line::Cancels { job, .. }
        | Line::Removed { job } => Some(job),
        _ => None,
    }
}

/// Returns the pool that the line names. A valid recording has an earlier `pool` line of this pool.
/// Returns `None` for a `pool` line, and for a line that names no pool.
pub(crate) fn pool_of<'a>(line: &Line<'a>) -> Option<&'a str>
    ensures { option_map (λ pool. pool.now) result ≡ spec.pool_of (line_view line.now) }
{
    match *line {
        Line::Submits { pool, .. }
        | Line::InvokesAny { pool, .. }
        | Line::ShutDown { pool }
        | Line::Unseen { pool, .. } => Some(pool),
        _ => None,
    }
}

pub(crate) fn is_head(line: &Line<'_>) -> bool
    ensures { result ≡ spec.is_head (line_view line.now) }
{
    matches!(*line, Line::Head)
}

pub(crate) fn is_end(line: &Line<'_>) -> bool
    ensures { result ≡ spec.is_end (line_view line.now) }
{
    matches!(*line, Line::End)
}
