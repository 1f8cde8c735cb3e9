//! The check of a line against the rules O1 to O7. The result depends on the lines before this
//! line.

ghost use Rattle.std.specs.Prelude.{◌≡◌, List};
ghost use Rattle.recordings.specs.RecordingLine.{RecordedLine, line_view};
ghost use Rattle.recordings.specs.Before as said;
ghost use Rattle.recordings.specs.Rules as spec;
ghost use Rattle.recordings.specs.StateOfLines.{Represents};

use crate::line_parts::{actor_of, is_head, job_of, pool_of};
use crate::rule::LineRule;
use crate::trace_validator::TraceValidator;
use crate::{Line, RecordedActor};

/// Returns the first rule that the line breaks, or `None` if the line breaks no rule. `lines` is
/// the state of the check before this line.
pub(crate) fn first_broken_rule(lines: &TraceValidator, line: &Line<'_>) -> Option<LineRule>
    ensures { (before : List RecordedLine)
        → Represents lines.now before
        → result ≡ spec.first_broken_rule before (line_view line.now) }
{
    if !keeps_frame(lines, line) {
        Some(LineRule::Frame)
    } else if !keeps_pools(lines, line) {
        Some(LineRule::Pools)
    } else if !keeps_numbers(lines, line) {
        Some(LineRule::Numbers)
    } else if !keeps_rounds(lines, line) {
        Some(LineRule::Rounds)
    } else if !keeps_jobs(lines, line) {
        Some(LineRule::Jobs)
    } else if !keeps_refusals(lines, line) {
        Some(LineRule::Refusals)
    } else if !keeps_gets(lines, line) {
        Some(LineRule::Gets)
    } else {
        None
    }
}

fn keeps_frame(lines: &TraceValidator, line: &Line<'_>) -> bool
    ensures { (before : List RecordedLine)
        → Represents lines.now before
        → result ≡ spec.keeps_frame before (line_view line.now) }
{
    is_head(line) != lines.begun && !lines.closed
}

fn keeps_pools(lines: &TraceValidator, line: &Line<'_>) -> bool
    ensures { (before : List RecordedLine)
        → Represents lines.now before
        → result ≡ spec.keeps_pools before (line_view line.now) }
{
    match pool_of(line) {
        Some(pool) => lines.pools.contains(pool),
        None => true,
    }
}

fn keeps_numbers(lines: &TraceValidator, line: &Line<'_>) -> bool
    ensures { (before : List RecordedLine)
        → Represents lines.now before
        → result ≡ spec.keeps_numbers before (line_view line.now) }
{
    has_next_number(lines, line)
        && is_known_actor(lines, actor_of(line))
        && is_known_job(lines, job_of(line))
}

fn has_next_number(lines: &TraceValidator, line: &Line<'_>) -> bool
    ensures { (before : List RecordedLine)
        → Represents lines.now before
        → result ≡ spec.has_next_number before (line_view line.now) }
{
    match *line {
        Line::Submits { job, .. } => job == lines.jobs.submitted,
        Line::RoundBegins { round, .. } => round == lines.rounds.begun,
        _ => true,
    }
}

fn is_known_actor(lines: &TraceValidator, actor: Option<RecordedActor>) -> bool
    ensures { (before : List RecordedLine)
        → Represents lines.now before
        → result ≡ spec.is_known_actor before actor }
{
    match actor {
        Some(RecordedActor::Job(job)) => job < lines.jobs.submitted,
        Some(RecordedActor::Round(_)) | None => true,
    }
}

fn is_known_job(lines: &TraceValidator, job: Option<usize>) -> bool
    ensures { (before : List RecordedLine)
        → Represents lines.now before
        → result ≡ spec.is_known_job before job }
{
    match job {
        Some(job) => job < lines.jobs.submitted,
        None => true,
    }
}

fn keeps_rounds(lines: &TraceValidator, line: &Line<'_>) -> bool
    ensures { (before : List RecordedLine)
        → Represents lines.now before
        → result ≡ spec.keeps_rounds before (line_view line.now) }
{
    match actor_of(line) {
        Some(RecordedActor::Round(round)) => lines.rounds.is_open(round),
        Some(RecordedActor::Job(_)) | None => true,
    }
}

fn keeps_jobs(lines: &TraceValidator, line: &Line<'_>) -> bool
    ensures { (before : List RecordedLine)
        → Represents lines.now before
        → result ≡ spec.keeps_jobs before (line_view line.now) }
{
    starts_once(lines, line) && is_running(lines, actor_of(line))
}

fn starts_once(lines: &TraceValidator, line: &Line<'_>) -> bool
    ensures { (before : List RecordedLine)
        → Represents lines.now before
        → result ≡ spec.starts_once before (line_view line.now) }
{
    match *line {
        Line::JobStarts { job } => !lines.jobs.has_started(job),
        _ => true,
    }
}

fn is_running(lines: &TraceValidator, actor: Option<RecordedActor>) -> bool
    ensures { (before : List RecordedLine)
        → Represents lines.now before
        → result ≡ spec.is_running before actor }
{
    match actor {
        Some(RecordedActor::Job(job)) => lines.jobs.is_running(job),
        Some(RecordedActor::Round(_)) | None => true,
    }
}

fn keeps_refusals(lines: &TraceValidator, line: &Line<'_>) -> bool
    ensures { (before : List RecordedLine)
        → Represents lines.now before
        → result ≡ spec.keeps_refusals before (line_view line.now) }
{
    match *line {
        Line::Refused { actor, job } => {
            just_submitted(lines, actor, job) && !lines.jobs.has_started(job)
        }
        _ => true,
    }
}

fn just_submitted(lines: &TraceValidator, actor: RecordedActor, job: usize) -> bool
    ensures { (before : List RecordedLine)
        → Represents lines.now before
        → result ≡ said.just_submitted before actor job }
{
    match actor {
        RecordedActor::Job(submitter) => lines.jobs.last_submit(submitter) == Some(job),
        RecordedActor::Round(submitter) => lines.rounds.last_submit(submitter) == Some(job),
    }
}

fn keeps_gets(lines: &TraceValidator, line: &Line<'_>) -> bool
    ensures { (before : List RecordedLine)
        → Represents lines.now before
        → result ≡ spec.keeps_gets before (line_view line.now) }
{
    match *line {
        Line::Got { job, .. } => lines.jobs.is_settled(job),
        _ => true,
    }
}
