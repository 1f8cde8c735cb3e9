//! The effect of a line on the state of the rule check.

ghost use Rattle.std.specs.Prelude.{OnOk, OnErr};
ghost use Rattle.recordings.specs.RecordingLine.{line_view};
ghost use Rattle.recordings.specs.StateChanges.{AppliesLine, IsSame, AppliesChanges, SetsLastSubmit};

use crate::line_parts::is_end;
use crate::trace_validator::TraceValidator;
use crate::{Line, RecordedActor};
use std::alloc::AllocError;

/// Updates the state with a line that breaks no rule.
///
/// # Errors
///
/// Returns `AllocError` if memory runs out. The state is then unchanged.
pub(crate) fn apply_line(lines: &mut TraceValidator, line: &Line<'_>) -> Result<(), AllocError>
    ensures stored { OnOk result (AppliesLine lines.old (line_view line.now) lines.new) }
    ensures same { OnErr result (IsSame lines.old lines.new) }
{
    apply_changes(lines, line)?;
    lines.begun = true;
    lines.closed = lines.closed || is_end(line);
    Ok(())
}

// Applies the changes that the line makes. A line can add a pool, a round or a job, set the last
// submit of its actor, and record the progress of a round or a job.
fn apply_changes(lines: &mut TraceValidator, line: &Line<'_>) -> Result<(), AllocError>
    ensures stored { OnOk result (AppliesChanges lines.old (line_view line.now) lines.new) }
    ensures same { OnErr result (IsSame lines.old lines.new) }
{
    match *line {
        Line::Pool { name, .. } => lines.pools.insert(name)?,
        Line::RoundBegins { round, .. } => lines.rounds.begin(round)?,
        Line::RoundEnds { round } => lines.rounds.end(round),
        Line::Submits { actor, job, .. } => {
            lines.jobs.submit(job)?;
            set_last_submit(lines, actor, Some(job));
        }
        Line::JobStarts { job } => lines.jobs.start(job),
        Line::JobEnds { job } | Line::JobThrew { job } => lines.jobs.finish(job),
        Line::Cancels { actor, job } => {
            set_last_submit(lines, actor, None);
            lines.jobs.cancel(job);
        }
        Line::Got { actor, .. }
        | Line::TimedOut { actor, .. }
        | Line::Interrupted { actor, .. }
        | Line::InvokesAny { actor, .. } => set_last_submit(lines, actor, None),
        _ => {}
    }
    Ok(())
}

fn set_last_submit(lines: &mut TraceValidator, actor: RecordedActor, last_submit: Option<usize>)
    ensures { SetsLastSubmit lines.old actor last_submit lines.new }
{
    match actor {
        RecordedActor::Job(job) => lines.jobs.set_last_submit(job, last_submit),
        RecordedActor::Round(round) => lines.rounds.set_last_submit(round, last_submit),
    }
}
