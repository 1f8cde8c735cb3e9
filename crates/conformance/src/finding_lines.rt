//! The findings as text.

ghost use Rattle.std.specs.Prelude.{◌≡◌, ◌++◌, codes};
ghost use Rattle.support.specs.Pushed.{Pushes};
ghost use Rattle.conformance.specs.FindingText as spec;
ghost use Rattle.conformance.specs.PathMismatch.{job_text};

use crate::actor_label::ActorLabel;
use crate::finding::Finding;
use crate::mismatch::{push_actor, push_job, push_mismatch};
use crate::unplanned::UnplannedLabel;
use crate::{Difference, PoolDeviation, RoundExcess};
use job_bodies::Plan;
use recordings::{ForeignGet, InvalidatingEvent, Invalidation, RecordedActor};
use std::alloc::AllocError;

/// Appends a line for each finding, such as `line 3: pool db: max 20, plan 10`.
///
/// # Errors
///
/// Returns [`AllocError`] if memory runs out.
pub fn push_findings(text: &mut String, plan: &Plan, findings: &[Finding]) -> Result<(), AllocError>
    ensures { Pushes result text.old text.new (spec.findings_text plan.now findings.now) }
{
    for finding in findings {
        push_finding(text, plan, finding)?;
        text.push('\n')?;
    }
    Ok(())
}

/// Appends one finding, without a newline.
///
/// # Errors
///
/// Returns [`AllocError`] if memory runs out.
pub fn push_finding(text: &mut String, plan: &Plan, finding: &Finding) -> Result<(), AllocError>
    ensures { Pushes result text.old text.new (spec.finding_text plan.now finding.now) }
{
    push_line_number(text, finding.line())?;
    match finding {
        Finding::Pool(deviation) => push_deviation(text, plan, deviation),
        Finding::UnplannedLabel(label) => push_not_planned(text, label),
        Finding::PathMismatch { mismatch, .. } => push_mismatch(text, plan, mismatch),
        Finding::NotDecided { actor, label } => {
            push_actor(text, *actor, label)?;
            text.push_str(
                ": not decided: some jobs that it submitted, directly or through other jobs, \
                 may belong to several classes",
            )
        }
        Finding::TooMany(excess) => push_excess(text, plan, *excess),
        Finding::ForeignGet { get, label, job } => push_foreign_get(text, *get, label, job),
        Finding::Invalidation {
            invalidation,
            label,
        } => push_invalidation(text, *invalidation, label),
    }
}

fn push_line_number(text: &mut String, line: Option<usize>) -> Result<(), AllocError>
    ensures { Pushes result text.old text.new (spec.line_text line) }
{
    match line {
        Some(line) => write!(text, "line {line}: "),
        None => Ok(()),
    }
}

fn push_deviation(
    text: &mut String,
    plan: &Plan,
    deviation: &PoolDeviation,
) -> Result<(), AllocError>
    ensures { Pushes result text.old text.new (spec.deviation_text plan.now deviation.now) }
{
    match deviation {
        PoolDeviation::UnplannedLabel { pool, .. } => push_unplanned(text, "pool", pool),
        PoolDeviation::Differs {
            pool,
            difference,
            ..
        } => push_difference(text, plan.pool_name(*pool), *difference),
        PoolDeviation::NotRecorded { pool } => push_not_recorded(text, plan.pool_name(*pool)),
    }
}

fn push_difference(text: &mut String, name: &str, difference: Difference) -> Result<(), AllocError>
    ensures { Pushes result text.old text.new (spec.pool_difference_text name.now difference) }
{
    write!(text, "pool {name}: {difference}")
}

fn push_not_recorded(text: &mut String, name: &str) -> Result<(), AllocError>
    ensures { Pushes result text.old text.new (spec.not_recorded_text name.now) }
{
    write!(text, "pool {name}: in the plan and not in the recording")
}

fn push_not_planned(text: &mut String, label: &UnplannedLabel) -> Result<(), AllocError>
    ensures { Pushes result text.old text.new (spec.not_planned_text label.now) }
{
    match label {
        UnplannedLabel::Class { class, pool, .. } => push_class(text, class, pool),
        UnplannedLabel::Kind { kind, .. } => push_unplanned(text, "kind", kind),
    }
}

fn push_class(text: &mut String, class: &str, pool: &str) -> Result<(), AllocError>
    ensures { Pushes result text.old text.new (spec.class_text class.now pool.now) }
{
    push_class_name(text, class)?;
    push_unplanned(text, "pool", pool)
}

fn push_class_name(text: &mut String, class: &str) -> Result<(), AllocError>
    ensures { Pushes result text.old text.new (spec.class_name_text class.now) }
{
    write!(text, "class {class} in ")
}

fn push_unplanned(text: &mut String, sort: &str, name: &str) -> Result<(), AllocError>
    ensures { Pushes result text.old text.new (spec.unplanned_text sort.now name.now) }
{
    write!(text, "{sort} {name}: not in the plan")
}

fn push_excess(text: &mut String, plan: &Plan, found: RoundExcess) -> Result<(), AllocError>
    ensures { Pushes result text.old text.new (spec.kind_excess_text plan.now found) }
{
    let kind = plan.client_name(found.kind);
    let excess = found.excess;
    write!(text, "kind {kind}: {excess}")
}

fn push_foreign_get(
    text: &mut String,
    get: ForeignGet,
    label: &ActorLabel,
    job: &ActorLabel,
) -> Result<(), AllocError>
    ensures { Pushes result text.old text.new (spec.foreign_get_text get label.now job.now) }
{
    push_actor(text, get.actor, label)?;
    text.push_str(" got ")?;
    push_job(text, get.job, &job.name, &job.pool)?;
    text.push_str(", which it did not submit")
}

fn push_invalidation(
    text: &mut String,
    invalidation: Invalidation,
    label: &ActorLabel,
) -> Result<(), AllocError>
    ensures { Pushes result text.old text.new (spec.invalidation_text invalidation label.now) }
{
    text.push_str("the answer SAFE does not hold after this: ")?;
    push_event(text, invalidation.event, &label.name, &label.pool)
}

/// Appends an event. `name` and `pool` are the two names in the label of the finding
/// ([`Finding::Invalidation`]).
fn push_event(
    text: &mut String,
    event: InvalidatingEvent,
    name: &str,
    pool: &str,
) -> Result<(), AllocError>
    ensures { Pushes result text.old text.new (spec.event_text event name.now pool.now) }
{
    match event {
        InvalidatingEvent::Refused { job, .. } => {
            push_job(text, job, name, pool)?;
            text.push_str(" was refused")
        }
        InvalidatingEvent::TimedOut { job, .. } => {
            push_get_of(text, job, name, pool)?;
            text.push_str(" timed out")
        }
        InvalidatingEvent::Interrupted { job, .. } => {
            push_get_of(text, job, name, pool)?;
            text.push_str(" was interrupted")
        }
        InvalidatingEvent::Cancelled { job, .. } => {
            push_job(text, job, name, pool)?;
            text.push_str(" was cancelled")
        }
        InvalidatingEvent::Removed { job } => {
            push_job(text, job, name, pool)?;
            text.push_str(" was removed from its queue")
        }
        InvalidatingEvent::Threw { job } => {
            push_job(text, job, name, pool)?;
            text.push_str(" threw an exception")
        }
        InvalidatingEvent::AnyInvoked { actor } => {
            push_short_actor(text, actor, name)?;
            write!(text, " called invokeAny in pool {pool}")
        }
        InvalidatingEvent::Unseen { jobs } => {
            write!(
                text,
                "{jobs} jobs were run in pool {pool} that no line mentions"
            )
        }
    }
}

fn push_get_of(text: &mut String, job: usize, class: &str, pool: &str) -> Result<(), AllocError>
    ensures { Pushes result text.old text.new (codes "a get of " ++ job_text job class.now pool.now) }
{
    text.push_str("a get of ")?;
    push_job(text, job, class, pool)
}

/// Appends an actor with its class or kind, but without a pool, such as `job 44 of class order` or
/// `round 3 of kind visitor`.
fn push_short_actor(text: &mut String, actor: RecordedActor, name: &str) -> Result<(), AllocError>
    ensures { Pushes result text.old text.new (spec.short_actor_text actor name.now) }
{
    match actor {
        RecordedActor::Job(job) => write!(text, "job {job} of class {name}"),
        RecordedActor::Round(round) => write!(text, "round {round} of kind {name}"),
    }
}
