//! An actor whose path matches no body of the plan, and its description as text.

ghost use Rattle.std.specs.Prelude.{string_bytes};
ghost use Rattle.support.specs.Pushed.{Pushes};
ghost use Rattle.conformance.specs.PathMismatch as spec;

use crate::actor_label::ActorLabel;
use crate::open_excess::OpenExcess;
use job_bodies::Plan;
use recordings::RecordedActor;
use std::alloc::AllocError;
use support::push_number;

/// An actor with a path that matches no body of the actor's label. The label is the class and pool
/// of a job, or the client kind of a round. The plan has this label.
#[derive(Drop)]
pub struct PathMismatch {
    pub actor: RecordedActor,
    pub label: ActorLabel,
    /// The first step of the path that no body of the label allows. If a body allows the whole
    /// path, this is the actor's end.
    pub step: DeviatingStep,
    /// The step of the path before `step`, or `None` if there is no earlier step.
    pub after: Option<NamedStep>,
}

/// A step at which an actor deviates from the bodies of its label. A body of the label allows all
/// earlier steps, but no body allows this step after them. If the actor ended too early, the
/// deviating step is the actor's end.
#[derive(Drop)]
pub enum DeviatingStep {
    /// The actor submitted a job of this class to this pool. The actor's body has no submit of this
    /// class left.
    Submits(ActorLabel),
    /// The actor submitted a job of this class to this pool while too many jobs of the actor were
    /// open. The body of the actor still has a submit of this class.
    SubmitsWhileOpen {
        label: ActorLabel,
        excess: OpenExcess,
    },
    /// The actor got a job of this class and pool. The actor's body has no get of this class left.
    Gets(ActorLabel),
    /// The actor submitted this job. The path of the job matches no class of the job's label,
    /// although the plan has at least one class of this label.
    SubmitsMismatched {
        job: usize,
        label: ActorLabel,
    },
    /// The actor submitted this job. The plan has no class of the job's label.
    SubmitsUnplanned {
        job: usize,
        label: ActorLabel,
    },
    /// The actor ended before a get of its body.
    ///
    /// - `job` is the job that the actor should have got. It is the actor's first open job of the
    ///   class of this get.
    /// - `label` is the label of this job.
    /// - `failed_gets` says how often a get of this job by the actor timed out or was interrupted.
    EndsOpen {
        job: usize,
        label: ActorLabel,
        failed_gets: usize,
    },
    /// The recorded actor got every job that it submitted, and ended before a get of its body.
    Ends,
}

/// A step of an actor, with the class of the job.
#[derive(Drop)]
pub enum NamedStep {
    /// A submit of a job of this class.
    Submits(String),
    /// A get of a job of this class.
    Gets(String),
}

/// Appends a description of the mismatch, such as `job 44 of class order in pool web submitted
/// price to pool database; its body has no such submit after get stock`.
///
/// # Errors
///
/// Returns `AllocError` if memory runs out.
pub(crate) fn push_mismatch(
    text: &mut String,
    plan: &Plan,
    mismatch: &PathMismatch,
) -> Result<(), AllocError>
    ensures { Pushes result text.old text.new (spec.mismatch_text plan.now mismatch.now) }
{
    push_actor(text, mismatch.actor, &mismatch.label)?;
    push_deviation(text, plan, &mismatch.step, &mismatch.after)
}

fn push_deviation(
    text: &mut String,
    plan: &Plan,
    step: &DeviatingStep,
    after: &Option<NamedStep>,
) -> Result<(), AllocError>
    ensures { Pushes result text.old text.new
        (spec.deviating_step_text plan.now step.now after.now) }
{
    match step {
        DeviatingStep::Submits(label) => {
            push_submit(text, label)?;
            push_missing(text, "submit")?;
            push_position(text, after)
        }
        DeviatingStep::SubmitsWhileOpen { label, excess } => {
            push_submit(text, label)?;
            push_too_many(text, plan, after, *excess)
        }
        DeviatingStep::Gets(label) => {
            push_get(text, label)?;
            push_missing(text, "get")?;
            push_position(text, after)
        }
        DeviatingStep::SubmitsMismatched { job, label } => {
            push_submit(text, label)?;
            push_cause(text, *job)
        }
        DeviatingStep::SubmitsUnplanned { job, label } => {
            push_submit(text, label)?;
            push_unplanned_job(text, *job)
        }
        DeviatingStep::EndsOpen {
            job,
            label,
            failed_gets,
        } => push_open_end(text, *job, label, *failed_gets),
        DeviatingStep::Ends => push_end(text),
    }
}

/// Appends the name of an actor with its label, such as `job 44 of class order in pool web` or
/// `round 3 of kind visitor`.
///
/// # Errors
///
/// Returns `AllocError` if memory runs out.
pub(crate) fn push_actor(
    text: &mut String,
    actor: RecordedActor,
    label: &ActorLabel,
) -> Result<(), AllocError>
    ensures { Pushes result text.old text.new
        (spec.actor_text actor (string_bytes label.now.name) (string_bytes label.now.pool)) }
{
    match actor {
        RecordedActor::Job(job) => push_job(text, job, &label.name, &label.pool),
        RecordedActor::Round(round) => push_round(text, round, &label.name),
    }
}

/// Appends a job with its class and pool, such as `job 44 of class order in pool web`.
///
/// # Errors
///
/// Returns `AllocError` if memory runs out.
pub(crate) fn push_job(
    text: &mut String,
    job: usize,
    class: &str,
    pool: &str,
) -> Result<(), AllocError>
    ensures { Pushes result text.old text.new (spec.job_text job class.now pool.now) }
{
    write!(text, "job {job} of class {class} in pool {pool}")
}

fn push_round(text: &mut String, round: usize, kind: &str) -> Result<(), AllocError>
    ensures { Pushes result text.old text.new (spec.round_text round kind.now) }
{
    write!(text, "round {round} of kind {kind}")
}

fn push_submit(text: &mut String, label: &ActorLabel) -> Result<(), AllocError>
    ensures { Pushes result text.old text.new
        (spec.submit_text (string_bytes label.now.name) (string_bytes label.now.pool)) }
{
    let class = label.name.as_str();
    let pool = label.pool.as_str();
    write!(text, " submitted {class} to pool {pool}")
}

fn push_get(text: &mut String, label: &ActorLabel) -> Result<(), AllocError>
    ensures { Pushes result text.old text.new
        (spec.get_text (string_bytes label.now.name) (string_bytes label.now.pool)) }
{
    let class = label.name.as_str();
    let pool = label.pool.as_str();
    write!(text, " got {class} of pool {pool}")
}

fn push_missing(text: &mut String, step: &str) -> Result<(), AllocError>
    ensures { Pushes result text.old text.new (spec.missing_text step.now) }
{
    write!(text, "; its body has no such {step}")
}

fn push_too_many(
    text: &mut String,
    plan: &Plan,
    after: &Option<NamedStep>,
    excess: OpenExcess,
) -> Result<(), AllocError>
    ensures { Pushes result text.old text.new (spec.too_many_text plan.now after.now excess) }
{
    text.push_str(";")?;
    push_position(text, after)?;
    push_excess(text, plan, excess)
}

fn push_excess(text: &mut String, plan: &Plan, excess: OpenExcess) -> Result<(), AllocError>
    ensures { Pushes result text.old text.new (spec.excess_text plan.now excess) }
{
    push_open_jobs(text, excess.open_jobs, plan.class_name(excess.class))?;
    push_limit(text, excess.limit)
}

fn push_open_jobs(text: &mut String, jobs: usize, class: &str) -> Result<(), AllocError>
    ensures { Pushes result text.old text.new (spec.open_jobs_text jobs class.now) }
{
    if jobs == 1 {
        write!(text, ", 1 job of class {class} is open")
    } else {
        push_several_jobs(text, jobs, class)
    }
}

fn push_several_jobs(text: &mut String, jobs: usize, class: &str) -> Result<(), AllocError>
    ensures { Pushes result text.old text.new (spec.several_jobs_text jobs class.now) }
{
    write!(text, ", {jobs} jobs of class {class} are open")
}

fn push_limit(text: &mut String, limit: usize) -> Result<(), AllocError>
    ensures { Pushes result text.old text.new (spec.limit_text limit) }
{
    write!(
        text,
        "; its body has only {limit} at some point before its next such submit"
    )
}

fn push_end(text: &mut String) -> Result<(), AllocError>
    ensures { Pushes result text.old text.new spec.end_text }
{
    write!(text, " ended; its body has a get before its end")
}

fn push_open_end(
    text: &mut String,
    job: usize,
    label: &ActorLabel,
    failed_gets: usize,
) -> Result<(), AllocError>
    ensures { Pushes result text.old text.new
        (spec.open_end_text job (string_bytes label.now.name) (string_bytes label.now.pool) failed_gets) }
{
    push_without_get(text, job, &label.name, &label.pool)?;
    push_end_after(text, failed_gets)
}

/// Appends the end of the text about an actor that ended too early: the number of failed gets, if
/// it is at least two, and then the reason why the end is a deviation. A get fails if it times out
/// or is interrupted.
fn push_end_after(text: &mut String, failed_gets: usize) -> Result<(), AllocError>
    ensures { Pushes result text.old text.new (spec.end_after_text failed_gets) }
{
    push_failed_gets(text, failed_gets)?;
    push_end_reason(text)
}

/// Appends the number of gets that timed out or were interrupted. Appends nothing if there are
/// fewer than two.
fn push_failed_gets(text: &mut String, gets: usize) -> Result<(), AllocError>
    ensures { Pushes result text.old text.new (spec.failed_gets_text gets) }
{
    if gets < 2 {
        return Ok(());
    }
    write!(
        text,
        ", after {gets} gets of it that timed out or were interrupted"
    )
}

fn push_without_get(
    text: &mut String,
    job: usize,
    class: &str,
    pool: &str,
) -> Result<(), AllocError>
    ensures { Pushes result text.old text.new (spec.without_get_text job class.now pool.now) }
{
    write!(
        text,
        " ended without a get of job {job} of class {class} in pool {pool}"
    )
}

fn push_end_reason(text: &mut String) -> Result<(), AllocError>
    ensures { Pushes result text.old text.new spec.end_reason }
{
    write!(text, "; its body has a get before its end")
}

fn push_cause(text: &mut String, job: usize) -> Result<(), AllocError>
    ensures { Pushes result text.old text.new (spec.cause_text job) }
{
    write!(text, " as job {job}, whose own path matches no such class")
}

fn push_unplanned_job(text: &mut String, job: usize) -> Result<(), AllocError>
    ensures { Pushes result text.old text.new (spec.unplanned_job_text job) }
{
    write!(text, " as job {job}, which belongs to no class of the plan")
}

fn push_position(text: &mut String, after: &Option<NamedStep>) -> Result<(), AllocError>
    ensures { Pushes result text.old text.new (spec.position_text after.now) }
{
    match after {
        None => text.push_str(" at its begin"),
        Some(NamedStep::Submits(class)) => write!(text, " after submit {class}"),
        Some(NamedStep::Gets(class)) => write!(text, " after get {class}"),
    }
}
