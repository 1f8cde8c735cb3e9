//! The first deviating step of an actor, looked up in the lines of the recording.

ghost use Rattle.std.specs.Prelude.{◌≡◌, IfOk, string_bytes};
ghost use Rattle.std.specs.List.{list_any};
ghost use Rattle.std.specs.Option.{option_map, option_to_list};
ghost use Rattle.recordings.specs.ActorPath.{gets};
ghost use Rattle.conformance.specs.JobSet.{has_job};
ghost use Rattle.conformance.specs.Lines.{lines_of};
ghost use Rattle.conformance.specs.Verdicts.{is_planned_class};
ghost use Rattle.conformance.specs.Description as spec;

use crate::actor_label::ActorLabel;
use crate::first_lines::{FirstLines, FoundLine};
use crate::job_set::JobSet;
use crate::line_query::LineQuery;
use crate::mismatch::{DeviatingStep, NamedStep, PathMismatch};
use crate::open_excess::OpenExcess;
use crate::{ClassifiedActor, ExplainedPrefix, first_class};
use job_bodies::Plan;
use recordings::{RecordedActor, RecordedStep};
use std::alloc::{AllocError, Global};

/// Describes the deviating step of the actor: the first step of its path that no body allows. If a
/// body allows the whole path, the deviating step is the actor's end. Returns the number of the
/// line that records the deviating step, and the description. The number is `None` if no line
/// records this step.
///
/// `classless` has the jobs with a path that matches no class of the job's label.
///
/// # Errors
///
/// Returns `AllocError` if memory runs out.
pub(crate) fn describe_mismatch(
    alloc: Global,
    plan: &Plan,
    first: &FirstLines<'_>,
    classless: &JobSet,
    reported: &ClassifiedActor,
) -> Result<(Option<usize>, PathMismatch), AllocError>
    ensures { IfOk result (λ found.
        spec.IsDescriptionOf plan.now (lines_of first.now) (has_job classless.now) reported.now
        found.0 found.1) }
{
    let explained = reported.family.explained;
    let step = step_at(&reported.path, explained.length);
    let line = first.find(alloc, line_query_of(reported.actor, step))?;
    let after = match explained.length.checked_sub(1) {
        None => None,
        Some(last) => named_step(alloc, first, step_at(&reported.path, last))?,
    };
    let mismatch = PathMismatch {
        actor: reported.actor,
        label: label_of_classified(reported)?,
        step: deviating_step(
            alloc,
            plan,
            first,
            classless,
            reported.actor,
            &reported.path,
            explained,
            step,
        )?,
        after,
    };
    Ok((number_of(&line), mismatch))
}

fn number_of(found: &Option<FoundLine>) -> Option<usize>
    ensures { result ≡ option_map (λ found. found.number) found.now }
{
    match found {
        Some(found) => Some(found.number),
        None => None,
    }
}

/// Returns a query for each line that the descriptions of these actors look up.
///
/// # Errors
///
/// Returns `AllocError` if memory runs out.
pub(crate) fn queries_of(
    alloc: Global,
    mismatches: &[ClassifiedActor],
) -> Result<Vec<LineQuery>, AllocError> {
    let mut queries = Vec::new(alloc);
    for reported in mismatches {
        push_queries(&mut queries, reported)?;
    }
    Ok(queries)
}

/// Appends a query for each line that [`describe_mismatch`] looks up for this actor. With these
/// queries, [`FirstLines::new`] finds all of these lines in one pass.
///
/// No contract states which conditions are appended. If a condition is missing, the description is
/// the same, but the look-up takes longer, because it then searches the text for the line.
///
/// # Errors
///
/// Returns `AllocError` if memory runs out.
fn push_queries(
    queries: &mut Vec<LineQuery>,
    reported: &ClassifiedActor,
) -> Result<(), AllocError> {
    let explained = reported.family.explained;
    let step = step_at(&reported.path, explained.length);
    queries.push(line_query_of(reported.actor, step))?;
    match step {
        None => push_submit_query(queries, missing_job(&reported.path, explained.missing))?,
        Some(step) => push_submit_query(queries, Some(job_of(step)))?,
    }
    if let Some(last) = explained.length.checked_sub(1) {
        if let Some(step) = step_at(&reported.path, last) {
            push_submit_query(queries, Some(job_of(step)))?;
        }
    }
    Ok(())
}

fn push_submit_query(queries: &mut Vec<LineQuery>, job: Option<usize>) -> Result<(), AllocError> {
    if let Some(job) = job {
        queries.push(LineQuery::Submit(job))?;
    }
    Ok(())
}

fn job_of(step: JobStep) -> usize {
    match step {
        JobStep::Submits(job) | JobStep::Gets(job) => job,
    }
}

/// A step of an actor: a submit or a get of the job with this number.
#[derive(Clone, Copy)]
enum JobStep {
    Submits(usize),
    Gets(usize),
}

/// Returns the step at this index of the path. Returns `None` if the index is past the end of the
/// path, or if the step is a get of a job that the path does not submit.
fn step_at(path: &[RecordedStep], place: usize) -> Option<JobStep>
    ensures { result ≡ spec.step_at path.now place }
{
    match path.get(place)? {
        RecordedStep::Submits(job) => Some(JobStep::Submits(*job)),
        RecordedStep::Gets(submit) => got_at(path, *submit),
    }
}

fn got_at(path: &[RecordedStep], submit: usize) -> Option<JobStep>
    ensures { result ≡ spec.got_at path.now submit }
{
    match path.get(submit)? {
        RecordedStep::Submits(job) => Some(JobStep::Gets(*job)),
        RecordedStep::Gets(_) => None,
    }
}

/// Returns the condition for the line of the step. If `step` is `None`, returns the condition for
/// the line that ends the actor.
fn line_query_of(actor: RecordedActor, step: Option<JobStep>) -> LineQuery
    ensures { result ≡ spec.line_query_of actor step }
{
    match step {
        None => LineQuery::Last(actor),
        Some(JobStep::Submits(job)) => LineQuery::Submit(job),
        Some(JobStep::Gets(job)) => LineQuery::Got { actor, job },
    }
}

fn label_of_classified(reported: &ClassifiedActor) -> Result<ActorLabel, AllocError>
    ensures name { IfOk result (λ label. string_bytes label.name ≡ string_bytes reported.now.label) }
    ensures pool { IfOk result (λ label. string_bytes label.pool ≡ string_bytes reported.now.pool) }
{
    let name = reported.label.clone()?;
    let pool = reported.pool.clone()?;
    Ok(ActorLabel { name, pool })
}

fn deviating_step(
    alloc: Global,
    plan: &Plan,
    first: &FirstLines<'_>,
    classless: &JobSet,
    actor: RecordedActor,
    path: &[RecordedStep],
    explained: ExplainedPrefix,
    step: Option<JobStep>,
) -> Result<DeviatingStep, AllocError>
    ensures { IfOk result
        (spec.IsDeviatingStep plan.now (lines_of first.now) (has_job classless.now) actor path.now explained step) }
{
    match step {
        None => {
            let end = deviating_end(alloc, first, actor, missing_job(path, explained.missing))?;
            Ok(end)
        }
        Some(JobStep::Submits(job)) => {
            let label = first.label_of(alloc, job)?;
            Ok(deviating_submit(plan, classless, job, label, explained.excess))
        }
        Some(JobStep::Gets(job)) => {
            let label = first.label_of(alloc, job)?;
            Ok(DeviatingStep::Gets(label))
        }
    }
}

/// Returns the deviation of an actor that ended too early. `job` is the job that the actor should
/// have got, or `None` if there is no such job.
fn deviating_end(
    alloc: Global,
    first: &FirstLines<'_>,
    actor: RecordedActor,
    job: Option<usize>,
) -> Result<DeviatingStep, AllocError>
    ensures { IfOk result (spec.IsDeviatingEnd (lines_of first.now) actor job) }
{
    match job {
        None => Ok(DeviatingStep::Ends),
        Some(job) => {
            let label = first.label_of(alloc, job)?;
            Ok(DeviatingStep::EndsOpen {
                job,
                label,
                failed_gets: first.failed_gets(actor, job),
            })
        }
    }
}

/// Returns the job that an actor should have got before the end of its path. If `missing` is not
/// `None`, this is the job that the path submits at the index `missing`. Otherwise it is the first
/// open job of the path, or `None` if no job is open.
fn missing_job(path: &[RecordedStep], missing: Option<usize>) -> Option<usize>
    ensures { result ≡ spec.missing_job path.now missing }
{
    match missing {
        Some(submit) => submitted_job(path, submit),
        None => open_job(path),
    }
}

/// Returns the job of the submit at this index of the path, or `None` if there is no submit.
fn submitted_job(path: &[RecordedStep], submit: usize) -> Option<usize>
    ensures { result ≡ spec.submitted_job path.now submit }
{
    match path.get(submit)? {
        RecordedStep::Submits(job) => Some(*job),
        RecordedStep::Gets(_) => None,
    }
}

/// Returns the first job that the path submits and does not get, or `None` if there is none.
fn open_job(path: &[RecordedStep]) -> Option<usize>
    ensures { result ≡ spec.first_open path.now }
{
    let mut place = 0;
    let mut rest = path;
    while let Some((step, after)) = rest.split_first() {
        if let Some(job) = open_job_at(path, place, *step) {
            return Some(job);
        }
        place += 1;
        rest = after;
    }
    None
}

/// Returns the job that `step` submits, if the path does not get this job. Returns `None` if the
/// path gets the job, or if `step` is a get. `place` is the index of `step` in the path.
fn open_job_at(path: &[RecordedStep], place: usize, step: RecordedStep) -> Option<usize>
    ensures { option_to_list result ≡ spec.open_job_at path.now (place, step) }
{
    match step {
        RecordedStep::Submits(job) => { if is_got(path, place) { None } else { Some(job) } }
        RecordedStep::Gets(_) => None,
    }
}

fn is_got(path: &[RecordedStep], submit: usize) -> bool
    ensures { result ≡ list_any (gets submit) path.now }
{
    path.iter().any(|step| step.gets(submit))
}

fn deviating_submit(
    plan: &Plan,
    classless: &JobSet,
    job: usize,
    label: ActorLabel,
    excess: Option<OpenExcess>,
) -> DeviatingStep
    ensures { result
        ≡ spec.deviating_submit (has_job classless.now job)
        (is_planned_class plan.now (string_bytes label.name) (string_bytes label.pool)) job label
        excess }
{
    if !classless.contains(job) {
        submit_of_body(label, excess)
    } else if is_planned_class(plan, &label.name, &label.pool) {
        DeviatingStep::SubmitsMismatched { job, label }
    } else {
        DeviatingStep::SubmitsUnplanned { job, label }
    }
}

/// Returns the deviation for a submit that the body cannot make. `label` is the label of the
/// submitted job. `excess` has the open jobs that block the submit. If `excess` is `None`, the body
/// has no submit left for a job of this label. The job's own path must match a class, or its match
/// must be undecided.
fn submit_of_body(label: ActorLabel, excess: Option<OpenExcess>) -> DeviatingStep
    ensures { result ≡ spec.submit_of_body label excess }
{
    match excess {
        Some(excess) => DeviatingStep::SubmitsWhileOpen { label, excess },
        None => DeviatingStep::Submits(label),
    }
}

/// Returns true if the plan has a class for jobs with this label. The label is the class and the
/// pool in the `submit` line of a job.
#[tactic(auto, using(crate::proofs::UnplannedAfter::is_filled))]
fn is_planned_class(plan: &Plan, class: &str, pool: &str) -> bool
    ensures { result ≡ is_planned_class plan.now class.now pool.now }
{
    first_class(plan, class, pool).is_some()
}

fn named_step(
    alloc: Global,
    first: &FirstLines<'_>,
    step: Option<JobStep>,
) -> Result<Option<NamedStep>, AllocError>
    ensures { IfOk result (spec.IsNamed (lines_of first.now) step) }
{
    match step {
        None => Ok(None),
        Some(JobStep::Submits(job)) => {
            let label = first.label_of(alloc, job)?;
            Ok(Some(NamedStep::Submits(label.name)))
        }
        Some(JobStep::Gets(job)) => {
            let label = first.label_of(alloc, job)?;
            Ok(Some(NamedStep::Gets(label.name)))
        }
    }
}
