//! The findings of a comparison, collected from the facts about the lines of a recording.

ghost use Rattle.std.specs.Prelude.{◌≡◌, ◌++◌, ◌∷◌, [], map, filter, OnOk, IfOk, string_bytes};
ghost use Rattle.std.specs.Option.{option_to_list};
ghost use Rattle.recordings.specs.NotesOfLines.{IsNotesOf};
ghost use Rattle.recordings.specs.ForeignGets.{first_foreign_get};
ghost use Rattle.conformance.specs.CollectedFindings as spec;
ghost use Rattle.conformance.specs.JobSet.{has_job};
ghost use Rattle.conformance.specs.Lines.{lines_of};
ghost use Rattle.conformance.specs.declared.finding.Finding.TheVariants as kinds;

use crate::actor_label::{ActorLabel, label_of, pool_of_first};
use crate::describe_mismatch::{describe_mismatch, queries_of};
use crate::finding::Finding;
use crate::first_lines::FirstLines;
use crate::job_set::JobSet;
use crate::line_query::LineQuery;
use crate::rejections::Rejections;
use crate::survey::{ActorSurvey, LineSurvey, Survey};
use crate::unplanned::UnplannedLabel;
use crate::{ClassifiedActor, PoolDeviation, RoundExcess};
use job_bodies::Plan;
use recordings::{InvalidatingEvent, Invalidation, RecordedActor, RecordedNotes};
use std::alloc::{AllocError, Global};

/// Returns all findings of a comparison, some of which it moves out of the survey. The list is not
/// sorted. Fails if memory runs out. `excesses` has the client kinds with more rounds than the plan
/// allows. `refusals` is `None` if no pool of the plan may reject jobs.
pub(crate) fn collect_findings(
    alloc: Global,
    plan: &Plan,
    recording: &[u8],
    survey: &mut Survey,
    excesses: &[RoundExcess],
    refusals: &Option<Rejections>,
) -> Result<Vec<Finding>, AllocError>
    ensures { IsNotesOf survey.old.line_survey.notes (lines_of recording.now)
        → IfOk result
        (λ found. spec.AreCollected plan.now (lines_of recording.now) survey.old excesses.now refusals.now found.items) }
{
    let mut findings = Vec::new(alloc);
    push_plan_differences(&mut findings, &mut survey.line_survey)?;
    push_actor_survey(
        &mut findings,
        alloc,
        plan,
        recording,
        &mut survey.actor_survey,
    )?;
    push_excesses(&mut findings, excesses)?;
    push_notes(
        &mut findings,
        alloc,
        recording,
        &survey.line_survey.notes,
        refusals,
    )?;
    Ok(findings)
}

// Moves the pools that differ from the plan, and the labels that are not in it, to the findings.
fn push_plan_differences(
    findings: &mut Vec<Finding>,
    line_survey: &mut LineSurvey,
) -> Result<(), AllocError>
    ensures pushed { OnOk result
        (findings.new.items
        ≡ findings.old.items
        ++ map kinds.Pool line_survey.old.deviations.items
        ++ map kinds.UnplannedLabel line_survey.old.unplanned.found.items) }
    ensures notes { line_survey.new.notes ≡ line_survey.old.notes }
{
    push_pools(findings, &mut line_survey.deviations)?;
    push_labels(findings, &mut line_survey.unplanned.found)
}

// Appends the actors whose path matches no body, and moves the undecided ones to the findings.
fn push_actor_survey(
    findings: &mut Vec<Finding>,
    alloc: Global,
    plan: &Plan,
    recording: &[u8],
    actor_survey: &mut ActorSurvey,
) -> Result<(), AllocError>
    ensures { OnOk result
        (spec.AddsActorSurvey plan.now (lines_of recording.now) actor_survey.old.verdicts findings.old.items
        findings.new.items) }
{
    let verdicts = &mut actor_survey.verdicts;
    push_mismatches(
        findings,
        alloc,
        plan,
        recording,
        &verdicts.classless,
        &verdicts.mismatches.actors,
    )?;
    push_undecided(findings, &mut verdicts.undecided.actors)
}

// Appends the first get of another actor's job, and the events that invalidate a SAFE answer.
fn push_notes(
    findings: &mut Vec<Finding>,
    alloc: Global,
    recording: &[u8],
    notes: &RecordedNotes,
    refusals: &Option<Rejections>,
) -> Result<(), AllocError>
    ensures { IsNotesOf notes.now (lines_of recording.now)
        → OnOk result
        (spec.AddsNotes (lines_of recording.now) refusals.now findings.old.items
        findings.new.items) }
{
    push_foreign_get(findings, alloc, recording, notes)?;
    push_invalidations(findings, alloc, recording, notes, refusals)
}

fn push_pools(
    findings: &mut Vec<Finding>,
    deviations: &mut Vec<PoolDeviation>,
) -> Result<(), AllocError>
    ensures { OnOk result
        (findings.new.items ≡ findings.old.items ++ map kinds.Pool deviations.old.items) }
{
    for deviation in deviations.drain(..) {
        findings.push(Finding::Pool(deviation))?;
    }
    Ok(())
}

fn push_labels(
    findings: &mut Vec<Finding>,
    labels: &mut Vec<UnplannedLabel>,
) -> Result<(), AllocError>
    ensures { OnOk result
        (findings.new.items ≡ findings.old.items ++ map kinds.UnplannedLabel labels.old.items) }
{
    for label in labels.drain(..) {
        findings.push(Finding::UnplannedLabel(label))?;
    }
    Ok(())
}

fn push_mismatches(
    findings: &mut Vec<Finding>,
    alloc: Global,
    plan: &Plan,
    recording: &[u8],
    classless: &JobSet,
    mismatches: &[ClassifiedActor],
) -> Result<(), AllocError>
    ensures { OnOk result
        (spec.Adds findings.old.items
        (spec.AreMismatchesOf plan.now (lines_of recording.now) (has_job classless.now) mismatches.now)
        findings.new.items) }
{
    if mismatches.is_empty() {
        return Ok(());
    }
    let queries = queries_of(alloc, mismatches)?;
    let first = FirstLines::new(alloc, recording, &queries)?;
    push_described(findings, alloc, plan, &first, classless, mismatches)
}

fn push_described(
    findings: &mut Vec<Finding>,
    alloc: Global,
    plan: &Plan,
    first: &FirstLines<'_>,
    classless: &JobSet,
    mismatches: &[ClassifiedActor],
) -> Result<(), AllocError>
    ensures { OnOk result
        (spec.Adds findings.old.items
        (spec.AreMismatchesOf plan.now (lines_of first.now) (has_job classless.now) mismatches.now)
        findings.new.items) }
{
    for reported in mismatches {
        let (line, mismatch) = describe_mismatch(alloc, plan, first, classless, reported)?;
        findings.push(Finding::PathMismatch { line, mismatch })?;
    }
    Ok(())
}

fn push_undecided(
    findings: &mut Vec<Finding>,
    undecided: &mut Vec<ClassifiedActor>,
) -> Result<(), AllocError>
    ensures { OnOk result
        (findings.new.items ≡ findings.old.items ++ map spec.not_decided undecided.old.items) }
{
    for reported in undecided.drain(..) {
        findings.push(not_decided(reported))?;
    }
    Ok(())
}

fn not_decided(reported: ClassifiedActor) -> Finding
    ensures { result ≡ spec.not_decided reported }
{
    let ClassifiedActor {
        actor,
        label,
        pool,
        ..
    } = reported;
    let label = ActorLabel { name: label, pool };
    Finding::NotDecided { actor, label }
}

fn push_excesses(findings: &mut Vec<Finding>, excesses: &[RoundExcess]) -> Result<(), AllocError>
    ensures { OnOk result
        (findings.new.items ≡ findings.old.items ++ map kinds.TooMany excesses.now) }
{
    for excess in excesses {
        findings.push(Finding::TooMany(*excess))?;
    }
    Ok(())
}

fn push_foreign_get(
    findings: &mut Vec<Finding>,
    alloc: Global,
    recording: &[u8],
    notes: &RecordedNotes,
) -> Result<(), AllocError>
    ensures { IsNotesOf notes.now (lines_of recording.now)
        → OnOk result
        (spec.Adds findings.old.items
        (spec.AreForeign (lines_of recording.now) (first_foreign_get (lines_of recording.now)))
        findings.new.items) }
{
    if let Some(get) = notes.foreign_get() {
        let label = label_of(alloc, recording, get.actor)?;
        let job = label_of(alloc, recording, RecordedActor::Job(get.job))?;
        findings.push(Finding::ForeignGet { get, label, job })?;
    }
    Ok(())
}

fn push_invalidations(
    findings: &mut Vec<Finding>,
    alloc: Global,
    recording: &[u8],
    notes: &RecordedNotes,
    refusals: &Option<Rejections>,
) -> Result<(), AllocError>
    ensures { IsNotesOf notes.now (lines_of recording.now)
        → OnOk result
        (spec.Adds findings.old.items
        (spec.AreInvalidationsOf (lines_of recording.now)
        (spec.counted_with refusals.now (lines_of recording.now)))
        findings.new.items) }
{
    let invalidations = notes.invalidations(alloc)?;
    push_counted(
        findings,
        alloc,
        recording,
        refusals.is_some(),
        &invalidations,
    )?;
    push_refusal(findings, alloc, recording, first_refusal_in(refusals))
}

/// Returns the first refusal in `refusals` that the plan does not allow. Returns `None` if there is
/// no such refusal, or if `refusals` is `None` because no pool of the plan may reject jobs.
fn first_refusal_in(refusals: &Option<Rejections>) -> Option<Invalidation>
    ensures { result ≡ spec.first_refusal_in refusals.now }
{
    match refusals {
        Some(refusals) => refusals.first_refusal,
        None => None,
    }
}

fn push_refusal(
    findings: &mut Vec<Finding>,
    alloc: Global,
    recording: &[u8],
    refusal: Option<Invalidation>,
) -> Result<(), AllocError>
    ensures { OnOk result
        (spec.Adds findings.old.items
        (spec.AreInvalidationsOf (lines_of recording.now) (option_to_list refusal))
        findings.new.items) }
{
    match refusal {
        Some(refusal) => push_event(findings, alloc, recording, refusal),
        None => Ok(()),
    }
}

fn push_counted(
    findings: &mut Vec<Finding>,
    alloc: Global,
    recording: &[u8],
    without_refusals: bool,
    invalidations: &[Invalidation],
) -> Result<(), AllocError>
    ensures { OnOk result
        (spec.Adds findings.old.items
        (spec.AreInvalidationsOf (lines_of recording.now)
        (filter (spec.is_counted without_refusals) invalidations.now))
        findings.new.items) }
{
    for invalidation in invalidations {
        push_invalidation(findings, alloc, recording, without_refusals, *invalidation)?;
    }
    Ok(())
}

// Appends the finding for the event, if `is_counted` returns true for the event.
fn push_invalidation(
    findings: &mut Vec<Finding>,
    alloc: Global,
    recording: &[u8],
    without_refusals: bool,
    invalidation: Invalidation,
) -> Result<(), AllocError>
    ensures { OnOk result
        (spec.Adds findings.old.items
        (spec.AreInvalidationsOf (lines_of recording.now)
        (filter (spec.is_counted without_refusals) (invalidation ∷ [])))
        findings.new.items) }
{
    if is_counted(without_refusals, invalidation) {
        push_event(findings, alloc, recording, invalidation)?;
    }
    Ok(())
}

fn push_event(
    findings: &mut Vec<Finding>,
    alloc: Global,
    recording: &[u8],
    invalidation: Invalidation,
) -> Result<(), AllocError>
    ensures { OnOk result
        (spec.Adds findings.old.items
        (spec.AreInvalidationsOf (lines_of recording.now) (invalidation ∷ []))
        findings.new.items) }
{
    let label = subject_of(alloc, recording, invalidation.event)?;
    findings.push(Finding::Invalidation {
        invalidation,
        label,
    })?;
    Ok(())
}

/// Returns the label of the finding for this event, a name and a pool:
///
/// - for a call of `invokeAny`, the class or client kind of the calling actor, and the pool of the
///   first such call;
/// - for an `unseen` line, which reports jobs without `submit` lines, an empty name, and the pool
///   of the first such line;
/// - for any other event, the class and the pool of the event's job.
fn subject_of(
    alloc: Global,
    recording: &[u8],
    event: InvalidatingEvent,
) -> Result<ActorLabel, AllocError>
    ensures { IfOk result
        (λ label. spec.IsSubject (lines_of recording.now) event (string_bytes label.name) (string_bytes label.pool)) }
{
    match event {
        InvalidatingEvent::Refused { job, .. }
        | InvalidatingEvent::TimedOut { job, .. }
        | InvalidatingEvent::Interrupted { job, .. }
        | InvalidatingEvent::Cancelled { job, .. }
        | InvalidatingEvent::Removed { job }
        | InvalidatingEvent::Threw { job } => label_of(alloc, recording, RecordedActor::Job(job)),
        InvalidatingEvent::AnyInvoked { actor } => {
            let ActorLabel { name, .. } = label_of(alloc, recording, actor)?;
            let pool = pool_of_first(alloc, recording, LineQuery::InvokesAny)?;
            Ok(ActorLabel { name, pool })
        }
        InvalidatingEvent::Unseen { .. } => {
            let pool = pool_of_first(alloc, recording, LineQuery::Unseen)?;
            Ok(ActorLabel {
                name: String::new(alloc),
                pool,
            })
        }
    }
}

/// Returns true if the event becomes a finding. Returns false for a get that timed out or was
/// interrupted. If `without_refusals` is true, also returns false for a refusal.
fn is_counted(without_refusals: bool, invalidation: Invalidation) -> bool
    ensures { result ≡ spec.is_counted without_refusals invalidation }
{
    match invalidation.event {
        InvalidatingEvent::Refused { .. } => !without_refusals,
        InvalidatingEvent::TimedOut { .. } | InvalidatingEvent::Interrupted { .. } => false,
        _ => true,
    }
}
