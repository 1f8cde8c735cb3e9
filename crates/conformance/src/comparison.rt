//! Comparison of a recording with a plan.

ghost use Rattle.std.specs.Prelude.{◌≡◌, [], ℕ, false, List, Option, IfOk, IsTrue};
ghost use Rattle.std.specs.List.{list_any};
ghost use Rattle.recordings.specs.RecordingLine.{RecordedLine, lines_read};
ghost use Rattle.recordings.specs.Faults.{IsFirstFault};
ghost use Rattle.recordings.specs.PathsOfLines.{KeepsRules};
ghost use Rattle.job_bodies.specs.WellFormed.{IsWellFormed};
ghost use Rattle.cert_text.specs.Cert.{Cert};
ghost use Rattle.soundness.specs.Accepted.{accepted};
ghost use Rattle.conformance.specs.FollowedActors.{AreActorsFollowed};
ghost use Rattle.conformance.specs.RoundExcesses.{excesses_by_lines};
ghost use Rattle.conformance.specs.Lines.{lines_of};
ghost use Rattle.conformance.specs.Conforms.{Conforms, DoAsPlanned, HasNoInvalidation};
ghost use Rattle.conformance.specs.Findings.{AreFindingsOf, is_of_actors, is_not_decided};
ghost use Rattle.conformance.specs.ClassifiedActor.{HasNoAmbiguousActor, HasOneClassEach};
ghost use Rattle.conformance.specs.FirstKinds.{AreFirstKinds};
ghost use Rattle.conformance.specs.Rejections.{AreRejectionsOf, rejections_of};
ghost use Rattle.conformance.specs.Survey.{IsSurveyOf};
ghost use Rattle.conformance.specs.Outcome as spec;

use crate::collect_findings::collect_findings;
use crate::excess_tracker::excesses;
use crate::finding::Finding;
use crate::rejections::{PoolRejections, Rejections, find_rejections};
use crate::survey::{Survey, survey_recording};
use crate::{
    RoundExcess, planned_actors_are_followed, pools_are_as_planned, rounds_are_within_plan,
};
use job_bodies::Plan;
use recordings::RecordingFault;
use std::alloc::{AllocError, Global};

/// The result of comparing a recording with a plan.
#[derive(Drop)]
pub enum Conformance {
    /// The first invalid line of the recording. The recording was not compared with the plan.
    Invalid(RecordingFault),
    /// The recording was compared with the plan.
    Compared {
        /// The findings that [`conform`] lists, ordered by line and, within a line, by type.
        /// Findings without a line come last. The recording conforms to the plan if the list is
        /// empty.
        findings: Vec<Finding>,
        /// The number of rejections by each pool that may reject jobs, in the order of the plan.
        /// Only rejections that the plan allows are counted.
        rejections: Vec<PoolRejections>,
    },
}

/// Compares the recording of a service with a plan. If a line of the recording is invalid, returns
/// the first such line and compares nothing.
///
/// An actor is a job or a round. A round is one pass of a client through its body. The path of an
/// actor is the list of its submits and gets. The label of a job is its class and pool in its
/// `submit` line. The label of a round is its client kind.
///
/// The findings are exactly these, each listed once:
///
/// - every difference between a recorded pool and the plan, with the first line that shows the
///   difference;
/// - if the recording ends with `end`, every pool of the plan that the recording lacks;
/// - every label that is not in the plan, with the first line that has the label;
/// - for each label of the plan, the first actor, by number, with a path that matches no body. The
///   finding has the first step that no body allows, and the line of this step;
/// - for each label of the plan, the first actor, by number, with an undecided match: it is unknown
///   which bodies the path matches. This happens only if the open jobs of a path may have more than
///   [`MAX_OPEN_LISTS`](crate::MAX_OPEN_LISTS) combinations of classes at the same time. This path
///   is that of the actor, or of a job that it submitted, directly or through other jobs. So there
///   is no such actor if each label of a job refers to at most one class of the plan;
/// - for each client kind, the first line at which the kind has more rounds than the plan allows.
///   Each round is counted for the first kind that it can belong to. If it can belong to none, it
///   is counted for the first kind that its label may refer to. A round with an undecided kind is
///   not counted;
/// - the first foreign get: a line in which an actor gets a job that another actor submitted, and
///   the submitter has not got the job in an earlier line;
/// - for each type of event that invalidates a SAFE answer independently of the paths, the first
///   line with such an event. A rejection that the plan allows is not such an event.
///
/// The plan allows no rejection by a pool that may not reject jobs, and none by a pool with an
/// unbounded queue. For any other pool, the plan allows the rejection in a `refused` line if one of
/// these conditions holds:
///
/// - The handler is `abort` in each `pool` line of the pool.
/// - The handler is `caller_runs` in each of these lines. The job does not submit, get or cancel a
///   job, and does not call `invokeAny`. If the recording has a `shutdown` of the pool, the job
///   must also have a `start` line, and no `shutdown` of the pool may precede the `refused` line.
/// - The handler is `discard` in each of these lines, and no body of the plan gets a job of the
///   pool.
///
/// If no finding is about a label, a path or a number of rounds, all jobs and rounds behave as
/// planned. This holds even if there are other findings. If a certificate accepts the plan, the
/// machine of the plan can then follow each job and each round (see
/// [`planned_actors_are_followed`]).
///
/// A get that timed out or was interrupted is not a finding, and it is no step of the actor's path.
/// If the path matches a body, the get does not invalidate a SAFE answer. Otherwise the path is
/// treated like any other path that matches no body.
///
/// # Errors
///
/// Returns [`AllocError`] if memory runs out.
pub fn conform(alloc: Global, plan: &Plan, recording: &[u8]) -> Result<Conformance, AllocError>
    ensures bad { IfOk result
        (λ reported. IsFirstFault (lines_read recording.now) (spec.fault_of reported)) }
    ensures conforms { IfOk result (λ reported.
        spec.IfCompared reported (λ findings.
        findings ≡ []
        → Conforms plan.now (lines_of recording.now)
        × HasNoInvalidation plan.now (lines_of recording.now))) }
    ensures actors { IfOk result (λ reported.
        spec.IfCompared reported (λ findings.
        list_any is_of_actors findings ≡ false → DoAsPlanned plan.now (lines_of recording.now))) }

    // If a certificate accepts the plan, the machine of the plan can follow each job and round.
    ensures followed { (cert : Cert)
        → IsWellFormed plan.now
        → IsTrue (accepted plan.now cert)
        → IfOk result (λ reported.
        spec.IfCompared reported (λ findings.
        list_any is_of_actors findings ≡ false → AreActorsFollowed plan.now (lines_of recording.now))) }
    ensures found { IfOk result
        (λ reported. spec.IfCompared reported (AreFindingsOf plan.now (lines_of recording.now))) }

    // A match is undecided only if the actor is ambiguous (see `found`).
    ensures decided { IfOk result (λ reported.
        spec.IfCompared reported (λ findings.
        HasNoAmbiguousActor plan.now (lines_of recording.now)
        → list_any is_not_decided findings ≡ false)) }
    ensures one_class_each { IfOk result (λ reported.
        spec.IfCompared reported (λ findings.
        HasOneClassEach plan.now (lines_of recording.now)
        → list_any is_not_decided findings ≡ false)) }
    ensures ascending { IfOk result (λ reported. spec.IfCompared reported spec.AreInOrder) }
    ensures rejections { IfOk result (λ reported.
        spec.IfCounted reported (λ counts. counts ≡ rejections_of plan.now (lines_of recording.now))) }
{
    planned_actors_are_followed();
    match survey_recording(alloc, plan, recording)? {
        Ok(survey) => {
            let refusals = find_rejections(alloc, plan, recording)?;
            let findings = findings_of_survey(alloc, plan, recording, survey, &refusals)?;
            let rejections = rejection_counts(alloc, plan, &refusals)?;
            Ok(Conformance::Compared {
                findings,
                rejections,
            })
        }
        Err(fault) => Ok(Conformance::Invalid(fault)),
    }
}

// Returns the findings for a recording whose lines are all valid, from its survey.
fn findings_of_survey(
    alloc: Global,
    plan: &Plan,
    recording: &[u8],
    mut survey: Survey,
    refusals: &Option<Rejections>,
) -> Result<Vec<Finding>, AllocError>
    ensures conforms { KeepsRules (lines_of recording.now)
        → IsSurveyOf plan.now (lines_of recording.now) survey
        → AreRejectionsOf plan.now (lines_of recording.now) refusals.now
        → IfOk result (λ findings.
        findings.items ≡ []
        → Conforms plan.now (lines_of recording.now)
        × HasNoInvalidation plan.now (lines_of recording.now)) }
    ensures actors { KeepsRules (lines_of recording.now)
        → IsSurveyOf plan.now (lines_of recording.now) survey
        → IfOk result (λ findings.
        list_any is_of_actors findings.items ≡ false
        → DoAsPlanned plan.now (lines_of recording.now)) }
    ensures found { KeepsRules (lines_of recording.now)
        → IsSurveyOf plan.now (lines_of recording.now) survey
        → AreRejectionsOf plan.now (lines_of recording.now) refusals.now
        → IfOk result
        (λ findings. AreFindingsOf plan.now (lines_of recording.now) findings.items) }
    ensures decided { KeepsRules (lines_of recording.now)
        → IsSurveyOf plan.now (lines_of recording.now) survey
        → AreRejectionsOf plan.now (lines_of recording.now) refusals.now
        → IfOk result (λ findings.
        HasNoAmbiguousActor plan.now (lines_of recording.now)
        → list_any is_not_decided findings.items ≡ false) }
    ensures ascending { IfOk result (λ findings. spec.AreInOrder findings.items) }
{
    pools_are_as_planned();
    rounds_are_within_plan();
    let excesses = round_excesses(alloc, plan, recording, &survey)?;
    let collected = collect_findings(alloc, plan, recording, &mut survey, &excesses, refusals);
    drop(survey);
    let mut findings = collected?;
    findings.sort_by_key(Finding::sort_key)?;
    Ok(findings)
}

// Returns, for each kind, the first line at which it has more rounds than the plan allows. The
// survey counted each round for the first kind that its label may refer to. The rounds are counted
// again only if one of them belongs to another kind or has an undecided kind.
fn round_excesses(
    alloc: Global,
    plan: &Plan,
    recording: &[u8],
    survey: &Survey,
) -> Result<Vec<RoundExcess>, AllocError>
    ensures { (kinds : List (Option ℕ))
        → KeepsRules (lines_of recording.now)
        → (so : IsSurveyOf plan.now (lines_of recording.now) survey.now)
        → AreFirstKinds plan.now (lines_of recording.now) so.actor_survey.reported kinds
        → IfOk result
        (λ found. found.items ≡ excesses_by_lines plan.now kinds (lines_of recording.now)) }
{
    let others = &survey.actor_survey.others;
    if others.has_any {
        excesses(alloc, plan, recording, others)
    } else {
        Vec::from_slice(alloc, &survey.excess_tracker.found)
    }
}

// Returns the number of rejections of each pool that may reject jobs.
fn rejection_counts(
    alloc: Global,
    plan: &Plan,
    refusals: &Option<Rejections>,
) -> Result<Vec<PoolRejections>, AllocError>
    ensures { (lines : List RecordedLine)
        → AreRejectionsOf plan.now lines refusals.now
        → IfOk result (λ counts. counts.items ≡ rejections_of plan.now lines) }
{
    match refusals {
        Some(refusals) => refusals.counts(alloc, plan),
        None => Ok(Vec::new(alloc)),
    }
}
