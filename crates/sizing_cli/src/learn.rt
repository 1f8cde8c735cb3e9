//! The `learn` command: derives a plan from a recording.

ghost use Rattle.std.specs.Prelude.{◌≡◌, ◌≤◌, ◌++◌, IfOk, IfSome, IsTrue, None, length, string_bytes};
ghost use Rattle.std.specs.List.{list_any};
ghost use Rattle.support.specs.Pushed.{Pushes};
ghost use Rattle.plan_text.specs.PlanOf.{plan_of};
ghost use Rattle.plan_text.specs.EffectivePlan.{effective_plan};
ghost use Rattle.job_bodies.specs.declared.limits.TheConstants.{MAX_PLAN_BYTES};
ghost use Rattle.recordings.specs.RecordingLine.{lines_read};
ghost use Rattle.recordings.specs.Faults.{IsFirstFault};
ghost use Rattle.conformance.specs.Findings.{is_of_actors};
ghost use Rattle.conformance.specs.Lines.{lines_of};
ghost use Rattle.sizing_cli.specs.Learn as spec;

use crate::Status;
use crate::answer::{Answer, bad_recording, input_too_long};
use crate::input::plan_in;
use conformance::{
    Conformance, Finding, PoolRejections, conform, mark_rejecting_pools, push_finding,
    push_findings,
};
use job_bodies::{MAX_PLAN_BYTES, MAX_RECORDED_BYTES, Plan};
use learning::{Extent, InferenceLimit, InferenceResult, InferredPlan, START_BYTES, learn};
use plan_text::write_plan;
use std::alloc::{AllocError, Global};

/// Returns a plan that is derived from the recording `input`. If no plan can be derived, the answer
/// is the reason. If `strict` is true and the recording does not conform to the plan, the answer
/// has the differences in place of the plan.
///
/// # Errors
///
/// Returns [`AllocError`] if memory runs out.
pub fn learn_report(alloc: Global, strict: bool, input: &[u8]) -> Result<Answer, AllocError>
    ensures { IfOk result (spec.IsLearnAnswer strict input.now) }
{
    if input.len() > MAX_RECORDED_BYTES {
        return input_too_long(alloc);
    }
    if input.len() > START_BYTES {
        if let Some(answer) = learn_from_start(alloc, strict, input)? {
            return Ok(answer);
        }
    }
    learn_from_all(alloc, strict, input)
}

/// Derives the bodies from the start of the recording. This takes less time than deriving them from
/// the whole recording. Returns the answer for the plan with these bodies. Returns `None` if no
/// bodies are found, or if the whole recording does not follow them. If the recording is malformed,
/// the answer is the fault of the recording.
fn learn_from_start(
    alloc: Global,
    strict: bool,
    recording: &[u8],
) -> Result<Option<Answer>, AllocError>
    ensures { IfOk result (λ found. IfSome found (spec.AnswersLines strict recording.now)) }
{
    match learn(alloc, recording, Extent::Start)? {
        InferenceResult::Invalid(fault) => Ok(Some(bad_recording(alloc, recording, fault)?)),
        InferenceResult::InferenceLimit(_) => Ok(None),
        InferenceResult::Inferred(seen) => plan_answer(alloc, strict, recording, &seen),
    }
}

/// Derives the bodies from the whole recording, and returns the answer: the plan with these bodies,
/// or the reason why there is no plan.
fn learn_from_all(alloc: Global, strict: bool, recording: &[u8]) -> Result<Answer, AllocError>
    ensures { IfOk result (spec.AnswersLines strict recording.now) }
{
    match learn(alloc, recording, Extent::Whole)? {
        InferenceResult::Invalid(fault) => bad_recording(alloc, recording, fault),
        InferenceResult::InferenceLimit(reason) => not_learned(alloc, reason),
        InferenceResult::Inferred(seen) => match plan_answer(alloc, strict, recording, &seen)? {
            Some(answer) => Ok(answer),
            None => not_learned(alloc, InferenceLimit::Paths),
        },
    }
}

/// Returns the answer for the derived plan. In this plan, a pool may reject jobs if it rejects jobs
/// in the recording or has a queue of 0. The answer is one of these:
///
/// - a message that the text of the plan would be too long;
/// - the list of differences, if `strict` is true and the recording does not conform to the plan;
/// - otherwise the text of the plan, after comments that list what else the recording shows.
///
/// Returns `None` in these cases, in which the plan does not explain the recording:
///
/// - A job, or a round (one pass of a client through its body), follows no body.
/// - It is undecided whether a job or a round follows a body.
/// - A client kind, which is a `[[client]]` of the plan, has more rounds than the plan allows.
fn plan_answer(
    alloc: Global,
    strict: bool,
    recording: &[u8],
    seen: &InferredPlan,
) -> Result<Option<Answer>, AllocError>
    requires no_fault { IsFirstFault (lines_read recording.now) None }
    requires seen { spec.IsSeen (lines_of recording.now) seen.now }
    ensures { IfOk result (λ found. IfSome found (spec.AnswersLines strict recording.now)) }
{
    let plan = mark_rejecting_pools(alloc, &seen.plan, recording)?;
    let Conformance::Compared {
        findings,
        rejections,
    } = conform(alloc, &plan, recording)?
    else {
        return Ok(None);
    };
    if are_of_actors(&findings) {
        return Ok(None);
    }
    let answer = compared_answer(alloc, strict, seen, &plan, &rejections, &findings)?;
    Ok(Some(answer))
}

/// Returns the answer for a derived plan that explains the recording: the text of the plan, the
/// list of differences, or the message that the text would be too long.
fn compared_answer(
    alloc: Global,
    strict: bool,
    seen: &InferredPlan,
    plan: &Plan,
    rejections: &[PoolRejections],
    findings: &[Finding],
) -> Result<Answer, AllocError>
    requires { effective_plan plan.now ≡ plan.now }
    ensures { IfOk result
        (spec.AnswersComparison strict seen.now plan.now rejections.now findings.now) }
{
    match commented_plan(alloc, seen, plan, rejections, findings)? {
        Some(text) => learned_answer(alloc, strict, text, plan, findings),
        None => not_learned(alloc, InferenceLimit::Text),
    }
}

/// Returns the text of the plan, after comments. The comments list what the recording shows but the
/// plan does not contain. Returns `None` if the text is too long, or if the text does not parse as
/// this plan.
fn commented_plan(
    alloc: Global,
    seen: &InferredPlan,
    plan: &Plan,
    rejections: &[PoolRejections],
    findings: &[Finding],
) -> Result<Option<String>, AllocError>
    requires { effective_plan plan.now ≡ plan.now }
    ensures { IfOk result (λ found.
        IfSome found (λ text.
        spec.IsTextOf seen.now plan.now rejections.now findings.now (string_bytes text))) }
{
    let written = write_plan(alloc, plan)?;
    let mut text = head_of(alloc, seen, plan, rejections, findings)?;
    text.push('\n')?;
    text.push_str(&written)?;
    if reads_as(alloc, text.as_bytes(), written.as_bytes())? {
        Ok(Some(text))
    } else {
        Ok(None)
    }
}

/// Checks that `text` describes the same plan as `written`. `written` is `text` without its
/// comments. Returns true if these conditions hold:
///
/// - `text` parses as a plan.
/// - [`write_plan`] writes this plan as `written`.
/// - `written` is not too long for the text of a plan.
fn reads_as(alloc: Global, text: &[u8], written: &[u8]) -> Result<bool, AllocError>
    ensures same { IfOk result (λ yes. IsTrue yes → plan_of text.now ≡ plan_of written.now) }
    ensures short { IfOk result (λ yes. IsTrue yes → length written.now ≤ MAX_PLAN_BYTES) }
{
    if written.len() > MAX_PLAN_BYTES {
        return Ok(false);
    }
    match plan_in(alloc, text)? {
        Ok(plan) => Ok(write_plan(alloc, &plan)?.as_bytes() == written),
        Err(_) => Ok(false),
    }
}

/// Returns the comments at the head of a derived plan.
fn head_of(
    alloc: Global,
    seen: &InferredPlan,
    plan: &Plan,
    rejections: &[PoolRejections],
    findings: &[Finding],
) -> Result<String, AllocError>
    ensures { IfOk result (λ text.
        string_bytes text
        ≡ spec.head_comment seen.now
        ++ (spec.rejection_comments plan.now rejections.now ++ spec.comments plan.now findings.now)) }
{
    let mut text = String::new(alloc);
    push_head(&mut text, seen)?;
    push_rejection_comments(&mut text, plan, rejections)?;
    push_comments(&mut text, plan, findings)?;
    Ok(text)
}

/// Appends the comments that count the rounds and jobs of the recording, and say what the plan does
/// not contain. A round is one pass of a client through its body.
fn push_head(text: &mut String, seen: &InferredPlan) -> Result<(), AllocError>
    ensures { Pushes result text.old text.new (spec.head_comment seen.now) }
{
    push_extent(text, seen.rounds, seen.jobs)?;
    text.push_str(
        "# Paths, classes, kinds and pools that this run did not use are missing. Each count is the most that were open at once.\n",
    )?;
    push_unfinished(text, seen.unfinished_rounds, seen.unfinished_jobs)?;
    push_failed_gets(text, seen.failed_gets)
}

/// Appends the comment with the numbers of rounds and jobs from which the plan was derived. A round
/// is one pass of a client through its body.
fn push_extent(text: &mut String, rounds: usize, jobs: usize) -> Result<(), AllocError>
    ensures { Pushes result text.old text.new (spec.extent_comment rounds jobs) }
{
    write!(
        text,
        "# Learned from a recording. Rounds: {rounds}. Jobs: {jobs}.\n"
    )
}

/// Appends the comment with the numbers of unfinished rounds and jobs, if there are any. A round is
/// one pass of a client through its body. The recording of a service that hung has unfinished
/// rounds and jobs.
fn push_unfinished(text: &mut String, rounds: usize, jobs: usize) -> Result<(), AllocError>
    ensures { Pushes result text.old text.new (spec.unfinished_comment rounds jobs) }
{
    if rounds == 0 && jobs == 0 {
        return Ok(());
    }
    write!(
        text,
        "# Unfinished. Rounds: {rounds}. Jobs: {jobs}. Their bodies lack the gets that these wait for, and all later actions.\n"
    )
}

/// Appends the comment with the number of gets that timed out or were interrupted, if there are
/// such gets.
fn push_failed_gets(text: &mut String, gets: usize) -> Result<(), AllocError>
    ensures { Pushes result text.old text.new (spec.failed_gets_comment gets) }
{
    if gets == 0 {
        return Ok(());
    }
    write!(
        text,
        "# Gets that timed out or were interrupted: {gets}. A body has such a get only if a later get of the same job returned.\n"
    )
}

/// Appends a comment for each pool that may reject jobs. The comment has the number of jobs that
/// the pool rejected. If this number is 0, the comment says instead that the pool has a
/// `SynchronousQueue`.
fn push_rejection_comments(
    text: &mut String,
    plan: &Plan,
    rejections: &[PoolRejections],
) -> Result<(), AllocError>
    ensures { Pushes result text.old text.new (spec.rejection_comments plan.now rejections.now) }
{
    for of_pool in rejections {
        push_rejection_comment(text, plan, *of_pool)?;
    }
    Ok(())
}

fn push_rejection_comment(
    text: &mut String,
    plan: &Plan,
    of_pool: PoolRejections,
) -> Result<(), AllocError>
    ensures { Pushes result text.old text.new (spec.rejection_comment plan.now of_pool) }
{
    let name = plan.pool_name(of_pool.pool);
    let count = of_pool.count;
    if count == 0 {
        return writeln!(
            text,
            "# Pool {name} has a SynchronousQueue, so it has may_reject: a submit to it may be skipped with its get."
        );
    }
    if count == 1 {
        return writeln!(
            text,
            "# Pool {name} rejected 1 job, so it has may_reject: a submit to it may be skipped with its get."
        );
    }
    writeln!(
        text,
        "# Pool {name} rejected {count} jobs, so it has may_reject: a submit to it may be skipped with its get."
    )
}

fn push_comments(text: &mut String, plan: &Plan, findings: &[Finding]) -> Result<(), AllocError>
    ensures { Pushes result text.old text.new (spec.comments plan.now findings.now) }
{
    for finding in findings {
        push_comment(text, plan, finding)?;
    }
    Ok(())
}

fn push_comment(text: &mut String, plan: &Plan, finding: &Finding) -> Result<(), AllocError>
    ensures { Pushes result text.old text.new (spec.comment_line plan.now finding.now) }
{
    text.push_str("# ")?;
    push_finding(text, plan, finding)?;
    text.push('\n')
}

/// Returns the answer for a learned plan. `text` is the text of the plan. `findings` are the
/// differences between the recording and the plan.
///
/// - If there are no findings, the answer is `text`, with the status [`Status::Done`].
/// - If there are findings, the status is [`Status::Refused`]. The answer is the list of findings
///   if `strict` is true, and otherwise `text`.
fn learned_answer(
    alloc: Global,
    strict: bool,
    text: String,
    plan: &Plan,
    findings: &[Finding],
) -> Result<Answer, AllocError>
    ensures { IfOk result (λ answer.
        answer ≡ spec.learned_answer strict (string_bytes text) plan.now findings.now) }
{
    if findings.first().is_none() {
        return Ok(Answer {
            text,
            status: Status::Done,
        });
    }
    let text = if strict {
        differences(alloc, plan, findings)?
    } else {
        text
    };
    Ok(Answer {
        text,
        status: Status::Refused,
    })
}

/// Returns the text that `--strict` writes if the recording does not conform to the derived plan.
/// This text replaces the plan. The first line of the text says that no plan was written, and why.
/// A line for each finding follows.
fn differences(alloc: Global, plan: &Plan, findings: &[Finding]) -> Result<String, AllocError>
    ensures { IfOk result (λ text. string_bytes text ≡ spec.differences plan.now findings.now) }
{
    let mut text = String::from_str(
        alloc,
        "no plan was written: the recording does not conform to it\n",
    )?;
    push_findings(&mut text, plan, findings)?;
    Ok(text)
}

fn are_of_actors(findings: &[Finding]) -> bool
    ensures { result ≡ list_any is_of_actors findings.now }
{
    findings.iter().any(|finding| is_of_actors(finding))
}

/// Returns true if the finding shows that a derived plan does not explain a job, or a round (one
/// pass of a client through its body). Such a finding is about the label or the path of a job or
/// round, or about a client kind (a `[[client]]` of the plan) with too many rounds.
fn is_of_actors(finding: &Finding) -> bool
    ensures { result ≡ is_of_actors finding.now }
{
    !matches!(
        finding,
        Finding::Pool(_) | Finding::ForeignGet { .. } | Finding::Invalidation { .. }
    )
}

fn not_learned(alloc: Global, reason: InferenceLimit) -> Result<Answer, AllocError>
    ensures { IfOk result (λ answer. (answer ≡ spec.not_learned reason)) }
{
    Ok(Answer {
        text: format!(in alloc; "no plan was learned: {reason}\n")?,
        status: Status::Refused,
    })
}
