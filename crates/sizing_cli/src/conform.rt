//! The `conform` command: compares a recording with a plan.

ghost use Rattle.std.specs.Prelude.{◌≡◌, IfOk, flat_map};
ghost use Rattle.std.specs.List.{list_all};
ghost use Rattle.support.specs.Pushed.{Pushes};
ghost use Rattle.sizing_cli.specs.Conform as spec;

use crate::Status;
use crate::answer::{Answer, bad_recording, input_too_long, no_separator, plan_fault};
use crate::bundle::first_bundle_of;
use crate::input::plan_in;
use conformance::{Conformance, Finding, PoolRejections, conform, push_findings};
use job_bodies::{MAX_RECORDED_BYTES, Plan};
use std::alloc::{AllocError, Global};

/// Compares a recording with a plan, and returns the answer with the differences. The input is a
/// bundle of the plan and the recording, split at its first line `%%`. Each later line `%%` is a
/// malformed line of the recording. If the input has a fault, the answer is that fault.
///
/// # Errors
///
/// Returns [`AllocError`] if memory runs out.
pub fn conform_report(alloc: Global, input: &[u8]) -> Result<Answer, AllocError>
    ensures { IfOk result (spec.IsConformAnswer input.now) }
{
    if input.len() > MAX_RECORDED_BYTES {
        return input_too_long(alloc);
    }
    let Some(bundle) = first_bundle_of(input) else {
        return no_separator(alloc);
    };
    match plan_in(alloc, bundle.plan)? {
        Ok(plan) => compare(alloc, &plan, bundle.second),
        Err(fault) => plan_fault(alloc, fault),
    }
}

/// Returns the differences between the recording and the plan, or the answer to a malformed
/// recording.
fn compare(alloc: Global, plan: &Plan, recording: &[u8]) -> Result<Answer, AllocError>
    ensures { IfOk result (spec.AnswersRecording plan.now recording.now) }
{
    match conform(alloc, plan, recording)? {
        Conformance::Invalid(fault) => bad_recording(alloc, recording, fault),
        Conformance::Compared {
            findings,
            rejections,
        } => findings_answer(alloc, plan, &findings, &rejections),
    }
}

fn findings_answer(
    alloc: Global,
    plan: &Plan,
    findings: &[Finding],
    rejections: &[PoolRejections],
) -> Result<Answer, AllocError>
    ensures { IfOk result
        (λ answer. answer ≡ spec.findings_answer plan.now findings.now rejections.now) }
{
    let mut text = String::new(alloc);
    if findings.is_empty() {
        text.push_str("conforms\n")?;
    } else {
        push_findings(&mut text, plan, findings)?;
    }
    push_rejections(&mut text, plan, rejections)?;
    let status = status_of(findings);
    Ok(Answer { text, status })
}

/// Appends a line for each pool that rejected at least one job. The line has the number of rejected
/// jobs. `rejections` counts only rejections that the plan allows.
fn push_rejections(
    text: &mut String,
    plan: &Plan,
    mut rejections: &[PoolRejections],
) -> Result<(), AllocError>
    ensures { Pushes result text.old text.new
        (flat_map (spec.rejections_line plan.now) rejections.now) }
{
    while let Some((of_pool, rest)) = rejections.split_first() {
        push_rejections_line(text, plan, *of_pool)?;
        rejections = rest;
    }
    Ok(())
}

fn push_rejections_line(
    text: &mut String,
    plan: &Plan,
    of_pool: PoolRejections,
) -> Result<(), AllocError>
    ensures { Pushes result text.old text.new (spec.rejections_line plan.now of_pool) }
{
    let name = plan.pool_name(of_pool.pool);
    let count = of_pool.count;
    if count == 0 {
        return Ok(());
    }
    if count == 1 {
        return writeln!(text, "pool {name} rejected 1 job, as the plan allows");
    }
    writeln!(
        text,
        "pool {name} rejected {count} jobs, as the plan allows"
    )
}

fn status_of(findings: &[Finding]) -> Status
    ensures { result ≡ spec.status_of findings.now }
{
    if findings.is_empty() {
        Status::Done
    } else if are_undecided(findings) {
        Status::Undecided
    } else {
        Status::Refused
    }
}

fn are_undecided(findings: &[Finding]) -> bool
    ensures { result ≡ list_all spec.is_undecided findings.now }
{
    findings.iter().all(is_undecided)
}

fn is_undecided(finding: &Finding) -> bool
    ensures { result ≡ spec.is_undecided finding.now }
{
    matches!(finding, Finding::NotDecided { .. })
}
