//! The `certify` command: searches for a certificate, and writes the bundle of the plan and the
//! certificate.

ghost use Rattle.std.specs.Prelude.{◌≡◌, ◌≤◌, ℕ, IfOk, IfErr, IsTrue, List};
ghost use Rattle.job_bodies.specs.declared.limits.TheConstants.{MAX_WORKERS};
ghost use Rattle.plan_text.specs.PlanOf.{plan_of};
ghost use Rattle.sizing_cli.specs.Certify as spec;
ghost use Rattle.sizing_cli.specs.ServeFault.{is_of_search};

use crate::ServeFault;
use crate::answer::{Answer, Output, input_too_long, plan_fault};
use crate::bundle::whole_lines;
use crate::certificate::{certificate_line, certificate_of};
use crate::certified_bundle::certified_bundle;
use crate::input::plan_in;
use job_bodies::{MAX_INPUT_BYTES, Plan};
use std::alloc::{AllocError, Global};
use std::sync::Wait;
use std::thread::Threads;

/// Searches for a certificate for the plan in `input`. Returns the bundle of the plan and the
/// certificate, after `check` accepted the bundle. Returns the reason instead in these cases: the
/// input has a fault, no certificate is found, or the text of the certificate would be too long to
/// be read back. `workers`, from 1 to 64, is the maximum number of threads of the search and of the
/// check.
///
/// # Errors
///
/// - Fails with fault 20 if memory runs out or a thread cannot be started.
/// - Fails with fault 42 or 43 if the search ends with that fault.
/// - Fails with fault 43 if the check ends with that fault.
/// - Fails with fault 42 if `check` does not accept the bundle.
pub fn certify<R: Threads + Wait + Sync>(
    rt: &R,
    alloc: Global,
    workers: usize,
    input: Vec<u8>,
) -> Result<Output, ServeFault>
    requires some { 1 ≤ workers }
    requires most { workers ≤ MAX_WORKERS }
    ensures answer { IfOk result (spec.IsCertifyAnswer input.items) }
    ensures fault { IfErr result (λ fault. IsTrue (is_of_search fault.number)) }
{
    if input.len() > MAX_INPUT_BYTES {
        return Ok(Output::of(input_too_long(alloc)?));
    }
    let text = whole_lines(input)?;
    match search_text(rt, alloc, workers, &text)? {
        Ok(cert) => certified_bundle(rt, alloc, workers, text, cert),
        Err(answer) => Ok(Output::of(answer)),
    }
}

/// Parses the plan in `text`, and searches for a certificate that accepts the plan. Returns the
/// text of the certificate with a newline at its end, or the answer that says why there is none.
/// The plan is freed before the function returns, so its memory is free when the bundle is checked.
fn search_text<R: Threads + Wait + Sync>(
    rt: &R,
    alloc: Global,
    workers: usize,
    text: &[u8],
) -> Result<Result<Vec<u8>, Answer>, ServeFault>
    requires some { 1 ≤ workers }
    requires most { workers ≤ MAX_WORKERS }
    ensures line { IfOk result
        (λ found. IfOk found (λ line. spec.IsCertLineFor (plan_of text.now) line.items)) }
    ensures none { IfOk result
        (λ found. IfErr found (spec.AnswersReading text.now (plan_of text.now))) }
    ensures fault { IfErr result (λ fault. IsTrue (is_of_search fault.number)) }
{
    match plan_in(alloc, text)? {
        Ok(plan) => found_text(rt, alloc, workers, &plan),
        Err(fault) => Ok(Err(plan_fault(alloc, fault)?)),
    }
}

fn found_text<R: Threads + Wait + Sync>(
    rt: &R,
    alloc: Global,
    workers: usize,
    plan: &Plan,
) -> Result<Result<Vec<u8>, Answer>, ServeFault>
    requires some { 1 ≤ workers }
    requires most { workers ≤ MAX_WORKERS }
    ensures line { IfOk result (λ found. IfOk found (λ line. spec.IsCertLine line.items)) }
    ensures none { IfOk result
        (λ found. IfErr found (λ answer. (text : List ℕ) → spec.AnswersPlan text plan.now answer)) }
    ensures fault { IfErr result (λ fault. IsTrue (is_of_search fault.number)) }
{
    let Some(cert) = certificate_of(rt, alloc, workers, plan)? else {
        return Ok(Err(none_found(alloc)?));
    };
    match certificate_line(alloc, &cert)? {
        Some(text) => Ok(Ok(text)),
        None => Ok(Err(text_too_long(alloc)?)),
    }
}

fn none_found(alloc: Global) -> Result<Answer, AllocError>
    ensures { IfOk result (λ answer. answer ≡ spec.none_found) }
{
    Answer::no(alloc, "no certificate found\n")
}

fn text_too_long(alloc: Global) -> Result<Answer, AllocError>
    ensures { IfOk result (λ answer. answer ≡ spec.text_too_long) }
{
    Answer::no(alloc, "no certificate: text too long\n")
}
