//! The `ask` command: decides whether the sizes that a plan declares are safe.

ghost use Rattle.std.specs.Prelude.{◌≡◌, IfOk, IfErr, IsTrue, None, option_map};
ghost use Rattle.plan_text.specs.PlanOf.{plan_of};
ghost use Rattle.cert_text.specs.CertOf.{cert_of};
ghost use Rattle.report.specs.Finding.{IsFinding};
ghost use Rattle.sizing_cli.specs.Ask as spec;
ghost use Rattle.sizing_cli.specs.ServeFault.{is_of_search};

use crate::ServeFault;
use crate::answer::{Output, input_too_long, no_separator};
use crate::ask_faults::{cert_fault_answer, faults_answer};
use crate::bundle::bundle_of;
use crate::finding::finding_of;
use crate::finding_answer::answer_of;
use crate::input::{cert_in, plan_in};
use crate::lowered_plan::lowered_plan;
use cert_text::Cert;
use command_line::{AskInput, AskOptions};
use job_bodies::{MAX_INPUT_BYTES, Plan};
use report::PlanFinding;
use std::alloc::Global;
use std::sync::Wait;
use std::thread::Threads;

/// The answer of `ask`, and optionally the text of the certificate that the answer is based on.
#[derive(Drop)]
pub struct AskOutput {
    pub output: Output,
    /// The certificate's text, with a newline at its end. It is `None` if the answer is based on no
    /// certificate, or if the text would be too long to be read back.
    pub certificate: Option<Vec<u8>>,
}

impl AskOutput {
    fn without_certificate(output: Output) -> AskOutput
        ensures output { result.output ≡ output }
        ensures none { result.certificate ≡ None }
    {
        AskOutput {
            output,
            certificate: None,
        }
    }
}

/// Decides whether the plan in `input` is safe, and returns the answer. `given` says whether the
/// input is a plan's text or a bundle of a plan and a certificate. Messages use `file` as the name
/// of the plan's file.
///
/// # Errors
///
/// - Fails with fault 20 if memory runs out or a thread cannot be started.
/// - Fails with fault 42 or 43 if a search ends with that fault.
pub fn ask<R: Threads + Wait + Sync>(
    rt: &R,
    alloc: Global,
    given: AskInput,
    options: AskOptions,
    file: &str,
    input: &[u8],
) -> Result<AskOutput, ServeFault>
    ensures answer { IfOk result
        (λ answer. spec.IsAskAnswer given options file.now input.now (spec.certificate_of_output answer) answer.output) }
    ensures fault { IfErr result (λ fault. IsTrue (is_of_search fault.number)) }
{
    if input.len() > MAX_INPUT_BYTES {
        return Ok(AskOutput::without_certificate(Output::of(input_too_long(alloc)?)));
    }
    match given {
        AskInput::PlanAlone => ask_text(rt, alloc, options, file, input, None),
        AskInput::WithCertificate => ask_bundle(rt, alloc, options, file, input),
    }
}

fn ask_bundle<R: Threads + Wait + Sync>(
    rt: &R,
    alloc: Global,
    options: AskOptions,
    file: &str,
    input: &[u8],
) -> Result<AskOutput, ServeFault>
    ensures answer { IfOk result (λ answer.
        spec.AnswersInput AskInput.WithCertificate options file.now input.now
        (spec.certificate_of_output answer) answer.output) }
    ensures fault { IfErr result (λ fault. IsTrue (is_of_search fault.number)) }
{
    match bundle_of(input) {
        Some(bundle) => ask_text(rt, alloc, options, file, bundle.plan, Some(bundle.second)),
        None => Ok(AskOutput::without_certificate(Output::of(no_separator(alloc)?))),
    }
}

fn ask_text<R: Threads + Wait + Sync>(
    rt: &R,
    alloc: Global,
    options: AskOptions,
    file: &str,
    text: &[u8],
    cert: Option<&[u8]>,
) -> Result<AskOutput, ServeFault>
    ensures answer { IfOk result (λ answer.
        spec.AnswersReading options (spec.source_of file.now text.now)
        (option_map (λ cert. cert.now) cert.entry) (plan_of text.now)
        (spec.certificate_of_output answer) answer.output) }
    ensures fault { IfErr result (λ fault. IsTrue (is_of_search fault.number)) }
{
    match plan_in(alloc, text)? {
        Ok(plan) => ask_plan(rt, alloc, options, file, text, &plan, cert),
        Err(fault) => Ok(AskOutput::without_certificate(faults_answer(
            alloc,
            options.form,
            file,
            text,
            fault,
        )?)),
    }
}

/// Returns the answer of `ask` for the plan that was parsed from `text`. `cert` is the text of the
/// given certificate, or `None` if no certificate is given.
fn ask_plan<R: Threads + Wait + Sync>(
    rt: &R,
    alloc: Global,
    options: AskOptions,
    file: &str,
    text: &[u8],
    plan: &Plan,
    cert: Option<&[u8]>,
) -> Result<AskOutput, ServeFault>
    ensures answer { IfOk result (λ answer.
        spec.AnswersGiven options (spec.source_of file.now text.now)
        (option_map (λ cert. cert.now) cert.entry) plan.now
        (spec.certificate_of_output answer) answer.output) }
    ensures fault { IfErr result (λ fault. IsTrue (is_of_search fault.number)) }
{
    match cert {
        Some(cert) => ask_with(rt, alloc, options, file, text, plan, cert),
        None => ask_found(rt, alloc, options, file, text, plan, None),
    }
}

fn ask_with<R: Threads + Wait + Sync>(
    rt: &R,
    alloc: Global,
    options: AskOptions,
    file: &str,
    text: &[u8],
    plan: &Plan,
    cert: &[u8],
) -> Result<AskOutput, ServeFault>
    ensures answer { IfOk result (λ answer.
        spec.AnswersCert options (spec.source_of file.now text.now) plan.now (cert_of cert.now plan.now)
        (spec.certificate_of_output answer) answer.output) }
    ensures fault { IfErr result (λ fault. IsTrue (is_of_search fault.number)) }
{
    match cert_in(alloc, cert, plan)? {
        Ok(cert) => ask_found(rt, alloc, options, file, text, plan, Some(cert)),
        Err(fault) => Ok(AskOutput::without_certificate(cert_fault_answer(
            alloc,
            options.form,
            file,
            text,
            fault,
        )?)),
    }
}

/// Returns the answer of `ask` for the plan that was parsed from `text`. `cert` is the given
/// certificate, which was parsed for this plan, or `None` if no certificate is given.
fn ask_found<R: Threads + Wait + Sync>(
    rt: &R,
    alloc: Global,
    options: AskOptions,
    file: &str,
    text: &[u8],
    plan: &Plan,
    cert: Option<Cert>,
) -> Result<AskOutput, ServeFault>
    ensures answer { IfOk result
        (λ answer. spec.AnswersPlan options (spec.source_of file.now text.now) plan.now cert
        (spec.certificate_of_output answer) answer.output) }
    ensures fault { IfErr result (λ fault. IsTrue (is_of_search fault.number)) }
{
    let (finding, is_stale) = finding_of(rt, alloc, plan, cert)?;
    ask_about(rt, alloc, options, file, text, plan, &finding, is_stale)
}

/// Returns the answer of `ask` for this finding about the plan. `is_stale` is true if a certificate
/// was given and does not accept the plan.
fn ask_about<R: Threads + Wait + Sync>(
    rt: &R,
    alloc: Global,
    options: AskOptions,
    file: &str,
    text: &[u8],
    plan: &Plan,
    finding: &PlanFinding,
    is_stale: bool,
) -> Result<AskOutput, ServeFault>
    requires { IsFinding plan.now finding.now }
    ensures answer { IfOk result
        (λ answer. spec.ReportsPlan options (spec.source_of file.now text.now) plan.now finding.now is_stale
        (spec.certificate_of_output answer) answer.output) }
    ensures fault { IfErr result (λ fault. IsTrue (is_of_search fault.number)) }
{
    let lowered = lowered_plan(rt, alloc, plan, finding)?;
    let answer = answer_of(
        alloc,
        options,
        file,
        text,
        plan,
        finding,
        lowered.as_ref(),
        is_stale,
    )?;
    Ok(answer)
}
