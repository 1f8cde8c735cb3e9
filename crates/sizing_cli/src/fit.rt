//! The `fit` command: searches for pool sizes that a certificate accepts. It writes these sizes as
//! lines, or as a bundle. The bundle has a plan with these sizes, a line `%%`, and the certificate.

ghost use Rattle.std.specs.Prelude.{◌≡◌, IfOk, IfErr, IsTrue};
ghost use Rattle.soundness.specs.Accepted.{accepted};
ghost use Rattle.size_search.specs.Steady.{steady_cert};
ghost use Rattle.size_search.specs.Sized.{IsFound};
ghost use Rattle.size_search.specs.Decided.{IsDecided};
ghost use Rattle.sizing_cli.specs.Fit as spec;
ghost use Rattle.plan_text.specs.EffectivePlan.{effective_plan};
ghost use Rattle.sizing_cli.specs.ServeFault.{is_of_search};

use crate::answer::{Answer, Output, input_too_long, plan_fault};
use crate::certificate::{WORKERS, certificate_line};
use crate::certified_bundle::certified_bundle;
use crate::input::plan_in;
use crate::noop_gate::NoopGate;
use crate::{ServeFault, Status};
use cert_search::search;
use cert_text::Cert;
use command_line::SizesForm;
use job_bodies::{MAX_INPUT_BYTES, MAX_PLAN_BYTES, Plan};
use plan_text::write_plan;
use report::{push_no_sizes, push_sizes};
use size_search::{NoSizes, SizesFound, search_sizes};
use std::alloc::{AllocError, Global};
use std::sync::Wait;
use std::thread::Threads;

/// Searches for sizes that a certificate accepts, and returns the answer. The input is a plan's
/// text. `sizes_form` selects the form of the answer:
///
/// - For [`SizesForm::Sizes`], the answer has lines with the sizes.
/// - For [`SizesForm::Bundle`], the answer is a bundle. Its plan has the sizes that were found, and
///   its certificate accepts this plan.
///
/// If no sizes are found or the bundle would be too long, the answer has the reason.
///
/// # Errors
///
/// - Fails with fault 20 if memory runs out or a thread cannot be started.
/// - Fails with fault 42 or 43 if the search ends with that fault.
/// - Fails with fault 43 if the check of the bundle ends with that fault.
/// - Fails with fault 42 if `check` does not accept the bundle.
pub fn fit<R: Threads + Wait + Sync>(
    rt: &R,
    alloc: Global,
    sizes_form: SizesForm,
    input: &[u8],
) -> Result<Output, ServeFault>
    ensures answer { IfOk result (spec.IsFitAnswer sizes_form input.now) }
    ensures fault { IfErr result (λ fault. IsTrue (is_of_search fault.number)) }
{
    if input.len() > MAX_INPUT_BYTES {
        return Ok(Output::of(input_too_long(alloc)?));
    }
    match plan_in(alloc, input)? {
        Ok(plan) => fit_plan(rt, alloc, sizes_form, &plan),
        Err(fault) => Ok(Output::of(plan_fault(alloc, fault)?)),
    }
}

#[tactic(auto, using(crate::proofs::FittedAnswers::found_is_effective))]
fn fit_plan<R: Threads + Wait + Sync>(
    rt: &R,
    alloc: Global,
    sizes_form: SizesForm,
    plan: &Plan,
) -> Result<Output, ServeFault>
    requires { effective_plan plan.now ≡ plan.now }
    ensures answer { IfOk result (spec.AnswersPlan sizes_form plan.now) }
    ensures fault { IfErr result (λ fault. IsTrue (is_of_search fault.number)) }
{
    let found = sizes_of(rt, alloc, plan)?;
    answer_of_sizes(rt, alloc, sizes_form, plan, &found)
}

/// Returns the answer for `found`, the result of a search for sizes. The answer has the sizes, as
/// lines or as a bundle of a plan and its certificate. If no sizes were found or the bundle would
/// be too long, the answer has the reason instead.
///
/// # Errors
///
/// - Fails with fault 20 if memory runs out.
/// - Fails with fault 43 if the check of a bundle ends with that fault.
/// - Fails with fault 42 if `check` does not accept a bundle.
pub fn answer_of_sizes<R: Threads + Wait + Sync>(
    rt: &R,
    alloc: Global,
    sizes_form: SizesForm,
    plan: &Plan,
    found: &SizesFound,
) -> Result<Output, ServeFault>
    ensures answer { IfOk result (spec.AnswersFound sizes_form plan.now found.now) }
    ensures fault { IfErr result (λ fault. IsTrue (is_of_search fault.number)) }
{
    match sizes_form {
        SizesForm::Sizes => Ok(Output::of(lines_of(alloc, plan, found)?)),
        SizesForm::Bundle => bundle(rt, alloc, plan, found),
    }
}

/// Searches for sizes that a certificate accepts. Returns the declared sizes if a first search
/// finds a certificate that accepts them.
fn sizes_of<R: Threads + Wait + Sync>(
    rt: &R,
    alloc: Global,
    plan: &Plan,
) -> Result<SizesFound, ServeFault>
    ensures found { IfOk result (IsFound plan.now) }
    ensures decided { IfOk result (IsDecided plan.now) }
    ensures unchanged { IfOk result (λ found.
        IsTrue (accepted plan.now (steady_cert plan.now)) → spec.IsAsDeclared plan.now found) }
    ensures fault { IfErr result (λ fault. IsTrue (is_of_search fault.number)) }
{
    let first = search(rt, alloc, plan, WORKERS, &NoopGate)?;
    Ok(search_sizes(alloc, plan, first)?)
}

/// Returns the answer as lines: one for each pool, with the sizes that were found for it, and a
/// last line with the number of sizes that change. If no sizes were found, the answer has the
/// reason.
fn lines_of(alloc: Global, plan: &Plan, found: &SizesFound) -> Result<Answer, AllocError>
    ensures { IfOk result (λ answer. answer ≡ spec.lines_answer plan.now found.now) }
{
    match found {
        SizesFound::Found { plan: fit, .. } => sizes(alloc, plan, fit),
        SizesFound::NotFound(cause) => no_sizes(alloc, plan, *cause),
    }
}

/// Returns the answer that lists sizes. `fit` is the plan with the sizes that were found, and
/// `plan` is the plan with the declared sizes. The status is [`Status::Done`] if no size differs,
/// and otherwise [`Status::Refused`].
fn sizes(alloc: Global, plan: &Plan, fit: &Plan) -> Result<Answer, AllocError>
    ensures { IfOk result (λ answer. answer ≡ spec.sizes_answer plan.now fit.now) }
{
    let mut text = String::new(alloc);
    let changes = push_sizes(&mut text, plan, fit)?;
    Ok(Answer {
        text,
        status: Status::of_question(changes == 0),
    })
}

/// Returns the answer that says that no sizes were found, and why.
fn no_sizes(alloc: Global, plan: &Plan, cause: NoSizes) -> Result<Answer, AllocError>
    ensures { IfOk result (λ answer. answer ≡ spec.no_sizes_answer plan.now cause) }
{
    let mut text = String::new(alloc);
    push_no_sizes(&mut text, plan, cause)?;
    Ok(Answer {
        text,
        status: Status::Refused,
    })
}

/// Returns the answer as a bundle: a plan with the sizes that were found, and its certificate. If
/// no sizes were found or the bundle would be too long, the answer has the reason instead.
fn bundle<R: Threads + Wait + Sync>(
    rt: &R,
    alloc: Global,
    plan: &Plan,
    found: &SizesFound,
) -> Result<Output, ServeFault>
    ensures answer { IfOk result (spec.AnswersFound SizesForm.Bundle plan.now found.now) }
    ensures fault { IfErr result (λ fault. IsTrue (is_of_search fault.number)) }
{
    match found {
        SizesFound::Found { plan: fit, cert } => bundle_of_sizes(rt, alloc, fit, cert),
        SizesFound::NotFound(cause) => Ok(Output::of(no_sizes(alloc, plan, *cause)?)),
    }
}

/// Returns the bundle of `fit` and `cert`. `fit` is the plan with the sizes that were found, and
/// `cert` is the certificate that accepts this plan. If the text of `fit` or of `cert` would be too
/// long to be read back, returns an answer that says only this.
fn bundle_of_sizes<R: Threads + Wait + Sync>(
    rt: &R,
    alloc: Global,
    fit: &Plan,
    cert: &Cert,
) -> Result<Output, ServeFault>
    ensures answer { IfOk result (spec.BundlesSizes fit.now cert.now) }
    ensures fault { IfErr result (λ fault. IsTrue (is_of_search fault.number)) }
{
    let fit_text = write_plan(alloc, fit)?;
    if fit_text.len() > MAX_PLAN_BYTES {
        return Ok(Output::of(text_too_long(alloc)?));
    }
    match certificate_line(alloc, cert)? {
        Some(line) => certified_bundle(rt, alloc, WORKERS, fit_text.into_bytes(), line),
        None => Ok(Output::of(text_too_long(alloc)?)),
    }
}

fn text_too_long(alloc: Global) -> Result<Answer, AllocError>
    ensures { IfOk result (λ answer. answer ≡ spec.text_too_long) }
{
    Answer::no(alloc, "no bundle: text too long\n")
}
