//! Inputs: their maximum length, and the parsing of the plans and certificates in them. A fault of a
//! text is a result, and running out of memory is an error.

ghost use Rattle.std.specs.Prelude.{◌≡◌, ℕ, IfOk, IfErr, List, IsTrue};
ghost use Rattle.job_bodies.specs.Plan.{Plan as PlanValue};
ghost use Rattle.support.specs.declared.read_error.ReadError.TheVariants.{Fault};
ghost use Rattle.sizing_cli.specs.Answer as answer_spec;
ghost use Rattle.sizing_cli.specs.Report as spec;
ghost use Rattle.cert_text.specs.Cert.{cert_fits};
ghost use Rattle.cert_text.specs.CertOf.{cert_of};
ghost use Rattle.plan_text.specs.EffectivePlan.{effective_plan};
ghost use Rattle.plan_text.specs.PlanOf.{plan_of};
ghost use Rattle.sizing_cli.specs.InputLength as lengths;

use crate::answer::{Answer, input_too_long, no_separator, plan_fault};
use crate::bundle::bundle_of;
use cert_text::{Cert, CertFault, read_cert};
use command_line::Command;
use job_bodies::{MAX_INPUT_BYTES, MAX_RECORDED_BYTES, Plan, PlanFault};
use plan_text::read_plan;
use std::alloc::{AllocError, Global};
use support::ReadError;
use support::number::MEMORY;

/// The plan of a bundle, and its second part, which has not been parsed.
#[derive(Drop)]
pub struct Input<'a> {
    pub plan: Plan,
    pub second: &'a [u8],
}

/// Splits a bundle and parses its plan.
///
/// # Errors
///
/// - [`ReadError::Fault`] in these cases: the input is too long, the input is not a bundle, or the
///   plan's text has a fault. The error contains the command's answer.
/// - [`ReadError::Memory`] if memory runs out.
pub fn read_input(alloc: Global, input: &[u8]) -> Result<Input<'_>, ReadError<Answer>>
    ensures input { IfOk result (λ read.
        (answers : PlanValue → List ℕ → answer_spec.Answer)
        → spec.answer_by answers input.now ≡ answers read.plan read.second.now) }
    ensures fault { IfErr result (λ error.
        (answer : answer_spec.Answer)
        → error ≡ Fault answer
        → (answers : PlanValue → List ℕ → answer_spec.Answer)
        → spec.answer_by answers input.now ≡ answer) }
{
    if input.len() > MAX_INPUT_BYTES {
        return Err(ReadError::Fault(input_too_long(alloc)?));
    }
    let Some(bundle) = bundle_of(input) else {
        return Err(ReadError::Fault(no_separator(alloc)?));
    };
    match plan_in(alloc, bundle.plan)? {
        Ok(plan) => Ok(Input {
            plan,
            second: bundle.second,
        }),
        Err(fault) => Err(ReadError::Fault(plan_fault(alloc, fault)?)),
    }
}

/// Returns the plan that the text describes. If the text has a fault, returns its first fault
/// instead.
///
/// # Errors
///
/// Returns [`AllocError`] if memory runs out.
pub(crate) fn plan_in(alloc: Global, text: &[u8]) -> Result<Result<Plan, PlanFault>, AllocError>
    ensures read { IfOk result (λ read. read ≡ plan_of text.now) }
    ensures effective { IfOk result (λ read. IfOk read (λ plan. effective_plan plan ≡ plan)) }
{
    match read_plan(alloc, text) {
        Ok(plan) => Ok(Ok(plan)),
        Err(fault) if fault == PlanFault::at_text(MEMORY) => Err(AllocError),
        Err(fault) => Ok(Err(fault)),
    }
}

/// Parses the text of a certificate for this plan, and returns the certificate. If the text has a
/// fault, returns its first fault instead.
///
/// # Errors
///
/// Returns [`AllocError`] if memory runs out.
pub(crate) fn cert_in(
    alloc: Global,
    text: &[u8],
    plan: &Plan,
) -> Result<Result<Cert, CertFault>, AllocError>
    ensures read { IfOk result (λ read. read ≡ cert_of text.now plan.now) }
    ensures fits { IfOk result (λ read. IfOk read (λ cert. IsTrue (cert_fits plan.now cert))) }
{
    match read_cert(alloc, text, plan) {
        Ok(cert) => Ok(Ok(cert)),
        Err(fault) if fault.number == MEMORY => Err(AllocError),
        Err(fault) => Ok(Err(fault)),
    }
}

/// Returns the maximum length of the command's input, in bytes. The program reads at most one byte
/// more. This extra byte shows that the input is too long.
pub fn most_bytes(command: Command) -> usize
    ensures { result ≡ lengths.most_bytes command }
{
    match command {
        Command::Sequential(_) | Command::OnThreads(_) => MAX_INPUT_BYTES,
        Command::OnRecording(_) => MAX_RECORDED_BYTES,
    }
}
