//! The answer of `ask` as text.

ghost use Rattle.std.specs.Prelude.{IfOk, string_bytes};
ghost use Rattle.support.specs.Pushed.{Pushes};
ghost use Rattle.report.specs.AnswerText as spec;

use crate::description::describe;
use crate::finding::PlanFinding;
use crate::safe::push_safe;
use crate::unsafe_sizes::{push_advice, push_open};
use crate::{push_no_sizes, push_sizes};
use cert_text::Cert;
use counterexample::Witness;
use job_bodies::Plan;
use size_search::SizesFound;
use std::alloc::{AllocError, Global};

/// Returns the text of the finding. The first line is the answer, and the other lines depend on it:
///
/// - `SAFE`: for each pool, the bound of its queue and the pools for which its jobs wait. The last
///   line says what the certificate guarantees.
/// - `NOT SAFE`: the description of the counterexample, the result of the search for other sizes,
///   and advice.
/// - `NOT DECIDED`: the result of the search for other sizes, advice, and a line that says what was
///   not found.
///
/// # Errors
///
/// Returns [`AllocError`] if memory runs out.
pub fn render(alloc: Global, plan: &Plan, finding: &PlanFinding) -> Result<String, AllocError>
    ensures { IfOk result (λ text. spec.ReportsAnswer plan.now finding.now (string_bytes text)) }
{
    match finding {
        PlanFinding::Safe(cert, rejections) => safe(alloc, plan, cert, rejections),
        PlanFinding::NotSafe(witness, sizes) => not_safe(alloc, plan, witness, sizes),
        PlanFinding::NotDecided(sizes) => not_decided(alloc, plan, sizes),
    }
}

fn safe(
    alloc: Global,
    plan: &Plan,
    cert: &Cert,
    rejections: &[Option<u64>],
) -> Result<String, AllocError>
    ensures { IfOk result
        (λ text. spec.ReportsSafe plan.now cert.now rejections.now (string_bytes text)) }
{
    let mut text = String::from_str(alloc, "SAFE\n")?;
    push_safe(alloc, &mut text, plan, cert, rejections)?;
    Ok(text)
}

fn not_safe(
    alloc: Global,
    plan: &Plan,
    witness: &Witness,
    sizes: &SizesFound,
) -> Result<String, AllocError>
    ensures { IfOk result
        (λ text. spec.ReportsNotSafe plan.now witness.now sizes.now (string_bytes text)) }
{
    let story = describe(alloc, plan, witness)?;
    let mut text = String::from_str(alloc, "NOT SAFE\n")?;
    text.push_str(&story)?;
    push_found(&mut text, plan, sizes)?;
    push_advice(&mut text, plan, sizes)?;
    Ok(text)
}

fn not_decided(alloc: Global, plan: &Plan, sizes: &SizesFound) -> Result<String, AllocError>
    ensures { IfOk result (λ text. spec.ReportsNotDecided plan.now sizes.now (string_bytes text)) }
{
    let mut text = String::from_str(alloc, "NOT DECIDED\n")?;
    push_found(&mut text, plan, sizes)?;
    push_advice(&mut text, plan, sizes)?;
    push_open(&mut text, sizes)?;
    Ok(text)
}

/// Appends the sizes that were found, or the reason why no sizes were found.
fn push_found(text: &mut String, plan: &Plan, sizes: &SizesFound) -> Result<(), AllocError>
    ensures { Pushes result text.old text.new (spec.sizes_part plan.now sizes.now) }
{
    match sizes {
        SizesFound::Found { plan: fit, .. } => push_fit(text, plan, fit),
        SizesFound::NotFound(cause) => push_no_sizes(text, plan, *cause),
    }
}

fn push_fit(text: &mut String, plan: &Plan, fit: &Plan) -> Result<(), AllocError>
    ensures { Pushes result text.old text.new (spec.fit_part plan.now fit.now) }
{
    text.push_str("with these sizes a certificate accepts the plan:\n")?;
    push_sizes(text, plan, fit)?;
    Ok(())
}
