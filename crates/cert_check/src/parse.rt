//! The parser of the two texts of a check: a plan, and a certificate for it.

ghost use Rattle.std.specs.Prelude.{◌≡◌, ◌≢◌, IfOk, IfErr, IsTrue, Ok, Err};
ghost use Rattle.support.specs.declared.number.TheConstants.{MEMORY};
ghost use Rattle.job_bodies.specs.Checks.{at_text};
ghost use Rattle.plan_text.specs.PlanOf.{plan_of};
ghost use Rattle.cert_text.specs.Cert.{cert_fits};
ghost use Rattle.cert_text.specs.CertOf.{cert_of};
ghost use Rattle.cert_check.specs.declared.from_bytes.CheckFault.TheVariants as check_fault;
ghost use Rattle.cert_check.specs.Check.{checked};

use crate::CheckFault;
use cert_text::{Cert, CertFault, read_cert};
use job_bodies::{Plan, PlanFault};
use plan_text::read_plan;
use std::alloc::Global;
use support::number::MEMORY;

impl From<PlanFault> for CheckFault {
    ghost from_gives = { λ fault converted. ((fault ≡ at_text MEMORY) → (converted ≡ check_fault.Memory)) × ((fault ≢ at_text MEMORY) → (converted ≡ check_fault.Plan fault)) };

    fn from(fault: PlanFault) -> CheckFault {
        if fault == PlanFault::at_text(MEMORY) {
            CheckFault::Memory
        } else {
            CheckFault::Plan(fault)
        }
    }
}

impl From<CertFault> for CheckFault {
    ghost from_gives = { λ fault converted. ((fault.number ≡ MEMORY) → (converted ≡ check_fault.Memory)) × ((fault.number ≢ MEMORY) → (converted ≡ check_fault.Cert fault)) };

    fn from(fault: CertFault) -> CheckFault {
        if fault.number == MEMORY {
            CheckFault::Memory
        } else {
            CheckFault::Cert(fault)
        }
    }
}

/// Parses a plan and a certificate for it.
///
/// # Errors
///
/// Returns the first fault of the plan's text. If the plan's text has no fault, returns the first
/// fault of the certificate's text. Returns [`CheckFault::Memory`] if memory runs out.
pub(crate) fn read_texts(
    alloc: Global,
    plan_text: &[u8],
    cert_text: &[u8],
) -> Result<(Plan, Cert), CheckFault>
    ensures plan { IfOk result (λ texts. plan_of plan_text.now ≡ Ok texts.0) }
    ensures cert { IfOk result (λ texts. cert_of cert_text.now texts.0 ≡ Ok texts.1) }
    ensures fits { IfOk result (λ texts. IsTrue (cert_fits texts.0 texts.1)) }
    ensures fault { IfErr result
        (λ fault. fault ≢ check_fault.Memory → checked plan_text.now cert_text.now ≡ Err fault) }
    ensures no_gate { IfErr result (λ fault. fault ≢ check_fault.Gate) }
{
    let plan = read_plan(alloc, plan_text)?;
    let cert = read_cert(alloc, cert_text, &plan)?;
    Ok((plan, cert))
}
