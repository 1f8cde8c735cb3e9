//! The `explain` command: lists the failing conditions of a certificate.

ghost use Rattle.std.specs.Prelude.{◌≡◌, IfOk, IsTrue};
ghost use Rattle.cert_text.specs.Cert.{cert_fits};
ghost use Rattle.sizing_cli.specs.Report as spec;

use crate::Status;
use crate::answer::{Answer, cert_fault};
use crate::input::cert_in;
use cert_text::Cert;
use job_bodies::Plan;
use refusal_notes::push_explanation;
use std::alloc::{AllocError, Global};

/// Returns the answer of `explain`. The answer lists each failing condition of the certificate,
/// with the two numbers that the condition compares. The last line has the number of failing
/// conditions. If the certificate's text has a fault, the answer is only this fault.
pub fn explain(alloc: Global, plan: &Plan, cert: &[u8]) -> Result<Answer, AllocError>
    ensures { IfOk result (λ answer. answer ≡ spec.explain plan.now cert.now) }
{
    match cert_in(alloc, cert, plan)? {
        Ok(cert) => explanation_of(alloc, plan, &cert),
        Err(fault) => cert_fault(alloc, fault),
    }
}

fn explanation_of(alloc: Global, plan: &Plan, cert: &Cert) -> Result<Answer, AllocError>
    requires { IsTrue (cert_fits plan.now cert.now) }
    ensures { IfOk result (λ answer. answer ≡ spec.explain_of_cert plan.now (Ok cert.now)) }
{
    let mut text = String::new(alloc);
    let count = push_explanation(alloc, &mut text, plan, cert)?;
    Ok(Answer {
        text,
        status: Status::of_question(count == 0),
    })
}
