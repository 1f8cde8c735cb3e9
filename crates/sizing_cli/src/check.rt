//! The `check` command: decides whether a certificate accepts a plan. A certificate has two vectors
//! for each pool. A vector gives a weight to each actor position and worker. One vector bounds the
//! pool's queue. The other bounds the number of the pool's jobs that wait at counted gets. A
//! counted get can block a thread that other jobs need. The vector for the queue can be missing if
//! the pool may reject jobs or has an unbounded queue.

ghost use Rattle.std.specs.Prelude.{◌≡◌, IfOk, IsTrue};
ghost use Rattle.cert_text.specs.Cert.{cert_fits};
ghost use Rattle.sizing_cli.specs.Report as spec;

use crate::Status;
use crate::answer::{Answer, cert_fault};
use crate::input::cert_in;
use cert_check::{push_verdict, verdict};
use cert_text::Cert;
use job_bodies::Plan;
use std::alloc::{AllocError, Global};

/// Returns the answer of `check`, which says whether the certificate accepts the plan. For each
/// pool, the answer also has the totals of the pool's vectors, and the limits of these totals. A
/// vector gives a weight to each actor position and worker. If the certificate's text has a fault,
/// the answer is only this fault.
pub fn check(alloc: Global, plan: &Plan, cert: &[u8]) -> Result<Answer, AllocError>
    ensures { IfOk result (λ answer. answer ≡ spec.check plan.now cert.now) }
{
    match cert_in(alloc, cert, plan)? {
        Ok(cert) => verdict_on(alloc, plan, &cert),
        Err(fault) => cert_fault(alloc, fault),
    }
}

fn verdict_on(alloc: Global, plan: &Plan, cert: &Cert) -> Result<Answer, AllocError>
    requires { IsTrue (cert_fits plan.now cert.now) }
    ensures { IfOk result (λ answer. answer ≡ spec.check_of_cert plan.now (Ok cert.now)) }
{
    let verdict = verdict(alloc, plan, cert)?;
    let mut text = String::new(alloc);
    push_verdict(&mut text, plan, &verdict)?;
    Ok(Answer {
        text,
        status: Status::of_question(verdict.yes),
    })
}
