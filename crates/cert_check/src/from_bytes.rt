//! The check of a certificate, from the bytes of two texts to a verdict.

ghost use Rattle.std.specs.Prelude.{◌≡◌, ◌≢◌, IfOk, IfErr, IsTrue, Ok, Err};
ghost use Rattle.cert_check.specs.declared.from_bytes.CheckFault.TheVariants.{Memory};
ghost use Rattle.cert_check.specs.Check as spec;

use crate::parse::read_texts;
use crate::{Verdict, verdict};
use cert_text::CertFault;
use job_bodies::PlanFault;
use std::alloc::{AllocError, Global};

/// The reason why a check returns no verdict.
#[derive(Clone, Copy, Debug, PartialEq, Eq)]
pub enum CheckFault {
    /// The first fault of the plan's text.
    Plan(PlanFault),
    /// The first fault of the certificate's text.
    Cert(CertFault),
    /// Memory ran out. This fault says nothing about the texts.
    Memory,
    /// The gate returned `false` for a pool. The gate is a hook that a check on threads calls
    /// before it checks a pool (see [`PoolGate`](crate::PoolGate)). [`check`] calls no gate.
    Gate,
}

impl From<AllocError> for CheckFault {
    ghost from_gives = { λ _ fault. fault ≡ Memory };

    fn from(_error: AllocError) -> CheckFault {
        CheckFault::Memory
    }
}

/// Reads a plan and a certificate for it, and returns the verdict: whether the certificate accepts
/// the plan, and the totals and limits of each pool.
///
/// If the verdict is `yes`, the following holds in each state that a list of events can reach:
///
/// - No submit was refused. A pool that may reject jobs can have rejected jobs, but a rejection is
///   not a refusal.
/// - No pool has more threads than its maximum.
/// - No bounded queue has more jobs than its capacity. If the capacity is 0, the queue has at most
///   as many jobs as its pool has idle threads.
/// - No unfinished jobs wait only for each other.
/// - While a job is unfinished, at least one of two events is possible: a job performs a step, or
///   an idle thread takes a job from a queue.
/// - If the clients stop, all jobs finish after a bounded number of these events.
///
/// # Errors
///
/// Returns the first fault of the plan's text. If the plan's text has no fault, returns the first
/// fault of the certificate's text. Returns [`CheckFault::Memory`] if memory runs out.
pub fn check(alloc: Global, plan_text: &[u8], cert_text: &[u8]) -> Result<Verdict, CheckFault>
    ensures verdict { IfOk result
        (λ verdict. spec.checked plan_text.now cert_text.now ≡ Ok verdict) }
    ensures fault { IfErr result
        (λ fault. fault ≢ Memory → spec.checked plan_text.now cert_text.now ≡ Err fault) }
    // The meaning of `yes`.
    ensures safe { IfOk result
        (λ verdict. IsTrue verdict.yes → spec.IsSafeToRun plan_text.now cert_text.now) }
{
    let (plan, cert) = read_texts(alloc, plan_text, cert_text)?;
    Ok(verdict(alloc, &plan, &cert)?)
}
