//! The steady certificate, which the search tries if its rounds find no certificate that accepts
//! the plan. The steady certificate is built from a single vector, whose weights do not depend on
//! the pool sizes:
//!
//! - The blocked vector of a pool is this vector, or 0 if core threads of the pool may time out.
//! - If a pool needs a bound, its bound is also this vector. A pool that may reject jobs or has an
//!   unbounded queue has no bound.

ghost use Rattle.std.specs.Prelude.{◌≡◌, false, IfOk, IfSome, IfNone, IsTrue};
ghost use Rattle.job_bodies.specs.WellFormed.{IsWellFormed};
ghost use Rattle.soundness.specs.Accepted.{accepted};
ghost use Rattle.size_search.specs.Submitted.{NoCircle};
ghost use Rattle.size_search.specs.Steady.{steady_cert};

use cert_check::accepts;
use cert_text::Cert;
use job_bodies::Plan;
use size_search::{cause_of, steady};
use std::alloc::{AllocError, Global};

/// Returns the plan's steady certificate if this certificate accepts the plan. Returns `None` in
/// these cases:
///
/// - The steady certificate does not accept the plan.
/// - The steady certificate has a weight above `MAX_WEIGHT`.
/// - There is a *cause*: a reason why no certificate accepts the plan, even with other pool sizes.
pub(crate) fn steady_if_accepted(alloc: Global, plan: &Plan) -> Result<Option<Cert>, AllocError>
    ensures accepted { IfOk result
        (λ found. IfSome found (λ cert. IsTrue (accepted plan.now cert))) }
    ensures none { IfOk result
        (λ found. IfNone found (accepted plan.now (steady_cert plan.now) ≡ false)) }
{
    match cause_of(alloc, plan)? {
        Some(_cause) => Ok(None),
        None => without_circle(alloc, plan),
    }
}

/// Returns the plan's steady certificate, or `None` if it has a weight above `MAX_WEIGHT` or does
/// not accept the plan. The plan must have no class that submits itself, directly or through other
/// classes.
fn without_circle(alloc: Global, plan: &Plan) -> Result<Option<Cert>, AllocError>
    requires free { NoCircle plan.now }
    requires well_formed { IsWellFormed plan.now }
    ensures accepted { IfOk result
        (λ found. IfSome found (λ cert. IsTrue (accepted plan.now cert))) }
    ensures none { IfOk result
        (λ found. IfNone found (accepted plan.now (steady_cert plan.now) ≡ false)) }
{
    match steady(alloc, plan)? {
        Some(cert) => Ok(if_accepted(plan, cert)),
        None => Ok(None),
    }
}

/// Returns the certificate if it accepts the plan, and `None` otherwise.
pub(crate) fn if_accepted(plan: &Plan, cert: Cert) -> Option<Cert>
    ensures accepted { IfSome result (λ cert. IsTrue (accepted plan.now cert)) }
    ensures none { IfNone result (accepted plan.now cert ≡ false) }
{
    if accepts(plan, &cert) {
        Some(cert)
    } else {
        None
    }
}
