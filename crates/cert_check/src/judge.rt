//! The computation of the verdict on a plan and a certificate.

ghost use Rattle.std.specs.Prelude.{◌≡◌, ◌<◌, IfOk, IsTrue, length, map};
ghost use Rattle.std.specs.List.{enumerate_from};
ghost use Rattle.cert_text.specs.Cert.{bound_fits, cert_fits};
ghost use Rattle.soundness.specs.Headline.{Promises};
ghost use Rattle.cert_check.specs.Verdict as spec;

use crate::acceptance::conditions_hold;
use crate::{BoundTotal, PoolLine, Verdict};
use cert_text::Cert;
use job_bodies::Plan;
use std::alloc::{AllocError, Global};
use weights::Bound;

/// Returns the verdict on a plan and a certificate. The certificate must fit the plan.
///
/// # Errors
///
/// Returns [`AllocError`] if memory runs out.
pub fn verdict(alloc: Global, plan: &Plan, cert: &Cert) -> Result<Verdict, AllocError>
    requires { IsTrue (cert_fits plan.now cert.now) }
    ensures verdict { IfOk result (λ verdict. verdict ≡ spec.verdict plan.now cert.now) }
    ensures promises { IfOk result (λ verdict. IsTrue verdict.yes → Promises plan.now cert.now) }
{
    let pools = pool_lines(alloc, plan, cert)?;
    Ok(Verdict {
        yes: conditions_hold(plan, cert),
        pools,
    })
}

fn pool_lines(alloc: Global, plan: &Plan, cert: &Cert) -> Result<Vec<PoolLine>, AllocError>
    requires { IsTrue (cert_fits plan.now cert.now) }
    ensures { IfOk result (λ lines.
        lines.items
        ≡ map (λ entry. spec.pool_line plan.now cert.now entry.0)
        (enumerate_from 0 plan.now.pools)) }
{
    let mut lines = Vec::with_capacity(alloc, plan.pools().len())?;
    for pool in 0..plan.pools().len() {
        lines.push(pool_line(plan, cert, pool))?;
    }
    Ok(lines)
}

/// Returns the totals of the pool's bound and of its blocked vector, with their limits. The
/// certificate must fit the plan.
pub(crate) fn pool_line(plan: &Plan, cert: &Cert, pool: usize) -> PoolLine
    requires fits { IsTrue (cert_fits plan.now cert.now) }
    requires pool { pool < length plan.now.pools }
    ensures { result ≡ spec.pool_line plan.now cert.now pool }
{
    let of_pool = cert.pool_at(pool);
    let sizes = &plan.pools()[pool];
    PoolLine {
        bound: bound_total(plan, pool, &of_pool.bound),
        blocked: of_pool.blocked.total(plan),
        limit: sizes.least_threads() - 1,
    }
}

/// Returns the total of the pool's bound with its limit, or `None` if the pool has no bound.
fn bound_total(plan: &Plan, pool: usize, bound: &Option<Bound>) -> Option<BoundTotal>
    requires fits { IsTrue (bound_fits plan.now pool bound.now) }
    requires pool { pool < length plan.now.pools }
    ensures { result ≡ spec.bound_total plan.now pool bound.now }
{
    match bound {
        Some(bound) => Some(BoundTotal {
            lifetime: bound.is_lifetime(),
            total: bound.vector().total(plan),
            limit: total_limit(plan, pool, bound),
        }),
        None => None,
    }
}

/// Returns the limit of the total of the pool's bound, or `None` if the queue of the pool is
/// unbounded.
fn total_limit(plan: &Plan, pool: usize, bound: &Bound) -> Option<u64>
    requires { pool < length plan.now.pools }
    ensures { result ≡ spec.total_limit plan.now pool bound.now }
{
    let sizes = &plan.pools()[pool];
    if sizes.unbounded {
        None
    } else {
        Some(bound.limit(plan, pool))
    }
}
