//! Widened plans: plans whose maximums were raised to the cores that a certificate needs.

ghost use Rattle.std.specs.Prelude.{◌≡◌, ◌<◌, if◌then◌else◌, IfOk, IfErr, IsTrue, Some, length, max};
ghost use Rattle.job_bodies.specs.Plan.{pool_at};
ghost use Rattle.job_bodies.specs.WellFormed.{IsWellFormed};
ghost use Rattle.cert_text.specs.Cert.{cert_fits, pool_cert_at};
ghost use Rattle.size_search.specs.Widened as spec;
ghost use Rattle.size_search.specs.FitError.{why_not_widened};

use crate::FitError;
use crate::fit::core_needed;
use crate::fit_error::unfit_pools;
use cert_text::Cert;
use job_bodies::{Plan, Pool};
use std::alloc::{AllocError, Global};

/// Returns the maximum of the pool, raised to at least `core`. If core threads may time out,
/// returns the maximum unchanged.
fn raised_max(pool: &Pool, core: u64) -> u64
    ensures { result ≡ (if pool.now.core_timeout then pool.now.max else max pool.now.max core) }
{
    if pool.core_timeout {
        pool.max
    } else {
        pool.max.max(core)
    }
}

/// Returns the pool with this number. If the certificate needs a core above the maximum of the
/// pool, the maximum is raised to this core. The maximum stays unchanged if core threads may time
/// out.
fn widened_pool(alloc: Global, plan: &Plan, cert: &Cert, number: usize) -> Result<Pool, AllocError>
    requires fits { IsTrue (cert_fits plan.now cert.now) }
    requires number { number < length plan.now.pools }
    ensures { IfOk result (λ wide.
        wide
        ≡ spec.with_max plan.now (pool_cert_at cert.now number).blocked (pool_at plan.now number)) }
{
    let needs = cert.pool_at(number);
    let mut wide = plan.pools()[number].try_clone(alloc)?;
    wide.max = raised_max(&wide, core_needed(plan, &needs.blocked));
    Ok(wide)
}

fn widened_pools(alloc: Global, plan: &Plan, cert: &Cert) -> Result<Vec<Pool>, AllocError>
    requires { IsTrue (cert_fits plan.now cert.now) }
    ensures pools { IfOk result (λ pools. pools.items ≡ (spec.widened plan.now cert.now).pools) }
    ensures well_formed { IsWellFormed plan.now }
{
    let mut pools = Vec::with_capacity(alloc, plan.pools().len())?;
    for number in 0..plan.pools().len() {
        pools.push(widened_pool(alloc, plan, cert, number)?)?;
    }
    Ok(pools)
}

/// Returns the plan with each maximum raised to at least the core that the certificate needs. The
/// maximum of a pool whose core threads may time out stays unchanged. The raised maximums can
/// increase totals. The certificate can then need even larger cores.
///
/// Each raise is necessary. Let the certificate accept the plan with other sizes, whose maximums
/// are no smaller than the plan's. Then these maximums are no smaller than those of the result
/// either.
///
/// If the certificate does not fit the plan, or needs a core above 1,000,000, there are no such
/// other sizes. The inner error is then the reason.
///
/// # Errors
///
/// Returns [`AllocError`] if memory runs out.
pub fn widened(
    alloc: Global,
    plan: &Plan,
    cert: &Cert,
) -> Result<Result<Plan, FitError>, AllocError>
    ensures widened { IfOk result
        (λ answer. IfOk answer (λ wide. wide ≡ spec.widened plan.now cert.now)) }
    ensures room { IfOk result (λ answer. IfOk answer (spec.LeavesRoom plan.now cert.now)) }
    ensures least { IfOk result (λ answer. IfOk answer (spec.IsLeastWide plan.now cert.now)) }

    ensures none { IfOk result (λ answer. IfErr answer (λ _. spec.NoneFitsWide plan.now cert.now)) }
    ensures why { IfOk result
        (λ answer. IfErr answer (λ unfit. why_not_widened plan.now cert.now ≡ Some unfit)) }
{
    if !cert.fits(plan) {
        return Ok(Err(FitError::Shape));
    }
    let pools = widened_pools(alloc, plan, cert)?;
    match unfit_pools(&pools) {
        Some(unfit) => Ok(Err(unfit)),
        None => Ok(Ok(plan.try_clone(alloc)?.with_pools(pools))),
    }
}
