//! Plans in which maximums are lowered to the core sizes of their pools.

ghost use Rattle.std.specs.Prelude.{◌≡◌, IfOk, map};
ghost use Rattle.job_bodies.specs.WellFormed.{IsWellFormed};
ghost use Rattle.std.specs.List.{list_any};
ghost use Rattle.diagnostics.specs.AtCore as spec;
ghost use Rattle.diagnostics.specs.Lints.{grows_if_full};

use crate::lint_conditions::grows_if_full;
use job_bodies::{Plan, Pool};
use std::alloc::{AllocError, Global};

/// Returns whether [`at_core`] is useful. Two conditions must hold:
///
/// - Some pool starts threads above its core size when its queue is full, and only then. Such a
///   pool has a bounded queue, a maximum above its core size, and core threads that never time out.
/// - The plan allows none of these pools to reject jobs.
///
/// With a lower maximum, a pool that may reject jobs can reject more jobs, and clients do not wait
/// for rejected jobs. So the plan with lowered maximums would say nothing about the original plan.
pub fn can_be_lowered(plan: &Plan) -> bool
    ensures { result ≡ spec.can_be_lowered plan.now }
{
    some_grows_if_full(plan) && !some_grows_and_rejects(plan)
}

fn some_grows_if_full(plan: &Plan) -> bool
    ensures { result ≡ list_any grows_if_full plan.now.pools }
{
    plan.pools().iter().any(|pool| grows_if_full(pool))
}

fn some_grows_and_rejects(plan: &Plan) -> bool
    ensures { result ≡ list_any spec.grows_and_rejects plan.now.pools }
{
    plan.pools().iter().any(|pool| grows_and_rejects(pool))
}

/// Returns true if the plan allows the pool to reject jobs, and the pool starts threads above its
/// core size when its queue is full, and only then.
fn grows_and_rejects(pool: &Pool) -> bool
    ensures { result ≡ spec.grows_and_rejects pool.now }
{
    grows_if_full(pool) && pool.may_reject
}

/// Returns a copy of the plan in which the maximum of each pool is lowered to its core size, unless
/// the core threads of the pool may time out. Such a pool keeps its maximum, because it may start
/// threads above its core size even if its queue is never full.
///
/// # Errors
///
/// Returns [`AllocError`] if memory runs out.
pub fn at_core(alloc: Global, plan: &Plan) -> Result<Plan, AllocError>
    ensures { IfOk result (λ lowered. lowered ≡ spec.at_core plan.now) }
{
    let pools = pools_at_core(alloc, plan)?;
    Ok(plan.try_clone(alloc)?.with_pools(pools))
}

fn pools_at_core(alloc: Global, plan: &Plan) -> Result<Vec<Pool>, AllocError>
    ensures pools { IfOk result (λ pools. pools.items ≡ map spec.with_max_at_core plan.now.pools) }
    ensures well_formed { IsWellFormed plan.now }
{
    let mut pools = Vec::new(alloc);
    for pool in plan.pools() {
        pools.push(pool_at_core(alloc, pool)?)?;
    }
    Ok(pools)
}

fn pool_at_core(alloc: Global, pool: &Pool) -> Result<Pool, AllocError>
    ensures { IfOk result (λ lowered. lowered ≡ spec.with_max_at_core pool.now) }
{
    let mut lowered = pool.try_clone(alloc)?;
    if !lowered.core_timeout {
        lowered.max = lowered.core;
    }
    Ok(lowered)
}
