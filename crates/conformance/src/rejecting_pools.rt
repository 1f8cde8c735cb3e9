//! The key `may_reject` of a plan, set for the pools that reject jobs in a recording.

ghost use Rattle.std.specs.Prelude.{◌≡◌, true, map, IfOk};
ghost use Rattle.conformance.specs.Lines.{lines_of};
ghost use Rattle.conformance.specs.RejectingPools as spec;
ghost use Rattle.conformance.specs.Rejections.{only_rejected_by};

use crate::rejections::{Rejections, rejections_in};
use job_bodies::{Plan, Pool};
use std::alloc::{AllocError, Global};

/// Returns a copy of the plan with new values of the key `may_reject`. Nothing else changes. In the
/// copy, a pool may reject jobs in each of these cases, and in no other case:
///
/// - The pool rejects jobs in the recording.
/// - The pool has a queue of 0.
///
/// A pool rejects jobs in the recording if these conditions hold:
///
/// - At least one job of the pool was refused.
/// - If every pool of the plan could reject jobs, the plan would allow each refusal of a job of the
///   pool. [`conform`](crate::conform) lists when a plan allows a rejection. No plan allows a
///   rejection by a pool with an unbounded queue.
///
/// Reads the recording once, and twice more if a job was refused. The memory grows with the number
/// of refused jobs.
///
/// # Errors
///
/// Returns [`AllocError`] if memory runs out.
pub fn mark_rejecting_pools(
    alloc: Global,
    plan: &Plan,
    recording: &[u8],
) -> Result<Plan, AllocError>
    ensures { IfOk result
        (λ marked. marked ≡ spec.with_rejecting_pools plan.now (lines_of recording.now)) }
{
    let all = with_all_keys(alloc, plan)?;
    let rejections = rejections_in(alloc, &all, recording)?;
    let pools = with_keys(alloc, plan.pools(), &rejections)?;
    Ok(all.with_pools(pools))
}

/// Returns a copy of the plan in which every pool may reject jobs.
fn with_all_keys(alloc: Global, plan: &Plan) -> Result<Plan, AllocError>
    ensures { IfOk result (λ all. all ≡ spec.with_all_keys plan.now) }
{
    let pools = pools_with_key(alloc, plan.pools())?;
    Ok(plan.try_clone(alloc)?.with_pools(pools))
}

fn pools_with_key(alloc: Global, pools: &[Pool]) -> Result<Vec<Pool>, AllocError>
    ensures { IfOk result (λ keyed. keyed.items ≡ map (spec.with_key true) pools.now) }
{
    let mut keyed = Vec::new(alloc);
    for pool in pools {
        keyed.push(with_key(alloc, pool, true)?)?;
    }
    Ok(keyed)
}

/// Returns copies of the pools with a new value of `may_reject`. The value is true if
/// [`only_rejects`](Rejections::only_rejects) returns true for the pool, or if the queue of the
/// pool is 0. Otherwise it is false.
fn with_keys(
    alloc: Global,
    pools: &[Pool],
    rejections: &Rejections,
) -> Result<Vec<Pool>, AllocError>
    ensures { IfOk result
        (λ keyed. keyed.items ≡ spec.with_keys (only_rejected_by rejections.now) pools.now) }
{
    let mut keyed = Vec::new(alloc);
    for pool in pools {
        let key = rejections.only_rejects(keyed.len());
        keyed.push(with_key(alloc, pool, key)?)?;
    }
    Ok(keyed)
}

fn with_key(alloc: Global, pool: &Pool, key: bool) -> Result<Pool, AllocError>
    ensures { IfOk result (λ copy. copy ≡ spec.with_key key pool.now) }
{
    let mut copy = pool.try_clone(alloc)?;
    copy.may_reject = key || copy.queue == 0;
    Ok(copy)
}
