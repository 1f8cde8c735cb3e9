//! The two vectors that a certificate can have for each pool:
//!
//! - The *bound* of the queue. It is one of two kinds. A *standing vector* bounds the number of
//!   queued jobs of the pool. A *lifetime vector* bounds the number of all jobs that are ever
//!   submitted to the pool. A pool that may reject jobs or has an unbounded queue needs no bound,
//!   but can have one.
//! - The *blocked vector*. It bounds the number of the pool's jobs that wait at certain gets. These
//!   gets wait for jobs of classes with a reach of at least the pool's rank.
//!
//! A job depends on its own pool, and on the pools of all jobs that it gets, directly or through
//! other jobs. The *reach* of a class is the greatest rank of the pools on which its jobs depend.

ghost use Rattle.std.specs.Prelude.{◌<◌, IfOk, IfSome, IsTrue, length};
ghost use Rattle.weights.specs.Vector.{vector_fits};
ghost use Rattle.weights.specs.Bound.{bound_vector};

use crate::minimize_total::{least_vector, lightest_vector};
use crate::target::Target;
use crate::{Bound, Levels, Vector};
use job_bodies::{Plan, Pool};
use std::alloc::{AllocError, Global};

/// Returns the bound of the pool's queue, or `None` if the search finds no bound. The plan must
/// have a pool with the index `pool`. Whether the pool may reject jobs has no effect on the search.
///
/// If the queue is bounded, the bound is a standing vector whose total is at most the capacity of
/// the queue. If the search finds no such vector, the bound is a lifetime vector. Its total is at
/// most the number of jobs that the pool accepts before it can refuse one.
///
/// If the queue is unbounded, the bound is the standing vector with the smallest total that the
/// search finds, however large this total is.
///
/// # Errors
///
/// Returns [`AllocError`] if memory runs out.
pub fn pool_bound(
    alloc: Global,
    plan: &Plan,
    levels: &Levels,
    pool: usize,
) -> Result<Option<Bound>, AllocError>
    requires { pool < length plan.now.pools }
    ensures { IfOk result
        (λ found. IfSome found (λ bound. IsTrue (vector_fits plan.now (bound_vector bound)))) }
{
    let sizes = &plan.pools()[pool];
    if sizes.unbounded {
        return lightest_standing(alloc, plan, levels, pool);
    }
    let standing = Target::standing(pool, sizes.queue).without_useless_loans();
    if let Some(vector) = least_vector(alloc, plan, levels, &standing)? {
        return Ok(Some(Bound::Standing(vector)));
    }
    let lifetime = Target::lifetime(pool, lifetime_limit(sizes));
    match least_vector(alloc, plan, levels, &lifetime)? {
        Some(vector) => Ok(Some(Bound::Lifetime(vector))),
        None => Ok(None),
    }
}

/// Returns the number of jobs that the pool accepts before it can refuse one. This is the capacity
/// of the queue plus the maximum of the pool, minus the number of prestarted threads. If core
/// threads may time out, it is only the capacity of the queue, because Java then starts threads
/// without a job.
fn lifetime_limit(pool: &Pool) -> u64 {
    if pool.core_timeout {
        return pool.queue;
    }
    let places = pool.queue.saturating_add(pool.max);
    places.saturating_sub(pool.first_workers())
}

/// Returns a standing vector of the pool. Of all the standing vectors that the search finds, this
/// one has the smallest total. Returns `None` if the search finds none.
fn lightest_standing(
    alloc: Global,
    plan: &Plan,
    levels: &Levels,
    pool: usize,
) -> Result<Option<Bound>, AllocError>
    ensures { IfOk result
        (λ found. IfSome found (λ bound. IsTrue (vector_fits plan.now (bound_vector bound)))) }
{
    match lightest_vector(alloc, plan, levels, &Target::standing(pool, 0))? {
        Some(vector) => Ok(Some(Bound::Standing(vector))),
        None => Ok(None),
    }
}

/// Returns a blocked vector of the pool, or `None` if the search finds none. The plan must have a
/// pool with the index `pool`. `rank` is the rank of this pool, and `reach` has the reach of each
/// class. The total of the vector is less than the pool's core size, or is 0 if core threads may
/// time out.
///
/// # Errors
///
/// Returns [`AllocError`] if memory runs out.
pub fn blocked_vector(
    alloc: Global,
    plan: &Plan,
    levels: &Levels,
    pool: usize,
    rank: u64,
    reach: &[u64],
) -> Result<Option<Vector>, AllocError>
    requires { pool < length plan.now.pools }
    ensures { IfOk result (λ found. IfSome found (λ vector. IsTrue (vector_fits plan.now vector))) }
{
    let sizes = &plan.pools()[pool];
    let target = Target::blocked(
        pool,
        sizes.least_threads().saturating_sub(1),
        reach,
        rank,
    ).without_useless_loans();
    least_vector(alloc, plan, levels, &target)
}
