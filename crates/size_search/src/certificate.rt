//! The steady certificate of a plan. One vector has two uses in it:
//!
//! - It is the blocked vector of every pool whose core threads never time out. A blocked vector
//!   bounds the number of the pool's jobs that wait at counted gets. A counted get can block a
//!   thread that other jobs need.
//! - It is the standing vector of every pool that needs a bound. A standing vector bounds the
//!   number of queued jobs. A pool needs no bound if it may reject jobs or its queue is unbounded.
//!
//! If the core threads of a pool may time out, its blocked vector is 0, and the ranks are such that
//! no get in the bodies of the pool's jobs is counted.

ghost use Rattle.std.specs.Prelude.{◌≡◌, ◌≤◌, take, drop, length, IfOk, IfSome, IfNone, true, false, map};
ghost use Rattle.weights.specs.Vector.{has_small_numbers};
ghost use Rattle.size_search.specs.Submitted.{NoCircle};
ghost use Rattle.size_search.specs.Steady as spec;

use crate::levels::{steady_levels, wait_levels};
use crate::rows::{clients_of, jobs_of};
use cert_text::{Cert, PoolCert};
use job_bodies::{Plan, Pool};
use std::alloc::{AllocError, Global};
use weights::{Bound, Ranks, Vector};

/// Returns a copy of the list of weights. If `is_zero` is `true`, each weight of the copy is 0.
fn copied_row(alloc: Global, row: &[u64], is_zero: bool) -> Result<Vec<u64>, AllocError>
    ensures { IfOk result (λ copy. copy.items ≡ spec.copied_row is_zero row.now) }
{
    if is_zero {
        vec![in alloc; 0; row.len()]
    } else {
        Vec::from_slice(alloc, row)
    }
}

fn copied_rows(alloc: Global, rows: &[Vec<u64>], is_zero: bool) -> Result<Vec<Vec<u64>>, AllocError>
    ensures { IfOk result (λ copies.
        map (λ row. row.items) copies.items
        ≡ map (spec.copied_row is_zero) (map (λ row. row.items) rows.now)) }
{
    let mut copies = Vec::with_capacity(alloc, rows.len())?;
    for row in rows {
        copies.push(copied_row(alloc, row, is_zero)?)?;
    }
    Ok(copies)
}

/// Returns a copy of `vector`. If `is_zero` is `true`, each weight of the copy is 0.
fn copied(alloc: Global, vector: &Vector, is_zero: bool) -> Result<Vector, AllocError>
    ensures { IfOk result (λ copy. copy ≡ spec.blocked_of vector.now is_zero) }
{
    let workers = copied_row(alloc, &vector.workers, is_zero)?;
    let classes = copied_rows(alloc, &vector.classes, is_zero)?;
    let clients = copied_rows(alloc, &vector.clients, is_zero)?;
    Ok(Vector {
        workers,
        classes,
        clients,
    })
}

/// Returns the vector of the steady certificate, or `None` if the vector has a weight above
/// [`MAX_WEIGHT`](job_bodies::MAX_WEIGHT). `levels` has the level of each class.
fn steady_vector(alloc: Global, plan: &Plan, levels: &[u64]) -> Result<Option<Vector>, AllocError>
    requires free { NoCircle plan.now }
    requires levels { levels.now ≡ spec.steady_levels plan.now }
    ensures vector { IfOk result
        (λ found. IfSome found (λ vector. vector ≡ spec.steady_vector plan.now)) }
    ensures heavy { IfOk result
        (λ found. IfNone found (has_small_numbers (spec.steady_vector plan.now) ≡ false)) }
{
    let Some(mut vector) = jobs_of(alloc, plan, levels)? else {
        return Ok(None);
    };
    vector.clients = clients_of(alloc, plan, &vector)?;
    vector.workers = vec![in alloc; 0; plan.pools().len()]?;
    Ok(Some(vector))
}

/// Returns the bound of a pool's queue: a copy of `vector`, or `None` if the pool needs no bound.
fn bound_of(
    alloc: Global,
    vector: &Vector,
    needs_no_bound: bool,
) -> Result<Option<Bound>, AllocError>
    ensures { IfOk result (λ bound. bound ≡ spec.bound_of vector.now needs_no_bound) }
{
    if needs_no_bound {
        return Ok(None);
    }
    let vector = copied(alloc, vector, false)?;
    Ok(Some(Bound::Standing(vector)))
}

/// Returns the part of the steady certificate that belongs to one pool:
///
/// - If the pool needs a bound, its bound is `vector`. Otherwise the pool has no bound.
/// - If the core threads of the pool never time out, the blocked vector is `vector`. Otherwise the
///   blocked vector is 0.
fn pool_of(alloc: Global, vector: &Vector, pool: &Pool) -> Result<PoolCert, AllocError>
    requires { has_small_numbers vector.now ≡ true }
    ensures { IfOk result (λ part. part ≡ spec.pool_of vector.now pool.now) }
{
    let bound = bound_of(alloc, vector, pool.needs_no_bound())?;
    let blocked = copied(alloc, vector, pool.core_timeout)?;
    Ok(PoolCert { bound, blocked })
}

/// Returns, for each pool, the part of the steady certificate that belongs to this pool.
fn pools_of(alloc: Global, plan: &Plan, vector: &Vector) -> Result<Vec<PoolCert>, AllocError>
    requires { has_small_numbers vector.now ≡ true }
    ensures { IfOk result (λ pools. pools.items ≡ map (spec.pool_of vector.now) plan.now.pools) }
{
    let mut pools = Vec::with_capacity(alloc, plan.pools().len())?;
    for pool in plan.pools() {
        pools.push(pool_of(alloc, vector, pool)?)?;
    }
    Ok(pools)
}

/// Returns the ranks of the pools, and the reaches and levels of the classes, in the steady
/// certificate. [`Ranks`] explains these numbers. `levels` has the level of each class.
fn ranks_of(alloc: Global, plan: &Plan, levels: Vec<u64>) -> Result<Ranks, AllocError>
    requires { levels.items ≡ spec.steady_levels plan.now }
    ensures { IfOk result (λ ranks. ranks ≡ spec.steady_ranks plan.now) }
{
    let waits = wait_levels(alloc, plan)?;
    let (reaches, pools) = halves_of(alloc, &waits, plan.classes().len())?;
    Ok(Ranks {
        pools,
        reach: reaches,
        levels,
    })
}

/// Returns the first `count` numbers, and the remaining ones.
fn halves_of(
    alloc: Global,
    numbers: &[u64],
    count: usize,
) -> Result<(Vec<u64>, Vec<u64>), AllocError>
    requires { count ≤ length numbers.now }
    ensures { IfOk result (λ halves. (halves.0.items ≡ take count numbers.now) × (halves.1.items ≡ drop count numbers.now)) }
{
    let front = Vec::from_slice(alloc, &numbers[..count])?;
    let rest = Vec::from_slice(alloc, &numbers[count..])?;
    Ok((front, rest))
}

/// Returns the steady certificate of the plan, or `None` if a weight of its vector is above
/// [`MAX_WEIGHT`](job_bodies::MAX_WEIGHT). The plan must have no class that submits itself,
/// directly or through other classes.
///
/// In this certificate, one vector is the blocked vector of every pool whose core threads never
/// time out. The same vector is the standing vector of every pool that needs a bound. A pool needs
/// no bound if it may reject jobs or its queue is unbounded. The other blocked vectors are 0.
///
/// With large enough sizes, this certificate accepts the plan if these conditions hold:
///
/// - No repeating client submits, directly or through other jobs, a job that is never got.
/// - If the core threads of a pool may time out, its last thread cannot wait until another job of
///   this pool ends.
/// - If a class has a get and the core threads of its pool may time out, clients submit this class,
///   directly or through other jobs.
///
/// The queues of pools that may reject jobs need not be large.
///
/// # Errors
///
/// Returns [`AllocError`] if memory runs out.
pub fn steady(alloc: Global, plan: &Plan) -> Result<Option<Cert>, AllocError>
    // A class that submits itself has no level.
    requires { NoCircle plan.now }
    ensures cert { IfOk result (λ found. IfSome found (λ cert. cert ≡ spec.steady_cert plan.now)) }
    ensures small { IfOk result
        (λ found. IfSome found (λ _. has_small_numbers (spec.steady_vector plan.now) ≡ true)) }
    ensures heavy { IfOk result
        (λ found. IfNone found (has_small_numbers (spec.steady_vector plan.now) ≡ false)) }
{
    let levels = steady_levels(alloc, plan)?;
    let Some(vector) = steady_vector(alloc, plan, &levels)? else {
        return Ok(None);
    };
    if !vector.fits(plan) {
        return Ok(None);
    }
    let pools = pools_of(alloc, plan, &vector)?;
    let ranks = ranks_of(alloc, plan, levels)?;
    Ok(Some(Cert { pools, ranks }))
}
