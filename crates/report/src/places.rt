//! Queue capacities that are enough for the pools of a plan. They are computed from the bounds of a
//! certificate.

ghost use Rattle.std.specs.Prelude.{◌≡◌, IfOk, nat_le};
ghost use Rattle.std.specs.List.{list_all, enumerate_from};
ghost use Rattle.job_bodies.specs.Plan.{pool_at};
ghost use Rattle.weights.specs.Vector.{class_weights, workers_weight};
ghost use Rattle.report.specs.Places as spec;

use cert_text::{Cert, PoolCert};
use job_bodies::{Class, Plan, Pool};
use std::alloc::{AllocError, Global};
use weights::{Bound, Vector};

/// Returns a sufficient queue capacity for each pool of the certificate. It is the total of the
/// pool's standing vector, which limits the jobs in the queue at one time. The element is `None` if
///
/// - the pool has a lifetime vector or no vector,
/// - the vector does not fit the plan,
/// - the queue is unbounded, and some queued job of the pool has no weight in the vector, or
/// - the queue is unbounded, and the vector gives a weight to the threads of some pool without a
///   maximum.
///
/// # Errors
///
/// Returns [`AllocError`] if memory runs out.
pub fn needed_places(
    alloc: Global,
    plan: &Plan,
    cert: &Cert,
) -> Result<Vec<Option<u64>>, AllocError>
    ensures { IfOk result (λ needed. needed.items ≡ spec.needed_places plan.now cert.now) }
{
    let mut needed = Vec::new(alloc);
    for (number, part) in cert.pools.iter().enumerate() {
        needed.push(places_in(plan, number, part))?;
    }
    Ok(needed)
}

fn places_in(plan: &Plan, number: usize, part: &PoolCert) -> Option<u64>
    ensures { result ≡ spec.places_in plan.now (number, part.now) }
{
    places_of(plan, number, &part.bound)
}

fn places_of(plan: &Plan, pool: usize, bound: &Option<Bound>) -> Option<u64>
    ensures { result ≡ spec.places_of plan.now pool bound.now }
{
    match bound {
        Some(bound) => places_of_bound(plan, pool, bound),
        None => None,
    }
}

fn places_of_bound(plan: &Plan, pool: usize, bound: &Bound) -> Option<u64>
    ensures { result ≡ spec.places_of_bound plan.now pool bound.now }
{
    match bound {
        Bound::Standing(vector) if bounds_jobs(plan, pool, bound) => total_of(plan, vector),
        Bound::Standing(_) | Bound::Lifetime(_) => None,
    }
}

/// Returns the total of a vector, or `None` if the vector does not fit the plan.
pub fn total_of(plan: &Plan, vector: &Vector) -> Option<u64>
    ensures { result ≡ spec.total_of plan.now vector.now }
{
    if vector.fits(plan) {
        Some(vector.total(plan))
    } else {
        None
    }
}

/// Returns whether the total of the bound limits the jobs of the pool. For a standing vector, these
/// are the jobs in its queue. For a lifetime vector, they are all jobs that it is ever given. If
/// the pool's queue is bounded, returns `true`: the conditions of a certificate then ensure this
/// limit. If the queue is unbounded, all of these must hold for the vector of the bound:
///
/// - The vector fits the plan.
/// - Each of these jobs has a weight of at least 1.
/// - The vector gives no weight to the threads of any pool without a maximum.
pub(crate) fn bounds_jobs(plan: &Plan, pool: usize, bound: &Bound) -> bool
    ensures { result ≡ spec.bounds_jobs plan.now pool bound.now }
{
    !is_unbounded(plan, pool) || counts_jobs(plan, pool, bound)
}

/// Returns whether the queue of the pool with this number is unbounded. Returns `false` if there is
/// no such pool.
pub(crate) fn is_unbounded(plan: &Plan, pool: usize) -> bool
    ensures { result ≡ (pool_at plan.now pool).unbounded }
{
    match plan.pool_at(pool) {
        Some(pool) => pool.unbounded,
        None => false,
    }
}

/// Returns whether the bound's vector meets all conditions that [`bounds_jobs`] lists for an
/// unbounded queue.
fn counts_jobs(plan: &Plan, pool: usize, bound: &Bound) -> bool
    ensures { result ≡ spec.counts_jobs plan.now pool bound.now }
{
    let vector = bound.vector();
    vector.fits(plan)
        && has_finite_total(plan.pools(), vector)
        && counts_classes(pool, bound, plan.classes())
}

fn has_finite_total(pools: &[Pool], vector: &Vector) -> bool
    ensures { result ≡ list_all (spec.has_finite_share vector.now) (enumerate_from 0 pools.now) }
{
    pools
        .iter()
        .enumerate()
        .all(|(number, pool)| has_finite_share(vector, number, pool))
}

/// Returns `true` if the pool has a maximum, or if the vector gives the pool's threads no weight.
/// `number` is the number of the pool.
fn has_finite_share(vector: &Vector, number: usize, pool: &Pool) -> bool
    ensures { result ≡ spec.has_finite_share vector.now (number, pool.now) }
{
    !pool.has_no_max() || workers_weight(vector, number) == 0
}

/// Returns the weight of one worker of the pool, or 0 if the vector has no weight for the pool.
fn workers_weight(vector: &Vector, pool: usize) -> u64
    ensures { result ≡ workers_weight vector.now pool }
{
    match vector.workers.get(pool) {
        Some(weight) => *weight,
        None => 0,
    }
}

fn counts_classes(pool: usize, bound: &Bound, classes: &[Class]) -> bool
    ensures { result
        ≡ list_all (spec.counts_if_of pool bound.now) (enumerate_from 0 classes.now) }
{
    classes
        .iter()
        .enumerate()
        .all(|(number, class)| counts_if_of(pool, bound, number, class))
}

/// Returns `true` if the class does not belong to the pool with the number `pool`, or if its jobs
/// have the weights that [`counts_class`] requires. `number` is the number of the class.
fn counts_if_of(pool: usize, bound: &Bound, number: usize, class: &Class) -> bool
    ensures { result ≡ spec.counts_if_of pool bound.now (number, class.now) }
{
    class.pool != pool || counts_class(bound, number)
}

/// Returns whether the bound's vector gives each job of the class a weight of at least 1. A
/// standing vector limits the jobs in the queue, so only queued jobs need this weight. A lifetime
/// vector limits the jobs ever submitted, so queued, running and done jobs need it.
fn counts_class(bound: &Bound, class: usize) -> bool
    ensures { result ≡ spec.counts_class bound.now class }
{
    match bound {
        Bound::Standing(vector) => counts_queued(weights_of(vector, class)),
        Bound::Lifetime(vector) => counts_always(weights_of(vector, class)),
    }
}

fn counts_queued(weights: &[u64]) -> bool
    ensures { result ≡ spec.counts_queued weights.now }
{
    match weights.first() {
        Some(weight) => *weight >= 1,
        None => false,
    }
}

fn counts_always(weights: &[u64]) -> bool
    ensures { result ≡ list_all (nat_le 1) weights.now }
{
    weights.iter().all(|weight| *weight >= 1)
}

/// Returns the weights of the class in the vector, or an empty list if the vector has no weights
/// for the class.
fn weights_of(vector: &Vector, class: usize) -> &[u64]
    ensures { result.now ≡ class_weights vector.now class }
{
    match vector.classes.get(class) {
        Some(weights) => weights,
        None => &[],
    }
}
