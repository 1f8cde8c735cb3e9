//! The search for pool sizes with which a certificate accepts a plan.

ghost use Rattle.std.specs.Prelude.{◌≡◌, IfOk, IfSome, IsTrue};
ghost use Rattle.soundness.specs.Accepted.{accepted};
ghost use Rattle.job_bodies.specs.WellFormed.{IsWellFormed};
ghost use Rattle.size_search.specs.Causes.{IsWithoutCause};
ghost use Rattle.size_search.specs.Sized.{IsFound};
ghost use Rattle.size_search.specs.Decided.{IsDecided};
ghost use Rattle.size_search.specs.declared.found.SizesFound.TheVariants.{Found};

use crate::attempt::{Attempt, attempt_from};
use crate::cause_of;
use crate::fit_steady::fit_steady;
use crate::found::{AttemptError, NoSizes, Obstacle, SizesFound};
use crate::least_sizes::least_sizes;
use crate::pool_threads::{PoolThreads, declared_threads};
use crate::stabilize::stabilize;
use crate::vector_cache::VectorCache;
use cert_check::accepts;
use cert_text::Cert;
use job_bodies::{MAX_POOLS, Plan};
use std::alloc::{AllocError, Global};
use weights::Levels;

/// The maximum number of attempts that start with the declared sizes, in addition to the first
/// attempt. These attempts differ in the pool whose core they raise first. In a plan with more than
/// [`FEW_POOLS`] pools, this number is also the maximum number of attempts that reset one pool to
/// its declared core and maximum.
const FURTHER_ATTEMPTS: usize = 3;

/// The maximum number of pools in a small plan. In a small plan, each raised pool gets an attempt
/// of its own, which starts with the declared core and maximum of this pool. In a plan with more
/// pools, only the most raised pools get such an attempt.
const FEW_POOLS: usize = 8;

/// Searches for sizes that make a certificate accept the plan, with few and small increases. If the
/// certificate `first` already accepts the plan, returns the unchanged plan and `first`.
///
/// The search makes several attempts, and uses the attempt with the smallest sum of increases. An
/// attempt works in rounds, in which pools get ranks and blocked vectors, as in the search for a
/// certificate. If a round finds no pool with a large enough core, it raises the core of the pool
/// that needs the smallest increase. After the rounds, the attempt computes the queues, and reduces
/// all sizes to what the certificate needs. Some later attempts raise the core of another pool
/// first. Others start with the cores and maximums of the best attempt so far, but reset one pool
/// to its declared core and maximum.
///
/// The queue of a pool stays unchanged if the pool may reject jobs or the queue is unbounded. The
/// certificate has a bound of such a pool only if the search finds a vector for which the queue is
/// large enough. An unbounded queue is large enough for each standing vector. If core threads of a
/// pool may time out, its core and maximum stay unchanged too.
///
/// If no attempt succeeds, the search uses the plan's *steady certificate*, and returns the least
/// sizes that this certificate needs. In the steady certificate, one vector is the blocked vector
/// of every pool whose core threads never time out. The same vector is the bound of every pool that
/// needs one. A pool needs no bound if it may reject jobs or has an unbounded queue. The other
/// blocked vectors are 0.
///
/// The steady certificate is not used in the following cases. In the last two cases, there may be
/// no sizes with which it accepts the plan.
///
/// - It needs sizes above 1,000,000.
/// - It has a weight above [`MAX_WEIGHT`](job_bodies::MAX_WEIGHT).
/// - A repeating client submits a job, directly or through other jobs. The job is never got, and
///   its pool needs no bound.
/// - A class has a get, but no client submits this class, directly or through other jobs. The core
///   threads of the class's pool may time out.
///
/// If no sizes are found, one of these is the reason:
///
/// - The plan has a [`Cause`](crate::Cause), so no sizes are enough.
/// - The steady certificate is not used. Sizes for another certificate can exist.
///
/// If neither reason holds, sizes are found, and a search for a certificate of the plan with these
/// sizes then succeeds. The latter is not promised if the returned certificate is `first`.
///
/// The contract proves that the certificate accepts the plan with the sizes that were found. It
/// also proves that these sizes are the least for this certificate. Let the certificate also accept
/// the plan with other sizes that are no smaller than the declared sizes. Then these statements
/// hold:
///
/// - No maximum and no core of the other sizes is smaller than the one that was found.
/// - If the other sizes have the same maximums as those that were found, no queue is smaller
///   either. With larger maximums, smaller queues can be enough.
///
/// If a maximum was raised, it equals the core of the same pool. Another certificate can need
/// smaller sizes.
///
/// # Errors
///
/// Returns [`AllocError`] if memory runs out.
pub fn search_sizes(
    alloc: Global,
    plan: &Plan,
    first: Option<Cert>,
) -> Result<SizesFound, AllocError>
    ensures found { IfOk result (IsFound plan.now) }
    ensures decided { IfOk result (IsDecided plan.now) }
    ensures unchanged { IfSome first (λ cert.
        IsTrue (accepted plan.now cert) → IfOk result (λ found. found ≡ Found plan.now cert)) }
{
    if let Some(cert) = first {
        if accepts(plan, &cert) {
            let plan = plan.try_clone(alloc)?;
            return Ok(SizesFound::Found { plan, cert });
        }
    }
    search_without_first(alloc, plan)
}

/// Searches for sizes as [`search_sizes`] does if `first` is `None` or does not accept the plan.
fn search_without_first(alloc: Global, plan: &Plan) -> Result<SizesFound, AllocError>
    ensures found { IfOk result (IsFound plan.now) }
    ensures decided { IfOk result (IsDecided plan.now) }
{
    if let Some(cause) = cause_of(alloc, plan)? {
        return Ok(SizesFound::NotFound(NoSizes::Cause(cause)));
    }
    sizes_without_cause(alloc, plan)
}

/// Searches for sizes with which a certificate accepts the plan. The plan must have no cause (see
/// [`cause_of`]).
fn sizes_without_cause(alloc: Global, plan: &Plan) -> Result<SizesFound, AllocError>
    requires free { IsWithoutCause plan.now }
    requires well_formed { IsWellFormed plan.now }
    ensures { IfOk result (IsFound plan.now) }
{
    match unchecked_certificate(alloc, plan)? {
        Ok(cert) => sizes_for_certificate(alloc, plan, cert),
        Err(obstacle) => fit_steady(alloc, plan, obstacle),
    }
}

/// Searches for stable sizes, starting with the least sizes that the certificate needs. If there
/// are none, uses the steady certificate (see [`fit_steady`]).
fn sizes_for_certificate(alloc: Global, plan: &Plan, cert: Cert) -> Result<SizesFound, AllocError>
    requires free { IsWithoutCause plan.now }
    requires well_formed { IsWellFormed plan.now }
    ensures { IfOk result (IsFound plan.now) }
{
    match least_sizes(alloc, plan, &cert)? {
        Ok(fit) => stabilize(alloc, plan, fit, cert),
        Err(obstacle) => fit_steady(alloc, plan, obstacle),
    }
}

/// Returns a certificate that is likely to accept the plan after the plan's sizes are raised. The
/// certificate is not checked. Returns an obstacle if the search finds no certificate.
pub(crate) fn unchecked_certificate(
    alloc: Global,
    plan: &Plan,
) -> Result<Result<Cert, Obstacle>, AllocError> {
    let Some(levels) = Levels::of(alloc, plan)? else {
        return Ok(Err(Obstacle::Unknown));
    };
    let mut cache = VectorCache::of(alloc, plan, &levels)?;
    cheapest_certificate(alloc, &mut cache)
}

/// Returns the certificate of the attempt with the smallest sum of increases, or the obstacle of
/// the first attempt if all attempts failed.
fn cheapest_certificate(
    alloc: Global,
    cache: &mut VectorCache,
) -> Result<Result<Cert, Obstacle>, AllocError> {
    let declared = declared_threads(alloc, cache.plan)?;
    let mut best = match best_from_declared(alloc, cache, &declared)? {
        Ok(best) => best,
        Err(obstacle) => return Ok(Err(obstacle)),
    };
    improve(alloc, cache, &declared, &mut best)?;
    Ok(Ok(best.cert))
}

/// Makes the attempts that start with the declared sizes, and returns the one with the smallest sum
/// of increases. Returns the obstacle of the first attempt if all of them failed.
fn best_from_declared(
    alloc: Global,
    cache: &mut VectorCache,
    declared: &[PoolThreads],
) -> Result<Result<Attempt, Obstacle>, AllocError> {
    let mut best = attempt(alloc, cache, declared, 0)?;
    let choices = match &best {
        Ok(first) => first.choices,
        Err(_) => MAX_POOLS,
    };
    for passed_over in 1..choices.min(1 + FURTHER_ATTEMPTS) {
        let next = attempt(alloc, cache, declared, passed_over)?;
        keep_better(&mut best, next);
    }
    Ok(best)
}

/// Makes further attempts, and replaces `best` by each attempt that has a smaller sum of increases.
/// Each further attempt starts with the cores and maximums of the best attempt so far, but resets
/// one pool to its declared core and maximum. This pool is one of the most raised pools (see
/// [`most_raised_pools`]).
fn improve(
    alloc: Global,
    cache: &mut VectorCache,
    declared: &[PoolThreads],
    best: &mut Attempt,
) -> Result<(), AllocError> {
    for pool in most_raised_pools(alloc, best, declared)? {
        let threads = reset_pool(alloc, best, declared, pool)?;
        if let Ok(next) = outcome(attempt_from(alloc, cache, threads, 0))? {
            keep_cheaper(best, next);
        }
    }
    Ok(())
}

/// Makes an attempt that starts with these cores and maximums. The first round that raises a core
/// skips `passed_over` pools, in ascending order of the increases that they need, and raises the
/// core of the next pool.
fn attempt(
    alloc: Global,
    cache: &mut VectorCache,
    threads: &[PoolThreads],
    passed_over: usize,
) -> Result<Result<Attempt, Obstacle>, AllocError> {
    let threads = Vec::from_slice(alloc, threads)?;
    outcome(attempt_from(alloc, cache, threads, passed_over))
}

/// Replaces `best` by `next` if `next` succeeded, and `best` failed or has a larger sum of
/// increases.
fn keep_better(best: &mut Result<Attempt, Obstacle>, next: Result<Attempt, Obstacle>) {
    if let Ok(next) = next {
        match best {
            Ok(best) => keep_cheaper(best, next),
            Err(_) => *best = Ok(next),
        }
    }
}

/// Replaces `best` by `next` if `next` has a smaller sum of increases.
fn keep_cheaper(best: &mut Attempt, next: Attempt) {
    if next.cost < best.cost {
        *best = next;
    }
}

/// Separates an obstacle from a failed allocation. Returns the attempt or the obstacle as `Ok`, and
/// an [`AllocError`] as `Err`.
fn outcome(
    attempt: Result<Attempt, AttemptError>,
) -> Result<Result<Attempt, Obstacle>, AllocError> {
    match attempt {
        Ok(attempt) => Ok(Ok(attempt)),
        Err(AttemptError::Obstacle(obstacle)) => Ok(Err(obstacle)),
        Err(AttemptError::Memory(error)) => Err(error),
    }
}

/// Returns the pools whose core or maximum is larger in `best` than declared, in descending order
/// of the sum of both increases. The maximum of a pool with an unbounded queue is ignored. If the
/// plan has more than [`FEW_POOLS`] pools, returns at most [`FURTHER_ATTEMPTS`] pools.
fn most_raised_pools(
    alloc: Global,
    best: &Attempt,
    declared: &[PoolThreads],
) -> Result<Vec<usize>, AllocError> {
    let wanted = if declared.len() <= FEW_POOLS {
        declared.len()
    } else {
        FURTHER_ATTEMPTS
    };
    let mut raised = Vec::new(alloc);
    for _ in 0..wanted {
        if let Some(pool) = most_raised_pool(best, declared, &raised) {
            raised.push(pool)?;
        }
    }
    Ok(raised)
}

/// Returns the pool with the largest sum of both increases that is not in `skipped`, or `None` if
/// all other sums are 0.
fn most_raised_pool(best: &Attempt, declared: &[PoolThreads], skipped: &[usize]) -> Option<usize> {
    let mut most = 0;
    let mut chosen = None;
    for (pool, (pool_threads, declared)) in best.threads.iter().zip(declared).enumerate() {
        let growth = pool_threads.growth(*declared);
        if growth > most && !skipped.contains(&pool) {
            most = growth;
            chosen = Some(pool);
        }
    }
    chosen
}

/// Returns the cores and maximums of the attempt `best`, except that this pool has its declared
/// core and maximum.
fn reset_pool(
    alloc: Global,
    best: &Attempt,
    declared: &[PoolThreads],
    pool: usize,
) -> Result<Vec<PoolThreads>, AllocError> {
    let mut threads = Vec::from_slice(alloc, &best.threads)?;
    if let (Some(pool_threads), Some(declared)) = (threads.get_mut(pool), declared.get(pool)) {
        *pool_threads = *declared;
    }
    Ok(threads)
}
