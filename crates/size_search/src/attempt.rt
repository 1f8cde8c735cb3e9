//! One attempt to find sizes with which a certificate accepts the plan. The attempt works in
//! rounds. Each round gives a rank to some pools, and may raise the core of one of these pools.
//! After the rounds, the attempt computes the least sizes for the resulting certificate.

use crate::certified::cert_of;
use crate::found::AttemptError;
use crate::least_sizes::least_sizes;
use crate::pool_threads::{PoolThreads, declared_threads};
use crate::rounds::assign_ranks_to_fixpoint;
use crate::vector_cache::VectorCache;
use cert_text::Cert;
use job_bodies::{Plan, Pool};
use std::alloc::Global;

/// A certificate that an attempt found, and the sizes that the certificate needs.
#[derive(Drop)]
pub(crate) struct Attempt {
    pub(crate) cert: Cert,
    /// The core and maximum that each pool needs.
    pub(crate) threads: Vec<PoolThreads>,
    /// The sum of the amounts by which the needed cores, maximums and queues exceed the declared
    /// ones. The maximum of a pool with an unbounded queue does not count.
    pub(crate) cost: u64,
    /// The largest number of pools among which a round could choose when it raised a core, or 0 if
    /// no round raised a core. If the rounds were repeated, only their first execution counts.
    pub(crate) choices: usize,
}

/// Searches for a certificate of the plan, and for the least sizes that this certificate needs. The
/// search starts with the cores and maximums in `threads`.
///
/// The search works in rounds, which [`assign_ranks`](crate::rounds::assign_ranks) explains. If a
/// round must raise a core, it raises the core of the pool that needs the smallest increase. The
/// first such round is an exception. It skips `passed_over` pools, in ascending order of the
/// necessary increases, and raises the core of the next pool.
///
/// # Errors
///
/// Returns an obstacle if the search finds no certificate, or no sizes for the certificate. Also
/// returns an error if memory runs out.
pub(crate) fn attempt_from(
    alloc: Global,
    cache: &mut VectorCache,
    threads: Vec<PoolThreads>,
    passed_over: usize,
) -> Result<Attempt, AttemptError> {
    let assignment = assign_ranks_to_fixpoint(alloc, cache, threads, passed_over)?;
    let choices = assignment.choices;
    let cert = cert_of(alloc, cache, &assignment)?;
    let (threads, cost) = needs_of(alloc, cache.plan, &cert)?;
    Ok(Attempt {
        cert,
        threads,
        cost,
        choices,
    })
}

/// Returns the core and maximum that each pool needs for the certificate, and the sum of the
/// increases (see [`growth`]).
fn needs_of(
    alloc: Global,
    plan: &Plan,
    cert: &Cert,
) -> Result<(Vec<PoolThreads>, u64), AttemptError> {
    match least_sizes(alloc, plan, cert)? {
        Ok(fit) => Ok((declared_threads(alloc, &fit)?, growth(plan, &fit))),
        Err(obstacle) => Err(AttemptError::Obstacle(obstacle)),
    }
}

/// Returns the sum of the amounts by which the cores, maximums and queues of `fit` exceed those of
/// `plan`. The maximum of a pool with an unbounded queue does not count, because such a maximum has
/// no effect.
pub(crate) fn growth(plan: &Plan, fit: &Plan) -> u64 {
    let mut growth = 0u64;
    for (pool, fit) in plan.pools().iter().zip(fit.pools()) {
        growth = growth.saturating_add(pool_growth(pool, fit));
    }
    growth
}

/// Returns the sum of the amounts by which the core, the maximum and the queue of `fit` exceed those
/// of `pool` (see [`growth`]).
fn pool_growth(pool: &Pool, fit: &Pool) -> u64 {
    let threads = PoolThreads::of(fit).growth(PoolThreads::of(pool));
    threads.saturating_add(fit.queue.saturating_sub(pool.queue))
}
