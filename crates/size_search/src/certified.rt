//! The certificate of an attempt to find sizes. The attempt works in rounds, in which pools get
//! ranks. The certificate is built after the rounds, when every pool has a rank.

use crate::bounds::bound_of;
use crate::found::{AttemptError, Obstacle};
use crate::pool_threads::maxes_of;
use crate::rounds::RankAssignment;
use crate::vector_cache::{CacheHit, VectorCache};
use cert_text::{Cert, PoolCert};
use std::alloc::{AllocError, Global};
use weights::{Kind, Ranks, Vector, reach};

/// Returns the certificate that results from a [`RankAssignment`] in which every pool has a rank.
/// The certificate can need smaller cores and maximums than the assignment has. So the caller
/// computes the sizes anew, starting with the plan's sizes.
///
/// # Errors
///
/// Returns an obstacle in these cases:
///
/// - A pool has no rank.
/// - The blocked vector of a pool is not found.
/// - A pool needs a bound, and no bound is found for it.
/// - Another vector must be computed, but the search has already computed the maximum number of
///   vectors.
pub(crate) fn cert_of(
    alloc: Global,
    cache: &mut VectorCache,
    assignment: &RankAssignment,
) -> Result<Cert, AttemptError> {
    let ranks = assignment.ranks_or(alloc, 0)?;
    let reach = reach(alloc, cache.plan, cache.levels, &ranks)?;
    let pools = pool_certs(alloc, cache, assignment, &reach)?;
    let levels = Vec::from_slice(alloc, &cache.levels.of_classes)?;
    Ok(Cert {
        pools,
        ranks: Ranks {
            pools: ranks,
            reach,
            levels,
        },
    })
}

/// Returns the bound and the blocked vector of each pool (see [`pool_cert`]).
fn pool_certs(
    alloc: Global,
    cache: &mut VectorCache,
    assignment: &RankAssignment,
    reach: &[u64],
) -> Result<Vec<PoolCert>, AttemptError> {
    let maxes = maxes_of(alloc, &assignment.threads)?;
    let mut pools = Vec::with_capacity(alloc, cache.plan.pools().len())?;
    for number in 0..cache.plan.pools().len() {
        let cert = pool_cert(alloc, cache, assignment, number, &maxes, reach)?;
        pools.push(cert).map_err(AllocError::from)?;
    }
    Ok(pools)
}

/// Returns the bound and the blocked vector of the pool with this number. The bound is `None` in
/// two cases:
///
/// - The queue is unbounded, and the search finds no standing vector.
/// - The queue is bounded, the pool may reject jobs, and the search finds no vector for which the
///   queue is large enough.
fn pool_cert(
    alloc: Global,
    cache: &mut VectorCache,
    assignment: &RankAssignment,
    number: usize,
    maxes: &[u64],
    reach: &[u64],
) -> Result<PoolCert, AttemptError> {
    let (Some(pool), Some(pool_threads), Some(Some((rank, hit)))) = (
        cache.plan.pool_at(number),
        assignment.threads.get(number),
        assignment.assigned.get(number),
    ) else {
        return Err(AttemptError::Obstacle(Obstacle::Unknown));
    };
    let blocked = blocked_of(alloc, cache, *hit, maxes, *rank, reach)?;
    let bound = bound_of(alloc, cache, number, pool, *pool_threads, maxes)?;
    Ok(PoolCert { bound, blocked })
}

/// Returns the blocked vector that the search found for a pool in the round that gave the pool its
/// rank. `hit` names the pool and the place of the vector in the cache. `maxes` and `reach` are
/// those after the last round. If there is no such vector, returns the pool as the obstacle.
///
/// Later rounds give only higher ranks. So the same gets stay [counted](weights::Counted), and the
/// vector stays valid.
fn blocked_of(
    alloc: Global,
    cache: &VectorCache,
    hit: CacheHit,
    maxes: &[u64],
    rank: u64,
    reach: &[u64],
) -> Result<Vector, AttemptError> {
    let kind = Kind::Blocked {
        reach,
        rank,
        lending: true,
    };
    let vector = cache.vector_at(alloc, hit, kind, maxes)?;
    vector.ok_or(AttemptError::Obstacle(Obstacle::Pool(hit.pool)))
}
