//! The vector that bounds a pool's queue: a standing vector, which bounds the number of queued
//! jobs, or a lifetime vector, which bounds the number of jobs that the pool ever accepts.

use crate::found::{AttemptError, Obstacle};
use crate::pool_threads::PoolThreads;
use crate::vector_cache::{CacheHit, VectorCache};
use job_bodies::Pool;
use std::alloc::{AllocError, Global};
use weights::{Bound, Kind};

/// Returns the vector that bounds the pool's queue:
///
/// - For an unbounded queue, returns a standing vector, or `None` if the search finds none.
/// - For a bounded queue of a pool that may reject jobs, returns a vector for which the queue is
///   already large enough, or `None` if the search finds none.
/// - For any other queue, returns the vector that requires the smallest increase of the queue. If
///   the search finds none, returns the pool as the obstacle.
///
/// `number` is the number of the pool. `pool_threads` has its current core and maximum, and `maxes`
/// has the current maximum of each pool.
pub(crate) fn bound_of(
    alloc: Global,
    cache: &mut VectorCache,
    number: usize,
    pool: &Pool,
    pool_threads: PoolThreads,
    maxes: &[u64],
) -> Result<Option<Bound>, AttemptError> {
    let least = least_bound(alloc, cache, number, pool, pool_threads, maxes)?;
    if pool.may_reject && least.missing > 0 {
        return Ok(None);
    }
    let bound = least.bound(alloc, cache, maxes)?;
    if bound.is_none() && !pool.needs_no_bound() {
        return Err(AttemptError::Obstacle(Obstacle::Pool(number)));
    }
    Ok(bound)
}

/// The cache hit of a vector that bounds a pool's queue.
#[derive(Clone, Copy)]
struct LeastBound {
    hit: CacheHit,
    /// Whether the vector is a lifetime vector. Otherwise it is a standing vector.
    is_lifetime: bool,
    /// The number by which the capacity of the pool's queue must grow for this vector. It is 0 if
    /// the queue is large enough or unbounded.
    missing: u64,
}

impl LeastBound {
    /// Returns the vector as a bound, or `None` if the hit has no vector.
    fn bound(
        self,
        alloc: Global,
        cache: &VectorCache,
        maxes: &[u64],
    ) -> Result<Option<Bound>, AllocError> {
        if self.is_lifetime {
            let vector = cache.vector_at(alloc, self.hit, Kind::Lifetime, maxes)?;
            Ok(vector.map(Bound::Lifetime))
        } else {
            let vector = cache.vector_at(alloc, self.hit, Kind::Standing, maxes)?;
            Ok(vector.map(Bound::Standing))
        }
    }
}

/// Searches for a vector that bounds the queue of the pool. Returns the cache hit of the standing
/// vector or of the lifetime vector, whichever requires the smaller increase of the queue. If both
/// increases are equal, or the queue is unbounded, it is the standing vector. The hit has no vector
/// if the search finds none.
fn least_bound(
    alloc: Global,
    cache: &mut VectorCache,
    number: usize,
    pool: &Pool,
    pool_threads: PoolThreads,
    maxes: &[u64],
) -> Result<LeastBound, AttemptError> {
    let enough = if pool.unbounded { 0 } else { pool.queue };
    let hit = cache.lightest(alloc, number, Kind::Standing, maxes, enough)?;
    let missing = if pool.unbounded {
        0
    } else {
        hit.total.saturating_sub(pool.queue)
    };
    let standing = LeastBound {
        hit,
        is_lifetime: false,
        missing,
    };
    if missing == 0 {
        return Ok(standing);
    }
    let hit = cache.lightest(alloc, number, Kind::Lifetime, maxes, 0)?;
    let queue = lifetime_queue(pool, pool_threads, hit.total);
    let lifetime = LeastBound {
        hit,
        is_lifetime: true,
        missing: queue.saturating_sub(pool.queue),
    };
    Ok(if lifetime.missing < missing {
        lifetime
    } else {
        standing
    })
}

/// Returns the queue capacity that the pool needs to accept this number of jobs in its lifetime.
/// Each thread that is not prestarted starts with a job, which needs no place in the queue. So the
/// capacity is the number of jobs minus the number of these threads, or 0 if there are fewer jobs
/// than threads. If core threads may time out, the capacity equals the number of jobs.
fn lifetime_queue(pool: &Pool, pool_threads: PoolThreads, jobs: u64) -> u64 {
    if pool.core_timeout {
        return jobs;
    }
    let first_workers = if pool.prestart { pool_threads.core } else { 0 };
    // The final maximum can be smaller than the current one, but not smaller than the declared one.
    // The queue of a pool that may reject jobs stays unchanged, so a lifetime vector must fit it with
    // each of these maximums.
    let max = if pool.may_reject {
        pool.max
    } else {
        pool_threads.max
    };
    jobs.saturating_add(first_workers).saturating_sub(max)
}
