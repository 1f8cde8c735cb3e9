//! The cores and maximums of pools, which a search raises.

use job_bodies::{Plan, Pool};
use std::alloc::{AllocError, Global};

/// The core and maximum of a pool.
#[derive(Clone, Copy)]
pub(crate) struct PoolThreads {
    pub(crate) core: u64,
    pub(crate) max: u64,
    /// Whether the queue of the pool is unbounded. The maximum of such a pool has no effect.
    pub(crate) unbounded: bool,
    /// Whether core threads may time out. If they may, a larger core or maximum does not help.
    pub(crate) core_timeout: bool,
}

impl PoolThreads {
    /// Returns the core and maximum that the pool declares.
    pub(crate) fn of(pool: &Pool) -> PoolThreads {
        PoolThreads {
            core: pool.core,
            max: pool.max,
            unbounded: pool.unbounded,
            core_timeout: pool.core_timeout,
        }
    }

    /// Returns the least number of threads that the pool can have while its queue has a job.
    pub(crate) fn least_threads(self) -> u64 {
        if self.core_timeout { 1 } else { self.core }
    }

    /// Returns how much the core and the maximum must grow, in total, so that both are at least
    /// `core`. If the queue is unbounded, the growth of the maximum does not count. If core threads
    /// may time out and `core` is above 1, no size is enough, and the result is `u64::MAX`.
    pub(crate) fn shortfall(self, core: u64) -> u64 {
        if core <= self.least_threads() {
            0
        } else if self.core_timeout {
            u64::MAX
        } else {
            self.raised(core).growth(self)
        }
    }

    /// Returns the amount by which this core exceeds the core of `other`, plus the amount by which
    /// this maximum exceeds the maximum of `other`. An amount is 0 if there is no increase. If the
    /// queue is unbounded, the maximum does not count.
    pub(crate) fn growth(self, other: PoolThreads) -> u64 {
        let core = self.core.saturating_sub(other.core);
        if self.unbounded {
            core
        } else {
            core.saturating_add(self.max.saturating_sub(other.max))
        }
    }

    /// Returns the core and the maximum, each of them raised to at least `core`. If core threads
    /// may time out, returns both unchanged.
    pub(crate) fn raised(self, core: u64) -> PoolThreads {
        if self.core_timeout {
            return self;
        }
        PoolThreads {
            core: self.core.max(core),
            max: self.max.max(core),
            ..self
        }
    }
}

/// Returns the core and maximum that each pool of the plan declares.
pub(crate) fn declared_threads(alloc: Global, plan: &Plan) -> Result<Vec<PoolThreads>, AllocError> {
    plan.pools().iter().map(PoolThreads::of).collect(alloc)
}

/// Returns the maximum of each pool.
pub(crate) fn maxes_of(alloc: Global, threads: &[PoolThreads]) -> Result<Vec<u64>, AllocError> {
    threads
        .iter()
        .map(|pool_threads| pool_threads.max)
        .collect(alloc)
}
