//! The vectors that show where a plan may fail. A vector gives weights to workers, clients and
//! jobs, so that its total is an upper bound on a number of jobs. A plan may fail where a total is
//! larger than the plan's sizes allow. Each pool can have two vectors:
//!
//! - The standing vector bounds the number of queued jobs. A pool that may reject jobs, or whose
//!   queue is unbounded, needs no standing vector.
//! - The blocked vector bounds how many threads of the pool wait at counted gets.

use job_bodies::Plan;
use std::alloc::{AllocError, Global};
use weights::{Kind, Levels, ResizedPlan, Vector, reach};

/// The weights of a vector that has a larger total than the plan's sizes allow. A walk uses these
/// weights to compute how much weight a choice loses.
#[derive(Drop)]
pub(crate) struct Potential {
    pub(crate) workers: Vec<u64>,
    pub(crate) classes: Vec<Vec<u64>>,
    pub(crate) clients: Vec<Vec<u64>>,
}

/// Returns the vectors that show where the plan may fail. Computes the lightest vectors that each
/// pool needs in a certificate, and returns those whose totals are larger than the plan's sizes
/// allow. The list is empty if a class submits itself, directly or through other classes.
pub(crate) fn missed_vectors(alloc: Global, plan: &Plan) -> Result<Vec<Potential>, AllocError> {
    match Levels::of(alloc, plan)? {
        Some(levels) => missed_at_levels(alloc, plan, &levels),
        None => Ok(Vec::new(alloc)),
    }
}

/// Returns the vectors of [`missed_vectors`] for a plan whose classes have these levels.
fn missed_at_levels(
    alloc: Global,
    plan: &Plan,
    levels: &Levels,
) -> Result<Vec<Potential>, AllocError> {
    let maxes: Vec<u64> = plan.pools().iter().map(|pool| pool.max).collect(alloc)?;
    let growing = ResizedPlan {
        plan,
        levels,
        maxes: &maxes,
    };
    let mut vectors = MissedVectors {
        alloc,
        potentials: Vec::new(alloc),
    };
    vectors.check_standing(&growing)?;
    vectors.check_blocked(&growing)?;
    Ok(vectors.potentials)
}

/// Returns the reach of each class, if each pool that has no rank in `ranks` gets `rank`.
fn reach_at_rank(
    alloc: Global,
    growing: &ResizedPlan,
    ranks: &[Option<u64>],
    rank: u64,
) -> Result<Vec<u64>, AllocError> {
    let known: Vec<u64> = ranks
        .iter()
        .map(|known| known.unwrap_or(rank))
        .collect(alloc)?;
    reach(alloc, growing.plan, growing.levels, &known)
}

/// The vectors that were found to have larger totals than the plan's sizes allow.
#[derive(Drop)]
struct MissedVectors {
    alloc: Global,
    potentials: Vec<Potential>,
}

impl MissedVectors {
    /// Records the lightest standing vector of each pool, if its total is above the capacity of the
    /// pool's queue. Skips the pools that need no standing vector.
    fn check_standing(&mut self, growing: &ResizedPlan) -> Result<(), AllocError> {
        for (number, pool) in growing.plan.pools().iter().enumerate() {
            if !pool.needs_no_bound() {
                self.check_total(growing, number, Kind::Standing, pool.queue)?;
            }
        }
        Ok(())
    }

    /// Gives ranks to the pools: first 0, then 1, and so on. [`rank_pools`] decides which pools get
    /// each rank. Stops at the first rank that no pool gets, and then records the blocked vectors
    /// of the pools without a rank.
    ///
    /// [`rank_pools`]: MissedVectors::rank_pools
    fn check_blocked(&mut self, growing: &ResizedPlan) -> Result<(), AllocError> {
        let pools = growing.plan.pools().len();
        let mut ranks = vec![in self.alloc; None; pools]?;
        for rank in 0..pools as u64 {
            if !self.rank_pools(growing, &mut ranks, rank)? {
                break;
            }
        }
        Ok(())
    }

    /// Returns `true` if the pool's lightest vector of this kind has a total of at most `limit`. If
    /// the total is larger, records this vector and returns `false`. Also returns `false` if there
    /// is no vector of this kind.
    fn check_total(
        &mut self,
        growing: &ResizedPlan,
        pool: usize,
        kind: Kind,
        limit: u64,
    ) -> Result<bool, AllocError> {
        let Some(weighed) = growing.lightest(self.alloc, pool, kind, limit)? else {
            return Ok(false);
        };
        if weighed.total <= limit {
            return Ok(true);
        }
        if let Some(vector) = growing.vector(self.alloc, pool, kind, &weighed.workers)? {
            let Vector {
                workers,
                classes,
                clients,
            } = vector;
            self.potentials.push(Potential {
                workers,
                classes,
                clients,
            })?;
        }
        Ok(false)
    }

    /// Gives `rank` to each pool that has no rank and has enough threads. Ranks decide which gets
    /// are counted. A pool has enough threads if the first of these numbers is less than the
    /// second:
    ///
    /// - the total of the pool's lightest blocked vector for this rank, and
    /// - the least number of threads that the pool has while a job is queued.
    ///
    /// Returns whether any pool got the rank. If none did, records the blocked vectors that were
    /// found, because their totals are too large.
    fn rank_pools(
        &mut self,
        growing: &ResizedPlan,
        ranks: &mut Vec<Option<u64>>,
        rank: u64,
    ) -> Result<bool, AllocError> {
        let reach = reach_at_rank(self.alloc, growing, ranks, rank)?;
        let kept = self.potentials.len();
        let kind = Kind::Blocked {
            reach: &reach,
            rank,
            lending: true,
        };
        let moved = self.rank_with(growing, ranks, rank, kind)?;
        if moved {
            self.potentials.truncate(kept);
        }
        Ok(moved)
    }

    /// Gives `rank` to each pool that has no rank and has enough threads (see [`rank_pools`]).
    /// `kind` is the kind of the blocked vectors for this rank. Records the lightest vector of each
    /// other pool without a rank, if there is one. Returns whether any pool got the rank.
    ///
    /// [`rank_pools`]: MissedVectors::rank_pools
    fn rank_with(
        &mut self,
        growing: &ResizedPlan,
        ranks: &mut Vec<Option<u64>>,
        rank: u64,
        kind: Kind,
    ) -> Result<bool, AllocError> {
        let mut moved = false;
        for (number, pool) in growing.plan.pools().iter().enumerate() {
            let Some(place) = ranks.get_mut(number) else {
                continue;
            };
            if place.is_some() {
                continue;
            }
            let limit = pool.least_threads().saturating_sub(1);
            if self.check_total(growing, number, kind, limit)? {
                *place = Some(rank);
                moved = true;
            }
        }
        Ok(moved)
    }
}
