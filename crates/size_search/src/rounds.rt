//! The rounds in which pools get ranks. The blocked vector of a pool bounds the number of the
//! pool's jobs that wait for other jobs. In each round, the unranked pools whose cores are large
//! enough for their blocked vectors get the number of the round as their rank. If there is no such
//! pool, the round raises the core of one pool, which then gets this rank.

use crate::found::{AttemptError, Obstacle};
use crate::pool_threads::{PoolThreads, maxes_of};
use crate::vector_cache::{CacheHit, VectorCache};
use job_bodies::MAX_SIZE;
use std::alloc::{AllocError, Global};
use weights::{Kind, reach};

/// The cores, maximums and ranks of the pools after some rounds.
#[derive(Drop)]
pub(crate) struct RankAssignment {
    /// The current core and maximum of each pool.
    pub(crate) threads: Vec<PoolThreads>,
    /// For each pool, its rank and its blocked vector, or `None` if the pool has no rank yet.
    pub(crate) assigned: Vec<Option<(u64, CacheHit)>>,
    /// Whether a round raised the maximum of a pool, because it raised the pool's core above that
    /// maximum.
    pub(crate) has_widened: bool,
    /// The largest number of pools among which a round could choose when it raised a core, or 0 if
    /// no round raised a core.
    pub(crate) choices: usize,
}

impl RankAssignment {
    /// Creates an assignment without ranks.
    fn new(alloc: Global, threads: Vec<PoolThreads>) -> Result<RankAssignment, AllocError> {
        let assigned = vec![in alloc; None; threads.len()]?;
        Ok(RankAssignment {
            threads,
            assigned,
            has_widened: false,
            choices: 0,
        })
    }

    /// Returns the rank of each pool. For a pool that has no rank yet, the result contains `rank`.
    pub(crate) fn ranks_or(&self, alloc: Global, rank: u64) -> Result<Vec<u64>, AllocError> {
        self.assigned
            .iter()
            .map(|assigned| assigned.map_or(rank, |assigned| assigned.0))
            .collect(alloc)
    }

    /// Finds a blocked vector for each pool without a rank, on the assumption that all these pools
    /// get `rank`. Returns the vectors as cache hits. If `lending` is `false`, workers have no
    /// weight in the vectors.
    fn lightest_vectors(
        &self,
        alloc: Global,
        cache: &mut VectorCache,
        rank: u64,
        lending: bool,
    ) -> Result<Vec<CacheHit>, AttemptError> {
        let ranks = self.ranks_or(alloc, rank)?;
        let reach = reach(alloc, cache.plan, cache.levels, &ranks)?;
        let maxes = maxes_of(alloc, &self.threads)?;
        let kind = Kind::Blocked {
            reach: &reach,
            rank,
            lending,
        };
        self.lightest_of_kind(alloc, cache, kind, &maxes)
    }

    /// Finds a vector of this kind for each pool without a rank. Returns the vectors as cache hits.
    /// `maxes` has the maximum of each pool.
    fn lightest_of_kind(
        &self,
        alloc: Global,
        cache: &mut VectorCache,
        kind: Kind,
        maxes: &[u64],
    ) -> Result<Vec<CacheHit>, AttemptError> {
        let mut hits = Vec::new(alloc);
        for (pool, assigned) in self.assigned.iter().enumerate() {
            if assigned.is_none() {
                let enough = self.least_threads(pool).saturating_sub(1);
                let hit = cache.lightest(alloc, pool, kind, maxes, enough)?;
                hits.push(hit).map_err(AllocError::from)?;
            }
        }
        Ok(hits)
    }

    /// Returns the least number of threads that the pool can have while its queue has a job.
    fn least_threads(&self, pool: usize) -> u64 {
        match self.threads.get(pool) {
            Some(pool_threads) => pool_threads.least_threads(),
            None => 0,
        }
    }

    /// Gives the rank to each pool of `hits` whose core is large enough for its blocked vector.
    /// Returns `false` if there is no such pool.
    fn assign_all(&mut self, hits: &[CacheHit], rank: u64) -> bool {
        let mut any = false;
        for hit in hits {
            if self.shortfall(hit) == 0 {
                self.assign(*hit, rank);
                any = true;
            }
        }
        any
    }

    /// Gives the rank to one of the pools of `hits`, after its core was raised. Skips `passed_over`
    /// pools if no round raised a core before (see [`assign_ranks`]).
    ///
    /// # Errors
    ///
    /// Returns an obstacle if no core up to `MAX_SIZE` is enough for any of the pools, or if such a
    /// core is enough only for the pools that are skipped.
    fn raise_one(
        &mut self,
        alloc: Global,
        hits: &[CacheHit],
        rank: u64,
        passed_over: usize,
    ) -> Result<(), AttemptError> {
        let choices = self.within_limit(alloc, hits)?;
        if choices.is_empty() {
            return Err(AttemptError::Obstacle(self.obstacle_of(hits)));
        }
        let choice = if self.choices == 0 { passed_over } else { 0 };
        self.choices = self.choices.max(choices.len());
        self.assign_one(&choices, rank, choice)
    }

    /// Gives the rank to one of the pools of `hits`. Raises the core of this pool, and if necessary
    /// its maximum, to what its blocked vector needs. `choice` selects the pool: it is an index,
    /// from 0, into the pools of `hits` in ascending order of the necessary increases.
    ///
    /// # Errors
    ///
    /// Returns [`Obstacle::Unknown`] if `choice` is not below the number of hits.
    fn assign_one(
        &mut self,
        hits: &[CacheHit],
        rank: u64,
        choice: usize,
    ) -> Result<(), AttemptError> {
        let Some(hit) = self.choice_of(hits, choice) else {
            return Err(AttemptError::Obstacle(Obstacle::Unknown));
        };
        let core = core_for(&hit);
        if let Some(pool_threads) = self.threads.get_mut(hit.pool) {
            self.has_widened = self.has_widened || core > pool_threads.max;
            *pool_threads = pool_threads.raised(core);
        }
        self.assign(hit, rank);
        Ok(())
    }

    /// Returns the entries of `hits` whose pools need a core of at most `MAX_SIZE`. Each entry has
    /// a pool and the total of its blocked vector. A pool whose core threads may time out is
    /// included only if a core of 1 is enough for it.
    fn within_limit(&self, alloc: Global, hits: &[CacheHit]) -> Result<Vec<CacheHit>, AllocError> {
        hits.iter()
            .filter(|hit| core_for(hit) <= MAX_SIZE && self.shortfall(hit) < u64::MAX)
            .copied()
            .collect(alloc)
    }

    /// Returns the obstacle of a round in which no core up to `MAX_SIZE` is enough for any pool
    /// without a rank. The obstacle names the pool whose core and maximum would have to grow least,
    /// in total.
    fn obstacle_of(&self, hits: &[CacheHit]) -> Obstacle {
        match self.choice_of(hits, 0) {
            Some(hit) => Obstacle::Pool(hit.pool),
            None => Obstacle::Unknown,
        }
    }

    /// Returns the entry of `hits` at index `choice`, counted from 0, in ascending order of the
    /// shortfalls. The shortfall of a pool is how much its core and maximum must grow, in total,
    /// for its blocked vector. Returns `None` if `choice` is not below the number of entries.
    fn choice_of(&self, hits: &[CacheHit], choice: usize) -> Option<CacheHit> {
        for hit in hits {
            let shortfall = self.shortfall(hit);
            let before = hits
                .iter()
                .filter(|other| {
                    let less = self.shortfall(other);
                    less < shortfall || (less == shortfall && other.pool < hit.pool)
                })
                .count();
            if before == choice {
                return Some(*hit);
            }
        }
        None
    }

    fn assign(&mut self, hit: CacheHit, rank: u64) {
        if let Some(assigned) = self.assigned.get_mut(hit.pool) {
            *assigned = Some((rank, hit));
        }
    }

    /// Returns the shortfall of the pool of `hit`: how much its core and maximum must grow, in
    /// total, for its blocked vector.
    fn shortfall(&self, hit: &CacheHit) -> u64 {
        match self.threads.get(hit.pool) {
            Some(pool_threads) => pool_threads.shortfall(core_for(hit)),
            None => u64::MAX,
        }
    }
}

/// Returns the core that a pool with this blocked vector needs: 1 more than the vector's total.
fn core_for(hit: &CacheHit) -> u64 {
    hit.total.saturating_add(1)
}

/// Gives each pool a rank and a blocked vector, in rounds. The first round starts with the cores
/// and maximums in `threads`.
///
/// - In each round, all unranked pools whose cores are large enough for their blocked vectors get
///   the number of the round as their rank.
/// - If there is no such pool, the round raises the core of one pool and gives the rank to it. This
///   is the pool with the smallest shortfall: the necessary increase of its core plus the necessary
///   increase of its maximum.
/// - The first round that raises a core is an exception. It skips `passed_over` pools, in ascending
///   order of the shortfalls, and raises the core of the next pool.
///
/// The core of a pool whose core threads may time out is never raised. If `lending` is `false`, no
/// workers have weight in the vectors.
///
/// # Errors
///
/// Returns an obstacle if a round must raise a core, but no core up to `MAX_SIZE` is enough for any
/// unranked pool. The first such round also fails if such a core is enough only for pools that the
/// round skips.
pub(crate) fn assign_ranks(
    alloc: Global,
    cache: &mut VectorCache,
    threads: Vec<PoolThreads>,
    lending: bool,
    passed_over: usize,
) -> Result<RankAssignment, AttemptError> {
    let mut assignment = RankAssignment::new(alloc, threads)?;
    for rank in 0..cache.plan.pools().len() as u64 {
        let hits = assignment.lightest_vectors(alloc, cache, rank, lending)?;
        if hits.is_empty() {
            break;
        }
        if !assignment.assign_all(&hits, rank) {
            assignment.raise_one(alloc, &hits, rank, passed_over)?;
        }
    }
    Ok(assignment)
}

/// Executes the rounds of [`assign_ranks`], repeats them until no maximum grows, and returns the
/// last assignment. The repetitions are necessary because a larger maximum can increase totals. The
/// number of repetitions is limited. In the last possible repetition, workers have no weight, so
/// that totals do not depend on maximums.
///
/// `passed_over` applies only to the first execution of the rounds. The field `choices` of the
/// result describes only this execution.
pub(crate) fn assign_ranks_to_fixpoint(
    alloc: Global,
    cache: &mut VectorCache,
    threads: Vec<PoolThreads>,
    passed_over: usize,
) -> Result<RankAssignment, AttemptError> {
    let turns = cache.plan.pools().len().saturating_mul(2).saturating_add(4);
    let mut assignment = assign_ranks(alloc, cache, threads, true, passed_over)?;
    let choices = assignment.choices;
    for turn in 0..=turns {
        if !assignment.has_widened {
            break;
        }
        assignment = assign_ranks(alloc, cache, assignment.threads, turn < turns, 0)?;
    }
    assignment.choices = choices;
    Ok(assignment)
}
