//! One round of the search. The workers (threads of the search) search for these vectors of each
//! pool without a rank:
//!
//! - The bound of the pool's queue, only in the first round.
//! - The blocked vector. It bounds the number of the pool's jobs that wait at *counted* gets. A get
//!   is counted if the job for which it waits depends on a pool without a rank. This is the case if
//!   the reach of the job's class is at least the round's rank (see [`Round`]).

ghost use Rattle.std.specs.Prelude.{◌≡◌, ◌≢◌, ◌<◌, ◌≤◌, IfErr, IfOk, length};
ghost use Rattle.cert_search.specs.declared.finding.SearchFault.TheVariants.{Memory, Mixed};

use crate::SearchFault;
use crate::board::{Board, claim, give_back};
use cert_check::PoolGate;
use held_machines::Locked;
use job_bodies::{Action, MAX_POOLS, Plan};
use std::alloc::{AllocError, Global};
use std::sync::Wait;
use std::sync::atomic::{AtomicBool, Ordering};
use weights::{Bound, Levels, Vector, blocked_vector, pool_bound, submitted_class};

/// The data that all workers (threads of the search) share in a round.
#[derive(Clone, Copy)]
pub(crate) struct Round<'a> {
    pub(crate) plan: &'a Plan,
    pub(crate) levels: &'a Levels,
    /// The reach of each class. A job of the class depends on its own pool, and on the pools of all
    /// jobs that it gets, directly or through other jobs. The reach is the greatest rank of these
    /// pools. A pool without a rank counts as if it had the rank of this round.
    pub(crate) reach: &'a [u64],
    /// The reach of each class in the previous round. The slice is empty in the first round.
    pub(crate) reach_before: &'a [u64],
    /// The rank that pools get in this round: the round's number, counted from 0.
    pub(crate) rank: u64,
}

/// The vectors that a round found for a pool.
#[derive(Drop)]
pub(crate) struct PoolVectors {
    pub(crate) pool: usize,
    /// The bound of the pool's queue, or `None` if the round found none. Only the first round
    /// searches for bounds. A pool that may reject jobs or has an unbounded queue needs no bound.
    pub(crate) bound: Option<Bound>,
    pub(crate) blocked: Option<Vector>,
}

impl Round<'_> {
    /// Searches for the pool's blocked vector. In the first round, also searches for the pool's
    /// bound. Skips the search for the blocked vector if the pool's jobs have the same counted gets
    /// as in the previous round, because that round found no vector for these gets.
    ///
    /// # Errors
    ///
    /// Returns [`SearchFault::Mixed`] if the plan does not have the pool, and
    /// [`SearchFault::Memory`] if memory runs out.
    fn search_pool(&self, alloc: Global, pool: usize) -> Result<PoolVectors, SearchFault>
        ensures named { IfOk result (λ found. found.pool ≡ pool) }
        ensures exists { IfOk result (λ _. pool < length self.now.plan.now.pools) }
        ensures fault { IfErr result (λ fault. fault ≢ Memory → fault ≡ Mixed) }
        ensures mixed { IfErr result
            (λ fault. fault ≡ Mixed → length self.now.plan.now.pools ≤ pool) }
    {
        if pool >= self.plan.pools().len() {
            return Err(SearchFault::Mixed);
        }
        let bound = if self.rank == 0 {
            pool_bound(alloc, self.plan, self.levels, pool)?
        } else {
            None
        };
        let blocked = if self.counts_same_gets(pool) {
            None
        } else {
            blocked_vector(alloc, self.plan, self.levels, pool, self.rank, self.reach)?
        };
        Ok(PoolVectors {
            pool,
            bound,
            blocked,
        })
    }

    /// Returns whether the jobs of the pool have the same counted gets as in the previous round.
    /// The pool must not have a rank. Returns `false` in the first round.
    fn counts_same_gets(&self, pool: usize) -> bool {
        if self.rank == 0 {
            return false;
        }
        for class in self.plan.classes() {
            if class.pool == pool && !self.body_counts_same_gets(&class.body) {
                return false;
            }
        }
        true
    }

    /// Returns whether a job with this body has the same counted gets as in the previous round. The
    /// job's pool must not have a rank yet.
    fn body_counts_same_gets(&self, body: &[Action]) -> bool {
        let rank_before = self.rank.saturating_sub(1);
        for action in body {
            if let Action::Get(submit) = action {
                let class = submitted_class(body, *submit);
                let has_counted = reaches(self.reach_before, class, rank_before);
                if has_counted != reaches(self.reach, class, self.rank) {
                    return false;
                }
            }
        }
        true
    }

    /// Repeats these steps until no pool is free or `stop` is set, and then returns the vectors
    /// that were found. The lock of the board is not held during steps 2 and 3.
    ///
    /// 1. Claims a free pool.
    /// 2. Calls the gate, a hook that can stop the search.
    /// 3. Searches for the vectors of the pool.
    /// 4. Gives the pool back.
    ///
    /// # Errors
    ///
    /// Returns [`SearchFault::Gate`] if the gate returns `false`, and [`SearchFault::Memory`] if
    /// memory runs out. Returns [`SearchFault::Mixed`] if a claimed pool does not exist or cannot
    /// be given back.
    fn search_free_pools<R: Wait, G: PoolGate>(
        &self,
        rt: &R,
        alloc: Global,
        board: &Locked<Board>,
        stop: &AtomicBool,
        gate: &G,
    ) -> Result<Vec<PoolVectors>, SearchFault> {
        let mut found = Vec::new(alloc);
        for _ in 0..MAX_POOLS {
            if stop.load(Ordering::SeqCst) {
                break;
            }
            let claimed = claim(&mut board.lock(rt))?;
            let Some(pool) = claimed else {
                break;
            };
            if !gate.begin(pool) {
                return Err(SearchFault::Gate);
            }
            let vectors = self.search_pool(alloc, pool)?;
            found.push(vectors).map_err(AllocError::from)?;
            let given = give_back(&mut board.lock(rt), pool)?;
            if !given {
                return Err(SearchFault::Mixed);
            }
        }
        Ok(found)
    }

    /// Runs one worker in the round and returns the vectors that it found. If the worker fails,
    /// sets `stop`, so that the other workers stop.
    pub(crate) fn work<R: Wait, G: PoolGate>(
        &self,
        rt: &R,
        alloc: Global,
        board: &Locked<Board>,
        stop: &AtomicBool,
        gate: &G,
    ) -> Result<Vec<PoolVectors>, SearchFault> {
        let found = self.search_free_pools(rt, alloc, board, stop, gate);
        if found.is_err() {
            stop.store(true, Ordering::SeqCst);
        }
        found
    }
}

/// Returns whether the reach of the class is at least the rank. A class without an entry in `reach`
/// has reach 0.
fn reaches(reach: &[u64], class: usize, rank: u64) -> bool {
    reach.get(class).copied().unwrap_or(0) >= rank
}
