//! The lightest vectors of a pool, for searches that change the sizes of a plan. There are three
//! kinds:
//!
//! - A *standing vector* bounds the number of queued jobs of the pool.
//! - A *lifetime vector* bounds the number of all jobs that are ever submitted to the pool.
//! - A *blocked vector* bounds the number of the pool's jobs that wait at certain gets. These gets
//!   wait for jobs of classes with a high reach (see [`Kind::Blocked`]).

ghost use Rattle.std.specs.Prelude.{◌≡◌, ◌<◌, length, IfOk, IfSome, IsTrue, vec_len};
ghost use Rattle.weights.specs.Vector.{vector_fits};

use crate::complete_vector::vector_of;
use crate::minimize_total::{Loans, minimize_total};
use crate::sketch::{Sketch, TOO_HEAVY};
use crate::target::{Lenders, Target};
use crate::{Levels, Vector};
use job_bodies::Plan;
use std::alloc::{AllocError, Global};

/// The summary of a vector: the weights of workers and the total of the vector, without the weights
/// of jobs and clients.
#[derive(Drop)]
pub struct VectorSummary {
    /// For each pool, the weight of one of its workers.
    pub workers: Vec<u64>,
    /// The pools whose workers had weight at some point in the search. A second search gives the
    /// same result if only the maximums of other pools differ, and none of them is smaller than in
    /// the first search.
    pub lenders: Vec<usize>,
    /// The total of the vector: the weight of all clients at the start of their bodies, plus the
    /// weight of all workers if each pool has its maximum of workers.
    pub total: u64,
}

/// The kind of a vector of a pool. The core size and the queue of the pool have no effect on the
/// vector.
#[derive(Clone, Copy)]
pub enum Kind<'a> {
    /// A standing vector, which bounds the number of queued jobs of the pool. The workers of each
    /// pool may have weight.
    Standing,
    /// A lifetime vector, which bounds the number of all jobs that are ever submitted to the pool.
    /// No workers have weight.
    Lifetime,
    /// A blocked vector of a pool with the rank `rank`. It bounds the number of the pool's jobs
    /// that wait at certain gets. These gets wait for jobs of classes with a reach of at least
    /// `rank`. The workers of this pool weigh 0. With a larger weight, the total would be at least
    /// the core size, but it must be less.
    Blocked {
        /// The reach of each class. A job of the class depends on its own pool, and on the pools of
        /// all jobs that it gets, directly or through other jobs. The reach is the greatest rank of
        /// these pools.
        reach: &'a [u64],
        rank: u64,
        /// Whether the workers of other pools may have weight.
        lending: bool,
    },
}

/// A plan with other maximums in place of its own.
#[derive(Clone, Copy)]
pub struct ResizedPlan<'a> {
    pub plan: &'a Plan,
    pub levels: &'a Levels,
    /// The maximum of each pool. It replaces the maximum in `plan`.
    pub maxes: &'a [u64],
}

impl ResizedPlan<'_> {
    /// Searches for a vector of the pool, and returns the summary of the vector. If the search
    /// finds a vector with a total of at most `enough`, returns the summary of this vector.
    /// Otherwise, returns the summary of the vector with the smallest total that the search found.
    ///
    /// Returns `None` if the search finds no vector at all, because a number would be above
    /// `MAX_WEIGHT`, or because a repeating client would need more weight in each round than in the
    /// round before.
    ///
    /// # Errors
    ///
    /// Returns [`AllocError`] if memory runs out.
    pub fn lightest(
        &self,
        alloc: Global,
        pool: usize,
        kind: Kind,
        enough: u64,
    ) -> Result<Option<VectorSummary>, AllocError>
        ensures workers { IfOk result (λ found.
            IfSome found (λ summary. vec_len summary.workers ≡ length self.now.plan.now.pools)) }
    {
        let target = self.target(pool, kind, enough);
        let Loans {
            workers,
            lenders,
            sketch,
        } = minimize_total(alloc, self.plan, self.levels, &target)?;
        if sketch.total == TOO_HEAVY {
            return Ok(None);
        }
        Ok(Some(VectorSummary {
            workers,
            lenders,
            total: sketch.total,
        }))
    }

    /// Returns the vector of this kind for the pool. `workers` has the worker weights of the
    /// vector, one for each pool. Returns `None` if a number of the vector is above `MAX_WEIGHT`,
    /// or if `workers` does not have one weight for each pool. The conditions of the returned
    /// vector need not hold, so the caller must check them.
    ///
    /// # Errors
    ///
    /// Returns [`AllocError`] if memory runs out.
    pub fn vector(
        &self,
        alloc: Global,
        pool: usize,
        kind: Kind,
        workers: &[u64],
    ) -> Result<Option<Vector>, AllocError>
        ensures { IfOk result
            (λ found. IfSome found (λ vector. IsTrue (vector_fits self.now.plan.now vector))) }
    {
        let target = self.target(pool, kind, 0);
        let sketch = Sketch::of(alloc, self.plan, self.levels, &target, workers)?;
        let workers = Vec::from_slice(alloc, workers)?;
        vector_of(alloc, self.plan, &target, workers, &sketch)
    }

    /// Returns the target of a search for a vector of this kind with a total of at most `limit`.
    fn target<'b>(&'b self, pool: usize, kind: Kind<'b>, limit: u64) -> Target<'b> {
        let target = match kind {
            Kind::Standing => Target::standing(pool, limit),
            Kind::Lifetime => Target::lifetime(pool, limit),
            Kind::Blocked {
                reach,
                rank,
                lending,
            } => Target {
                lenders: if lending {
                    Lenders::Others
                } else {
                    Lenders::NoPool
                },
                ..Target::blocked(pool, limit, reach, rank)
            },
        };
        Target {
            maxes: Some(self.maxes),
            ..target
        }
    }
}
