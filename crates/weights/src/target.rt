//! The target of a search for a vector of a pool. There are three kinds of vectors:
//!
//! - A *standing vector* bounds the number of queued jobs of the pool.
//! - A *lifetime vector* bounds the number of all jobs that are ever submitted to the pool.
//! - A *blocked vector* bounds the number of the pool's jobs that wait at certain gets. These gets
//!   wait for jobs of classes with a high reach (see [`WeightRequirement::AtGets`]).

use crate::numbers::number_at;
use crate::submitted_class;
use job_bodies::{Action, Class, Plan, Pool};

/// The requirement of a vector: the points at which each job of the target's pool must weigh at
/// least 1.
#[derive(Clone, Copy)]
pub(crate) enum WeightRequirement<'a> {
    /// While the job is queued. A standing vector has this requirement.
    WhileQueued,
    /// At each get that waits for a job of a class with a high reach. A reach is high if it is at
    /// least `rank`, which is the rank of the pool. A blocked vector has this requirement.
    AtGets {
        /// The reach of each class. A job of the class depends on its own pool, and on the pools of
        /// all jobs that it gets, directly or through other jobs. The reach is the greatest rank of
        /// these pools.
        reach: &'a [u64],
        rank: u64,
    },
    /// At every point, and also when the job is done. A lifetime vector has this requirement. In
    /// such a vector, an actor gains no weight by a get, and workers weigh 0.
    Everywhere,
}

/// The pools whose workers may have weight. These pools are called *lenders*. A worker adds its
/// weight to the queued job that it takes, so the queued jobs of a lender can weigh less.
#[derive(Clone, Copy)]
pub(crate) enum Lenders {
    /// All pools.
    All,
    /// All pools except the pool of the target.
    Others,
    /// No pool.
    NoPool,
}

/// The target of a search: a vector of one pool, with a limit on its total.
#[derive(Clone, Copy)]
pub(crate) struct Target<'a> {
    /// The index of the pool to which the vector belongs.
    pub(crate) pool: usize,
    /// The points at which each job of the pool must weigh at least 1.
    pub(crate) requirement: WeightRequirement<'a>,
    /// The greatest total that the search accepts.
    pub(crate) limit: u64,
    /// The pools whose workers may have weight.
    pub(crate) lenders: Lenders,
    /// The maximum of each pool, or `None` to use the maximums of the plan.
    pub(crate) maxes: Option<&'a [u64]>,
}

impl<'a> Target<'a> {
    /// Creates the target of a search for a standing vector of a pool. `number` is the index of the
    /// pool, and `limit` is the greatest total that the search accepts.
    pub(crate) fn standing(number: usize, limit: u64) -> Target<'static> {
        Target {
            pool: number,
            requirement: WeightRequirement::WhileQueued,
            limit,
            lenders: Lenders::All,
            maxes: None,
        }
    }

    /// Creates the target of a search for a lifetime vector of a pool. `number` is the index of the
    /// pool, and `limit` is the greatest total that the search accepts.
    pub(crate) fn lifetime(number: usize, limit: u64) -> Target<'static> {
        Target {
            pool: number,
            requirement: WeightRequirement::Everywhere,
            limit,
            lenders: Lenders::NoPool,
            maxes: None,
        }
    }

    /// Creates the target of a search for a blocked vector of a pool. `number` is the index of the
    /// pool, and `limit` is the greatest total that the search accepts. `rank` is the rank of the
    /// pool, and `reach` has the reach of each class.
    pub(crate) fn blocked(number: usize, limit: u64, reach: &'a [u64], rank: u64) -> Target<'a> {
        Target {
            pool: number,
            requirement: WeightRequirement::AtGets { reach, rank },
            limit,
            lenders: Lenders::All,
            maxes: None,
        }
    }

    /// Returns the target with no lenders if its limit is 0, and the unchanged target otherwise.
    /// Any weight of a worker makes the total positive, which a limit of 0 forbids.
    pub(crate) fn without_useless_loans(self) -> Target<'a> {
        if self.limit > 0 {
            return self;
        }
        Target {
            lenders: Lenders::NoPool,
            ..self
        }
    }

    /// Returns whether the workers of the pool may have weight.
    pub(crate) fn may_lend(&self, pool: usize) -> bool {
        match self.lenders {
            Lenders::All => true,
            Lenders::Others => pool != self.pool,
            Lenders::NoPool => false,
        }
    }

    /// Returns the maximum of `pool`, which has the index `number`. If `maxes` is `None`, this is
    /// the maximum that the pool declares, and otherwise the maximum in `maxes`.
    pub(crate) fn max_of(&self, number: usize, pool: &Pool) -> u64 {
        match self.maxes {
            Some(maxes) => number_at(maxes, number),
            None => pool.max,
        }
    }

    /// Returns the total weight of all workers if each pool has its maximum of workers. `workers`
    /// has the weight of a worker of each pool.
    pub(crate) fn workers_weigh(&self, plan: &Plan, workers: &[u64]) -> u64 {
        let mut total = 0u64;
        for (number, pool) in plan.pools().iter().enumerate() {
            let weight = number_at(workers, number).saturating_mul(self.max_of(number, pool));
            total = total.saturating_add(weight);
        }
        total
    }

    /// Returns `true` if an actor takes over the weight of a done job when the actor gets this job.
    pub(crate) fn gives_back(&self) -> bool {
        !matches!(self.requirement, WeightRequirement::Everywhere)
    }

    /// Returns the least weight that a queued job of the class must have.
    pub(crate) fn need_queued(&self, class: &Class) -> u64 {
        match self.requirement {
            WeightRequirement::WhileQueued | WeightRequirement::Everywhere => self.one_of(class),
            WeightRequirement::AtGets { .. } => 0,
        }
    }

    /// Returns the least weight that a job of the class must have before this action of its body.
    pub(crate) fn need_at(&self, class: &Class, action: Action) -> u64 {
        match (self.requirement, action) {
            (WeightRequirement::Everywhere, _) => self.one_of(class),
            (WeightRequirement::AtGets { reach, rank }, Action::Get(submit)) => {
                let reached = number_at(reach, submitted_class(&class.body, submit));
                if reached < rank {
                    0
                } else {
                    self.one_of(class)
                }
            }
            _ => 0,
        }
    }

    /// Returns the least weight that a job of the class must have at the end of its body.
    pub(crate) fn need_at_end(&self, class: &Class) -> u64 {
        match self.requirement {
            WeightRequirement::Everywhere => self.one_of(class),
            WeightRequirement::WhileQueued | WeightRequirement::AtGets { .. } => 0,
        }
    }

    /// Returns 1 if the class belongs to the pool of the target, and otherwise 0.
    fn one_of(&self, class: &Class) -> u64 {
        if class.pool == self.pool { 1 } else { 0 }
    }
}
