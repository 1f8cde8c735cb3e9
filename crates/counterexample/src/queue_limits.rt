//! The limits of submits to unbounded queues. An unbounded queue always has room, so a search could
//! add jobs to it forever. The search makes a submit to such a queue only if the queue has fewer
//! jobs than the limit of this submit:
//!
//! - The limit for a submit by a client is [`FOR_CLIENTS`].
//! - The limit for a submit by a job is [`FOR_CLIENTS`], plus the greatest number of jobs that the
//!   running jobs of all pools can submit to this queue.

use crate::pools::most_threads;
use job_bodies::{Action, Plan};
use std::alloc::{AllocError, Global};

/// The limit for submits by clients, as a number of queued jobs. The limit for submits by jobs is
/// at least as large.
const FOR_CLIENTS: u64 = 16;

/// A limit for a submit to a pool with an unbounded queue.
#[derive(Clone, Copy)]
pub(crate) struct QueueLimit {
    pub(crate) pool: usize,
    /// The limit, as a number of queued jobs. A search does not make the submit if the queue has at
    /// least this many jobs.
    pub(crate) jobs: u64,
}

/// The limits for all submits of a plan to pools with an unbounded queue.
#[derive(Drop)]
pub(crate) struct QueueLimits<'a> {
    plan: &'a Plan,
    /// For each pool, the limit for submits by jobs, as a number of queued jobs. `None` if the
    /// pool's queue is bounded.
    for_jobs: Vec<Option<u64>>,
}

impl<'a> QueueLimits<'a> {
    /// Computes the limits of the plan.
    pub(crate) fn of(alloc: Global, plan: &'a Plan) -> Result<QueueLimits<'a>, AllocError> {
        let mut for_jobs = Vec::with_capacity(alloc, plan.pools().len())?;
        for (number, pool) in plan.pools().iter().enumerate() {
            let limit = if pool.unbounded {
                Some(most_queued(plan, number))
            } else {
                None
            };
            for_jobs.push(limit)?;
        }
        Ok(QueueLimits { plan, for_jobs })
    }

    /// Returns the limit for submits of this class by clients. Returns `None` if the queue of the
    /// class's pool is bounded.
    pub(crate) fn for_clients(&self, class: usize) -> Option<QueueLimit> {
        let mut limit = self.for_jobs(class)?;
        limit.jobs = FOR_CLIENTS;
        Some(limit)
    }

    /// Returns the limit for submits of this class by jobs. Returns `None` if the queue of the
    /// class's pool is bounded.
    pub(crate) fn for_jobs(&self, class: usize) -> Option<QueueLimit> {
        let pool = self.plan.class_at(class)?.pool;
        let jobs = self.for_jobs.get(pool).copied()??;
        Some(QueueLimit { pool, jobs })
    }
}

/// Returns the maximum number of jobs that a search puts into the pool's unbounded queue. This is
/// the limit for submits by jobs. It is [`FOR_CLIENTS`], plus a number for each pool of the plan:
/// the greatest number of threads of that pool, times the greatest number of submits to this queue
/// that one of its jobs can make.
pub(crate) fn most_queued(plan: &Plan, pool: usize) -> u64 {
    let mut jobs = FOR_CLIENTS;
    for (number, from) in plan.pools().iter().enumerate() {
        let of_threads = most_threads(from).saturating_mul(most_submits(plan, number, pool));
        jobs = jobs.saturating_add(of_threads);
    }
    jobs
}

/// Returns the greatest number of submits to the pool `to` that a job of the pool `from` can make.
fn most_submits(plan: &Plan, from: usize, to: usize) -> u64 {
    let mut most = 0u64;
    for class in plan.classes() {
        if class.pool == from {
            most = most.max(submits(plan, &class.body, to));
        }
    }
    most
}

/// Returns the number of submits to the pool `to` in this body.
fn submits(plan: &Plan, body: &[Action], to: usize) -> u64 {
    let mut count = 0u64;
    for action in body {
        if let Action::Submit(class) = action {
            if plan.class_at(*class).is_some_and(|class| class.pool == to) {
                count = count.saturating_add(1);
            }
        }
    }
    count
}
