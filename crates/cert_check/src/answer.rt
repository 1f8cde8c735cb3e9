//! The types of the verdict on a plan and a certificate.

ghost use Rattle.cert_check.specs.Verdict as spec;

use std::marker::Model;

/// The total of a pool's bound, and the limit of this total. The bound is a standing vector, which
/// bounds the number of the pool's queued jobs, or a lifetime vector, which bounds the number of
/// all jobs that are ever submitted to the pool.
#[derive(Clone, Copy, Debug, PartialEq, Eq)]
pub struct BoundTotal {
    /// `true` if the bound is a lifetime vector, and `false` if it is a standing vector.
    pub lifetime: bool,
    /// The total of the bound.
    pub total: u64,
    /// The limit of `total`, or `None` if the queue is unbounded. For a standing vector, the limit
    /// is the capacity of the queue. For a lifetime vector, it is the number of jobs that the pool
    /// accepts before it can refuse a job.
    pub limit: Option<u64>,
}

/// The totals of a pool's bound and of its blocked vector, each with its limit.
#[derive(Clone, Copy, Debug, PartialEq, Eq)]
pub struct PoolLine {
    /// The total of the pool's bound with its limit, or `None` if the pool has no bound.
    pub bound: Option<BoundTotal>,
    /// The total of the blocked vector. If the certificate accepts the plan, this total bounds the
    /// number of the pool's jobs that wait at [counted](weights::Counted) gets.
    pub blocked: u64,
    /// The limit of `blocked`: one less than the core size, or 0 if core threads may time out.
    pub limit: u64,
}

/// The verdict on a plan and a certificate: whether the certificate accepts the plan, and the
/// totals and limits of each pool, in plan order.
#[derive(Drop)]
pub struct Verdict {
    pub yes: bool,
    pub pools: Vec<PoolLine>,
}

impl Model for Verdict {
    ghost Value = { spec.Verdict };

    ghost view = { λ v. record { yes = v.yes; pools = v.pools.items } };
}
