//! Certificates. A certificate has numbers for a plan. If a check accepts the certificate, no pool
//! ever refuses a job, and no jobs wait for each other forever. A rejection by a pool that may
//! reject jobs is not a refusal.

ghost use Rattle.std.specs.Prelude.{◌≡◌, ◌<◌, length};
ghost use Rattle.std.specs.List.{list_all, enumerate_from};
ghost use Rattle.job_bodies.specs.Plan.{pool_at, needs_no_bound};
ghost use Rattle.cert_text.specs.Cert as spec;

use job_bodies::Plan;
use std::marker::Model;
use weights::{Bound, Ranks, Vector};

/// The part of a certificate for one pool.
#[derive(Debug, Drop)]
pub struct PoolCert {
    /// The vector that bounds the pool's queue, or `None`. In a certificate that fits the plan, it
    /// is `None` only if the pool may reject jobs or has an unbounded queue.
    pub bound: Option<Bound>,
    /// The blocked vector. A get is *counted* if it can block a thread that other jobs need. The
    /// vector bounds the number of the pool's jobs that wait at counted gets. If the certificate
    /// accepts the plan, this number is always less than the pool's core size, and it is always 0
    /// if core threads may time out.
    pub blocked: Vector,
}

impl Model for PoolCert {
    ghost Value = { spec.PoolCert };

    ghost view = { λ p. record { bound = p.bound; blocked = p.blocked } };
}

impl PoolCert {
    /// Returns whether the part fits the pool with this index. It fits if both of these conditions
    /// hold:
    ///
    /// - Each vector of the part has the shape of the plan and no number above
    ///   [`MAX_WEIGHT`](job_bodies::MAX_WEIGHT).
    /// - The part has a bound, or the pool needs no bound.
    fn fits(&self, plan: &Plan, pool: usize) -> bool
        ensures { result ≡ spec.pool_cert_fits plan.now pool self.now }
    {
        bound_fits(&self.bound, plan, pool) && self.blocked.fits(plan)
    }
}

fn bound_fits(bound: &Option<Bound>, plan: &Plan, pool: usize) -> bool
    ensures { result ≡ spec.bound_fits plan.now pool bound.now }
{
    match bound {
        Some(bound) => bound.vector().fits(plan),
        None => needs_no_bound(plan, pool),
    }
}

/// Returns whether the pool with this index needs no bound. A pool needs none if it may reject jobs
/// or has an unbounded queue. Returns `false` if the plan has no pool with this index.
pub fn needs_no_bound(plan: &Plan, pool: usize) -> bool
    ensures { result ≡ needs_no_bound (pool_at plan.now pool) }
{
    match plan.pool_at(pool) {
        Some(pool) => pool.needs_no_bound(),
        None => false,
    }
}

/// A certificate: a part for each pool, in plan order, and the [`Ranks`] of pools and classes. The
/// ranks decide which gets are [counted](weights::Counted). They also show that no class submits
/// itself, directly or through other classes.
#[derive(Debug, Drop)]
pub struct Cert {
    pub pools: Vec<PoolCert>,
    pub ranks: Ranks,
}

impl Model for Cert {
    ghost Value = { spec.Cert };

    ghost view = { λ c. record { pools = c.pools.items; ranks = c.ranks } };
}

impl Cert {
    /// Returns the part for the pool with this index, which must exist.
    pub fn pool_at(&self, pool: usize) -> &PoolCert
        requires { pool < length self.now.pools }
        ensures { result.now ≡ spec.pool_cert_at self.now pool }
    {
        &self.pools[pool]
    }

    /// Returns whether the certificate fits the plan, which means that all of these conditions
    /// hold:
    ///
    /// - It has a part for each pool.
    /// - Each of its lists has the shape of the plan.
    /// - Each number is at most [`MAX_WEIGHT`](job_bodies::MAX_WEIGHT).
    /// - Each pool that must not reject jobs and has a bounded queue has a bound.
    ///
    /// Allocates no memory.
    pub fn fits(&self, plan: &Plan) -> bool
        ensures { result ≡ spec.cert_fits plan.now self.now }
    {
        self.pools.len() == plan.pools().len()
            && self.ranks.fits(plan)
            && all_fit(&self.pools, plan)
    }
}

fn all_fit(pools: &[PoolCert], plan: &Plan) -> bool
    ensures { result
        ≡ list_all (λ entry. spec.pool_cert_fits plan.now entry.0 entry.1)
        (enumerate_from 0 pools.now) }
{
    for (number, pool) in pools.iter().enumerate() {
        if !pool.fits(plan, number) {
            return false;
        }
    }
    true
}
