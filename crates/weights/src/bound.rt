//! The bound of a pool: a vector which shows that the pool never refuses a job.

ghost use Rattle.std.specs.Prelude.{◌≡◌, ◌<◌, IsTrue, length};
ghost use Rattle.job_bodies.specs.Plan.{pool_at};
ghost use Rattle.weights.specs.Vector.{vector_fits};
ghost use Rattle.weights.specs.Bound as spec;
ghost use Rattle.weights.specs.Row.{first_failing};
ghost use Rattle.weights.specs.Visits.{Visits};

use crate::lifetime::lifetime_limit;
use crate::{RowVisitor, StandingFault, Vector};
use job_bodies::Plan;

/// A vector that bounds a pool's queue. In a certificate that accepts the plan, it shows that the
/// pool never refuses a job.
#[derive(Debug, Drop)]
pub enum Bound {
    /// A standing vector. If the queue is bounded, the conditions of this vector limit the number
    /// of queued jobs to the capacity of the queue.
    Standing(Vector),
    /// A lifetime vector. If the queue is bounded, the conditions of this vector limit the number
    /// of jobs that are ever submitted to the pool. The limit is the number of jobs that the pool
    /// accepts before it can refuse a job.
    Lifetime(Vector),
}

impl Bound {
    /// Returns the vector of this bound.
    pub fn vector(&self) -> &Vector
        ensures { result.now ≡ spec.bound_vector self.now }
    {
        match self {
            Bound::Standing(vector) | Bound::Lifetime(vector) => vector,
        }
    }

    /// Returns whether this is a lifetime vector.
    pub fn is_lifetime(&self) -> bool
        ensures { result ≡ spec.is_lifetime self.now }
    {
        matches!(self, Bound::Lifetime(_))
    }

    /// Returns the limit of the vector's total. For a standing vector, the limit is the capacity of
    /// the queue. For a lifetime vector, it is the number of jobs that the pool accepts before it
    /// can refuse a job. If the queue is unbounded, the limit has no effect.
    pub fn limit(&self, plan: &Plan, pool: usize) -> u64
        requires { pool < length plan.now.pools }
        ensures { result ≡ spec.bound_limit plan.now pool self.now }
    {
        let pool = &plan.pools()[pool];
        match self {
            Bound::Standing(_) => pool.queue,
            Bound::Lifetime(_) => lifetime_limit(pool),
        }
    }

    /// Passes all conditions of the pool's bound to the visitor.
    pub fn visit_rows<V: RowVisitor>(&self, plan: &Plan, pool: usize, visitor: &mut V)
        requires fits { IsTrue (vector_fits plan.now (spec.bound_vector self.now)) }
        requires pool { pool < length plan.now.pools }
        ensures { Visits V.HasSeen visitor.old visitor.new (spec.bound_rows plan.now pool self.now) }
    {
        match self {
            Bound::Standing(vector) => vector.visit_standing_rows(plan, pool, visitor),
            Bound::Lifetime(vector) => vector.visit_lifetime_rows(plan, pool, visitor),
        }
    }

    /// Returns the first failing condition of the pool's bound, or `None` if all conditions hold.
    /// Allocates no memory.
    pub fn fault(&self, plan: &Plan, pool: usize) -> Option<StandingFault>
        requires fits { IsTrue (vector_fits plan.now (spec.bound_vector self.now)) }
        requires pool { pool < length plan.now.pools }
        ensures { result ≡ first_failing (spec.bound_rows plan.now pool self.now) }
    {
        match self {
            Bound::Standing(vector) => vector.standing_fault(plan, pool),
            Bound::Lifetime(vector) => vector.lifetime_fault(plan, pool),
        }
    }
}
