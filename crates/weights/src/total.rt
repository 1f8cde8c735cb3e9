//! The total of a vector: the weight of all clients at their start, plus the weight of all workers
//! if each pool has its maximum of workers.

ghost use Rattle.std.specs.Prelude.{◌≡◌, ◌≤◌, ◌*◌, sum_by, IsTrue};
ghost use Rattle.std.specs.List.{enumerate_from};
ghost use Rattle.job_bodies.specs.declared.limits.TheConstants.{MAX_SIZE, MAX_THREADS, MAX_POOLS, MAX_CLIENT_KINDS, MAX_WEIGHT};
ghost use Rattle.weights.specs.Vector as spec;

use crate::Vector;
use job_bodies::Plan;

/// Returns the total weight of all clients at the start of their bodies.
fn clients_total(plan: &Plan, vector: &Vector) -> u64
    requires { IsTrue (spec.vector_fits plan.now vector.now) }
    ensures value { result
        ≡ sum_by (λ entry. entry.1.count * spec.client_weight vector.now entry.0 0)
        (enumerate_from 0 plan.now.clients) }
    ensures few { result ≤ MAX_CLIENT_KINDS * (MAX_SIZE * MAX_WEIGHT) }
{
    let mut total = 0;
    for (number, client) in plan.clients().iter().enumerate() {
        total += client.count * vector.client_weights(number)[0];
    }
    total
}

/// Returns the total weight of all workers if each pool has its maximum of workers.
fn workers_total(plan: &Plan, vector: &Vector) -> u64
    requires { IsTrue (spec.vector_fits plan.now vector.now) }
    ensures value { result
        ≡ sum_by (λ entry. spec.workers_weight vector.now entry.0 * entry.1.max)
        (enumerate_from 0 plan.now.pools) }
    ensures few { result ≤ MAX_POOLS * (MAX_WEIGHT * MAX_THREADS) }
{
    let mut total = 0;
    for (number, pool) in plan.pools().iter().enumerate() {
        total += vector.workers_weight(number) * pool.max;
    }
    total
}

impl Vector {
    /// Returns the total of the vector: the weight of all clients at their start, plus the weight
    /// of all workers if each pool has its maximum of workers. The sum never overflows.
    pub fn total(&self, plan: &Plan) -> u64
        requires { IsTrue (spec.vector_fits plan.now self.now) }
        ensures { result ≡ spec.total plan.now self.now }
    {
        clients_total(plan, self) + workers_total(plan, self)
    }
}
