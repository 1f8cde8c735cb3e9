//! Splits the total of a certificate's vector into shares. A vector has a weight for each worker of
//! each pool, and for each position of each class and each client kind. The share of a client kind
//! is the weight of all its clients at their start. The share of a pool is the weight of all its
//! threads.

ghost use Rattle.std.specs.Prelude.{◌≡◌, ◌+◌, IfOk, IsTrue, sum};
ghost use Rattle.weights.specs.Vector.{total, vector_fits};
ghost use Rattle.report.specs.Shares as spec;

use job_bodies::Plan;
use std::alloc::{AllocError, Global};
use weights::Vector;

/// The total of a vector as a sum of shares: one share for each client kind, and one for each pool.
#[derive(Drop)]
pub struct Shares {
    /// For each client kind in plan order, the weight of all its clients at their start.
    pub clients: Vec<u64>,
    /// For each pool in plan order, the weight of all its threads when the pool has as many threads
    /// as its maximum.
    pub workers: Vec<u64>,
}

/// Splits the total of this vector into shares: one for each client kind, and one for each pool.
/// The sum of the shares is the total.
///
/// # Errors
///
/// Returns [`AllocError`] if memory runs out.
#[tactic(auto, using(crate::proofs::ShareSums::shares_sum))]
pub fn shares_of(alloc: Global, plan: &Plan, vector: &Vector) -> Result<Shares, AllocError>
    requires { IsTrue (vector_fits plan.now vector.now) }
    ensures clients { IfOk result
        (λ shares. shares.clients.items ≡ spec.client_shares plan.now vector.now) }
    ensures workers { IfOk result
        (λ shares. shares.workers.items ≡ spec.worker_shares plan.now vector.now) }
    ensures in_all { IfOk result (λ shares.
        sum shares.clients.items + sum shares.workers.items ≡ total plan.now vector.now) }
{
    let clients = client_shares(alloc, plan, vector)?;
    let workers = worker_shares(alloc, plan, vector)?;
    Ok(Shares { clients, workers })
}

fn client_shares(alloc: Global, plan: &Plan, vector: &Vector) -> Result<Vec<u64>, AllocError>
    requires { IsTrue (vector_fits plan.now vector.now) }
    ensures { IfOk result (λ shares. shares.items ≡ spec.client_shares plan.now vector.now) }
{
    let mut shares = Vec::new(alloc);
    for (number, client) in plan.clients().iter().enumerate() {
        let share = client.count * vector.client_weights(number)[0];
        shares.push(share)?;
    }
    Ok(shares)
}

fn worker_shares(alloc: Global, plan: &Plan, vector: &Vector) -> Result<Vec<u64>, AllocError>
    requires { IsTrue (vector_fits plan.now vector.now) }
    ensures { IfOk result (λ shares. shares.items ≡ spec.worker_shares plan.now vector.now) }
{
    let mut shares = Vec::new(alloc);
    for (number, pool) in plan.pools().iter().enumerate() {
        let share = vector.workers_weight(number) * pool.max;
        shares.push(share)?;
    }
    Ok(shares)
}
