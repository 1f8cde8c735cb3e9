//! Two members of a pool's JSON object: the bound of its queue, and the maximum number of its core
//! threads that wait at counted gets at once. The bound is the total of a vector, which has a
//! weight for each worker of each pool, and for each position of each class and each client kind.
//! The total is split into shares. The share of a client kind is the weight of all its clients. The
//! share of a pool is the weight of all its threads.

ghost use Rattle.std.specs.Prelude.{◌≡◌, ◌++◌, IfOk, IsTrue, OnOk, map};
ghost use Rattle.serde_json.specs.View.{view};
ghost use Rattle.weights.specs.Vector.{vector_fits};
ghost use Rattle.report.specs.JsonPools as spec;

use crate::json_object::Object;
use crate::json_values::push_value;
use crate::places::bounds_jobs;
use crate::{Shares, shares_of, total_of};
use job_bodies::{Plan, Pool};
use serde_json::Value;
use std::alloc::{AllocError, Global};
use weights::{Bound, Vector};

/// Converts a pool's bound to JSON: its kind, its total, and the shares that client kinds and pools
/// have in the total. The kind is `standing` if the total limits the jobs in the queue at one time.
/// The kind is `lifetime` if the total limits the jobs that are ever submitted to the pool. The
/// value is null if
///
/// - there is no bound,
/// - the vector of the bound does not fit the plan, or
/// - the queue is unbounded, and the total does not limit the jobs (see [`bounds_jobs`]).
pub(crate) fn bound_value(
    alloc: Global,
    plan: &Plan,
    pool: usize,
    bound: &Option<Bound>,
) -> Result<Value, AllocError>
    ensures { IfOk result (λ value. view value ≡ spec.bound_data plan.now pool bound.now) }
{
    match bound {
        Some(bound) if bounds_jobs(plan, pool, bound) => fitting_value(alloc, plan, bound),
        Some(_) | None => Ok(Value::Null),
    }
}

fn fitting_value(alloc: Global, plan: &Plan, bound: &Bound) -> Result<Value, AllocError>
    ensures { IfOk result (λ value. view value ≡ spec.fitting_data plan.now bound.now) }
{
    let vector = bound.vector();
    if vector.fits(plan) {
        vector_value(alloc, plan, kind_of(bound), vector)
    } else {
        Ok(Value::Null)
    }
}

fn kind_of(bound: &Bound) -> &'static str
    ensures { result.now ≡ spec.kind_of bound.now }
{
    match bound {
        Bound::Standing(_) => "standing",
        Bound::Lifetime(_) => "lifetime",
    }
}

fn vector_value(
    alloc: Global,
    plan: &Plan,
    kind: &str,
    vector: &Vector,
) -> Result<Value, AllocError>
    requires { IsTrue (vector_fits plan.now vector.now) }
    ensures { IfOk result (λ value. view value ≡ spec.vector_data plan.now kind.now vector.now) }
{
    let shares = shares_of(alloc, plan, vector)?;
    bound_object(alloc, plan, kind, &shares, vector.total(plan))
}

#[tactic(auto, unfolding(crate::specs::JsonPools::bound_object))]
fn bound_object(
    alloc: Global,
    plan: &Plan,
    kind: &str,
    shares: &Shares,
    total: u64,
) -> Result<Value, AllocError>
    ensures { IfOk result (λ value. view value ≡ spec.bound_object
        (spec.clients_data plan.now shares.now.clients.items) kind.now
        (spec.threads_data plan.now shares.now.workers.items) total) }
{
    Object::new(alloc)
        .part("clients", clients_value(alloc, plan, &shares.clients))
        .text("kind", kind)
        .part("threads", threads_value(alloc, plan, &shares.workers))
        .value("total", Value::from(total))
        .done()
}

/// Returns a JSON list with the share of each client kind in the total of a bound. Skips shares of
/// 0.
fn clients_value(alloc: Global, plan: &Plan, shares: &[u64]) -> Result<Value, AllocError>
    ensures { IfOk result (λ value. view value ≡ spec.clients_data plan.now shares.now) }
{
    let mut values = Vec::new(alloc);
    for (kind, share) in shares.iter().enumerate() {
        push_share(alloc, &mut values, *share, plan.client_name(kind))?;
    }
    Ok(Value::from(values))
}

/// Returns a JSON list with the share of each pool's threads in the total of a bound. Skips shares
/// of 0.
fn threads_value(alloc: Global, plan: &Plan, shares: &[u64]) -> Result<Value, AllocError>
    ensures { IfOk result (λ value. view value ≡ spec.threads_data plan.now shares.now) }
{
    let mut values = Vec::new(alloc);
    for (pool, share) in shares.iter().enumerate() {
        push_share(alloc, &mut values, *share, plan.pool_name(pool))?;
    }
    Ok(Value::from(values))
}

/// Appends the JSON object of one share in the total of a bound. Appends nothing if the share is 0.
#[tactic(auto, unfolding(crate::specs::JsonPools::share_data))]
fn push_share(
    alloc: Global,
    values: &mut Vec<Value>,
    share: u64,
    name: &str,
) -> Result<(), AllocError>
    ensures { OnOk result
        (map view values.new.items ≡ map view values.old.items ++ spec.share_of share name.now) }
{
    if share == 0 {
        return Ok(());
    }
    let value = Object::new(alloc)
        .value("jobs", Value::from(share))
        .text("name", name)
        .done();
    push_value(values, value)
}

/// Creates a JSON object with two numbers:
///
/// - `most` is the maximum number of core threads that wait at counted gets at once. A counted get
///   can block a thread that other jobs need.
/// - `left` is the number of threads that remain for other jobs. It is the least number of threads
///   that the pool has while a job is queued, minus `most`, and never below 0.
///
/// The value is null if the vector `blocked`, whose total is `most`, does not fit the plan.
#[tactic(auto, unfolding(crate::specs::JsonPools::waiting_data))]
pub(crate) fn blocked_value(
    alloc: Global,
    plan: &Plan,
    pool: &Pool,
    blocked: &Vector,
) -> Result<Value, AllocError>
    ensures { IfOk result (λ value. view value ≡ spec.blocked_data plan.now pool.now blocked.now) }
{
    let Some(most) = total_of(plan, blocked) else {
        return Ok(Value::Null);
    };
    Object::new(alloc)
        .value(
            "left",
            Value::from(pool.least_threads().saturating_sub(most)),
        )
        .value("most", Value::from(most))
        .done()
}
