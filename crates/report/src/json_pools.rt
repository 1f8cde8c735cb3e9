//! Pools as JSON. Each pool has its sizes, and the names of the pools for which its jobs wait. If a
//! certificate accepts the plan, each pool also has the bound of its queue, and the maximum number
//! of its core threads that wait at counted gets at once.
//!
//! Some members exist only in certain pools. `may_reject` and `rejects_after` exist only if the
//! plan allows the pool to reject jobs. `rejects_after` is the length of a list of events that was
//! found, after which the pool rejects a job. `core_timeout` exists only if core threads of the
//! pool may time out.

ghost use Rattle.std.specs.Prelude.{◌≡◌, IfOk, IfSome, option_map, map, string_bytes};
ghost use Rattle.serde_json.specs.Data.{array, string};
ghost use Rattle.serde_json.specs.View.{view, items_of};
ghost use Rattle.report.specs.JsonObject.{members_of};
ghost use Rattle.report.specs.JsonPools as spec;

use crate::json_bounds::{blocked_value, bound_value};
use crate::json_object::Object;
use crate::json_values::{max_value, push_value, queue_value};
use crate::safe::rejection_at;
use crate::safe_waits::waited_names;
use cert_text::PoolCert;
use job_bodies::{Plan, Pool};
use serde_json::Value;
use std::alloc::{AllocError, Global};

/// Converts the pools of a plan to JSON. `parts` has the vectors of the certificate for each pool.
/// For each pool, `rejections` has the number of events after which this pool rejects a job, or
/// `None` if the number is not known. Both lists are empty if no certificate accepts the plan.
pub(crate) fn pools_value(
    alloc: Global,
    plan: &Plan,
    parts: &[PoolCert],
    rejections: &[Option<u64>],
) -> Result<Value, AllocError>
    ensures { IfOk result
        (λ value. view value ≡ spec.pools_data plan.now parts.now rejections.now) }
{
    let mut values = Vec::with_capacity(alloc, plan.pools().len())?;
    for (number, pool) in plan.pools().iter().enumerate() {
        let value = pool_entry(alloc, plan, parts, rejections, number, pool);
        push_value(&mut values, value)?;
    }
    Ok(Value::from(values))
}

fn pool_entry(
    alloc: Global,
    plan: &Plan,
    parts: &[PoolCert],
    rejections: &[Option<u64>],
    number: usize,
    pool: &Pool,
) -> Result<Value, AllocError>
    ensures { IfOk result (λ value.
        view value ≡ spec.pool_entry plan.now parts.now rejections.now (number, pool.now)) }
{
    let rejection = rejection_at(rejections, number);
    pool_value(alloc, plan, number, pool, rejection, parts.get(number))
}

fn pool_value(
    alloc: Global,
    plan: &Plan,
    number: usize,
    pool: &Pool,
    rejection: Option<u64>,
    part: Option<&PoolCert>,
) -> Result<Value, AllocError>
    ensures { IfOk result (λ value. view value
        ≡ spec.pool_data plan.now number pool.now rejection (option_map (λ part. part.now) part.entry)) }
{
    match part {
        Some(part) => bounded_value(alloc, plan, number, pool, rejection, part),
        None => sized_pool(
            alloc,
            plan,
            number,
            pool,
            rejection,
            Value::Null,
            Value::Null,
        ),
    }
}

fn bounded_value(
    alloc: Global,
    plan: &Plan,
    number: usize,
    pool: &Pool,
    rejection: Option<u64>,
    part: &PoolCert,
) -> Result<Value, AllocError>
    ensures { IfOk result (λ value. view value ≡ spec.sized_pool
        plan.now number pool.now rejection
        (spec.blocked_data plan.now pool.now part.now.blocked)
        (spec.bound_data plan.now number part.now.bound)) }
{
    let blocked = blocked_value(alloc, plan, pool, &part.blocked)?;
    let bound = bound_value(alloc, plan, number, &part.bound)?;
    sized_pool(alloc, plan, number, pool, rejection, blocked, bound)
}

fn sized_pool(
    alloc: Global,
    plan: &Plan,
    number: usize,
    pool: &Pool,
    rejection: Option<u64>,
    blocked: Value,
    bound: Value,
) -> Result<Value, AllocError>
    ensures { IfOk result (λ value. view value ≡ spec.sized_pool
        plan.now number pool.now rejection (view blocked) (view bound)) }
{
    let waits_for = waits_value(alloc, plan, number)?;
    if pool.may_reject {
        rejecting_object(
            alloc,
            pool,
            blocked,
            bound,
            rejects_value(rejection),
            waits_for,
        )
    } else {
        pool_object(alloc, pool, blocked, bound, waits_for).done()
    }
}

fn rejecting_object(
    alloc: Global,
    pool: &Pool,
    blocked: Value,
    bound: Value,
    rejects_after: Value,
    waits_for: Value,
) -> Result<Value, AllocError>
    ensures { IfOk result (λ value. view value ≡ spec.rejecting_object
        (view blocked) (view bound) pool.now (view rejects_after) (view waits_for)) }
{
    pool_object(alloc, pool, blocked, bound, waits_for)
        .value("may_reject", Value::Bool(true))
        .value("rejects_after", rejects_after)
        .done()
}

/// Returns, as JSON, the number of events after which a pool rejects a job. The value is null if
/// this number is not known.
fn rejects_value(rejection: Option<u64>) -> Value
    ensures { view result ≡ spec.rejects_data rejection }
{
    match rejection {
        Some(events) => Value::from(events),
        None => Value::Null,
    }
}

fn pool_object(alloc: Global, pool: &Pool, blocked: Value, bound: Value, waits_for: Value) -> Object
    ensures { IfSome (members_of result) (λ members. members ≡ spec.pool_members
        (view blocked) (view bound) pool.now (view waits_for)) }
{
    sized_object(alloc, pool, blocked, bound, waits_for).flag("core_timeout", pool.core_timeout)
}

#[tactic(auto, unfolding(crate::specs::JsonPools::sized_members))]
fn sized_object(
    alloc: Global,
    pool: &Pool,
    blocked: Value,
    bound: Value,
    waits_for: Value,
) -> Object
    ensures { IfSome (members_of result) (λ members. members ≡ spec.sized_members
        (view blocked) (view bound) pool.now (view waits_for)) }
{
    Object::new(alloc)
        .value("blocked", blocked)
        .value("bound", bound)
        .value("core", Value::from(pool.core))
        .part("max", max_value(alloc, pool))
        .text("name", &pool.name)
        .value("prestart", Value::Bool(pool.prestart))
        .part("queue", queue_value(alloc, pool))
        .value("waits_for", waits_for)
}

/// Creates a JSON list of the names of the pools for which jobs of this pool wait.
fn waits_value(alloc: Global, plan: &Plan, number: usize) -> Result<Value, AllocError>
    ensures { IfOk result (λ value. view value ≡ spec.waits_data plan.now number) }
{
    let names = waited_names(alloc, plan, number)?;
    names_value(alloc, &names)
}

fn names_value(alloc: Global, names: &[String]) -> Result<Value, AllocError>
    ensures { IfOk result (λ value.
        view value ≡ array (items_of (map string (map string_bytes names.now)))) }
{
    let mut values = Vec::with_capacity(alloc, names.len())?;
    for name in names {
        push_value(&mut values, Value::try_from_str(alloc, name))?;
    }
    Ok(Value::from(values))
}
