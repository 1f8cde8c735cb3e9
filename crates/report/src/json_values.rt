//! Numbers and sizes as JSON.

ghost use Rattle.std.specs.Prelude.{◌≡◌, ◌++◌, ◌∷◌, [], IfOk, IsOkAnd, OnOk, map};
ghost use Rattle.serde_json.specs.Data.{array, item, no_items};
ghost use Rattle.serde_json.specs.View.{view};
ghost use Rattle.report.specs.JsonEvents as spec;
ghost use Rattle.report.specs.JsonPlan.{limit_data, max_data, queue_data};

use job_bodies::Pool;
use serde_json::Value;
use std::alloc::{AllocError, Global};

/// Converts a number to JSON, and `None` to null.
pub(crate) fn optional_number(number: Option<usize>) -> Value
    ensures { view result ≡ spec.optional_number number }
{
    match number {
        Some(number) => Value::from(number),
        None => Value::Null,
    }
}

/// Converts the pool's maximum to JSON: a number, or the string `unbounded` if the pool has no
/// maximum.
pub(crate) fn max_value(alloc: Global, pool: &Pool) -> Result<Value, AllocError>
    ensures { IfOk result (λ value. view value ≡ max_data pool.now) }
{
    limit_value(alloc, pool.has_no_max(), pool.max)
}

/// Converts the capacity of the pool's queue to JSON: a number, or the string `unbounded` if the
/// queue has no limit.
pub(crate) fn queue_value(alloc: Global, pool: &Pool) -> Result<Value, AllocError>
    ensures { IfOk result (λ value. view value ≡ queue_data pool.now) }
{
    limit_value(alloc, pool.unbounded, pool.queue)
}

#[tactic(auto, unfolding(crate::specs::JsonPlan::limit_data))]
fn limit_value(alloc: Global, unbounded: bool, size: u64) -> Result<Value, AllocError>
    ensures { IfOk result (λ value. view value ≡ limit_data unbounded size) }
{
    if unbounded {
        Value::try_from_str(alloc, "unbounded")
    } else {
        Ok(Value::from(size))
    }
}

/// Creates an empty JSON list.
pub(crate) fn empty_list(alloc: Global) -> Value
    ensures { view result ≡ array no_items }
{
    Value::Array(Vec::new(alloc))
}

/// Creates a JSON list of one value. If `value` is an error, returns this error.
pub(crate) fn single_list(
    alloc: Global,
    value: Result<Value, AllocError>,
) -> Result<Value, AllocError>
    ensures { IfOk result (λ list.
        IsOkAnd value (λ value. view list ≡ array (item (view value) no_items))) }
{
    let mut values = Vec::new(alloc);
    push_value(&mut values, value)?;
    Ok(Value::Array(values))
}

/// Appends a value to a list. If `value` is an error, returns this error.
#[tactic(auto, using(std::proofs::lemmas::List::map_push))]
pub(crate) fn push_value(
    values: &mut Vec<Value>,
    value: Result<Value, AllocError>,
) -> Result<(), AllocError>
    ensures { OnOk result (IsOkAnd value (λ value.
        map view values.new.items ≡ map view values.old.items ++ view value ∷ [])) }
{
    values.push(value?)?;
    Ok(())
}

/// Creates a JSON list of these values.
pub(crate) fn array_value(values: Vec<Value>) -> Value
    ensures { view result ≡ spec.list_data (map view values.items) }
{
    Value::Array(values)
}

/// Converts a list of numbers to JSON.
pub(crate) fn numbers_value(alloc: Global, numbers: &[usize]) -> Result<Value, AllocError>
    ensures { IfOk result (λ value. view value ≡ spec.numbers_data numbers.now) }
{
    let values = number_values(alloc, numbers)?;
    Ok(Value::Array(values))
}

fn number_values(alloc: Global, mut numbers: &[usize]) -> Result<Vec<Value>, AllocError>
    ensures { IfOk result (λ values. map view values.items ≡ map spec.number_data numbers.entry.now) }
{
    let mut values = Vec::with_capacity(alloc, numbers.len())?;
    while let Some((number, rest)) = numbers.split_first() {
        values.push(Value::from(*number))?;
        numbers = rest;
    }
    Ok(values)
}
