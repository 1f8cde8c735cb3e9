//! Sizes that a certificate accepts, as JSON, or the reason why none were found. `declared` is a
//! pool of the plan, and `fit` is the same pool with the sizes that were found.

ghost use Rattle.std.specs.Prelude.{◌≡◌, ◌++◌, IfOk, IsOkAnd, OnOk, map, option_map};
ghost use Rattle.serde_json.specs.View.{view};
ghost use Rattle.report.specs.JsonSizes as spec;

use crate::json_cause::cause_value;
use crate::json_object::Object;
use crate::json_places::{column_value, line_value, pool_places_at};
use crate::json_values::{empty_list, max_value, push_value, queue_value};
use crate::size_lines::has_useless_max;
use diagnostics::{PlanPlaces, PoolPlaces};
use job_bodies::{Plan, Pool};
use plan_text::TextPlace;
use serde_json::Value;
use size_search::SizesFound;
use std::alloc::{AllocError, Global};

/// Converts the result of the search for sizes to JSON: the sizes that were found, or the reason
/// why no sizes were found.
#[tactic(auto, unfolding(crate::specs::JsonSizes::sizes_object))]
pub(crate) fn sizes_value(
    alloc: Global,
    places: &PlanPlaces,
    plan: &Plan,
    sizes: &SizesFound,
) -> Result<Value, AllocError>
    ensures { IfOk result (λ value. view value ≡ spec.sizes_data places.now plan.now sizes.now) }
{
    match sizes {
        SizesFound::Found { plan: fit, .. } => Object::new(alloc)
            .value("cause", Value::Null)
            .part(
                "pools",
                pools_value(alloc, &places.pools, plan, fit.pools()),
            )
            .done(),
        SizesFound::NotFound(cause) => Object::new(alloc)
            .part("cause", cause_value(alloc, places, plan, *cause))
            .value("pools", empty_list(alloc))
            .done(),
    }
}

fn pools_value(
    alloc: Global,
    places: &[PoolPlaces],
    plan: &Plan,
    fitted: &[Pool],
) -> Result<Value, AllocError>
    ensures { IfOk result (λ value. view value ≡ spec.pools_data places.now plan.now fitted.now) }
{
    let mut values = Vec::with_capacity(alloc, fitted.len())?;
    for (number, fit) in fitted.iter().enumerate() {
        push_value(&mut values, size_entry(alloc, places, plan, number, fit))?;
    }
    Ok(Value::from(values))
}

fn size_entry(
    alloc: Global,
    places: &[PoolPlaces],
    plan: &Plan,
    number: usize,
    fit: &Pool,
) -> Result<Value, AllocError>
    ensures { IfOk result
        (λ value. view value ≡ spec.size_entry places.now plan.now (number, fit.now)) }
{
    let places = pool_places_at(places, number);
    let changes = changes_of(alloc, places, plan.pools().get(number), fit)?;
    size_value(alloc, changes, fit)
}

#[tactic(auto, unfolding(crate::specs::JsonSizes::size_data))]
fn size_value(alloc: Global, changes: Vec<Value>, fit: &Pool) -> Result<Value, AllocError>
    ensures { IfOk result
        (λ value. view value ≡ spec.size_data (map view changes.items) fit.now) }
{
    Object::new(alloc)
        .value("changes", Value::Array(changes))
        .value("core", Value::from(fit.core))
        .part("max", max_value(alloc, fit))
        .text("name", &fit.name)
        .part("queue", queue_value(alloc, fit))
        .done()
}

/// Returns one JSON value for each changed size of a pool. `declared` is the pool in the plan, and
/// `fit` is the pool with the sizes that were found. The list is empty if `declared` is `None`.
fn changes_of(
    alloc: Global,
    places: PoolPlaces,
    declared: Option<&Pool>,
    fit: &Pool,
) -> Result<Vec<Value>, AllocError>
    ensures { IfOk result (λ values. map view values.items
        ≡ spec.changes_of places (option_map (λ pool. pool.now) declared.entry) fit.now) }
{
    let mut values = Vec::new(alloc);
    if let Some(declared) = declared {
        push_changes(alloc, &mut values, places, declared, fit)?;
    }
    Ok(values)
}

fn push_changes(
    alloc: Global,
    values: &mut Vec<Value>,
    places: PoolPlaces,
    declared: &Pool,
    fit: &Pool,
) -> Result<(), AllocError>
    ensures { OnOk result (map view values.new.items
        ≡ map view values.old.items ++ spec.declared_changes places declared.now fit.now) }
{
    push_change(alloc, values, "core", places.core, declared.core, fit.core)?;
    push_limits(alloc, values, places, declared, fit)
}

/// Appends the changes of the pool's maximum and queue capacity.
fn push_limits(
    alloc: Global,
    values: &mut Vec<Value>,
    places: PoolPlaces,
    declared: &Pool,
    fit: &Pool,
) -> Result<(), AllocError>
    ensures { OnOk result (map view values.new.items
        ≡ map view values.old.items ++ spec.limit_changes places declared.now fit.now) }
{
    push_max(alloc, values, places.max, declared, fit)?;
    push_queue(alloc, values, places.queue, declared, fit)
}

/// Appends the change of the pool's maximum. Appends nothing if the maximum does not change or has
/// no effect.
fn push_max(
    alloc: Global,
    values: &mut Vec<Value>,
    place: Option<TextPlace>,
    declared: &Pool,
    fit: &Pool,
) -> Result<(), AllocError>
    ensures { OnOk result (map view values.new.items
        ≡ map view values.old.items ++ spec.max_change place declared.now fit.now) }
{
    if has_useless_max(fit) || declared.max == fit.max {
        return Ok(());
    }
    let now = max_value(alloc, declared);
    let value = max_value(alloc, fit);
    push_value(values, change_value(alloc, "max", place, now, value))
}

/// Appends the change of the capacity of the pool's queue. Appends nothing if the capacity does not
/// change, or if the queue is unbounded.
fn push_queue(
    alloc: Global,
    values: &mut Vec<Value>,
    place: Option<TextPlace>,
    declared: &Pool,
    fit: &Pool,
) -> Result<(), AllocError>
    ensures { OnOk result (map view values.new.items
        ≡ map view values.old.items ++ spec.queue_change place declared.now fit.now) }
{
    if fit.unbounded {
        return Ok(());
    }
    push_change(alloc, values, "queue", place, declared.queue, fit.queue)
}

/// Appends the change of a size from `now` to `value`. `key` is the name of the size, such as
/// `core`. Appends nothing if the two values are equal.
fn push_change(
    alloc: Global,
    values: &mut Vec<Value>,
    key: &str,
    place: Option<TextPlace>,
    now: u64,
    value: u64,
) -> Result<(), AllocError>
    ensures { OnOk result (map view values.new.items
        ≡ map view values.old.items ++ spec.change_of key.now place now value) }
{
    if now == value {
        return Ok(());
    }
    let now = Ok(Value::from(now));
    let value = Ok(Value::from(value));
    push_value(values, change_value(alloc, key, place, now, value))
}

/// Creates a JSON object for the change of a size from `now` to `value`. `key` is the name of the
/// size, such as `core`. If `now` or `value` is an error, returns this error.
#[tactic(auto, unfolding(crate::specs::JsonSizes::change_data))]
fn change_value(
    alloc: Global,
    key: &str,
    place: Option<TextPlace>,
    now: Result<Value, AllocError>,
    value: Result<Value, AllocError>,
) -> Result<Value, AllocError>
    ensures { IfOk result (λ change. IsOkAnd now (λ now. IsOkAnd value (λ value.
        view change ≡ spec.change_data key.now place (view now) (view value)))) }
{
    Object::new(alloc)
        .value("column", column_value(place))
        .text("key", key)
        .value("line", line_value(place))
        .part("now", now)
        .part("value", value)
        .done()
}
