//! A plan as JSON: its text, and its pools, classes and client kinds with their places.

ghost use Rattle.std.specs.Prelude.{◌≡◌, IfOk, IfSome};
ghost use Rattle.serde_json.specs.View.{view};
ghost use Rattle.report.specs.JsonObject.{members_of};
ghost use Rattle.report.specs.JsonPlan as spec;

use crate::json_bodies::body_value;
use crate::json_object::Object;
use crate::json_places::{column_value, line_value, name_place, pool_places_at};
use crate::json_values::{empty_list, max_value, push_value, queue_value};
use diagnostics::{BodyPlaces, PlanPlaces, PoolPlaces};
use job_bodies::{Class, Client, Plan, Pool};
use plan_text::TextPlace;
use serde_json::Value;
use std::alloc::{AllocError, Global};

/// Converts a plan to JSON. `text` is the text from which the plan was read.
#[tactic(auto, unfolding(crate::specs::JsonPlan::plan_object))]
pub(crate) fn plan_value(
    alloc: Global,
    text: &[u8],
    places: &PlanPlaces,
    plan: &Plan,
) -> Result<Value, AllocError>
    ensures { IfOk result (λ value. view value ≡ spec.plan_data text.now places.now plan.now) }
{
    Object::new(alloc)
        .part(
            "classes",
            classes_value(alloc, plan, &places.classes, plan.classes()),
        )
        .part(
            "clients",
            clients_value(alloc, plan, &places.clients, plan.clients()),
        )
        .part("pools", pools_value(alloc, &places.pools, plan.pools()))
        .part("text", text_value(alloc, text))
        .done()
}

/// Creates the JSON of a plan whose text has faults. It has the text, and empty lists of pools,
/// classes and client kinds.
#[tactic(auto, unfolding(crate::specs::JsonPlan::plan_object))]
pub(crate) fn text_only_value(alloc: Global, text: &[u8]) -> Result<Value, AllocError>
    ensures { IfOk result (λ value. view value ≡ spec.text_only_data text.now) }
{
    Object::new(alloc)
        .value("classes", empty_list(alloc))
        .value("clients", empty_list(alloc))
        .value("pools", empty_list(alloc))
        .part("text", text_value(alloc, text))
        .done()
}

/// Converts the plan's text to a JSON string. The value is null if the text is not UTF-8.
fn text_value(alloc: Global, text: &[u8]) -> Result<Value, AllocError>
    ensures { IfOk result (λ value. view value ≡ spec.text_data text.now) }
{
    match str::from_utf8(text) {
        Ok(text) => Value::try_from_str(alloc, text),
        Err(_) => Ok(Value::Null),
    }
}

fn pools_value(alloc: Global, places: &[PoolPlaces], pools: &[Pool]) -> Result<Value, AllocError>
    ensures { IfOk result (λ value. view value ≡ spec.pools_data places.now pools.now) }
{
    let mut values = Vec::with_capacity(alloc, pools.len())?;
    for (number, pool) in pools.iter().enumerate() {
        push_value(&mut values, pool_entry(alloc, places, number, pool))?;
    }
    Ok(Value::from(values))
}

fn pool_entry(
    alloc: Global,
    places: &[PoolPlaces],
    number: usize,
    pool: &Pool,
) -> Result<Value, AllocError>
    ensures { IfOk result
        (λ value. view value ≡ spec.pool_entry places.now (number, pool.now)) }
{
    let places = pool_places_at(places, number);
    pool_value(alloc, places.name, pool)
}

/// Converts a pool to JSON. The object has the members `core_timeout` and `may_reject` only if they
/// are true.
fn pool_value(alloc: Global, place: Option<TextPlace>, pool: &Pool) -> Result<Value, AllocError>
    ensures { IfOk result (λ value. view value ≡ spec.pool_data place pool.now) }
{
    pool_object(alloc, place, pool)
        .flag("core_timeout", pool.core_timeout)
        .flag("may_reject", pool.may_reject)
        .done()
}

#[tactic(auto, unfolding(crate::specs::JsonPlan::pool_members))]
fn pool_object(alloc: Global, place: Option<TextPlace>, pool: &Pool) -> Object
    ensures { IfSome (members_of result) (λ members. members ≡ spec.pool_members place pool.now) }
{
    Object::new(alloc)
        .value("column", column_value(place))
        .value("core", Value::from(pool.core))
        .value("line", line_value(place))
        .part("max", max_value(alloc, pool))
        .text("name", &pool.name)
        .value("prestart", Value::Bool(pool.prestart))
        .part("queue", queue_value(alloc, pool))
}

fn classes_value(
    alloc: Global,
    plan: &Plan,
    places: &[BodyPlaces],
    classes: &[Class],
) -> Result<Value, AllocError>
    ensures { IfOk result
        (λ value. view value ≡ spec.classes_data plan.now places.now classes.now) }
{
    let mut values = Vec::with_capacity(alloc, classes.len())?;
    for (number, class) in classes.iter().enumerate() {
        push_value(&mut values, class_entry(alloc, plan, places, number, class))?;
    }
    Ok(Value::from(values))
}

#[tactic(auto, unfolding(crate::specs::JsonPlan::class_data))]
fn class_entry(
    alloc: Global,
    plan: &Plan,
    places: &[BodyPlaces],
    number: usize,
    class: &Class,
) -> Result<Value, AllocError>
    ensures { IfOk result
        (λ value. view value ≡ spec.class_entry plan.now places.now (number, class.now)) }
{
    let place = name_place(places, number);
    let pool = plan.pool_name(class.pool);
    Object::new(alloc)
        .part("body", body_value(alloc, plan, places, number, &class.body))
        .value("column", column_value(place))
        .value("line", line_value(place))
        .text("name", &class.name)
        .text("pool", pool)
        .done()
}

fn clients_value(
    alloc: Global,
    plan: &Plan,
    places: &[BodyPlaces],
    clients: &[Client],
) -> Result<Value, AllocError>
    ensures { IfOk result
        (λ value. view value ≡ spec.clients_data plan.now places.now clients.now) }
{
    let mut values = Vec::with_capacity(alloc, clients.len())?;
    for (number, client) in clients.iter().enumerate() {
        push_value(
            &mut values,
            client_entry(alloc, plan, places, number, client),
        )?;
    }
    Ok(Value::from(values))
}

#[tactic(auto, unfolding(crate::specs::JsonPlan::client_data))]
fn client_entry(
    alloc: Global,
    plan: &Plan,
    places: &[BodyPlaces],
    number: usize,
    client: &Client,
) -> Result<Value, AllocError>
    ensures { IfOk result
        (λ value. view value ≡ spec.client_entry plan.now places.now (number, client.now)) }
{
    let place = name_place(places, number);
    Object::new(alloc)
        .part(
            "body",
            body_value(alloc, plan, places, number, &client.body),
        )
        .value("column", column_value(place))
        .value("count", Value::from(client.count))
        .value("line", line_value(place))
        .text("name", &client.name)
        .value("repeat", Value::Bool(client.repeat))
        .done()
}
