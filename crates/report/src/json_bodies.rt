//! The actions of a body as JSON.

ghost use Rattle.std.specs.Prelude.{◌≡◌, IfOk};
ghost use Rattle.serde_json.specs.View.{view};
ghost use Rattle.report.specs.JsonPlan as spec;

use crate::json_object::Object;
use crate::json_places::{action_place, column_value, line_value};
use crate::json_values::push_value;
use diagnostics::BodyPlaces;
use job_bodies::{Action, Plan, has_get_of};
use plan_text::TextPlace;
use serde_json::Value;
use std::alloc::{AllocError, Global};

/// Converts a body to a JSON list of its actions. The body belongs to a class or to a client kind,
/// whose index is `index`. `places` has the places of all classes, or of all client kinds, in the
/// plan's text.
pub(crate) fn body_value(
    alloc: Global,
    plan: &Plan,
    places: &[BodyPlaces],
    index: usize,
    body: &[Action],
) -> Result<Value, AllocError>
    ensures { IfOk result
        (λ value. view value ≡ spec.body_data plan.now places.now index body.now) }
{
    let mut values = Vec::with_capacity(alloc, body.len())?;
    for (number, action) in body.iter().enumerate() {
        let value = action_entry(alloc, plan, places, index, body, number, action);
        push_value(&mut values, value)?;
    }
    Ok(Value::from(values))
}

fn action_entry(
    alloc: Global,
    plan: &Plan,
    places: &[BodyPlaces],
    index: usize,
    body: &[Action],
    number: usize,
    action: &Action,
) -> Result<Value, AllocError>
    ensures { IfOk result (λ value. view value
        ≡ spec.action_entry plan.now places.now index body.now (number, action.now)) }
{
    let place = action_place(places, index, number);
    action_value(alloc, plan, place, body, number, *action)
}

#[tactic(auto, unfolding(crate::specs::JsonPlan::work_data, crate::specs::JsonPlan::submit_data, crate::specs::JsonPlan::get_data))]
fn action_value(
    alloc: Global,
    plan: &Plan,
    place: Option<TextPlace>,
    body: &[Action],
    number: usize,
    action: Action,
) -> Result<Value, AllocError>
    ensures { IfOk result
        (λ value. view value ≡ spec.action_data plan.now place body.now number action) }
{
    match action {
        Action::Work(units) => Object::new(alloc)
            .text("action", "work")
            .value("column", column_value(place))
            .value("line", line_value(place))
            .value("units", Value::from(units))
            .done(),
        Action::Submit(class) => Object::new(alloc)
            .text("action", "submit")
            .text("class", plan.class_name(class))
            .value("column", column_value(place))
            .value("line", line_value(place))
            .value("slot", slot_value(body, number))
            .done(),
        Action::Get(submit) => Object::new(alloc)
            .text("action", "get")
            .value("column", column_value(place))
            .value("line", line_value(place))
            .value("slot", Value::from(submit))
            .done(),
    }
}

/// Returns the slot of a submit as a JSON value: the position of the submit in its body. The get of
/// its job has the same slot. The value is null if the body does not get the job.
fn slot_value(body: &[Action], submit: usize) -> Value
    ensures { view result ≡ spec.slot_data body.now submit }
{
    if has_get_of(body, submit) {
        Value::from(submit)
    } else {
        Value::Null
    }
}
