//! The reason why no sizes were found, as JSON.

ghost use Rattle.std.specs.Prelude.{◌≡◌, IfOk, IsOkAnd, string_bytes};
ghost use Rattle.serde_json.specs.View.{view};
ghost use Rattle.report.specs.Cause.{cause_words};
ghost use Rattle.report.specs.JsonSizes as spec;

use crate::cause_lines::push_cause_words;
use crate::json_object::Object;
use crate::json_places::{cause_place, column_value, line_value};
use diagnostics::PlanPlaces;
use job_bodies::Plan;
use plan_text::TextPlace;
use serde_json::Value;
use size_search::{Cause, NoSizes};
use std::alloc::{AllocError, Global};

/// Returns a JSON object for the reason why no sizes were found. The object has the kind of the
/// reason, its place in the plan's text, and a message. It also has the members `action`, `class`,
/// `client` and `pool`. A member that does not apply to the reason is null.
pub(crate) fn cause_value(
    alloc: Global,
    places: &PlanPlaces,
    plan: &Plan,
    cause: NoSizes,
) -> Result<Value, AllocError>
    ensures { IfOk result (λ value. view value ≡ spec.cause_data places.now plan.now cause) }
{
    let words = words_of(alloc, plan, cause)?;
    cause_object(alloc, plan, cause, cause_place(places, cause), &words)
}

fn words_of(alloc: Global, plan: &Plan, cause: NoSizes) -> Result<String, AllocError>
    ensures { IfOk result (λ words. string_bytes words ≡ cause_words plan.now cause) }
{
    let mut words = String::new(alloc);
    push_cause_words(&mut words, plan, cause)?;
    Ok(words)
}

fn cause_object(
    alloc: Global,
    plan: &Plan,
    cause: NoSizes,
    place: Option<TextPlace>,
    words: &str,
) -> Result<Value, AllocError>
    ensures { IfOk result (λ value. view value ≡ spec.cause_object plan.now cause place words.now) }
{
    match cause {
        NoSizes::Cause(Cause::Circle(class)) => {
            cycle_value(alloc, place, plan.class_name(class), words)
        }
        NoSizes::Cause(Cause::ClientNeverGets(client, action)) => {
            let client = Value::try_from_str(alloc, plan.client_name(client));
            never_got_value(alloc, place, action, Ok(Value::Null), client, words)
        }
        NoSizes::Cause(Cause::ClassNeverGets(class, action)) => {
            let class = Value::try_from_str(alloc, plan.class_name(class));
            never_got_value(alloc, place, action, class, Ok(Value::Null), words)
        }
        NoSizes::Cause(Cause::PoolWaitsForItself(pool)) => {
            pool_value(alloc, "core timeout", place, plan.pool_name(pool), words)
        }
        NoSizes::TooLarge(pool) => {
            pool_value(alloc, "limit", place, plan.pool_name(pool), words)
        }
    }
}

#[tactic(auto, unfolding(crate::specs::JsonSizes::cycle_data))]
fn cycle_value(
    alloc: Global,
    place: Option<TextPlace>,
    class: &str,
    words: &str,
) -> Result<Value, AllocError>
    ensures { IfOk result (λ value. view value ≡ spec.cycle_data place class.now words.now) }
{
    Object::new(alloc)
        .value("action", Value::Null)
        .text("class", class)
        .value("client", Value::Null)
        .value("column", column_value(place))
        .text("kind", "cycle")
        .value("line", line_value(place))
        .value("pool", Value::Null)
        .text("text", words)
        .done()
}

#[tactic(auto, unfolding(crate::specs::JsonSizes::never_got_data))]
fn never_got_value(
    alloc: Global,
    place: Option<TextPlace>,
    action: usize,
    class: Result<Value, AllocError>,
    client: Result<Value, AllocError>,
    words: &str,
) -> Result<Value, AllocError>
    ensures { IfOk result (λ value. IsOkAnd class (λ class. IsOkAnd client (λ client.
        view value ≡ spec.never_got_data place action (view class) (view client) words.now))) }
{
    Object::new(alloc)
        .value("action", Value::from(action))
        .part("class", class)
        .part("client", client)
        .value("column", column_value(place))
        .text("kind", "never got")
        .value("line", line_value(place))
        .value("pool", Value::Null)
        .text("text", words)
        .done()
}

#[tactic(auto, unfolding(crate::specs::JsonSizes::pool_cause_data))]
fn pool_value(
    alloc: Global,
    kind: &str,
    place: Option<TextPlace>,
    pool: &str,
    words: &str,
) -> Result<Value, AllocError>
    ensures { IfOk result (λ value. view value ≡ spec.pool_cause_data kind.now place pool.now words.now) }
{
    Object::new(alloc)
        .value("action", Value::Null)
        .value("class", Value::Null)
        .value("client", Value::Null)
        .value("column", column_value(place))
        .text("kind", kind)
        .value("line", line_value(place))
        .text("pool", pool)
        .text("text", words)
        .done()
}
