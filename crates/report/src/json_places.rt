//! Places in a plan's text. This module looks up the place of an entry, such as a class, and
//! converts lines and columns to JSON.

ghost use Rattle.std.specs.Prelude.{◌≡◌};
ghost use Rattle.serde_json.specs.View.{view};
ghost use Rattle.report.specs.JsonPlaces as spec;

use diagnostics::{BodyPlaces, PlanPlaces, PoolPlaces};
use plan_text::TextPlace;
use serde_json::Value;
use size_search::{Cause, NoSizes};

/// Converts the line of a place in a text to JSON. The value is null if the place is `None`, which
/// means that it is not known.
#[tactic(auto, unfolding(crate::specs::JsonPlaces::line_data))]
pub(crate) fn line_value(place: Option<TextPlace>) -> Value
    ensures { view result ≡ spec.line_data place }
{
    match place {
        Some(place) => Value::from(place.line),
        None => Value::Null,
    }
}

/// Converts the column of a place in a text to JSON. The value is null if the place is `None`,
/// which means that it is not known.
#[tactic(auto, unfolding(crate::specs::JsonPlaces::column_data))]
pub(crate) fn column_value(place: Option<TextPlace>) -> Value
    ensures { view result ≡ spec.column_data place }
{
    match place {
        Some(place) => Value::from(place.column),
        None => Value::Null,
    }
}

/// Returns the places of the name, the sizes and `core_timeout` of the pool with this index. If
/// there is no such pool, each place is `None`.
pub(crate) fn pool_places_at(pools: &[PoolPlaces], pool: usize) -> PoolPlaces
    ensures { result ≡ spec.pool_places_at pools.now pool }
{
    match pools.get(pool) {
        Some(places) => *places,
        None => PoolPlaces {
            name: None,
            core: None,
            max: None,
            queue: None,
            core_timeout: None,
        },
    }
}

/// Returns the place of the name of a class or client kind, or `None` if the place is not known.
/// `index` is the index of this class or client kind.
pub(crate) fn name_place(bodies: &[BodyPlaces], index: usize) -> Option<TextPlace>
    ensures { result ≡ spec.name_place bodies.now index }
{
    match bodies.get(index) {
        Some(body) => body.name,
        None => None,
    }
}

/// Returns the place of an action, or `None` if the place is not known. `action` is the index of
/// the action in its body, and `index` is the index of the class or client kind with this body.
pub(crate) fn action_place(bodies: &[BodyPlaces], index: usize, action: usize) -> Option<TextPlace>
    ensures { result ≡ spec.action_place bodies.now index action }
{
    match bodies.get(index) {
        Some(body) => place_at(&body.actions, action),
        None => None,
    }
}

fn place_at(actions: &[Option<TextPlace>], action: usize) -> Option<TextPlace>
    ensures { result ≡ spec.listed_place actions.now action }
{
    match actions.get(action) {
        Some(place) => *place,
        None => None,
    }
}

/// Returns the place in the plan's text to which a reason points. `cause` is a reason why no sizes
/// were found. Depending on the reason, the result is the place of
///
/// - the name of a class,
/// - an action,
/// - the `core_timeout` of a pool, or
/// - the name of a pool, if sizes are above the limit.
///
/// Returns `None` if the place is not known.
pub(crate) fn cause_place(places: &PlanPlaces, cause: NoSizes) -> Option<TextPlace>
    ensures { result ≡ spec.cause_place places.now cause }
{
    match cause {
        NoSizes::Cause(Cause::Circle(class)) => name_place(&places.classes, class),
        NoSizes::Cause(Cause::ClientNeverGets(client, action)) => {
            action_place(&places.clients, client, action)
        }
        NoSizes::Cause(Cause::ClassNeverGets(class, action)) => {
            action_place(&places.classes, class, action)
        }
        NoSizes::Cause(Cause::PoolWaitsForItself(pool)) => {
            pool_places_at(&places.pools, pool).core_timeout
        }
        NoSizes::TooLarge(pool) => pool_places_at(&places.pools, pool).name,
    }
}
