//! The places of lints in a plan's text.

use crate::entry::{BEGINNING, list_of};
use crate::lint::Lint;
use crate::lint_conditions::grows_if_full;
use job_bodies::{Part, Plan};
use plan_text::{Places, TextPlace};

/// Returns the place in the plan's text to which the lint refers. For a lint of the whole plan, or
/// if no place is found, this is the beginning of the text.
pub(crate) fn place_of(places: &Places<'_>, plan: &Plan, lint: Lint) -> TextPlace {
    match lint {
        Lint::NothingToAsk | Lint::NoClients | Lint::NothingSubmitted | Lint::StaleCertificate =>
            BEGINNING,
        Lint::SafeAtCore => first_max_place(places, plan),
        Lint::SubmitsItself(class) => value_place(places, Part::Class, class, "name"),
        Lint::PoolWaitsForItself(pool) => value_place(places, Part::Pool, pool, "core_timeout"),
        Lint::PoolWithoutJobs(pool) => entry_place(places, Part::Pool, pool),
        Lint::UselessMax(pool) => value_place(places, Part::Pool, pool, "max"),
        Lint::UselessMayReject(pool, _) | Lint::NeverRejects(pool) => {
            value_place(places, Part::Pool, pool, "may_reject")
        }
        Lint::QueueFarAbove(pool, _) => value_place(places, Part::Pool, pool, "queue"),
        Lint::ClassWithoutJobs(class) => entry_place(places, Part::Class, class),
        Lint::RunInCaller(class) => value_place(places, Part::Class, class, "body"),
        Lint::GoesOnce(client) => entry_place(places, Part::Client, client),
        Lint::Crowd(client) => value_place(places, Part::Client, client, "count"),
        Lint::NeverGot(part, number, action)
        | Lint::WorkLikeASize(part, number, action, _)
        | Lint::OpenFuture(part, number, action)
        | Lint::QueueMayGrow(part, number, action) => action_place(places, part, number, action),
    }
}

/// Finds the first pool that has a bounded queue and whose maximum [`at_core`](crate::at_core)
/// lowers. Returns the place of this maximum, or the beginning of the text if there is no such
/// pool.
fn first_max_place(places: &Places<'_>, plan: &Plan) -> TextPlace {
    match plan.pools().iter().position(|pool| grows_if_full(pool)) {
        Some(pool) => value_place(places, Part::Pool, pool, "max"),
        None => BEGINNING,
    }
}

fn entry_place(places: &Places<'_>, part: Part, index: usize) -> TextPlace {
    places.entry(list_of(part), index).unwrap_or(BEGINNING)
}

fn value_place(places: &Places<'_>, part: Part, index: usize, key: &str) -> TextPlace {
    match places.value(list_of(part), index, key) {
        Some(place) => place,
        None => entry_place(places, part, index),
    }
}

fn action_place(places: &Places<'_>, part: Part, index: usize, action: usize) -> TextPlace {
    match places.element(list_of(part), index, "body", action) {
        Some(place) => place,
        None => entry_place(places, part, index),
    }
}
