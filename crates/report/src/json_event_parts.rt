//! Members of the JSON object of an event.

ghost use Rattle.std.specs.Prelude.{◌≡◌, IfOk};
ghost use Rattle.serde_json.specs.View.{view};
ghost use Rattle.report.specs.JsonEvents as spec;

use crate::event_steps::Actor;
use crate::json_object::Object;
use crate::json_places::action_place;
use diagnostics::PlanPlaces;
use interleaving::Outcome;
use job_bodies::Plan;
use plan_text::TextPlace;
use serde_json::Value;
use std::alloc::{AllocError, Global};

/// Returns the place of an action in the plan's text. `action` is the index of the action in the
/// actor's body. Returns `None` if the place is not known, if the actor is a pool, or if `action`
/// is `None`.
pub(crate) fn actor_place(
    places: &PlanPlaces,
    actor: Actor,
    action: Option<usize>,
) -> Option<TextPlace>
    ensures { result ≡ spec.actor_place places.now actor action }
{
    let index = action?;
    match actor {
        Actor::Client(kind, _) => action_place(&places.clients, kind, index),
        Actor::Job(class, _) => action_place(&places.classes, class, index),
        Actor::Pool(_) => None,
    }
}

/// Creates a JSON object that names the actor: a client by its kind and number, a job by its class
/// and number, or a pool by its name.
#[tactic(auto, unfolding(crate::specs::JsonEvents::client_data, crate::specs::JsonEvents::job_data, crate::specs::JsonEvents::pool_name_data))]
pub(crate) fn actor_value(alloc: Global, plan: &Plan, actor: Actor) -> Result<Value, AllocError>
    ensures { IfOk result (λ value. view value ≡ spec.actor_data plan.now actor) }
{
    let object = Object::new(alloc);
    match actor {
        Actor::Client(kind, number) => object
            .text("client", plan.client_name(kind))
            .value("number", Value::from(number))
            .done(),
        Actor::Job(class, number) => object
            .text("class", plan.class_name(class))
            .value("job", Value::from(number))
            .done(),
        Actor::Pool(pool) => object.text("pool", plan.pool_name(pool)).done(),
    }
}

/// Returns the name of an outcome, such as `queued`.
pub(crate) fn outcome_word(outcome: Outcome) -> &'static str
    ensures { result.now ≡ spec.outcome_word outcome }
{
    match outcome {
        Outcome::Started(_) => "started",
        Outcome::Queued(_) => "queued",
        Outcome::Refused(_) => "refused",
        Outcome::Rejected(_, _) => "rejected",
        Outcome::Worked(_) => "worked",
        Outcome::Got(_) => "got",
        Outcome::Looped => "looped",
        Outcome::Finished(_) => "finished",
        Outcome::Took(_) => "took",
        Outcome::Retired => "retired",
    }
}

/// Returns the number of the job that an event with this outcome created, got, took or ended.
/// Returns `None` if the outcome has no job.
pub(crate) fn job_of(outcome: Outcome) -> Option<usize>
    ensures { result ≡ spec.job_of outcome }
{
    match outcome {
        Outcome::Started(job)
        | Outcome::Queued(job)
        | Outcome::Rejected(_, job)
        | Outcome::Got(job)
        | Outcome::Finished(job)
        | Outcome::Took(job) => Some(job),
        Outcome::Refused(_) | Outcome::Worked(_) | Outcome::Looped | Outcome::Retired => None,
    }
}
