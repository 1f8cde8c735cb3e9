//! The events of a witness as JSON. A witness is a counterexample: a list of events whose last
//! event is a refused submit, or after which jobs wait only for each other.
//!
//! A step is an event that was performed. Consecutive similar steps form a run, and each run is one
//! JSON object. Steps are similar if
//!
//! - their actors are clients of one kind, with consecutive numbers,
//! - their actions and outcomes are the same, and
//! - the jobs that they submit have consecutive numbers.
//!
//! Only three kinds of steps can be similar: a client works, a client starts its body again, or a
//! client submits a job that is queued, started or rejected. Any other step is a run of its own.

ghost use Rattle.std.specs.Prelude.{◌≡◌, ◌+◌, ◌==◌, ◌++◌, ◌∷◌, [], map, IfOk, OnOk};
ghost use Rattle.serde_json.specs.View.{view};
ghost use Rattle.report.specs.EventRuns as runs;
ghost use Rattle.report.specs.EventsShown as shown;
ghost use Rattle.report.specs.JsonEvents as spec;

use crate::event_queues::queue_value;
use crate::event_steps::{Actor, EventStep, PoolCounts};
use crate::json_event_parts::{actor_place, actor_value, job_of, outcome_word};
use crate::json_object::Object;
use crate::json_places::{column_value, line_value};
use crate::json_values::{optional_number, push_value};
use diagnostics::PlanPlaces;
use interleaving::Outcome;
use job_bodies::Plan;
use serde_json::Value;
use std::alloc::{AllocError, Global};

/// A run of similar steps that is still open, because the next step may extend the run. The fields
/// are the first step of the run, the number of its steps, and its last step.
#[derive(Clone, Copy)]
struct OpenRun {
    first: EventStep,
    times: usize,
    last: EventStep,
}

/// Converts the steps to a JSON list. Each run of similar steps becomes one object. The first step
/// must start from the plan's initial state.
pub(crate) fn events_value(
    alloc: Global,
    plan: &Plan,
    places: &PlanPlaces,
    steps: &[EventStep],
) -> Result<Value, AllocError>
    ensures { IfOk result (λ value. view value
        ≡ spec.list_data (map (spec.run_data plan.now places.now) (runs.runs (shown.shown_from [] steps.now)))) }
{
    let mut values = Vec::new(alloc);
    push_runs(&mut values, alloc, plan, places, steps)?;
    Ok(Value::Array(values))
}

/// Splits the steps into runs of similar steps, and appends one JSON object for each run.
fn push_runs(
    values: &mut Vec<Value>,
    alloc: Global,
    plan: &Plan,
    places: &PlanPlaces,
    steps: &[EventStep],
) -> Result<(), AllocError>
    ensures { OnOk result (map view values.new.items
        ≡ map view values.old.items ++ map (spec.run_data plan.now places.now) (runs.runs (shown.shown_from [] steps.now))) }
{
    if steps.is_empty() {
        return Ok(());
    }
    let mut run = OpenRun {
        first: steps[0],
        times: 1,
        last: steps[0],
    };
    for index in 1..steps.len() {
        let next = steps[index];
        if follows(run, next) {
            run.times += 1;
            run.last = next;
        } else {
            push_run(values, alloc, plan, places, run, &steps[..index])?;
            run = OpenRun {
                first: next,
                times: 1,
                last: next,
            };
        }
    }
    push_run(values, alloc, plan, places, run, steps)
}

/// Returns whether the step extends `run`, which is a run of similar steps.
#[tactic(auto, unfolding(crate::specs::EventRuns::follows))]
fn follows(run: OpenRun, step: EventStep) -> bool
    ensures { result ≡ runs.follows run.first run.times step }
{
    is_later_client(run.first.actor, run.times, step.actor)
        && is_same_action(run.first.action, step.action)
        && is_later_outcome(run.first.outcome, run.times, step.outcome)
}

fn is_later_client(first: Actor, times: usize, next: Actor) -> bool
    ensures { result ≡ runs.is_later_client first times next }
{
    match (first, next) {
        (Actor::Client(kind, number), Actor::Client(next_kind, next_number)) => {
            next_kind == kind && is_sum(next_number, number, times)
        }
        _ => false,
    }
}

fn is_same_action(first: Option<usize>, next: Option<usize>) -> bool
    ensures { result ≡ runs.is_same_action first next }
{
    match (first, next) {
        (None, None) => true,
        (Some(first), Some(next)) => next == first,
        _ => false,
    }
}

fn is_later_outcome(first: Outcome, times: usize, next: Outcome) -> bool
    ensures { result ≡ runs.is_later_outcome first times next }
{
    match (first, next) {
        (Outcome::Started(job), Outcome::Started(next_job)) => is_sum(next_job, job, times),
        (Outcome::Queued(job), Outcome::Queued(next_job)) => is_sum(next_job, job, times),
        (Outcome::Rejected(_, job), Outcome::Rejected(_, next_job)) => is_sum(next_job, job, times),
        (Outcome::Worked(_), Outcome::Worked(_)) => true,
        (Outcome::Looped, Outcome::Looped) => true,
        _ => false,
    }
}

fn is_sum(total: usize, number: usize, times: usize) -> bool
    ensures { result ≡ (total == number + times) }
{
    number <= total && total - number == times
}

/// Appends the JSON object of a run of similar steps. `steps` has all steps of the counterexample
/// up to and including the last step of the run.
fn push_run(
    values: &mut Vec<Value>,
    alloc: Global,
    plan: &Plan,
    places: &PlanPlaces,
    run: OpenRun,
    steps: &[EventStep],
) -> Result<(), AllocError>
    ensures { OnOk result (map view values.new.items
        ≡ map view values.old.items ++ spec.run_data plan.now places.now (shown.run_of run steps.now) ∷ []) }
{
    push_value(values, run_value(alloc, plan, places, run, steps))
}

#[tactic(auto, unfolding(crate::specs::JsonEvents::event_data, crate::specs::JsonEvents::run_data))]
fn run_value(
    alloc: Global,
    plan: &Plan,
    places: &PlanPlaces,
    run: OpenRun,
    steps: &[EventStep],
) -> Result<Value, AllocError>
    ensures { IfOk result (λ value. view value
        ≡ spec.run_data plan.now places.now (shown.run_of run steps.now)) }
{
    let place = actor_place(places, run.first.actor, run.first.action);
    Object::new(alloc)
        .value("action", optional_number(run.first.action))
        .part("actor", actor_value(alloc, plan, run.first.actor))
        .value("column", column_value(place))
        .value("job", optional_number(job_of(run.first.outcome)))
        .value("line", line_value(place))
        .text("outcome", outcome_word(run.first.outcome))
        .part("pool", pool_value(alloc, plan, run.last.pool, steps))
        .value("times", Value::from(run.times))
        .done()
}

/// Returns a JSON object with the state of the pool after these steps, or null if `pool` is `None`.
fn pool_value(
    alloc: Global,
    plan: &Plan,
    pool: Option<PoolCounts>,
    steps: &[EventStep],
) -> Result<Value, AllocError>
    ensures { IfOk result (λ value. view value
        ≡ spec.pool_data plan.now pool (shown.queue_after steps.now pool)) }
{
    match pool {
        Some(counts) => pool_state_value(alloc, plan.pool_name(counts.number), counts, steps),
        None => Ok(Value::Null),
    }
}

/// Returns a JSON object with the state of a pool after these steps: its name, the jobs in its
/// queue, the number of its threads, and the number of its idle threads. `counts` has the last two
/// numbers.
#[tactic(auto, unfolding(crate::specs::JsonEvents::pool_state_data))]
fn pool_state_value(
    alloc: Global,
    name: &str,
    counts: PoolCounts,
    steps: &[EventStep],
) -> Result<Value, AllocError>
    ensures { IfOk result (λ value. view value ≡ spec.pool_state_data
        counts.idle name.now (shown.queue_from counts.number [] steps.now) counts.threads) }
{
    Object::new(alloc)
        .value("idle", Value::from(counts.idle))
        .text("name", name)
        .part("queue", queue_value(alloc, steps, counts.number))
        .value("threads", Value::from(counts.threads))
        .done()
}
