//! A witness as JSON: how it ends, its events, and the event lines that `replay` reads. A witness
//! is a counterexample: a list of events whose last event is a refused submit, or after which jobs
//! wait only for each other.

ghost use Rattle.std.specs.Prelude.{◌≡◌, [], map, flat_map, IfOk};
ghost use Rattle.serde_json.specs.View.{view};
ghost use Rattle.counterexample.specs.EventLines.{stuck_members};
ghost use Rattle.report.specs.EventRuns as runs;
ghost use Rattle.report.specs.EventsShown as shown;
ghost use Rattle.report.specs.JsonEnding as ending;
ghost use Rattle.report.specs.JsonEvents as events;
ghost use Rattle.report.specs.JsonWitness as spec;
ghost use Rattle.report.specs.WaitsSeen as seen;

use crate::event_steps::{EventStep, perform_all};
use crate::json_ending::ending_value;
use crate::json_events::events_value;
use crate::json_object::Object;
use crate::json_replay::replay_value;
use counterexample::Witness;
use diagnostics::PlanPlaces;
use interleaving::World;
use job_bodies::Plan;
use serde_json::Value;
use std::alloc::{AllocError, Global};

/// Converts a counterexample to JSON.
///
/// # Errors
///
/// Returns [`AllocError`] if memory runs out.
pub(crate) fn witness_value(
    alloc: Global,
    plan: &Plan,
    places: &PlanPlaces,
    witness: &Witness,
) -> Result<Value, AllocError>
    ensures { IfOk result (λ value. view value ≡ spec.witness_data places.now plan.now witness.now) }
{
    let mut world = World::start(alloc, plan)?;
    let steps = perform_all(alloc, plan, &mut world, &witness.events)?;
    parts_value(alloc, plan, places, &world, &steps, witness)
}

/// Converts a counterexample to JSON. `steps` has what its events did, and `world` is the state
/// after these events.
#[tactic(auto, unfolding(crate::specs::JsonWitness::witness_parts))]
fn parts_value(
    alloc: Global,
    plan: &Plan,
    places: &PlanPlaces,
    world: &World,
    steps: &[EventStep],
    witness: &Witness,
) -> Result<Value, AllocError>
    ensures { IfOk result (λ value. view value ≡ spec.witness_parts
        (ending.ending_parts (stuck_members witness.now.ending) (ending.kind_word witness.now.ending) (ending.refusing_pool plan.now witness.now.ending)
        (flat_map (seen.wait_seen plan.now world.now.view) (stuck_members witness.now.ending)))
        (events.list_data (map (events.run_data plan.now places.now) (runs.runs (shown.shown_from [] steps.now))))
        (spec.replay_data plan.now witness.now)) }
{
    Object::new(alloc)
        .part("ending", ending_value(alloc, plan, world, &witness.ending))
        .part("events", events_value(alloc, plan, places, steps))
        .part("replay", replay_value(alloc, plan, witness))
        .done()
}
