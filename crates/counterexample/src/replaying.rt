//! The replay of a list of events from a plan's initial state.

ghost use Rattle.std.specs.Prelude.{◌≡◌, IfOk};
ghost use Rattle.pool_machine.specs.Reach.{start};
ghost use Rattle.interleaving.specs.LiveView.{live_view};
ghost use Rattle.counterexample.specs.ReplayResult.{Finds};

use interleaving::{Event, Outcome, World};
use job_bodies::Plan;
use std::alloc::AllocError;

/// The result of the replay of a list of events.
pub(crate) enum ReplayResult {
    /// A submit is refused. The first field is the number of events up to and including the first
    /// refused submit. The second field is the number of the pool that refuses it.
    Refused(usize, usize),
    /// An event is not possible, and no earlier event is a refused submit.
    NotPossible,
    /// Each event is possible, and none is a refused submit.
    Whole,
}

/// Performs the events in `world`, which must be in the plan's initial state. Stops after the first
/// refused submit, or before the first event that is not possible. If a pool rejects a job as the
/// plan allows, the submit is not refused, and the replay continues.
///
/// # Errors
///
/// Returns `AllocError` if memory runs out.
pub(crate) fn replay(
    plan: &Plan,
    world: &mut World,
    events: &[Event],
) -> Result<ReplayResult, AllocError>
    requires { world.old.view ≡ live_view plan.now (start plan.now) }
    ensures { IfOk result (Finds plan.now events.now world.new.view) }
{
    for (index, event) in events.iter().enumerate() {
        let Some(outcome) = world.step(plan, *event)? else {
            return Ok(ReplayResult::NotPossible);
        };
        if let Outcome::Refused(pool) = outcome {
            return Ok(ReplayResult::Refused(index + 1, pool));
        }
    }
    Ok(ReplayResult::Whole)
}
