//! Laws of certified plans: no history of such a plan has a refused submit.

ghost use Rattle.std.specs.Prelude.{◌≡◌, List};
ghost use Rattle.pool_machine.specs.declared.event.Event.{Event};
ghost use Rattle.locked_runner.specs.HeldWorld.{IsReachedBy, RefusesNothing};

use crate::{CertifiedWorld, ViewedWorld};
use cert_check::Certified;
use held_machines::Held;

/// States that the machine in `held` has refused no submit, and refuses none in its next event. In
/// detail:
///
/// - The history leads to a state that has the same live jobs, pools, clients and number of refused
///   submits as the world in `held`.
/// - No submit of the history was refused.
/// - No event that is possible next is a refused submit.
pub fn held_worlds_refuse_nothing(held: &Held<CertifiedWorld<'_>>)
    ensures reached { IsReachedBy held.now.machine.certified.now.plan held.now.history
        held.now.state.world }
    ensures none_refused { held.now.state.world.refusals ≡ 0 }
    ensures refuses_nothing { RefusesNothing held.now.machine.certified.now.plan held.now.history }
{
    let _history = held.history();
}

/// States that `world` has no refused submits if some history of the certified plan leads to this
/// world.
pub fn reached_worlds_refuse_nothing(certified: &Certified, world: &ViewedWorld)
    ensures { (history : List Event)
        → IsReachedBy certified.now.plan history world.now
        → world.now.refusals ≡ 0 }
{
    let _pools = certified.plan().pools();
    let _cert = certified.cert();
    let _world = world.world();
}
