//! The check that a list of events is a witness.

ghost use Rattle.std.specs.Prelude.{◌≡◌, IfOk, IfSome, take};
ghost use Rattle.pool_machine.specs.State.{State};
ghost use Rattle.pool_machine.specs.Reach.{start, IsReached};
ghost use Rattle.interleaving.specs.LiveView.{live_view};
ghost use Rattle.interleaving.specs.OfPlan.{IsReachableView};
ghost use Rattle.counterexample.specs.declared.ending.Ending.TheVariants.{Refused};
ghost use Rattle.counterexample.specs.Witness.{IsWitness};
ghost use Rattle.counterexample.specs.ReplayResult.{ComesTo, Finds};
ghost use Rattle.counterexample.specs.Confirmed.{IsAnswer, IsReason};

use crate::no_thread_starts::all_start_no_thread;
use crate::replaying::{ReplayResult, replay};
use crate::rising::are_rising;
use crate::{Ending, Reason, Witness};
use interleaving::{Event, World};
use job_bodies::Plan;
use std::alloc::{AllocError, Global};
use weights::Vector;

/// Checks whether a list of events is a witness, and if it is, returns the witness. A witness
/// proves that the plan is not safe. The arguments are not trusted:
///
/// - `members` should be the numbers of jobs that wait only for each other after the events, in
///   ascending order and without duplicates.
/// - `standing` should be empty, or have one vector for each pool. A vector gives weights to
///   workers, clients and jobs. It can prove that its pool never has more than `core` threads. Such
///   a proof can show that the members wait forever.
///
/// The events are performed in order. A submit is *refused* only if its pool has no room for the
/// job and must not reject jobs. A rejection that the plan allows is an event like any other.
///
/// - If a submit is refused, returns a witness that ends with this event. Later events are ignored.
/// - If an event is not possible, and no submit was refused before it, returns `None`.
/// - Otherwise, if the members are in ascending order and wait only for each other after the
///   events, returns a witness with all events. If not, returns `None`.
///
/// A vector counts as a proof only if these conditions hold:
///
/// - The vector's pool has at least `core` threads after the events. If core threads may time out,
///   a pool can have fewer threads. Such a pool starts a thread at the next submit.
/// - The vector is a standing vector of the pool: its weights satisfy the conditions that bound the
///   number of queued jobs.
/// - If the pool of a class may reject jobs, a done job of this class weighs at most as much as a
///   queued job. A rejected job then does not increase the weight of a state.
///
/// # Errors
///
/// Returns `AllocError` if there is not enough memory for the replay.
pub fn confirmed(
    alloc: Global,
    plan: &Plan,
    events: Vec<Event>,
    members: Vec<usize>,
    standing: &[Vector],
) -> Result<Option<Witness>, AllocError>
    ensures witness { IfOk result (λ found.
        IfSome found (λ witness. IsWitness plan.now witness.events.items witness.ending)) }
    ensures answer { IfOk result (IsAnswer plan.now events.items members.items standing.now) }
{
    let mut world = World::start(alloc, plan)?;
    confirmed_in(plan, &mut world, events, members, standing)
}

/// Checks whether a list of events is a witness, as [`confirmed`] does. Performs the events in
/// `world`, which must be in the plan's initial state.
fn confirmed_in(
    plan: &Plan,
    world: &mut World,
    events: Vec<Event>,
    members: Vec<usize>,
    standing: &[Vector],
) -> Result<Option<Witness>, AllocError>
    requires { world.old.view ≡ live_view plan.now (start plan.now) }
    ensures witness { IfOk result (λ found.
        IfSome found (λ witness. IsWitness plan.now witness.events.items witness.ending)) }
    ensures answer { IfOk result (IsAnswer plan.now events.items members.items standing.now) }
{
    let replayed = replay(plan, world, &events)?;
    Ok(witness_of(plan, world, replayed, events, members, standing))
}

/// Returns the result of [`confirmed`] for these events, members and vectors. `replayed` is the
/// result of the replay of the events, and `world` is the state after the replay.
fn witness_of(
    plan: &Plan,
    world: &World,
    replayed: ReplayResult,
    events: Vec<Event>,
    members: Vec<usize>,
    standing: &[Vector],
) -> Option<Witness>
    requires { Finds plan.now events.items world.now.view replayed }
    ensures witness { IfSome result
        (λ witness. IsWitness plan.now witness.events.items witness.ending) }
    ensures answer { IsAnswer plan.now events.items members.items standing.now result }
{
    match replayed {
        ReplayResult::Refused(length, pool) => Some(refused(events, length, pool)),
        ReplayResult::NotPossible => None,
        ReplayResult::Whole => stuck(plan, world, events, members, standing),
    }
}

/// Returns the witness that consists of the first `length` events. The last of these events is a
/// submit that `pool` refuses.
fn refused(mut events: Vec<Event>, length: usize, pool: usize) -> Witness
    ensures events { result.events.items ≡ take length events.items }
    ensures ending { result.ending ≡ Refused pool }
{
    events.truncate(length);
    Witness {
        events,
        ending: Ending::Refused(pool),
    }
}

/// Returns the witness with these events, if the jobs in `members` wait only for each other after
/// the events. `world` is the state after the events. Returns `None` if
///
/// - `members` is empty,
/// - `members` is not in ascending order, or
/// - the jobs do not wait only for each other in `world`.
fn stuck(
    plan: &Plan,
    world: &World,
    events: Vec<Event>,
    members: Vec<usize>,
    standing: &[Vector],
) -> Option<Witness>
    requires { ComesTo plan.now events.items world.now.view }
    ensures witness { IfSome result
        (λ witness. IsWitness plan.now witness.events.items witness.ending) }
    ensures answer { IsAnswer plan.now events.items members.items standing.now result }
{
    if !are_rising(&members) {
        return None;
    }
    if !world.stuck(plan, &members) {
        return None;
    }
    let ending = match reason(plan, world, &members, standing) {
        Some(reason) => Ending::StuckForever(members, reason),
        None => Ending::StuckNow(members),
    };
    Some(Witness { events, ending })
}

/// Returns the [`Reason`] why no later event ends the wait of the jobs in `members`, which should
/// wait only for each other in `world`. Returns `None` if neither reason holds. `standing` has the
/// vectors that can prove a reason, as in [`confirmed`].
fn reason(plan: &Plan, world: &World, members: &[usize], standing: &[Vector]) -> Option<Reason>
    requires { IsReachableView plan.now world.now.view }
    ensures { (s : State)
        → IsReached plan.now s
        → live_view plan.now s ≡ world.now.view
        → IsReason plan.now members.now standing.now s result }
{
    // The contract of this call states that the plan is well-formed. The proof needs this.
    let _pools = plan.pools();
    if all_start_no_thread(plan, world, members, standing, Reason::PoolsAreFull) {
        Some(Reason::PoolsAreFull)
    } else if all_start_no_thread(plan, world, members, standing, Reason::PoolsStayAtCore) {
        Some(Reason::PoolsStayAtCore)
    } else {
        None
    }
}
