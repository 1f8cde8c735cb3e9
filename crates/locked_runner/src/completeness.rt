//! The test whether a run is complete: no job is unfinished, and each client has performed all its
//! rounds.

ghost use Rattle.std.specs.Prelude.{◌≡◌, ◌<◌, ◌+◌, ◌-◌, ◌^◌, ◌↔◌, ℕ, List, IsTrue, IfOk, Some, length, min, count_by, slice_get, slice_index, if◌then◌else◌};
ghost use Rattle.job_bodies.specs.Plan.{Plan, client_at};
ghost use Rattle.pool_machine.specs.declared.event.Event.{Event};
ghost use Rattle.pool_machine.specs.State.{State};
ghost use Rattle.interleaving.specs.LiveView.{live_view};
ghost use Rattle.locked_runner.specs.Complete as spec;
ghost use Rattle.locked_runner.specs.Owner.{kinds_of};

use crate::rounds::events_of_client;
use interleaving::{Event, World};
use job_bodies::{Client, Plan};
use std::alloc::{AllocError, Global};

/// Returns `true` if a run is complete. In a complete run, no job is unfinished, and each client
/// has performed all events of its rounds and is at the end of its body. `world` is the state after
/// the events of `history`. `kinds` has, for each client, the index of its client kind.
///
/// # Errors
///
/// Returns `AllocError` if there is not enough memory for the event count of each client.
pub(crate) fn is_complete(
    alloc: Global,
    plan: &Plan,
    kinds: &[usize],
    world: &World,
    rounds: u64,
    history: &[Event],
) -> Result<bool, AllocError>
    requires { kinds.now ≡ kinds_of plan.now }
    ensures { IfOk result (λ complete.
        (s : State)
        → live_view plan.now s ≡ world.now.view
        → (IsTrue complete ↔ spec.IsComplete plan.now rounds history.now s)) }
{
    if world.unfinished() != 0 {
        return Ok(false);
    }
    let made = events_made(alloc, kinds.len(), history)?;
    Ok(clients_are_complete(plan, kinds, world, rounds, &made))
}

/// Returns `true` if each client has performed all events of its rounds and is at the end of its
/// body. For each client, `kinds` has the index of its client kind, and `made` has the number of
/// events that the client performed.
fn clients_are_complete(
    plan: &Plan,
    kinds: &[usize],
    world: &World,
    rounds: u64,
    made: &[u64],
) -> bool
    requires kinds { kinds.now ≡ kinds_of plan.now }
    requires as_many { length kinds.now ≡ length made.now }
    ensures { (history : List Event) (s : State)
        → spec.AreMadeIn history made.now
        → live_view plan.now s ≡ world.now.view
        → (IsTrue result
        ↔ ((c kind : ℕ)
        → slice_get kinds.now c ≡ Some kind
        → spec.IsCompleteClient rounds history s c (client_at plan.now kind))) }
{
    for number in 0..kinds.len() {
        let Some(client) = plan.client_at(kinds[number]) else {
            return false;
        };
        if !is_complete_client(client, number, world, rounds, made[number]) {
            return false;
        }
    }
    true
}

/// Returns `true` if the client with this number has performed all events of its rounds and is at
/// the end of its body. `client` is its client kind, and `made` is the number of events that the
/// client performed.
fn is_complete_client(client: &Client, number: usize, world: &World, rounds: u64, made: u64) -> bool
    ensures { (plan : Plan) (history : List Event) (s : State)
        → made ≡ count_by (spec.is_of_client number) history
        → live_view plan s ≡ world.now.view
        → (IsTrue result ↔ spec.IsCompleteClient rounds history s number client.now) }
{
    let Some(position) = world.client(number) else {
        return false;
    };
    let Some(events) = events_of_client(client, rounds) else {
        return false;
    };
    position == client.body.len() && made == events
}

/// Returns, for each client, the number of events of the history that this client performed.
///
/// # Errors
///
/// Returns `AllocError` if there is not enough memory for the list.
fn events_made(alloc: Global, clients: usize, history: &[Event]) -> Result<Vec<u64>, AllocError>
    ensures as_many { IfOk result (λ made. length made.items ≡ clients) }
    ensures made { IfOk result (λ made. spec.AreMadeIn history.now made.items) }
{
    let mut made = vec![in alloc; 0u64; clients]?;
    for event in history {
        count_event(&mut made, *event);
    }
    Ok(made)
}

/// Adds 1 to the count of the client that performed the event. `made[c]` is the count of the client
/// with the number c. Does nothing if no client performed the event, or if `made` has no count for
/// the client. A count of `u64::MAX` does not change.
fn count_event(made: &mut [u64], event: Event)
    ensures as_many { length made.new ≡ length made.old }
    ensures made { (c : ℕ)
        → c < length made.old
        → slice_index made.new c
        ≡ min (slice_index made.old c + (if spec.is_of_client c event then 1 else 0)) (2 ^ 64 - 1) }
{
    if let Event::Client(client) = event {
        if client < made.len() {
            made[client] = made[client].saturating_add(1);
        }
    }
}
