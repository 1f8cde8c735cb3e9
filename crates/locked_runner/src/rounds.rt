//! The numbers of rounds and events of a client.

ghost use Rattle.std.specs.Prelude.{◌≡◌, ◌≤◌, ◌^◌, IfSome};
ghost use Rattle.std.specs.Option.{IfNone};
ghost use Rattle.locked_runner.specs.Complete as spec;

use job_bodies::Client;

/// Returns the number of times that a client of this kind performs its body. This is `rounds` if
/// the kind repeats, and 1 otherwise.
pub fn rounds_of_client(client: &Client, rounds: u64) -> u64
    ensures { result ≡ spec.rounds_of rounds client.now }
{
    if client.repeat { rounds } else { 1 }
}

/// Returns the number of events of a client of this kind. There is one event for each action in
/// each round, and one event between two consecutive rounds. Returns `None` if the number exceeds
/// `u64::MAX`.
pub(crate) fn events_of_client(client: &Client, rounds: u64) -> Option<u64>
    ensures value { IfSome result (λ events. events ≡ spec.events_of_client rounds client.now) }
    ensures too_many { IfNone result (2 ^ 64 ≤ spec.events_of_client rounds client.now) }
{
    let rounds = rounds_of_client(client, rounds);
    rounds
        .checked_mul(client.body.len() as u64)?
        .checked_add(rounds.saturating_sub(1))
}
