//! The states of the clients of a plan.

ghost use Rattle.std.specs.Prelude.{◌≡◌, ◌≤◌, ◌<◌, length, All, Some, IfOk, OnOk, OnErr, is_some, slice_get, slice_set, nat_eq, if◌then◌else◌, ◌==◌, ℕ};
ghost use Rattle.std.specs.List.{flat_map, enumerate_from};
ghost use Rattle.std.specs.Option.{option_map};
ghost use Rattle.std.specs.HashMap.{get, spare};
ghost use Rattle.job_bodies.specs.declared.limits.TheConstants.{MAX_SIZE, MAX_CLIENT_KINDS};
ghost use Rattle.pool_machine.specs.Reach.{new_clients};
ghost use Rattle.interleaving.specs.MovedClients.{at_position};
ghost use Rattle.interleaving.specs.Clients.{client_of, IsClientAt, CanMove, IsFirst, ends_from, IsRising, starting};

use crate::moved_clients::MovedClients;
use job_bodies::Client;
use pool_machine::{ClientState, Parent};
use std::alloc::{AllocError, Global};
use std::marker::Model;

/// The states of all clients of a world.
///
/// Stores only the clients that have moved. Every other client is at the start of its body, and its
/// client kind follows from its number.
#[derive(Drop)]
pub struct Clients {
    // For each client kind, the number of clients of this kind and of all kinds before it.
    ends: Vec<usize>,
    moved: MovedClients,
}

impl Model for Clients {
    ghost use Rattle.interleaving.specs.Clients.{ClientList, AreClients, standing, starting};
    ghost use Rattle.interleaving.specs.MovedClients.{moved_at};

    ghost Value = { ClientList };

    ghost view = { λ c. record { items = standing (moved_at c.moved) 0 (starting 0 0 c.ends.items); room = c.moved.room } };

    ghost invariant = { λ c. AreClients c.ends.items (moved_at c.moved) };
}

impl Clients {
    /// Creates the clients of these kinds, each at the start of its body.
    ///
    /// # Errors
    ///
    /// Returns `AllocError` if there is not enough memory for the kinds.
    pub fn new(alloc: Global, kinds: &[Client]) -> Result<Clients, AllocError>
        requires few { length kinds.now ≤ MAX_CLIENT_KINDS }
        requires small { All (λ kind. kind.count ≤ MAX_SIZE) kinds.now }
        ensures { IfOk result
            (λ clients. clients.items ≡ flat_map new_clients (enumerate_from 0 kinds.now)) }
    {
        let ends = ends_of(alloc, kinds)?;
        Ok(Clients {
            ends,
            moved: MovedClients::new(alloc),
        })
    }

    /// Returns the client with this number, or `None` if there is no such client.
    pub fn get(&self, number: usize) -> Option<ClientState>
        ensures { result ≡ slice_get self.now.items number }
    {
        match self.moved.get(number) {
            Some(client) => Some(client),
            None => start_of(&self.ends, number),
        }
    }

    /// Reserves memory for the first move of a client. Does nothing if the actor is a job, or if
    /// the actor is a client that is not at the start of its body. `position` is the current
    /// position of the actor.
    ///
    /// # Errors
    ///
    /// Returns `AllocError` if there is not enough memory. The clients are then unchanged.
    pub fn reserve_for(&mut self, actor: Parent, position: usize) -> Result<(), AllocError>
        requires { IsClientAt self.old.items actor position }
        ensures items { self.new.items ≡ self.old.items }
        ensures room { OnOk result (CanMove self.new actor) }
        ensures error_only_at_start { OnErr result (IsFirst actor position) }
    {
        match actor {
            Parent::Client(_) if position == 0 => self.moved.reserve(),
            _ => Ok(()),
        }
    }

    /// Moves the client with this number to this position of its body. If the client is at the
    /// start of its body, `reserve_for` must have reserved memory.
    pub fn go_to(&mut self, number: usize, position: usize)
        requires { (client_of self.old.items number).position ≡ 0 → 0 < self.old.room }
        ensures { self.new.items
            ≡ slice_set self.old.items number
            (at_position position (client_of self.old.items number)) }
    {
        if self.moved.move_again(number, position) {
            return;
        }
        if let Some(client) = start_of(&self.ends, number) {
            self.moved
                .move_first(number, ClientState { position, ..client });
        }
    }

    /// Moves the client with this number back to the start of its body.
    pub fn begin_again(&mut self, number: usize)
        ensures { self.new.items
            ≡ slice_set self.old.items number (at_position 0 (client_of self.old.items number)) }
    {
        self.moved.move_again(number, 0);
    }
}

// Returns, for each client kind, the number of clients of this kind and of all kinds before it.
fn ends_of(alloc: Global, kinds: &[Client]) -> Result<Vec<usize>, AllocError>
    requires few { length kinds.now ≤ MAX_CLIENT_KINDS }
    requires small { All (λ kind. kind.count ≤ MAX_SIZE) kinds.now }
    ensures { IfOk result (λ ends. ends.items ≡ ends_from 0 kinds.now) }
{
    let mut ends = Vec::with_capacity(alloc, kinds.len())?;
    let mut end = 0;
    for kind in kinds.iter() {
        end += kind.count as usize;
        ends.push(end)?;
    }
    Ok(ends)
}

// Returns the initial state of the client with this number, or `None` if there is no such client.
fn start_of(ends: &[usize], number: usize) -> Option<ClientState>
    requires { IsRising 0 ends.now }
    ensures { result ≡ slice_get (starting 0 0 ends.now) number }
{
    let kind = ends.partition_point(|&end| end <= number);
    if kind < ends.len() {
        Some(ClientState { kind, position: 0 })
    } else {
        None
    }
}
