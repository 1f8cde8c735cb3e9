//! A map from client numbers to the states of the clients that have moved. A client has moved if it
//! has left the start of its body at least once.

ghost use Rattle.std.specs.Prelude.{◌≡◌, ◌<◌, ℕ, None, Some, false, OnOk, is_some, nat_eq, if◌then◌else◌, ◌==◌};
ghost use Rattle.std.specs.Option.{option_map};
ghost use Rattle.std.specs.HashMap.{get, spare};
ghost use Rattle.interleaving.specs.MovedClients.{at_position, moved_at};

use pool_machine::ClientState;
use std::alloc::{AllocError, Global};
use std::collections::HashMap;
use std::marker::Model;

/// A map from client numbers to the states of the clients that have moved.
///
/// The vector `front` has the states of the clients from 0 up to some number. These clients made
/// their first moves in the order of their numbers. The map `others` has the states of all other
/// clients that have moved.
#[derive(Drop)]
pub(crate) struct MovedClients {
    front: Vec<ClientState>,
    others: HashMap<usize, ClientState>,
}

impl Model for MovedClients {
    ghost use Rattle.std.specs.Prelude.{◌-◌, min};
    ghost use Rattle.std.specs.Vec.{vec_len, vec_capacity};
    ghost use Rattle.std.specs.HashMap.{spare};
    ghost use Rattle.interleaving.specs.MovedClients.{Moved};

    ghost Value = { Moved };

    ghost view = { λ m. record { front = m.front.items; others = m.others.entries; room = min (vec_capacity m.front - vec_len m.front) (spare m.others) } };
}

impl MovedClients {
    /// Creates an empty map.
    pub(crate) fn new(alloc: Global) -> MovedClients
        ensures { (q : ℕ) → moved_at result q ≡ None }
    {
        MovedClients {
            front: Vec::new(alloc),
            others: HashMap::new(alloc),
        }
    }

    pub(crate) fn get(&self, number: usize) -> Option<ClientState>
        ensures { result ≡ moved_at self.now number }
    {
        match self.front.get(number) {
            Some(client) => Some(*client),
            None => self.others.get(&number).copied(),
        }
    }

    /// Reserves memory for the first move of one more client.
    ///
    /// # Errors
    ///
    /// Returns `AllocError` if there is not enough memory.
    pub(crate) fn reserve(&mut self) -> Result<(), AllocError>
        ensures stay { (q : ℕ) → moved_at self.new q ≡ moved_at self.old q }
        ensures room { OnOk result (0 < self.new.room) }
    {
        self.front.reserve(1)?;
        self.others.reserve(1)
    }

    /// Moves the client with this number to this position of its body, and returns `true`. Changes
    /// nothing and returns `false` if the client has not moved before.
    pub(crate) fn move_again(&mut self, number: usize, position: usize) -> bool
        ensures is_among { result ≡ is_some (moved_at self.old number) }
        ensures moves { (q : ℕ)
            → moved_at self.new q
            ≡ (if number == q then option_map (at_position position) (moved_at self.old number) else
            moved_at self.old q) }
        ensures room { self.new.room ≡ self.old.room }
    {
        if number < self.front.len() {
            self.front[number].position = position;
            return true;
        }
        move_again(&mut self.others, number, position)
    }

    /// Records the first move of the client with this number, which leads to the state `client`.
    /// [`reserve`](MovedClients::reserve) must have reserved memory.
    pub(crate) fn move_first(&mut self, number: usize, client: ClientState)
        requires room { 0 < self.old.room }
        requires stood { is_some (moved_at self.old number) ≡ false }
        ensures { (q : ℕ)
            → moved_at self.new q ≡ (if number == q then Some client else moved_at self.old q) }
    {
        if number == self.front.len() {
            self.front.push_reserved(client);
        } else {
            move_first(&mut self.others, number, client);
        }
    }
}

fn move_again(moved: &mut HashMap<usize, ClientState>, number: usize, position: usize) -> bool
    ensures is_among { result ≡ is_some (get nat_eq moved.old number) }
    ensures moves { (q : ℕ)
        → get nat_eq moved.new q
        ≡ (if number == q then option_map (at_position position) (get nat_eq moved.old number) else
        get nat_eq moved.old q) }
    ensures spare { spare moved.new ≡ spare moved.old }
{
    match moved.get_mut(&number) {
        Some(client) => {
            client.position = position;
            true
        }
        None => false,
    }
}

fn move_first(moved: &mut HashMap<usize, ClientState>, number: usize, client: ClientState)
    requires { 0 < spare moved.old }
    ensures { (q : ℕ)
        → get nat_eq moved.new q ≡ (if number == q then Some client else get nat_eq moved.old q) }
{
    if moved.insert(number, client).is_err() {
        return;
    }
}
