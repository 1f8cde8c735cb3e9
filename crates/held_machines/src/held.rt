//! A machine with its state and its history.

ghost use Rattle.std.specs.Prelude.{◌≡◌, ◌↔◌, [], length, Some, None, IfOk, IfSome, OnErr, IsSome, is_some};
ghost use Rattle.std.specs.Option.{IfNone};
ghost use Rattle.held_machines.specs.Replay.{Leads};
ghost use Rattle.held_machines.specs.StoredState.{IsReplayOf};
ghost use Rattle.held_machines.specs.HeldValue.{HeldValue, with_event};

use crate::Machine;
use std::alloc::{AllocError, Global};
use std::marker::Model;

/// A receipt for one event of a history: the event, and its number in the history, counted from 0.
#[derive(Clone, Copy, Debug, PartialEq, Eq)]
pub struct Receipt<E> {
    pub number: u64,
    pub event: E,
}

/// A machine with its state and its history, which is the list of the events that the machine
/// performed.
///
/// The events of the history always lead from the initial state to the current state.
#[derive(Drop)]
pub struct Held<M: Machine + Drop> {
    machine: M,
    state: M::State,
    history: Vec<M::Event>,
}

impl<M: Machine + Drop> Model for Held<M> {
    ghost use Rattle.held_machines.specs.HeldValue.{HeldValue};
    ghost use Rattle.held_machines.specs.StoredState.{IsReplayOf};

    ghost Value = { HeldValue M M.State M.Event };

    ghost view = { λ held. record { machine = held.machine; state = held.state; history = held.history.items } };

    ghost invariant = { λ held. IsReplayOf (M.next held.machine) (M.first held.machine) (M.stored_state held.machine) held.history.items held.state };
}

impl<M: Machine + Drop> Held<M> {
    /// Creates the machine in its initial state, with an empty history.
    ///
    /// # Errors
    ///
    /// Returns `AllocError` if there is not enough memory for the state. The machine is then
    /// dropped.
    pub fn new(alloc: Global, machine: M) -> Result<Held<M>, AllocError>
        ensures machine { IfOk result (λ held. held.machine ≡ machine) }
        ensures state { IfOk result (λ held. held.state ≡ M.stored_state machine (M.first machine)) }
        ensures history { IfOk result (λ held. held.history ≡ []) }
    {
        let state = machine.start(alloc)?;
        Ok(Held {
            machine,
            state,
            history: Vec::new(alloc),
        })
    }

    /// Returns the current state of the machine.
    pub fn state(&self) -> &M::State
        ensures value { result.now ≡ self.now.state }
        ensures replayed { IsReplayOf (M.next self.now.machine) (M.first self.now.machine)
            (M.stored_state self.now.machine) self.now.history self.now.state }
    {
        &self.state
    }

    /// Returns the history: the performed events in order.
    pub fn history(&self) -> &[M::Event]
        ensures value { result.now ≡ self.now.history }
        ensures replayed { IsReplayOf (M.next self.now.machine) (M.first self.now.machine)
            (M.stored_state self.now.machine) self.now.history self.now.state }
    {
        self.history.as_slice()
    }

    /// Consumes the machine and returns its history: the performed events in order. Allocates no
    /// memory.
    pub fn into_history(self) -> Vec<M::Event>
        ensures value { result.items ≡ self.history }
        ensures replayed { IsReplayOf (M.next self.machine) (M.first self.machine)
            (M.stored_state self.machine) self.history self.state }
    {
        self.history
    }

    /// Performs the event, if it is possible, and returns a receipt for the event. Returns `None`
    /// if the event is not possible.
    ///
    /// # Errors
    ///
    /// Returns `AllocError` if there is not enough memory for the event or for its entry in the
    /// history. The machine is then unchanged.
    pub fn act(&mut self, event: M::Event) -> Result<Option<Receipt<M::Event>>, AllocError>
        // A receipt is returned exactly when the event is possible after the events of the old
        // history.
        ensures made { IfOk result (λ receipt.
            (i : M.SpecState)
            → Leads (M.next self.old.machine) (M.first self.old.machine) self.old.history i
            → is_some receipt ≡ is_some (M.next self.old.machine i event)) }
        ensures state { IfOk result (λ receipt.
            IfSome receipt (λ _.
            (i : M.SpecState)
            → Leads (M.next self.old.machine) (M.first self.old.machine) self.new.history i
            → self.new.state ≡ M.stored_state self.old.machine i)) }
        ensures history { IfOk result
            (λ receipt. self.new.history ≡ with_event self.old.history event receipt) }
        ensures receipt { IfOk result (λ receipt.
            IfSome receipt (λ r. r ≡ record { number = length self.old.history; event = event })) }
        ensures machine { self.new.machine ≡ self.old.machine }
        ensures impossible_unchanged { IfOk result
            (λ receipt. IfNone receipt (self.new ≡ self.old)) }
        ensures error_unchanged { OnErr result (self.new ≡ self.old) }
    {
        self.history.reserve(1)?;
        if !self.machine.step(&mut self.state, event)? {
            return Ok(None);
        }
        let number = self.history.len() as u64;
        self.history.push_reserved(event);
        Ok(Some(Receipt { number, event }))
    }
}
