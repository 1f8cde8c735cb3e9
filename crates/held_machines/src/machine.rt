//! The interface of a machine.

ghost use Rattle.std.specs.Prelude.{◌≡◌, Option, IfOk, OnErr, IsTrue, true, false};
ghost use Rattle.held_machines.specs.StoredState.{IsReached, Steps};

use std::alloc::{AllocError, Global};

/// A machine that performs one event at a time. A value whose type implements this trait describes
/// the machine and never changes. The current state of the machine is a separate value of type
/// [`State`](Machine::State).
///
/// In the specification, the states are mathematical values. `first` is the initial state, and
/// `next` is the state after an event, if the event is possible. `stored_state` maps each
/// mathematical state to the value of type `State` that a running program stores.
pub trait Machine {
    /// The type of the states that a running program stores.
    type State: Drop;

    /// The type of the events.
    type Event: Copy;

    // The type of the specification states; the initial state (`first`); and the state after an
    // event (`next`), which is `None` if the event is not possible.
    ghost SpecState: { Type 0 };

    ghost first: { Self → SpecState };

    ghost next: { Self → SpecState → Self.Event → Option SpecState };

    // The stored state for a specification state.
    ghost stored_state: { Self → SpecState → Self.State };

    /// Creates the initial state of the machine, in which no event has been performed.
    ///
    /// # Errors
    ///
    /// Returns `AllocError` if there is not enough memory.
    fn start(&self, alloc: Global) -> Result<Self::State, AllocError>
        ensures { IfOk result (λ state. state ≡ stored_state self.now (first self.now)) };

    /// Performs the event if it is possible, and returns whether the event was possible.
    ///
    /// # Errors
    ///
    /// Returns `AllocError` if there is not enough memory for the event. The state is then
    /// unchanged.
    fn step(&self, state: &mut Self::State, event: Self::Event) -> Result<bool, AllocError>
        requires { IsReached (next self.now) (first self.now) (stored_state self.now) state.old }
        ensures answered { IfOk result (λ done.
            Steps (next self.now) (first self.now) (stored_state self.now) state.old event done
            state.new) }
        ensures impossible_unchanged { IfOk result (λ done. done ≡ false → state.new ≡ state.old) }
        ensures error_unchanged { OnErr result (state.new ≡ state.old) };
}
