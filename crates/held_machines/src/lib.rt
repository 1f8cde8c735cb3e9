//! Machines with a history. The state of such a machine is stored together with the events that led
//! to this state. A lock can protect the machine.
//!
//! The specification of a [`Machine`] gives the initial state, and the next state after each
//! possible event. [`Held`] stores the state of a machine and its history: the list of the events
//! that the machine performed. A replay of the history from the initial state always leads to the
//! stored state. [`Locked`] protects a `Held` by a lock, so that several threads can perform events
//! of the same machine.
#![tactic(auto)]

mod held;
mod locked;
mod machine;

pub use held::{Held, Receipt};
pub use locked::Locked;
pub use machine::Machine;
