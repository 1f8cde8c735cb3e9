//! Tests of calls that use threads, for properties that no contract states. A gate is a hook: a run
//! calls it to do work, and a search or a check calls it before each pool. If a gate fails or
//! refuses a pool, the run, search or check ends with a fault.
//!
//! The tests show that a run, a search and a check on several threads end, call their gates for the
//! right work, and return the right faults. The check of a run's results is tested with results
//! that are written by hand. Machines with a history are tested with a counter, which has no plan.

mod counter;

pub use counter::{Change, Tally};

mod actors;
mod checks;
mod endings;
mod gates;
mod held_counters;
mod hostile;
mod judged;
mod meetings;
mod plans;
mod rounds;
mod searches;
mod shared_counters;
