//! Plans: pools of threads, classes of jobs and client kinds. Each class and each client kind has a
//! body of actions.
//!
//! [`Plan::build`] creates a plan from lists, or returns the first fault of the lists. The type
//! [`Plan`] guarantees that a plan is well-formed, so the crates that use this type do not check
//! plans again. A parser of plans makes the same checks as [`Plan::build`]. It uses
//! [`is_valid_name`], [`Pool::has_valid_sizes`] and [`is_within`].
#![tactic(auto)]

mod action;
mod build;
mod checks;
mod copies;
mod fault;
mod fault_text;
mod laws;
mod limits;
mod names;
mod plan;

pub use action::{Action, has_get_of};
pub use fault::{Part, PlanFault};
pub use laws::limits_are_stated;
pub use limits::{
    DEFAULT_STATES, DEFAULT_WORKERS, MAX_ACTIONS, MAX_CERT_BYTES, MAX_CLASSES, MAX_CLIENT_KINDS,
    MAX_EVENT_BYTES, MAX_INPUT_BYTES, MAX_NAME_BYTES, MAX_PLAN_BYTES, MAX_POOLS,
    MAX_RECORDED_BYTES, MAX_RECORDED_ROUNDS, MAX_ROUNDS, MAX_RUN_CARRIERS, MAX_RUN_CLIENTS,
    MAX_RUN_EVENTS, MAX_SIZE, MAX_STATES, MAX_THREADS, MAX_WEIGHT, MAX_WORK, MAX_WORKERS,
    is_within,
};
pub use names::is_valid_name;
pub use plan::{Class, Client, Plan, Pool};
