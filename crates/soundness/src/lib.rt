//! What the conditions of a certificate guarantee for every state that a plan can reach.
//!
//! Each theorem is the contract of a function with an empty body. The definitions are in `specs/`.
//! A running program uses only [`Note`] and its [`Section`]. The theorems also hold if a submit
//! takes several steps, as in Java's `execute`. They also hold if clients and jobs skip submits
//! together with their gets, or get jobs of one class in any order.
#![tactic(auto)]

mod acceptance_laws;
mod java_laws;
mod note;
mod skipping_laws;
mod starvation_laws;
mod weight_laws;

pub use acceptance_laws::{
    accepted_bounds_never_decline, accepted_bounds_never_reject, accepted_plans_are_java_safe,
    accepted_plans_are_safe, accepted_plans_drain, accepted_plans_drain_with_skips,
    accepted_plans_java_drain, accepted_plans_make_java_progress, accepted_plans_make_progress,
    accepted_plans_make_progress_with_skips, accepted_plans_may_skip,
    bounded_plans_java_refuse_nothing, bounded_plans_refuse_nothing, standing_pools_are_not_asked,
};
pub use java_laws::{
    atomic_states_are_reached, java_may_refuse_with_room, java_may_start_with_room,
};
pub use note::{Note, Section};
pub use skipping_laws::{
    alike_jobs_are_got_in_any_order, done_within_queued, exchanges_swap_two_gets,
};
pub use starvation_laws::{
    fewer_than_core_may_block, full_is_of_the_plan, full_is_whole, no_loose_waiting_sets,
};
pub use weight_laws::{
    bounds_refuse_nothing, jobs_stay_within_total, queues_stay_within_total, sum_never_rises,
    sum_stays_within_total,
};
