//! A thread pool that behaves like Java's `ThreadPoolExecutor` with an `ArrayBlockingQueue`, a
//! `SynchronousQueue` or an unbounded queue, and with `AbortPolicy`.
//!
//! Its `specs/` also define the reference machine of a plan, whose pools are such pools: its states,
//! the effect of each event, and the states that lists of events reach. No code here runs it.
#![tactic(auto)]

mod client_state;
mod event;
mod laws;
mod offer;
mod parent;
mod pool_laws;
mod pool_state;

pub use client_state::ClientState;
pub use event::{Event, Outcome};
pub use laws::{
    fixed_pools_are_full, full_waiting_sets_stay, gets_have_children, pools_keep_their_sizes,
    queues_have_threads, refusals_need_jobs, threads_have_jobs, waiting_sets_are_loose,
    waiting_sets_are_tested,
};
pub use offer::Offer;
pub use parent::Parent;
pub use pool_laws::{
    failure_conditions, load_is_offered, pool_queues_have_threads, pools_stay_sound, sizes_stay,
};
pub use pool_state::PoolState;
