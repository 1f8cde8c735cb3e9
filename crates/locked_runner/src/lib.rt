//! Runs of a certified plan on threads that share one locked machine.
//!
//! Each event is performed under the lock. Each thread returns a receipt of each of its events, and
//! the receipts are checked after the run. The history in a [`RunReport`] is *legal*: each of its
//! events was possible.
//!
//! A *round* is one execution of a client's body. A client of a repeating kind performs a given
//! number of rounds, and any other client performs one.
#![tactic(auto)]

mod carriers;
mod certified_world;
mod compact_receipt;
mod completeness;
mod gate;
mod history_laws;
mod limits;
mod numbers;
mod owner;
mod progress;
mod receipts;
mod replay;
mod report;
mod rounds;
mod run_check;
mod running;
mod shared;
mod starting;
mod threads;
mod viewed_world;
mod world_laws;

pub use certified_world::{CertifiedWorld, TracedWorld};
pub use compact_receipt::CompactReceipt;
pub use gate::{Actor, Gate, GateFault};
pub use held_machines::{Held, Locked, Machine, Receipt};
pub use history_laws::{numbers_are_of_the_plan, totals_add_up};
pub use limits::{RunLimit, limit_of, may_reject};
pub use numbers::{RunNumbers, run_numbers};
pub use owner::{Owner, kinds_of, lists_of};
pub use report::{RunFault, RunReport, ThreadFault, ThreadResults};
pub use rounds::rounds_of_client;
pub use run_check::check_run;
pub use running::run;
pub use viewed_world::ViewedWorld;
pub use world_laws::{held_worlds_refuse_nothing, reached_worlds_refuse_nothing};
