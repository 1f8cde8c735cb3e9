//! The search for a certificate of a plan, on several threads.
//!
//! The heuristics of the search are not trusted: [`search`] returns a certificate only if
//! [`cert_check::accepts`] has found that it accepts the plan.
#![tactic(auto)]

mod board;
mod draft;
mod fallback;
mod finding;
mod results;
mod round;
mod workers;

pub use finding::{SearchFault, search};
