//! The search for pool sizes with which a certificate accepts a plan. If no sizes can be enough,
//! the search returns the cause. The causes and the waits between pools are found in graphs of the
//! plan's classes and pools (`Graph`).
//!
//! The heuristics of the search are not trusted: [`search_sizes`] returns only sizes that
//! [`fitted`] or [`cert_check::accepts`] has checked.
#![tactic(auto)]

mod attempt;
mod body;
mod bounds;
mod cause;
mod causes;
mod certificate;
mod certified;
mod existence_laws;
mod fit;
mod fit_error;
mod fit_steady;
mod fitted_laws;
mod found;
mod graph;
mod graph_circles;
mod graph_levels;
mod job_graphs;
mod least_sizes;
mod levels;
mod node_set;
mod pool_threads;
mod reached;
mod rounds;
mod rows;
mod search;
mod stabilize;
mod steady_laws;
mod submitted;
mod vector_cache;
mod wide;

pub use cause::Cause;
pub use causes::cause_of;
pub use certificate::steady;
pub use existence_laws::{no_sizes_help, sizes_exist};
pub use fit::{fitted, smallest};
pub use fit_error::FitError;
pub use fitted_laws::{
    accepted_plans_fit, fitted_sizes_are_least, larger_sizes_are_accepted,
    reported_cores_need_larger_maxes, smallest_fit_is_least, widened_maxes_are_least,
};
pub use found::{NoSizes, SizesFound};
pub use search::search_sizes;
pub use steady_laws::steady_certificates_accept;
pub use submitted::{submitted_by_clients, submitted_repeatedly};
pub use wide::widened;
