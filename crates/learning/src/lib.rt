//! Derivation of a plan from a recording. An actor is a recorded job or a recorded round. A round
//! is what a client does from the beginning of its body to the end. The submits and gets of an
//! actor are its path. `conformance::match_path` defines which paths match a body.
//!
//! [`learn`] infers a body for each class and client kind from the recorded paths. It does not
//! compare the plan with the whole recording: the caller must do so.
#![tactic(auto)]

mod assigned_classes;
mod body_cost;
mod candidates;
mod counts;
mod cover;
mod covering;
mod draft;
mod ended_actors;
mod entries;
mod extent;
mod get_times;
mod growth;
mod inference;
mod inference_limit;
mod inference_result;
mod label_rounds;
mod laws;
mod learn_error;
mod names;
mod pass;
mod path_body;
mod path_jobs;
mod pools;
mod recorded_names;
mod supersequence;

pub use cover::covering_body;
pub use extent::{Extent, START_BYTES};
pub use inference::learn;
pub use inference_limit::InferenceLimit;
pub use inference_result::{InferenceResult, InferredPlan};
pub use laws::learned_pools_are_normal;
pub use path_body::body_of_path;
