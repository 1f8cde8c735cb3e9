//! The report of `sizing ask` as text, JSON, HTML page, picture, workflow commands or SARIF log.
//! This crate also writes the lines of `sizing fit` and the story of a witness. A witness is a
//! counterexample: a list of events whose last event is a refused submit, or after which jobs wait
//! only for each other.
#![tactic(auto)]

mod active_clients;
mod annotation;
mod annotations;
mod cause_lines;
mod description;
mod event_queues;
mod event_steps;
mod finding;
mod github;
mod html;
mod json_answers;
mod json_bodies;
mod json_bounds;
mod json_cause;
mod json_ending;
mod json_event_parts;
mod json_events;
mod json_faults;
mod json_findings;
mod json_line;
mod json_object;
mod json_places;
mod json_plan;
mod json_pools;
mod json_replay;
mod json_sizes;
mod json_values;
mod json_warnings;
mod json_witness;
mod lost_submits;
mod page_template;
mod picture;
mod places;
mod safe;
mod safe_bound;
mod safe_waits;
mod sarif;
mod shares;
mod size_annotations;
mod size_laws;
mod size_lines;
mod story;
mod story_lines;
mod story_pools;
mod story_steps;
mod story_turns;
mod story_waits;
mod submits_to;
mod text;
mod unsafe_sizes;
mod uri;
mod version;
mod waits;

pub use cause_lines::push_no_sizes;
pub use description::describe;
pub use finding::PlanFinding;
pub use github::{fault_github, faults_github, finding_github};
pub use html::{fault_html, faults_html, finding_html};
pub use json_answers::{fault_json, faults_json, finding_json};
pub use picture::picture_of;
pub use places::{needed_places, total_of};
pub use sarif::{fault_sarif, faults_sarif, finding_sarif};
pub use shares::{Shares, shares_of};
pub use size_laws::unchanged_sizes_are_the_declared_plan;
pub use size_lines::push_sizes;
pub use text::render;
pub use version::VERSION;
pub use waits::waits_for;
