//! The comparison of a recording with a plan. [`conform`] returns the differences, in the order of
//! the lines.
//!
//! An actor is a recorded job or round. A round is one pass of a client through its body. The label
//! of an actor is the class and the pool in its `submit` line, or the client kind in its `begin`
//! line. The family of a label `query` has the classes or client kinds `query`, `query_2`,
//! `query_3` and so on. The path of an actor is its submits and gets.
//!
//! To classify an actor is to find the classes or client kinds that it can belong to. The
//! comparison does this by matching the path with the bodies of the family. An actor is settled
//! once it is classified.
#![tactic(auto)]

mod actor_classifier;
mod actor_label;
mod actor_path;
mod actor_table;
mod blocking_get;
mod bodies;
mod body_gets;
mod classification;
mod classified_actor;
mod collect_findings;
mod comparison;
mod comparison_laws;
mod describe_mismatch;
mod difference;
mod ended_actor;
mod excess;
mod excess_tracker;
mod explained_prefix;
mod failed_gets;
mod family;
mod family_match;
mod finding;
mod finding_lines;
mod finish;
mod first_actors;
mod first_lines;
mod furthest;
mod handlers;
mod job_classes;
mod job_set;
mod labels;
mod laws;
mod line_query;
mod members;
mod mismatch;
mod narrowing;
mod numbers;
mod open_excess;
mod open_job;
mod open_rounds;
mod other_kinds;
mod path;
mod path_laws;
mod path_match;
mod pool_comparison;
mod pool_names;
mod refusal_facts;
mod refused_jobs;
mod rejecting_pools;
mod rejection_rule;
mod rejections;
mod reported;
mod round_comparison;
mod round_count;
mod row;
mod same_steps;
mod sizes;
mod step;
mod stop_reasons;
mod survey;
mod unplanned;
mod valid_gets;
mod verdicts;
mod walk_state;
mod walk_states;
mod well_formed_lines;

pub use actor_classifier::ActorClassifier;
pub use actor_label::ActorLabel;
pub use classified_actor::ClassifiedActor;
pub use comparison::{Conformance, conform};
pub use comparison_laws::{
    pools_are_as_planned, rejections_need_the_key, rounds_are_within_plan,
    unbounded_pools_reject_nothing,
};
pub use difference::Difference;
pub use excess::Excess;
pub use explained_prefix::ExplainedPrefix;
pub use family::{class_family, client_family, first_class, first_client, is_of_family};
pub use family_match::FamilyMatch;
pub use finding::Finding;
pub use finding_lines::{push_finding, push_findings};
pub use laws::{classes_are_determined, settled_actors_stay};
pub use members::{classes_of_path, kinds_of_path};
pub use mismatch::{DeviatingStep, NamedStep, PathMismatch};
pub use open_excess::OpenExcess;
pub use open_job::OpenJob;
pub use path::match_path;
pub use path_laws::{paths_are_followed, planned_actors_are_followed};
pub use path_match::{MAX_OPEN_LISTS, PathMatch};
pub use pool_comparison::{PoolComparison, PoolDeviation};
pub use rejecting_pools::mark_rejecting_pools;
pub use rejections::PoolRejections;
pub use round_comparison::{RoundComparison, RoundExcess};
pub use round_count::RoundCount;
pub use sizes::differences;
pub use step::{ActorKind, PathState, PathStep};
pub use unplanned::UnplannedLabel;
pub use valid_gets::has_valid_gets;
