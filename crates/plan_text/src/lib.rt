//! The text of a plan, which is TOML.
//!
//! [`read_plan`] parses a plan, or returns the first fault. [`write_plan`] writes a plan as text.
//! If this text has at most [`MAX_PLAN_BYTES`](job_bodies::MAX_PLAN_BYTES) bytes, [`read_plan`] can
//! parse it. The parsed plan then equals the written plan, except for sizes that have no effect,
//! such as the capacity of an unbounded queue.
//!
//! [`Places`] finds the line and column of each part of a plan in its text.
#![tactic(auto)]

mod bodies;
mod checks;
mod document;
mod entries;
mod entry;
mod fault;
mod laws;
mod names;
mod outline;
mod parsed_action;
mod part_search;
mod place;
mod places;
mod plan_of;
mod plan_values;
mod sizes;
mod slots;
mod spelling;
mod token;
mod tokens;
mod writer;

pub use laws::spelling_is_canonical;
pub use place::{TextPlace, place_at};
pub use places::Places;
pub use plan_of::read_plan;
pub use writer::write_plan;
