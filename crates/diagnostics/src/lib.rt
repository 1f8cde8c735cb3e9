//! Diagnostics and lints for the text of a plan. A diagnostic says where a fault is, what is wrong
//! and how to fix it. A lint warns of a part of a valid plan that is probably a mistake.
//!
//! The contracts promise these facts, and nothing else about messages and places:
//!
//! - The first diagnostic is for the fault that the plan parser reports.
//! - There is a warning for each lint of the plan, and there are no other warnings.
//! - Each diagnostic and each warning is printed on a line of its own.
//! - If the message about a class that submits itself lists submits, the plan has these submits.
#![tactic(auto)]

mod actions;
mod bodies;
mod circle_words;
mod circles;
mod collector;
mod control_characters;
mod diagnostic;
mod entry;
mod entry_list;
mod entry_places;
mod growing_queues;
mod hints;
mod key_hints;
mod letters;
mod line_laws;
mod lint;
mod lint_conditions;
mod lints;
mod lowered_maxes;
mod missing_submits;
mod names;
mod numbers;
mod open_futures;
mod plan_faults;
mod repeated_keys;
mod rules;
mod shapes;
mod strings;
mod suggestions;
mod syntax;
mod tables;
mod unclosed_lists;
mod warning_lines;
mod warning_places;
mod warning_words;
mod warnings;

pub use control_characters::one_line;
pub use diagnostic::{Diagnostic, Faults, NumberRange, push_faults};
pub use entry_places::{BodyPlaces, PlanPlaces, PoolPlaces, plan_places};
pub use line_laws::each_message_is_a_line;
pub use lint::{Lint, has_warning, is_note};
pub use lowered_maxes::{at_core, can_be_lowered};
pub use open_futures::has_open_future;
pub use plan_faults::faults_of;
pub use warning_lines::push_warnings;
pub use warnings::{Warning, warnings_of};
