//! Recordings of test runs. A recording is a text with a line for each event, such as a submit, a
//! get or the start of a job. An actor is a job or a round. A round is what a client outside the
//! pools does from the beginning of its body to the end. The submits and gets of an actor are its
//! path. The lines follow the rules O1 to O7 ([`LineRule`]).
//!
//! [`CheckedLines`] reads the lines and stops at the first bad line. [`Paths`] and
//! [`RecordedNotes`] store what a comparison with a plan needs.
#![tactic(auto)]

mod checked_lines;
mod fault;
mod foreign_get;
mod frequent_lines;
mod invalidation;
mod invalidation_list;
mod jobs;
mod laws;
mod line_events;
mod line_forms;
mod line_parts;
mod lines;
mod live_path;
mod notes;
mod path_table;
mod paths;
mod pending_lines;
mod pool_sizes;
mod pools;
mod recording_line;
mod rounds;
mod rule;
mod rule_check;
mod state_update;
mod step;
mod submit_index;
mod trace_validator;
mod unclaimed;
mod whole_text;
mod words;

pub use checked_lines::CheckedLines;
pub use fault::{FaultReason, RecordingFault};
pub use foreign_get::ForeignGet;
pub use invalidation::{InvalidatingEvent, Invalidation};
pub use laws::{recording_lines_are_canonical, unbounded_capacity_is_stated};
pub use lines::{BadLine, RecordingLines};
pub use notes::RecordedNotes;
pub use paths::Paths;
pub use pool_sizes::{HandlerKind, PoolSizes, QueueKind, UNBOUNDED_CAPACITY};
pub use recording_line::{Line, RecordedActor};
pub use rule::LineRule;
pub use step::RecordedStep;
pub use trace_validator::TraceValidator;
pub use whole_text::first_fault;
