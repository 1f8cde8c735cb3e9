//! The reasons why a certificate does not accept a plan. A *note* is one failing condition, with
//! its left and right side. The lines of an explanation are the texts of the notes.
#![tactic(auto)]

mod collect;
mod explained;
mod failing_rows;
mod line_text;

pub use collect::notes;
pub use explained::push_explanation;
pub use line_text::{line, push_line};
pub use soundness::{Note, Section};
