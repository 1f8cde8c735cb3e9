//! Bad lines of a recording.

ghost use Rattle.std.specs.Prelude.{Some};
ghost use Rattle.recordings.specs.FaultText.{reason_text, fault_text};

use crate::rule::LineRule;
use std::fmt;

/// The reason why a line is bad.
#[derive(Clone, Copy)]
pub enum FaultReason {
    /// The line has none of the forms in `docs/RECORDING.md`.
    Form,
    /// The line has a valid form but breaks this rule.
    LineRule(LineRule),
}

/// Formats the reason as `it is not a valid line` or as the text of the rule that the line breaks.
impl fmt::Display for FaultReason {
    ghost output = { λ reason. Some (reason_text reason) };

    fn fmt<W: fmt::Write>(&self, f: &mut fmt::Formatter<W>) -> fmt::Result {
        match self {
            FaultReason::Form => f.write_str("it is not a valid line"),
            FaultReason::LineRule(rule) => write!(f, "{rule}"),
        }
    }
}

/// A bad line of a recording.
#[derive(Clone, Copy)]
pub struct RecordingFault {
    /// The line number, from 1.
    pub line: usize,
    pub reason: FaultReason,
}

/// Formats the line number and the reason, such as `line 3: it is not a valid line`.
impl fmt::Display for RecordingFault {
    ghost output = { λ fault. Some (fault_text fault) };

    fn fmt<W: fmt::Write>(&self, f: &mut fmt::Formatter<W>) -> fmt::Result {
        let line = self.line;
        let reason = self.reason;
        write!(f, "line {line}: {reason}")
    }
}
