//! Laws about the lines of a recording. Each law is the contract of a function with an empty body.

ghost use Rattle.recordings.specs.Laws.{RecordingLinesAreCanonical, UnboundedCapacityIsStated};

/// States that each valid line has exactly one text:
///
/// - The text of a valid line parses as this line.
/// - If a text parses as a line, the line is valid, and the text is the text of this line.
pub fn recording_lines_are_canonical()
    ensures { RecordingLinesAreCanonical }
{}

/// States that [`UNBOUNDED_CAPACITY`](crate::UNBOUNDED_CAPACITY) is 1,000,000,000.
pub fn unbounded_capacity_is_stated()
    ensures { UnboundedCapacityIsStated }
{}
