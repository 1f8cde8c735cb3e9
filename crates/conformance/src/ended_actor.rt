//! The lines that end actors.

ghost use Rattle.std.specs.Prelude.{◌≡◌};
ghost use Rattle.recordings.specs.RecordingLine.{line_view};
ghost use Rattle.recordings.specs.LastLine as spec;

use recordings::{Line, RecordedActor};

/// Returns the actor that the line ends, if there is one.
pub(crate) fn ended_by(line: &Line<'_>) -> Option<RecordedActor>
    ensures { result ≡ spec.ended_by (line_view line.now) }
{
    match *line {
        Line::RoundEnds { round } => Some(RecordedActor::Round(round)),
        Line::JobEnds { job } | Line::JobThrew { job } => Some(RecordedActor::Job(job)),
        _ => None,
    }
}
