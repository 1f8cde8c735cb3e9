//! The well-formed lines of a text.

ghost use Rattle.std.specs.Prelude.{◌≡◌, ◌≤◌, ◌∷◌, [], length, MatchOption};
ghost use Rattle.recordings.specs.RecordingLine.{line_view};
ghost use Rattle.conformance.specs.Lines.{lines_of};

use recordings::{Line, RecordingLines};
use std::marker::Model;

/// An iterator over the lines of a recording that skips malformed lines.
#[derive(Drop)]
pub(crate) struct WellFormedLines<'a> {
    lines: RecordingLines<'a>,
}

impl<'a> Model for WellFormedLines<'a> {
    ghost use Rattle.std.specs.Prelude.{List};
    ghost use Rattle.recordings.specs.RecordingLine.{RecordedLine};
    ghost use Rattle.conformance.specs.Lines.{with_form};

    ghost Value = { List RecordedLine };

    ghost view = { λ l. with_form l.lines };
}

impl<'a> WellFormedLines<'a> {
    pub(crate) fn new(text: &'a [u8]) -> WellFormedLines<'a>
        ensures lines { result ≡ lines_of text.now }
        ensures few { length result ≤ length text.now }
    {
        WellFormedLines {
            lines: RecordingLines::new(text),
        }
    }

    /// Returns the next well-formed line, or `None` after the last one.
    pub(crate) fn next(&mut self) -> Option<Line<'a>>
        ensures { MatchOption result ((self.old ≡ []) × (self.new ≡ []))
            (λ line. self.old ≡ line_view line ∷ self.new) }
    {
        while let Some(line) = self.lines.next() {
            if let Ok(line) = line {
                return Some(line);
            }
        }
        None
    }
}
