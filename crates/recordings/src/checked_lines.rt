//! Iteration over the lines of a recording, with a check of each line.

ghost use Rattle.std.specs.Prelude.{◌≡◌, ◌≤◌, length, List, Option, IfOk};
ghost use Rattle.recordings.specs.RecordingLine.{RecordedLine, lines_read};
ghost use Rattle.recordings.specs.CheckedLines.{IsCheckerState, IsNext};

use crate::fault::{FaultReason, RecordingFault};
use crate::rule::LineRule;
use crate::trace_validator::TraceValidator;
use crate::{BadLine, Line, RecordingLines};
use std::alloc::{AllocError, Global};

/// An iterator over the lines of a recording. It checks each line: a line is bad if it has none of
/// the forms in `docs/RECORDING.md`, or if it breaks one of the rules O1 to O7 ([`LineRule`]).
///
/// The iterator reads each line once and stores no lines. It needs as much memory as a
/// [`TraceValidator`].
#[derive(Drop)]
pub struct CheckedLines<'a> {
    lines: RecordingLines<'a>,
    validator: TraceValidator,
    number: usize,
}

impl<'a> CheckedLines<'a> {
    /// Creates an iterator at the first line. Ignores the text after the last newline.
    pub fn new(alloc: Global, text: &'a [u8]) -> CheckedLines<'a>
        ensures checked { IsCheckerState (lines_read text.now) result }
        ensures number { result.number ≡ 0 }
        ensures few { length (lines_read text.now) ≤ length text.now }
    {
        CheckedLines {
            lines: RecordingLines::new(text),
            validator: TraceValidator::new(alloc),
            number: 0,
        }
    }

    /// Returns the number of lines that [`next`](CheckedLines::next) has returned. This is also the
    /// line number of the last returned line, because lines are numbered from 1.
    pub fn number(&self) -> usize
        ensures { result ≡ self.now.number }
    {
        self.number
    }

    /// Returns the next line, or `None` after the last line. If the next line is bad, returns its
    /// fault. In a text without a newline, line 1 counts as a bad line that breaks
    /// [`LineRule::Frame`].
    ///
    /// Do not call this method again after a fault.
    ///
    /// # Errors
    ///
    /// Returns `AllocError` if memory runs out. Do not call this method again after this error.
    pub fn next(&mut self) -> Result<Option<Result<Line<'a>, RecordingFault>>, AllocError>
        ensures { (all : List (Option RecordedLine))
            → IsCheckerState all self.old
            → IfOk result (λ next. IsNext all self.old next self.new) }
    {
        // Never saturates, since the number of lines is below `usize::MAX`.
        let number = self.number.saturating_add(1);
        match self.lines.next() {
            Some(Ok(line)) => match self.validator.take(&line)? {
                Some(rule) => Ok(Some(Err(RecordingFault {
                    line: number,
                    reason: FaultReason::LineRule(rule),
                }))),
                None => {
                    self.number = number;
                    Ok(Some(Ok(line)))
                }
            },
            Some(Err(BadLine)) => Ok(Some(Err(RecordingFault {
                line: number,
                reason: FaultReason::Form,
            }))),
            None if self.number == 0 => Ok(Some(Err(RecordingFault {
                line: 1,
                reason: FaultReason::LineRule(LineRule::Frame),
            }))),
            None => Ok(None),
        }
    }
}
