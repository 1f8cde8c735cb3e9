//! The first bad line of a recording.

ghost use Rattle.std.specs.Prelude.{IfOk};
ghost use Rattle.recordings.specs.RecordingLine.{lines_read};
ghost use Rattle.recordings.specs.Faults.{IsFirstFault};
ghost use Rattle.recordings.specs.CheckedLines.{IsCheckerState};

use crate::checked_lines::CheckedLines;
use crate::fault::RecordingFault;
use std::alloc::{AllocError, Global};

/// Returns the fault of the first bad line of a recording, or `None` if there is no bad line.
/// Ignores the text after the last newline. In a text without a newline, line 1 counts as a bad
/// line that breaks [`LineRule::Frame`](crate::LineRule::Frame).
///
/// # Errors
///
/// Returns `AllocError` if memory runs out.
pub fn first_fault(alloc: Global, text: &[u8]) -> Result<Option<RecordingFault>, AllocError>
    ensures { IfOk result (IsFirstFault (lines_read text.now)) }
{
    next_fault(&mut CheckedLines::new(alloc, text), text)
}

/// Returns the fault of the first bad line of `text` if `lines` has not returned it yet, or `None`
/// if there is no bad line.
fn next_fault(
    lines: &mut CheckedLines<'_>,
    text: &[u8],
) -> Result<Option<RecordingFault>, AllocError>
    requires { IsCheckerState (lines_read text.now) lines.old }
    ensures { IfOk result (IsFirstFault (lines_read text.now)) }
{
    while let Some(line) = lines.next()? {
        if let Err(fault) = line {
            return Ok(Some(fault));
        }
    }
    Ok(None)
}
