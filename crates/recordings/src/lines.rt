//! An iterator over the lines of a recording.

ghost use Rattle.std.specs.Prelude.{◌≡◌, ◌≤◌, ◌∷◌, [], length, MatchOption};
ghost use Rattle.recordings.specs.WholeLines.{whole_lines};
ghost use Rattle.recordings.specs.RecordingLine.{line_read, lines_read};

use crate::frequent_lines::split_frequent_line;
use crate::line_forms::line_of;
use crate::recording_line::Line;
use memchr::memchr;
use std::marker::Model;

/// An iterator over the lines of a recording. Each call of [`next`](RecordingLines::next) parses
/// one line. The iterator stores no lines.
#[derive(Drop)]
pub struct RecordingLines<'a> {
    rest: &'a [u8],
}

/// A line that has none of the forms in `docs/RECORDING.md`.
#[derive(Clone, Copy)]
pub struct BadLine;

impl<'a> Model for RecordingLines<'a> {
    ghost use Rattle.std.specs.Prelude.{List, Option};
    ghost use Rattle.recordings.specs.RecordingLine.{RecordedLine, lines_read};

    ghost Value = { List (Option RecordedLine) };

    ghost view = { λ l. lines_read l.rest.now };
}

impl<'a> RecordingLines<'a> {
    /// Creates an iterator over the lines of a text. Ignores the text after the last newline.
    pub fn new(text: &'a [u8]) -> RecordingLines<'a>
        ensures lines { result ≡ lines_read text.now }
        ensures few { length result ≤ length text.now }
    {
        RecordingLines { rest: text }
    }

    /// Returns the next line, or `None` after the last line.
    ///
    /// # Errors
    ///
    /// Returns [`BadLine`] if the next line has none of the forms in `docs/RECORDING.md`. This
    /// includes a line with one of these faults:
    ///
    /// - A number is above [`MAX_LINE_NUMBER`](support::MAX_LINE_NUMBER) or has a leading zero.
    /// - A name is not valid in plans.
    ///
    /// The iterator then continues with the line after the bad line.
    #[inline(always)]
    pub fn next(&mut self) -> Option<Result<Line<'a>, BadLine>>
        ensures { MatchOption result ((self.old ≡ []) × (self.new ≡ []))
            (λ line. self.old ≡ line_read line ∷ self.new) }
    {
        let (line, after) = match split_frequent_line(self.rest) {
            Some((line, after)) => (Ok(line), after),
            None => split_line(self.rest)?,
        };
        self.rest = after;
        Some(line)
    }
}

/// Parses the first line of a text. Returns the parsed line and the text after its newline. If the
/// line has no valid form, returns [`BadLine`] in place of the parsed line. Returns `None` if the
/// text has no newline.
///
/// The function is inlined because a call would first clear the space for its return value. This
/// would slow down the parsing of frequent lines.
#[inline(always)]
fn split_line(text: &[u8]) -> Option<(Result<Line<'_>, BadLine>, &[u8])>
    ensures { MatchOption result (lines_read text.now ≡ [])
        (λ read. lines_read text.now ≡ line_read read.0 ∷ lines_read read.1.now) }
{
    let (line, after) = split_whole_line(text)?;
    match line_of(line) {
        Some(line) => Some((Ok(line), after)),
        None => Some((Err(BadLine), after)),
    }
}

/// Splits the text at its first newline. Returns the text before the newline and the text after it,
/// or `None` if the text has no newline.
#[cold]
#[inline(never)]
fn split_whole_line(text: &[u8]) -> Option<(&[u8], &[u8])>
    ensures { MatchOption result (whole_lines text.now ≡ [])
        (λ parts. whole_lines text.now ≡ parts.0.now ∷ whole_lines parts.1.now) }
{
    let newline = memchr(b'\n', text)?;
    Some((&text[..newline], &text[newline + 1..]))
}
