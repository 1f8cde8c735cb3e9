//! The hint for the message about a malformed line that ends with a carriage return.

ghost use Rattle.std.specs.Prelude.{◌≡◌, ◌-◌, ◌∷◌, [], MatchOption, option_map, slice_get};
ghost use Rattle.recordings.specs.WholeLines.{whole_lines};
ghost use Rattle.sizing_cli.specs.LineEnds as spec;

use memchr::memchr;

/// Returns the hint to append to the message about a malformed line. If the line ends with a
/// carriage return, the hint says how to convert the recording. For any other line, the hint is
/// empty. `line` is the number of the line, counted from 1.
pub(crate) fn line_end_hint(recording: &[u8], line: usize) -> &'static str
    ensures { result.now ≡ spec.line_end_hint recording.now line }
{
    if ends_with_return(recording, line) {
        "; it ends with a carriage return: convert the file from CRLF to newlines alone"
    } else {
        ""
    }
}

fn ends_with_return(recording: &[u8], line: usize) -> bool
    ensures { result ≡ spec.ends_with_return recording.now line }
{
    match line_at(recording, line) {
        Some(text) => text.ends_with(b"\r"),
        None => false,
    }
}

/// Returns the line with this number, counted from 1, without its newline. Returns `None` if the
/// recording has fewer lines, or if the line with this number has no newline.
fn line_at(recording: &[u8], line: usize) -> Option<&[u8]>
    ensures { option_map (λ text. text.now) result
        ≡ slice_get (whole_lines recording.now) (line - 1) }
{
    let mut rest = recording;
    let mut before = line.saturating_sub(1);
    loop {
        let (first, after) = split_line(rest)?;
        if before == 0 {
            return Some(first);
        }
        rest = after;
        before -= 1;
    }
}

/// Splits a text at its first newline, and returns the text before the newline and the text after
/// it. Returns `None` if the text has no newline.
fn split_line(text: &[u8]) -> Option<(&[u8], &[u8])>
    ensures { MatchOption result (whole_lines text.now ≡ [])
        (λ parts. whole_lines text.now ≡ parts.0.now ∷ whole_lines parts.1.now) }
{
    let newline = memchr(b'\n', text)?;
    Some((&text[..newline], &text[newline + 1..]))
}
