//! Positions in a text as lines and columns.

ghost use Rattle.std.specs.Prelude.{◌≡◌, ◌≤◌, length, count_by, take};
ghost use Rattle.std.specs.List.{IsAfterLastMatch};
ghost use Rattle.plan_text.specs.TextPlace.{IsPositionAfter, is_newline, begins_character};

use std::fmt;

/// A position in a text, as a line and a column.
#[derive(Clone, Copy)]
pub struct TextPlace {
    /// The line, counted from 1.
    pub line: usize,
    /// The column in characters, counted from 1.
    pub column: usize,
}

/// Formats the line and the column, such as `17:21`.
impl fmt::Display for TextPlace {
    ghost use Rattle.std.specs.Prelude.{Some, ◌++◌, ◌∷◌, decimal};

    ghost output = { λ place. Some (decimal place.line ++ 58 ∷ decimal place.column) };

    fn fmt<W: fmt::Write>(&self, f: &mut fmt::Formatter<W>) -> fmt::Result {
        let line = self.line;
        let column = self.column;
        write!(f, "{line}:{column}")
    }
}

/// Returns the position of the byte at this offset of a UTF-8 text. If the offset is past the end
/// of the text, returns the position of the end of the text.
pub fn place_at(text: &[u8], offset: usize) -> TextPlace
    ensures { IsPositionAfter (take offset text.now) result }
{
    let before = &text[..offset.min(text.len())];
    TextPlace {
        line: 1 + newlines(before),
        column: 1 + characters(&before[last_line_start(before)..]),
    }
}

fn newlines(text: &[u8]) -> usize
    ensures count { result ≡ count_by is_newline text.now }
    ensures within { result ≤ length text.now }
{
    text.iter().filter(|byte| **byte == b'\n').count()
}

fn characters(text: &[u8]) -> usize
    ensures count { result ≡ count_by begins_character text.now }
    ensures within { result ≤ length text.now }
{
    text.iter().filter(|byte| **byte / 64 != 2).count()
}

/// Returns the offset at which the last line of the text begins. This is the offset after the last
/// newline, or 0 if there is no newline.
fn last_line_start(text: &[u8]) -> usize
    ensures within { result ≤ length text.now }
    ensures after_newline { IsAfterLastMatch is_newline text.now result }
{
    match text.iter().rposition(|byte| *byte == b'\n') {
        Some(newline) => newline + 1,
        None => 0,
    }
}
