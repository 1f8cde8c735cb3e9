//! Functions that read strings and columns of a plan's text.

use crate::syntax::line_of;
use plan_text::TextPlace;

/// Returns the string at this place of the text, without its quotes. Returns `None` if
///
/// - there is no string at this place,
/// - the string is empty, has a backslash, or does not end in its line, or
/// - the text is not valid UTF-8.
pub(crate) fn string_at(text: &[u8], place: TextPlace) -> Option<&str> {
    let text = std::str::from_utf8(text).ok()?;
    let rest = after_column(line_of(text, place), place.column);
    match inside(rest, '"') {
        Some(string) => Some(string),
        None => inside(rest, '\''),
    }
}

/// Returns the part of a line that begins at this column. Columns are counted in characters, from
/// 1. The part is empty if the line has fewer characters.
pub(crate) fn after_column(line: &str, column: usize) -> &str {
    let mut letters = line.chars();
    for _ in 1..column {
        letters.next();
    }
    letters.as_str()
}

fn inside(rest: &str, quote: char) -> Option<&str> {
    let rest = rest.strip_prefix(quote)?;
    let (string, _) = rest.split_once(quote)?;
    if string.is_empty() || string.contains('\\') {
        None
    } else {
        Some(string)
    }
}
