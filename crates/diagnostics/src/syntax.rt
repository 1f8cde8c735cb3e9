//! Faults of texts that are not TOML: the place, the parser's message, and a hint for a common
//! mistake.

use crate::diagnostic::Diagnostic;
use crate::hints::{ends_with_semicolon, kind_hint, word_hint};
use crate::repeated_keys::{earlier_line, key_of};
use crate::strings::after_column;
use crate::unclosed_lists::unclosed_list;
use job_bodies::PlanFault;
use plan_text::{TextPlace, place_at};
use std::alloc::{AllocError, Global};
use support::number::NOT_TOML;

/// The words that other formats have for `true` and `false`.
const FLAG_WORDS: [&str; 10] = [
    "yes", "no", "on", "off", "True", "False", "TRUE", "FALSE", "Yes", "No",
];

/// Returns the fault of a file that is not valid UTF-8. `bytes` is the content of the file, and
/// `valid` is the number of valid bytes before the first invalid one.
pub(crate) fn not_text(
    alloc: Global,
    bytes: &[u8],
    valid: usize,
) -> Result<Diagnostic, AllocError> {
    let is_wide = matches!(bytes, [0xFF, 0xFE, ..] | [0xFE, 0xFF, ..]);
    let what = if is_wide {
        "the file is UTF-16: save it as UTF-8"
    } else {
        "the file is not valid UTF-8: save it as UTF-8"
    };
    Ok(Diagnostic {
        fault: PlanFault::at_text(NOT_TOML),
        place: place_at(bytes, valid),
        what: String::from_str(alloc, what)?,
        range: None,
    })
}

/// Returns the fault of a text that is not TOML. `offset` is the byte at which the TOML parser
/// found the error, and `words` is the message of the parser.
pub(crate) fn not_toml(
    alloc: Global,
    text: &str,
    offset: usize,
    words: &str,
) -> Result<Diagnostic, AllocError> {
    let place = place_at(text.as_bytes(), offset);
    let what = message_at(alloc, text, offset, place, words)?;
    Ok(Diagnostic {
        fault: PlanFault::at_text(NOT_TOML),
        place,
        what,
        range: None,
    })
}

/// Returns the message for a syntax error. This is the parser's message `words`, preceded by a hint
/// if the mistake is a common one. The error is at byte `offset`, and `place` is the line and
/// column of this byte.
fn message_at(
    alloc: Global,
    text: &str,
    offset: usize,
    place: TextPlace,
    words: &str,
) -> Result<String, AllocError> {
    let line = line_of(text, place);
    if let Some(hint) = format_hint(line, place.line) {
        return with_hint(alloc, hint, words);
    }
    if let Some(start) = unclosed_list(text, place.line) {
        return format!(in alloc; "the list that begins at line {start} has no ] ({words})");
    }
    if words == "duplicate key"
        && let Some(key) = key_of(line)
        && let Some(earlier) = earlier_line(text, key, place.line)
    {
        return format!(in alloc; "the same entry has the key {key} in line {earlier} ({words})");
    }
    match value_hint_at(text, offset, place, line) {
        Some(hint) => with_hint(alloc, hint, words),
        None => String::from_str(alloc, words),
    }
}

fn with_hint(alloc: Global, hint: &str, words: &str) -> Result<String, AllocError> {
    format!(in alloc; "{hint} ({words})")
}

/// Returns a hint for an error in this line, or `None`. `number` is the number of the line. If the
/// line is the first one and shows that the text is not a plan, the hint says what the text is
/// instead. Otherwise the hint is the result of [`character_hint`].
fn format_hint(line: &str, number: usize) -> Option<&'static str> {
    if number == 1
        && let Some(hint) = kind_hint(line)
    {
        return Some(hint);
    }
    character_hint(line)
}

/// Returns a hint for an error in a list, in an entry's header, in a value, or after a value.
/// Returns `None` if the mistake is not a known one. The error is at byte `offset`. `place` is the
/// line and column of this byte, and `line` is the text of this line.
fn value_hint_at(text: &str, offset: usize, place: TextPlace, line: &str) -> Option<&'static str> {
    let rest = after_column(line, place.column);
    if is_in_list(text, offset, place) {
        return list_hint(rest);
    }
    match end_hint(rest) {
        Some(hint) => Some(hint),
        None => entry_hint(line),
    }
}

/// Returns whether a list is open at byte `offset` of the text. `place` is the line and column of
/// this byte.
fn is_in_list(text: &str, offset: usize, place: TextPlace) -> bool {
    match text.as_bytes().get(..offset) {
        Some(before) => match std::str::from_utf8(before) {
            Ok(before) => unclosed_list(before, place.line).is_some(),
            Err(_) => false,
        },
        None => false,
    }
}

/// Returns a hint for an error in a list. `rest` is the rest of the line, from the error on. There
/// is a hint if `rest` begins with an action without quotes, or with a semicolon.
fn list_hint(rest: &str) -> Option<&'static str> {
    if begins_with_action(rest) {
        Some("write quotes around each action, as in body = [\"work 5\"]")
    } else if rest.starts_with(';') {
        Some("write a comma between actions, not ;")
    } else {
        None
    }
}

fn begins_with_action(rest: &str) -> bool {
    rest.starts_with("work ") || rest.starts_with("submit ") || rest.starts_with("get ")
}

/// Returns a hint for an error after a value. `rest` is the rest of the line, from the error on.
/// There is a hint if `rest` is a semicolon, alone or before a comment.
fn end_hint(rest: &str) -> Option<&'static str> {
    let after = rest.strip_prefix(';')?;
    if without_comment(after).is_empty() {
        Some("write no ; at the end of a line")
    } else {
        None
    }
}

/// Returns the line that contains this place. Returns an empty line if the text has fewer lines.
pub(crate) fn line_of(text: &str, place: TextPlace) -> &str {
    let mut number = 1usize;
    for line in text.lines() {
        if number == place.line {
            return line;
        }
        number = number.saturating_add(1);
    }
    ""
}

/// Returns a hint if the line has one of these common mistakes:
///
/// - It begins with `//`.
/// - It is `%%`, which separates a plan from a second text.
/// - It has curly double quotes.
/// - It has an odd number of plain double quotes.
fn character_hint(line: &str) -> Option<&'static str> {
    let line = line.trim();
    if line.starts_with("//") {
        return Some("comments start with #");
    }
    if line == "%%" {
        return Some(
            "the plan ends here and a second text begins: pass each as a file of its own, the plan first",
        );
    }
    if line.contains('\u{201c}') || line.contains('\u{201d}') || line.contains('\u{201e}') {
        return Some("use plain quotes, \"");
    }
    let quotes = line.bytes().filter(|byte| *byte == b'"').count();
    if quotes % 2 == 1 {
        return Some("a quote is not closed");
    }
    None
}

/// Returns a hint if the line has one of these mistakes: a wrong header of an entry, a semicolon at
/// the end of the line, or a value that is not TOML. Otherwise returns `None`.
fn entry_hint(line: &str) -> Option<&'static str> {
    if let Some(hint) = bracket_hint(line) {
        return Some(hint);
    }
    if ends_with_semicolon(line.trim_end()) {
        return Some("write no ; at the end of a line");
    }
    value_hint(line)
}

/// Returns a hint if the line with the error is the header of an entry. For `[pool]`, the hint says
/// to write two pairs of brackets. For `[[pool]]`, it says that an earlier line defines `pool` in
/// another way, such as `[pool]`.
fn bracket_hint(line: &str) -> Option<&'static str> {
    match without_comment(line) {
        "[pool]" | "[class]" | "[client]" => {
            Some("write two brackets, as in [[pool]]: a plan can have several")
        }
        "[[pool]]" | "[[class]]" | "[[client]]" => Some(
            "an earlier line defines this in another way: write two brackets there too",
        ),
        _ => None,
    }
}

fn value_hint(line: &str) -> Option<&'static str> {
    let (key, value) = line.split_once('=')?;
    let value = value.trim();
    if FLAG_WORDS.contains(&value) {
        Some("write true or false")
    } else if value.is_empty() {
        Some("a value is missing after =")
    } else if is_word(value) {
        word_hint(key.trim())
    } else {
        None
    }
}

/// Returns whether the value looks like words without quotes, such as `Integer.MAX_VALUE` or
/// `5 threads`: it has only ASCII letters, digits, spaces and the characters `_-.()<>`, has at least
/// one letter, and is not `true` or `false`. Ignores a comment after the value.
fn is_word(value: &str) -> bool {
    let words = without_comment(value);
    words.bytes().any(|byte| byte.is_ascii_alphabetic())
        && words.bytes().all(|byte| byte.is_ascii_alphanumeric() || is_between_words(byte))
        && words != "true"
        && words != "false"
}

/// Returns the text before a comment, without spaces at its start and end.
fn without_comment(text: &str) -> &str {
    text.split('#').next().unwrap_or("").trim()
}

fn is_between_words(byte: u8) -> bool {
    matches!(byte, b' ' | b'_' | b'-' | b'.' | b'(' | b')' | b'<' | b'>')
}
