//! Keys that an entry has twice.

/// Returns the key that this line defines, or `None` if the line has no equals sign.
pub(crate) fn key_of(line: &str) -> Option<&str> {
    let (key, _) = line.split_once('=')?;
    Some(key.trim())
}

/// Returns the number of the first line that defines this key in the entry to which line `error`
/// belongs. Lines are counted from 1. Returns `None` if no line of this entry before line `error`
/// defines the key.
pub(crate) fn earlier_line(text: &str, key: &str, error: usize) -> Option<usize> {
    let mut number = 0usize;
    let mut found = None;
    for line in text.lines() {
        number = number.saturating_add(1);
        if number == error {
            return found;
        }
        if line.trim_start().starts_with('[') {
            found = None;
        } else if found.is_none() && key_of(line) == Some(key) {
            found = Some(number);
        }
    }
    None
}
