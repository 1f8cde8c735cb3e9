//! The search for a list, such as a body, whose `]` is missing.

/// The list that is open at the end of a line, if there is one. A list is open if its last `]` has
/// not been reached.
#[derive(Clone, Copy)]
struct OpenList {
    /// The line at which the list begins.
    start: usize,
    /// The number of open brackets. This number is 0 if no list is open.
    depth: usize,
}

/// Finds the first list without a `]`, and returns the line at which this list begins. The list
/// extends to the next line with a header or a key, or to the end of the text. `error` is the line
/// at which the parser found an error. Returns `None` if there is no such list, or if the error is
/// outside the list.
pub(crate) fn unclosed_list(text: &str, error: usize) -> Option<usize> {
    let mut open = OpenList { start: 0, depth: 0 };
    let mut number = 0usize;
    for line in text.lines() {
        number = number.saturating_add(1);
        if open.depth > 0 && begins_entry(line) {
            return start_of(open, error, number);
        }
        open = after_line(open, number, line);
    }
    start_of(open, error, number.saturating_add(1))
}

/// Returns the number of the line at which the list `open` begins. Returns `None` if no list is
/// open, or if line `error` is outside the list. `end` is the number of the line at which the list
/// ends.
fn start_of(open: OpenList, error: usize, end: usize) -> Option<usize> {
    if open.depth > 0 && (open.start..=end).contains(&error) {
        Some(open.start)
    } else {
        None
    }
}

/// Returns `true` if the line begins with `[[`, or if it begins with a key without quotes and an
/// equals sign. In a plan, no line inside a list begins in this way. So if a list is open before
/// the line, the `]` of the list is missing.
fn begins_entry(line: &str) -> bool {
    let line = line.trim();
    if line.starts_with("[[") {
        return true;
    }
    match line.split_once('=') {
        Some((key, _)) => is_key(key.trim()),
        None => false,
    }
}

fn is_key(key: &str) -> bool {
    !key.is_empty()
        && key
            .bytes()
            .all(|byte| byte.is_ascii_alphanumeric() || byte == b'_')
}

/// Returns the list that is open after this line, if there is one. `number` is the number of the
/// line, and `open` is the list that is open before it. A new list can begin only after an equals
/// sign that is not in a comment.
fn after_line(open: OpenList, number: usize, line: &str) -> OpenList {
    if open.depth > 0 {
        return OpenList {
            start: open.start,
            depth: depth_after(open.depth, line),
        };
    }
    match line.split_once('=') {
        Some((key, value)) if !key.contains('#') => OpenList {
            start: number,
            depth: depth_after(0, value),
        },
        _ => open,
    }
}

/// Returns the number of open brackets after this part of a line. `before` is the number of open
/// brackets before this part. Brackets in strings and comments do not count.
fn depth_after(before: usize, part: &str) -> usize {
    let mut depth = before;
    let mut quote = None;
    for byte in part.bytes() {
        match (quote, byte) {
            (None, b'#') => return depth,
            (None, b'"' | b'\'') => quote = Some(byte),
            (None, b'[') => depth = depth.saturating_add(1),
            (None, b']') => depth = depth.saturating_sub(1),
            (Some(open), _) if open == byte => quote = None,
            _ => {}
        }
    }
    depth
}
