//! Hints about mistakes that newcomers make.

ghost use Rattle.std.specs.Prelude.{◌≡◌, option_map};
ghost use Rattle.diagnostics.specs.Hints as spec;

/// Returns the end of the message for a size or count of 0. For the keys `queue` and `core`, the
/// end says what to write and which page to read. For any other key, the end is empty.
pub(crate) fn zero_hint(key: &str) -> &'static str
    ensures { result.now ≡ spec.zero_hint key.now }
{
    match key {
        "queue" => "; 0, a SynchronousQueue, needs may_reject = true (docs/PATTERNS.md)",
        "core" => "; write the number of threads that you want (docs/PATTERNS.md)",
        _ => "",
    }
}

/// Returns the end of the message for a value of the wrong type. `has_no_limit` says whether the
/// value is a string, such as `unlimited`, that means that a size has no limit. If `has_no_limit`
/// is true, and the key is `max` or `queue`, the end asks whether `unbounded` was meant. Otherwise
/// the end is empty.
pub(crate) fn no_limit_hint(key: &str, has_no_limit: bool) -> &'static str
    ensures { result.now ≡ spec.no_limit_hint key.now has_no_limit }
{
    if can_be_unbounded(key) && has_no_limit {
        "; did you mean \"unbounded\"?"
    } else {
        ""
    }
}

fn can_be_unbounded(key: &str) -> bool
    ensures { result ≡ spec.can_be_unbounded key.now }
{
    matches!(key, "max" | "queue")
}

/// Returns whether a word, such as `unlimited`, says that a size has no limit. `letters` has only
/// the letters and digits of the word, in lowercase.
pub(crate) fn names_no_limit(letters: &str) -> bool
    ensures { result ≡ spec.names_no_limit letters.now }
{
    matches!(
        letters,
        "unbounded" | "unlimited" | "infinite" | "none" | "maxvalue" | "integermaxvalue"
    )
}

/// Returns the end of the message for a number that is larger than every valid one. `has_no_limit`
/// says whether the queue of the pool has no limit. The end says to write `unbounded` in two cases:
///
/// - The key is `queue`.
/// - The key is `max`, and the queue has no limit.
///
/// Otherwise the end is empty.
pub(crate) fn large_hint(key: &str, has_no_limit: bool) -> &'static str
    ensures { result.now ≡ spec.large_hint key.now has_no_limit }
{
    if key == "queue" || (key == "max" && has_no_limit) {
        "; use \"unbounded\""
    } else {
        ""
    }
}

/// Returns the end of the message for a maximum of `unbounded` in a pool with a bounded queue.
pub(crate) fn unbounded_max_hint() -> &'static str
    ensures { result.now ≡ spec.unbounded_max_hint }
{
    "; max = \"unbounded\" needs queue = \"unbounded\""
}

/// Returns the end of the message for a maximum that is less than the core size. If the queue is
/// unbounded, the end says that the maximum can be `unbounded` too. Otherwise the end is empty.
pub(crate) fn max_hint(is_unbounded: bool) -> &'static str
    ensures { result.now ≡ spec.max_hint is_unbounded }
{
    if is_unbounded {
        "; with queue = \"unbounded\" you can write max = \"unbounded\""
    } else {
        ""
    }
}

/// Returns the indefinite article, `a` or `an`, for the name of a TOML type.
pub(crate) fn article(found: &str) -> &'static str
    ensures { result.now ≡ spec.article found.now }
{
    match found {
        "integer" | "array" => "an",
        _ => "a",
    }
}

/// Returns a hint if `line`, the first line of a text, shows that the text is not a plan. The hint
/// says what the text is instead: a recording, JSON such as a certificate, XML or HTML, or YAML.
/// Otherwise returns `None`.
pub(crate) fn kind_hint(line: &str) -> Option<&'static str>
    ensures { option_map (λ hint. hint.now) result ≡ spec.kind_hint line.now }
{
    if line == "recording 1" {
        return Some("this is a recording, not a plan: `sizing learn` derives a plan from it");
    }
    if line.as_bytes().starts_with(b"{") {
        return Some("this is JSON, not a plan: a certificate comes after its plan");
    }
    if line.as_bytes().starts_with(b"<") {
        return Some("this is XML or HTML, not a plan: a plan begins with [[pool]]");
    }
    if line == "---" || line.as_bytes().ends_with(b":") {
        return Some("this is YAML, not a plan: a plan is TOML, and begins with [[pool]]");
    }
    None
}

/// Returns the hint for a key whose value is a word without quotes. The hint says what to write
/// instead of the word. Returns `None` if the key is `body` or unknown.
pub(crate) fn word_hint(key: &str) -> Option<&'static str>
    ensures { option_map (λ hint. hint.now) result ≡ spec.word_hint key.now }
{
    match key {
        "name" | "pool" => Some("write quotes around the value, as in pool = \"web\""),
        "core" | "count" => Some("write a number"),
        "max" | "queue" => Some("write a number, or \"unbounded\" with its quotes"),
        "repeat" | "prestart" | "core_timeout" | "may_reject" => Some("write true or false"),
        _ => None,
    }
}

pub(crate) fn ends_with_semicolon(line: &str) -> bool
    ensures { result ≡ spec.ends_with_semicolon line.now }
{
    line.as_bytes().ends_with(b";")
}

/// Returns whether the text has a comma or a semicolon, which no action has.
pub(crate) fn has_separator(text: &str) -> bool
    ensures { result ≡ spec.has_separator text.now }
{
    let bytes = text.as_bytes();
    bytes.contains(&b',') || bytes.contains(&b';')
}
