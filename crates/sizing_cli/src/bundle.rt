//! Bundles: a plan's text, a line that is exactly `%%`, and a second part. Two texts are joined to a
//! bundle. A text with several such lines is split at the last one or, for `conform`, at the first
//! one.

ghost use Rattle.std.specs.Prelude.{◌≡◌, ◌≤◌, ◌==◌, IfOk, length, option_map};
ghost use Rattle.std.specs.List.{IsAfterLastMatch};
ghost use Rattle.sizing_cli.specs.Bundle as spec;

use memchr::{memchr, memrchr};
use std::alloc::AllocError;

/// A plan's text, and the text after the line `%%` at which the input is split.
#[derive(Clone, Copy)]
pub struct Bundle<'a> {
    pub plan: &'a [u8],
    pub second: &'a [u8],
}

/// Splits an input at its last line `%%`. If this line is the last line of the input, it may have
/// no newline. Returns `None` if no line is `%%`.
///
/// The search starts at the end of the input. It skips lines without a `%`, and examines each other
/// line once.
pub fn bundle_of(input: &[u8]) -> Option<Bundle<'_>>
    ensures { option_map (λ bundle. record { plan = bundle.plan.now; second = bundle.second.now })
        result
        ≡ spec.bundle_of input.now }
{
    // No line that begins after this prefix is `%%`.
    let mut front = input;
    loop {
        // No line that begins after the last `%` of this prefix is `%%` either.
        let percent = memrchr(b'%', front)?;
        let (plan, rest) = input.split_at(last_line_start(&front[..percent]));
        if let Some(second) = after_separator(rest) {
            return Some(Bundle { plan, second });
        }
        front = plan.strip_suffix(b"\n")?;
    }
}

/// Splits an input at its first line `%%`. If this line is the last line of the input, it may have
/// no newline. Returns `None` if no line is `%%`.
///
/// The `conform` command splits its input in this way. A plan's text has no line `%%`, so each line
/// `%%` after the first is in the recording. The command reports such a line as malformed, with its
/// line number.
pub fn first_bundle_of(input: &[u8]) -> Option<Bundle<'_>>
    ensures { option_map (λ bundle. record { plan = bundle.plan.now; second = bundle.second.now })
        result
        ≡ spec.first_bundle_of input.now }
{
    // No line that begins before this rest of the input is `%%`.
    let mut rest = input;
    loop {
        if let Some(second) = after_separator(rest) {
            let (front, _) = input.split_at(input.len() - rest.len());
            return Some(Bundle {
                plan: front,
                second,
            });
        }
        let newline = memchr(b'\n', rest)?;
        let (_, after) = rest.split_at(newline + 1);
        rest = after;
    }
}

/// Returns the offset at which the last line of a text begins: after the last newline, or 0.
fn last_line_start(text: &[u8]) -> usize
    ensures within { result ≤ length text.now }
    ensures behind_newline { IsAfterLastMatch (λ byte. byte == 10) text.now result }
{
    match text.iter().rposition(|byte| *byte == b'\n') {
        Some(newline) => newline + 1,
        None => 0,
    }
}

fn after_separator(text: &[u8]) -> Option<&[u8]>
    ensures { option_map (λ second. second.now) result ≡ spec.after_separator text.now }
{
    if let Some(second) = text.strip_prefix(b"%%\n") {
        return Some(second);
    }
    if text == b"%%".as_slice() {
        return Some(&text[2..]);
    }
    None
}

/// Joins a plan's text and a second text. The result has three parts:
///
/// - the plan's text, with a newline appended if its last line has none;
/// - a line `%%`;
/// - the second text.
///
/// # Errors
///
/// Returns [`AllocError`] if memory runs out.
pub fn join_texts(plan: Vec<u8>, second: &[u8]) -> Result<Vec<u8>, AllocError>
    ensures { IfOk result (λ input. input.items ≡ spec.join_texts plan.items second.now) }
{
    let mut input = whole_lines(plan)?;
    // An exact reservation. `extend_from_slice` alone could double the memory of the plan's text.
    input.reserve_exact(second.len().saturating_add(3))?;
    input.extend_from_slice(b"%%\n")?;
    input.extend_from_slice(second)?;
    Ok(input)
}

/// Returns the text with a newline at its end. If the text is empty or already ends with a newline,
/// returns it unchanged.
///
/// # Errors
///
/// Returns [`AllocError`] if memory runs out.
pub fn whole_lines(mut text: Vec<u8>) -> Result<Vec<u8>, AllocError>
    ensures { IfOk result (λ lines. lines.items ≡ spec.whole_lines text.items) }
{
    if text.is_empty() || text.ends_with(b"\n") {
        return Ok(text);
    }
    text.push(b'\n')?;
    Ok(text)
}
