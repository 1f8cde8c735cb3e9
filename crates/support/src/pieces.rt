//! Splits a text into lines, and a line into words.

ghost use Rattle.std.specs.Prelude.{◌≡◌, option_map};
ghost use Rattle.support.specs.Pieces as spec;

/// Returns the first line of a text without its newline, and the text after this newline. If the
/// text has no newline, returns the whole text and an empty text.
pub fn split_line(text: &[u8]) -> (&[u8], &[u8])
    ensures line { result.0.now ≡ spec.first_line text.now }
    ensures rest_after { result.1.now ≡ spec.after_line text.now }
{
    match text.iter().position(|byte| *byte == b'\n') {
        Some(newline) => (&text[..newline], &text[newline + 1..]),
        None => (text, &[]),
    }
}

/// Returns the part of a text before its first space and the part after it. Returns `None` if the
/// text has no space.
#[tactic(auto, unfolding(crate::specs::Pieces::split_space))]
pub fn split_space(text: &[u8]) -> Option<(&[u8], &[u8])>
    ensures { option_map (λ parts. (parts.0.now, parts.1.now)) result ≡ spec.split_space text.now }
{
    let place = text.iter().position(|byte| *byte == b' ')?;
    Some((&text[..place], &text[place + 1..]))
}
