//! Parsers for the words of a line. Most of them parse the first word of a text and the space after
//! it. Each returns `None` if the text does not have the required form.

ghost use Rattle.std.specs.Prelude.{◌≡◌, option_map};
ghost use Rattle.std.specs.Str.{bytes_eq};
ghost use Rattle.recordings.specs.Words as spec;

use job_bodies::is_valid_name;
use support::{leading_number, split_space};

/// Returns true if the text is exactly this word.
pub(crate) fn is_word(text: &[u8], word: &str) -> bool
    ensures { result ≡ bytes_eq text.now word.now }
{
    text == word.as_bytes()
}

/// Returns the whole text if it is a valid name, and `None` otherwise.
#[tactic(auto, unfolding(crate::specs::Words::name_of))]
pub(crate) fn name_of(text: &[u8]) -> Option<&str>
    ensures { option_map (λ name. name.now) result ≡ spec.name_of text.now }
{
    match std::str::from_utf8(text) {
        Ok(name) => {
            if is_valid_name(name) {
                Some(name)
            } else {
                None
            }
        }
        Err(_) => None,
    }
}

/// Parses a number and a space at the start of the text. Returns the number and the text after the
/// space.
pub(crate) fn parse_number(text: &[u8]) -> Option<(usize, &[u8])>
    ensures { option_map (λ read. (read.0, read.1.now)) result ≡ spec.parse_number text.now }
{
    let (number, after) = leading_number(text)?;
    Some((number, after.strip_prefix(b" ")?))
}

/// Parses a name and a space at the start of the text. Returns the name and the text after the
/// space.
#[tactic(auto, unfolding(crate::specs::Words::parse_name))]
pub(crate) fn parse_name(text: &[u8]) -> Option<(&str, &[u8])>
    ensures { option_map (λ read. (read.0.now, read.1.now)) result ≡ spec.parse_name text.now }
{
    let (word, rest) = split_space(text)?;
    Some((name_of(word)?, rest))
}

/// Removes this word and a space from the start of the text, and returns the text after the space.
#[tactic(auto, unfolding(crate::specs::Words::strip_word))]
pub(crate) fn strip_word<'a>(word: &str, text: &'a [u8]) -> Option<&'a [u8]>
    ensures { option_map (λ rest. rest.now) result ≡ spec.strip_word word.now text.now }
{
    let (first, rest) = split_space(text)?;
    if is_word(first, word) {
        Some(rest)
    } else {
        None
    }
}

/// Parses this word, a space, a number and a space at the start of the text. Returns the number and
/// the text after the last space.
#[tactic(auto, unfolding(crate::specs::Words::parse_word_and_number))]
pub(crate) fn parse_word_and_number<'a>(word: &str, text: &'a [u8]) -> Option<(usize, &'a [u8])>
    ensures { option_map (λ read. (read.0, read.1.now)) result
        ≡ spec.parse_word_and_number word.now text.now }
{
    parse_number(strip_word(word, text)?)
}
