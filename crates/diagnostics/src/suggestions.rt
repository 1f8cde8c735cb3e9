//! Suggestions for misspelled words.

use std::alloc::{AllocError, Global};
use strsim::osa_distance;

/// The maximum number of words in a list.
const MAX_LISTED: usize = 12;

/// Returns one of `words` that is similar to `written`, or `None` if there is none. A word is
/// similar if it differs from `written` and one of these conditions holds:
///
/// - The word starts with `written`, and `written` has at least 3 bytes.
/// - The edit distance of the two is at most a third of the length of `written`, or at most 1.
///
/// Of several similar words, returns the first that has the edit distance 1 or starts with
/// `written`. If there is no such word, returns the first of those with the least edit distance.
pub(crate) fn nearest<'w>(
    alloc: Global,
    written: &str,
    words: &[&'w str],
) -> Result<Option<&'w str>, AllocError> {
    let mut best = None;
    let mut most = (written.len() / 3).max(1);
    for word in words {
        let distance = distance_of(alloc, written, *word)?;
        if 0 < distance && distance <= most {
            best = Some(*word);
            most = distance - 1;
        }
    }
    Ok(best)
}

/// Returns the edit distance of the two words. If `word` is longer than `written` and starts with
/// it, and `written` has at least 3 bytes, returns 1.
fn distance_of(alloc: Global, written: &str, word: &str) -> Result<usize, AllocError> {
    if 2 < written.len() && written.len() < word.len() && word.starts_with(written) {
        return Ok(1);
    }
    osa_distance(alloc, written, word)
}

/// Returns a suggestion, such as `; did you mean rows?`, if one of `words` is similar to `written`
/// (see [`nearest`]). Returns `otherwise` if none is.
pub(crate) fn suggestion(
    alloc: Global,
    written: &str,
    words: &[&str],
    otherwise: Result<String, AllocError>,
) -> Result<String, AllocError> {
    match nearest(alloc, written, words)? {
        Some(word) => format!(in alloc; "; did you mean {word}?"),
        None => otherwise,
    }
}

/// Returns `start`, a space, and the first 12 words, separated by commas. If there are more than 12
/// words, `, ..` follows.
pub(crate) fn comma_list(alloc: Global, start: &str, words: &[&str]) -> Result<String, AllocError> {
    let (shown, end) = if words.len() <= MAX_LISTED {
        (words, "")
    } else {
        (&words[..MAX_LISTED], ", ..")
    };
    let all = shown.join(alloc, ", ")?;
    format!(in alloc; "{start} {all}{end}")
}
