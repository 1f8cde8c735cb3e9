//! The tokens of a TOML text.

/// The kind of a token.
#[derive(Clone, Copy)]
pub(crate) enum Kind {
    /// A number, a key without quotes, or any other token that is not of the kinds below. The token
    /// ends before white space, a quote, `#` or one of `[ ] { } = , .`
    Word,
    /// A string, including its quotes. A single-line string without a closing quote ends at the end
    /// of its line.
    Quoted,
    /// One of the characters `[ ] { } = , .`
    Mark(u8),
    /// The end of a line or of the text.
    LineEnd,
}

/// A token with its range in the text: from the byte at `start` up to, but not including, the byte
/// at `end`.
#[derive(Clone, Copy)]
pub(crate) struct Token {
    pub(crate) kind: Kind,
    pub(crate) start: usize,
    pub(crate) end: usize,
}
