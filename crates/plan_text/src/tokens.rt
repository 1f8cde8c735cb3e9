//! A tokenizer of TOML that skips white space and comments.

ghost use Rattle.std.specs.Prelude.{◌≡◌, ◌<◌, ◌++◌, OnOk, IfOk};
ghost use Rattle.std.specs.Option.{option_to_list};
ghost use Rattle.plan_text.specs.Tokens.{class_of, string_at, string_after, begin, end, continued, ended, word_step, line_step, lines_step, step, tokens_of};

use crate::token::{Kind, Token};
use std::alloc::{AllocError, Global};

/// The kind of a byte that is part of neither a string nor a comment.
#[derive(Clone, Copy)]
enum ByteClass {
    /// White space within a line.
    Blank,
    /// The end of a line.
    LineEnd,
    /// The character `#`, which begins a comment.
    Hash,
    /// A quote, which begins a string.
    Quote,
    /// One of the characters `[ ] { } = , .`
    Mark,
    /// Any other byte. It is part of a word.
    Word,
}

/// A token or comment whose end has not been read yet.
#[derive(Clone, Copy)]
enum OpenToken {
    Nothing,
    Comment,
    /// A token of the kind [`Kind::Word`] that began at this offset.
    Word(usize),
    /// A single-line string.
    Line(OpenString),
    /// A multi-line string.
    Lines(OpenString),
}

/// A string whose end has not been read yet.
#[derive(Clone, Copy)]
struct OpenString {
    start: usize,
    quote: u8,
    /// Whether the last byte was a `\` that escapes the next byte.
    escaped: bool,
    /// The number of consecutive quotes that were read last, or 0 if the last byte was not a quote.
    /// Opening quotes and escaped quotes are not counted.
    quotes: u8,
}

/// A step of the tokenizer: the result of reading a byte.
#[derive(Clone, Copy)]
struct ByteStep {
    /// The token that ends before the byte.
    before: Option<Token>,
    /// The token that ends with the byte.
    ended: Option<Token>,
    /// The token or comment that the next byte may continue.
    state: OpenToken,
}

/// Returns the tokens of a text, in order.
#[tactic(auto, unfolding(crate::specs::Tokens::tokens_of))]
pub(crate) fn tokens_of(alloc: Global, text: &[u8]) -> Result<Vec<Token>, AllocError>
    ensures { IfOk result (λ tokens. tokens.items ≡ tokens_of text.now) }
{
    let mut tokens = Vec::new(alloc);
    let mut state = OpenToken::Nothing;
    for (offset, byte) in text.iter().enumerate() {
        let next = step(state, offset, *byte);
        push_ended(&mut tokens, next)?;
        state = next.state;
    }
    // The end of the text ends its last line.
    push_ended(&mut tokens, step(state, text.len(), b'\n'))?;
    Ok(tokens)
}

/// Appends the tokens that ended in this step.
fn push_ended(tokens: &mut Vec<Token>, step: ByteStep) -> Result<(), AllocError>
    ensures { OnOk result (tokens.new.items
        ≡ tokens.old.items ++ (option_to_list step.before ++ option_to_list step.ended)) }
{
    push_some(tokens, step.before)?;
    push_some(tokens, step.ended)
}

fn push_some(tokens: &mut Vec<Token>, token: Option<Token>) -> Result<(), AllocError>
    ensures { OnOk result (tokens.new.items ≡ tokens.old.items ++ option_to_list token) }
{
    if let Some(token) = token {
        tokens.push(token)?;
    }
    Ok(())
}

fn class_of(byte: u8) -> ByteClass
    ensures { result ≡ class_of byte }
{
    match byte {
        b' ' | b'\t' | b'\r' => ByteClass::Blank,
        b'\n' => ByteClass::LineEnd,
        b'#' => ByteClass::Hash,
        b'"' | b'\'' => ByteClass::Quote,
        b'[' | b']' | b'{' | b'}' | b'=' | b',' | b'.' => ByteClass::Mark,
        _ => ByteClass::Word,
    }
}

/// Reads the byte at this offset, in this state.
#[tactic(auto, unfolding(crate::specs::Tokens::step))]
fn step(state: OpenToken, offset: usize, byte: u8) -> ByteStep
    requires { offset < usize.MAX }
    ensures { result ≡ step state offset byte }
{
    match state {
        OpenToken::Nothing => begin(offset, byte),
        OpenToken::Comment => {
            if byte == b'\n' {
                begin(offset, byte)
            } else {
                continued(OpenToken::Comment)
            }
        }
        OpenToken::Word(start) => word_step(start, offset, byte),
        OpenToken::Line(string) => line_step(string, offset, byte),
        OpenToken::Lines(string) => lines_step(string, offset, byte),
    }
}

/// Reads a byte that does not continue an earlier token or comment. The byte can begin a new one.
fn begin(offset: usize, byte: u8) -> ByteStep
    requires { offset < usize.MAX }
    ensures { result ≡ begin offset byte }
{
    match class_of(byte) {
        ByteClass::Blank => continued(OpenToken::Nothing),
        ByteClass::LineEnd => ended(Kind::LineEnd, offset, offset),
        ByteClass::Hash => continued(OpenToken::Comment),
        ByteClass::Quote => continued(OpenToken::Line(string_at(offset, byte))),
        ByteClass::Mark => ended(Kind::Mark(byte), offset, offset + 1),
        ByteClass::Word => continued(OpenToken::Word(offset)),
    }
}

/// Reads the byte that follows an unfinished word, which began at `start`.
fn word_step(start: usize, offset: usize, byte: u8) -> ByteStep
    requires { offset < usize.MAX }
    ensures { result ≡ word_step start offset byte }
{
    match class_of(byte) {
        ByteClass::Word => continued(OpenToken::Word(start)),
        ByteClass::Blank
        | ByteClass::LineEnd
        | ByteClass::Hash
        | ByteClass::Quote
        | ByteClass::Mark => end(Kind::Word, start, offset, byte),
    }
}

/// Reads the next byte of a string. At first, each string is treated as a single-line string. If
/// its first three bytes are quotes, it becomes a multi-line string. A single-line string that is
/// not closed ends at the end of its line.
fn line_step(string: OpenString, offset: usize, byte: u8) -> ByteStep
    requires { offset < usize.MAX }
    ensures { result ≡ line_step string offset byte }
{
    if string.quotes == 1 {
        if byte == string.quote && offset.saturating_sub(string.start) == 2 {
            continued(OpenToken::Lines(string_at(string.start, string.quote)))
        } else {
            end(Kind::Quoted, string.start, offset, byte)
        }
    } else if byte == b'\n' {
        end(Kind::Quoted, string.start, offset, byte)
    } else {
        continued(OpenToken::Line(string_after(string, byte)))
    }
}

/// Reads the next byte of a multi-line string.
fn lines_step(string: OpenString, offset: usize, byte: u8) -> ByteStep
    requires { offset < usize.MAX }
    ensures { result ≡ lines_step string offset byte }
{
    let string = string_after(string, byte);
    if string.quotes == 3 {
        ended(Kind::Quoted, string.start, offset + 1)
    } else {
        continued(OpenToken::Lines(string))
    }
}

/// Ends the token that began at `start`, and reads `byte` as the first byte after it. `offset` is
/// the offset of this byte.
fn end(kind: Kind, start: usize, offset: usize, byte: u8) -> ByteStep
    requires { offset < usize.MAX }
    ensures { result ≡ end kind start offset byte }
{
    let next = begin(offset, byte);
    ByteStep {
        before: Some(Token {
            kind,
            start,
            end: offset,
        }),
        ended: next.ended,
        state: next.state,
    }
}

/// Returns the step of a byte that ends no token. `state` is the state after the byte.
fn continued(state: OpenToken) -> ByteStep
    ensures { result ≡ continued state }
{
    ByteStep {
        before: None,
        ended: None,
        state,
    }
}

/// Returns the step of the last byte of a token.
fn ended(kind: Kind, start: usize, end: usize) -> ByteStep
    ensures { result ≡ ended kind start end }
{
    ByteStep {
        before: None,
        ended: Some(Token { kind, start, end }),
        state: OpenToken::Nothing,
    }
}

fn string_at(start: usize, quote: u8) -> OpenString
    ensures { result ≡ string_at start quote }
{
    OpenString {
        start,
        quote,
        escaped: false,
        quotes: 0,
    }
}

/// Returns the state of the string after this byte.
fn string_after(string: OpenString, byte: u8) -> OpenString
    ensures { result ≡ string_after string byte }
{
    let is_quote = byte == string.quote && !string.escaped;
    OpenString {
        escaped: byte == b'\\' && string.quote == b'"' && !string.escaped,
        quotes: if is_quote {
            string.quotes.saturating_add(1)
        } else {
            0
        },
        ..string
    }
}
