//! The outline of a text: the parts of its tables, in order. [`Places`](crate::Places) uses the
//! outline to find the parts of a plan. All offsets are in bytes.

ghost use Rattle.std.specs.Prelude.{◌≡◌, IfOk};
ghost use Rattle.plan_text.specs.Outline.{range_of, header_at, key_at, ended_header, value_part, part_at, line_after, after_begin, after_header, after_key, after_value, parts_of};

use crate::token::{Kind, Token};
use std::alloc::{AllocError, Global};

/// A range of a text, from the byte at `start` up to, but not including, the byte at `end`.
#[derive(Clone, Copy)]
pub(crate) struct Range {
    pub(crate) start: usize,
    pub(crate) end: usize,
}

/// A table header, such as `[[pool]]`.
#[derive(Clone, Copy)]
pub(crate) struct Header {
    /// The offset of the first bracket.
    pub(crate) start: usize,
    /// The range of the table's name.
    pub(crate) name: Range,
    /// Whether the header has double brackets.
    pub(crate) in_list: bool,
}

/// A part of a text. In an outline, the parts of a table follow its header, and the value of a key
/// follows the key. If the value is an array, the elements of the array follow the value.
#[derive(Clone, Copy)]
pub(crate) enum Part {
    Header(Header),
    Key(Range),
    /// The value of the key before this part. The field is the offset at which the value begins.
    Value(usize),
    /// An element of an array, or a key of an inline table. The field is the offset at which the
    /// element or key begins. If the array or inline table is empty or ends with a comma, its
    /// closing bracket counts as an element too.
    Element(usize),
}

/// The state of the outline parser: where in a line it is.
#[derive(Clone, Copy)]
enum LineState {
    /// At the start of a line.
    Begin,
    /// In a table header. The field has what was read of the header so far.
    Head(Header),
    /// After a key.
    Key,
    /// In a value, inside `depth` open brackets. If `is_next` is true, the next token begins the
    /// value or an element.
    Value { depth: usize, is_next: bool },
    /// In the rest of a line, which the parser skips: the end of a table header, or syntax that no
    /// plan uses.
    Rest,
}

/// Returns the parts of a text, given its tokens.
#[tactic(auto, unfolding(crate::specs::Outline::parts_of))]
pub(crate) fn parts_of(alloc: Global, tokens: &[Token]) -> Result<Vec<Part>, AllocError>
    ensures { IfOk result (λ parts. parts.items ≡ parts_of tokens.now) }
{
    let mut parts = Vec::new(alloc);
    let mut line = LineState::Begin;
    for token in tokens {
        if let Some(part) = part_at(line, *token) {
            parts.push(part)?;
        }
        line = line_after(line, *token);
    }
    Ok(parts)
}

/// Returns the part that begins at this token, or the header that ends at this token. Returns
/// `None` if there is neither. `line` is the state of the parser before the token.
#[tactic(auto, unfolding(crate::specs::Outline::part_at))]
fn part_at(line: LineState, token: Token) -> Option<Part>
    ensures { result ≡ part_at line token }
{
    match line {
        LineState::Begin => key_at(token),
        LineState::Head(header) => ended_header(header, token),
        LineState::Value { depth, is_next } => value_part(depth, is_next, token),
        LineState::Key | LineState::Rest => None,
    }
}

fn key_at(token: Token) -> Option<Part>
    ensures { result ≡ key_at token.kind token }
{
    match token.kind {
        Kind::Word | Kind::Quoted => Some(Part::Key(range_of(token))),
        Kind::Mark(_) | Kind::LineEnd => None,
    }
}

fn ended_header(header: Header, token: Token) -> Option<Part>
    ensures { result ≡ ended_header token.kind header }
{
    match token.kind {
        Kind::Mark(b'[') | Kind::Word | Kind::Quoted => None,
        Kind::Mark(_) | Kind::LineEnd => Some(Part::Header(header)),
    }
}

fn value_part(depth: usize, is_next: bool, token: Token) -> Option<Part>
    ensures { result ≡ value_part token.kind depth is_next token.start }
{
    if !is_next || matches!(token.kind, Kind::LineEnd) {
        return None;
    }
    match depth {
        0 => Some(Part::Value(token.start)),
        1 => Some(Part::Element(token.start)),
        _ => None,
    }
}

/// Returns the state of the parser after this token. `line` is the state before the token.
#[tactic(auto, unfolding(crate::specs::Outline::line_after))]
fn line_after(line: LineState, token: Token) -> LineState
    ensures { result ≡ line_after line token }
{
    match line {
        LineState::Begin => after_begin(token),
        LineState::Head(header) => after_header(header, token),
        LineState::Key => after_key(token),
        LineState::Value { depth, is_next } => after_value(depth, is_next, token),
        LineState::Rest => match token.kind {
            Kind::LineEnd => LineState::Begin,
            Kind::Mark(_) | Kind::Word | Kind::Quoted => LineState::Rest,
        },
    }
}

fn after_begin(token: Token) -> LineState
    ensures { result ≡ after_begin token }
{
    match token.kind {
        Kind::LineEnd => LineState::Begin,
        Kind::Mark(b'[') => LineState::Head(header_at(token.start)),
        Kind::Mark(_) => LineState::Rest,
        Kind::Word | Kind::Quoted => LineState::Key,
    }
}

fn after_header(header: Header, token: Token) -> LineState
    ensures { result ≡ after_header header token }
{
    match token.kind {
        Kind::LineEnd => LineState::Begin,
        Kind::Mark(b'[') => LineState::Head(Header {
            in_list: true,
            ..header
        }),
        Kind::Mark(_) => LineState::Rest,
        Kind::Word | Kind::Quoted => LineState::Head(Header {
            name: range_of(token),
            ..header
        }),
    }
}

fn after_key(token: Token) -> LineState
    ensures { result ≡ after_key token }
{
    match token.kind {
        Kind::Mark(b'=') => LineState::Value {
            depth: 0,
            is_next: true,
        },
        Kind::LineEnd => LineState::Begin,
        Kind::Mark(_) | Kind::Word | Kind::Quoted => LineState::Rest,
    }
}

fn after_value(depth: usize, is_next: bool, token: Token) -> LineState
    ensures { result ≡ after_value depth is_next token }
{
    match token.kind {
        Kind::LineEnd if depth == 0 => LineState::Begin,
        Kind::LineEnd => LineState::Value { depth, is_next },
        Kind::Mark(b'[' | b'{') => LineState::Value {
            depth: depth.saturating_add(1),
            is_next: true,
        },
        Kind::Mark(b']' | b'}') => LineState::Value {
            depth: depth.saturating_sub(1),
            is_next: false,
        },
        Kind::Mark(b',') => LineState::Value {
            depth,
            is_next: true,
        },
        Kind::Mark(_) | Kind::Word | Kind::Quoted => LineState::Value {
            depth,
            is_next: false,
        },
    }
}

fn header_at(start: usize) -> Header
    ensures { result ≡ header_at start }
{
    Header {
        start,
        name: Range { start, end: start },
        in_list: false,
    }
}

fn range_of(token: Token) -> Range
    ensures { result ≡ range_of token }
{
    Range {
        start: token.start,
        end: token.end,
    }
}
