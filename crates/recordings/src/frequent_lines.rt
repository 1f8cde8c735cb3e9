//! A fast parser for the most frequent kinds of lines: the `begin` lines of rounds, the `start`
//! lines of jobs, and the `submit`, `got` and `end` lines of both.
//!
//! The parser reads a line from left to right, without a search for its newline. It returns `None`
//! for a line that it does not parse, and the caller then tries the parser in `line_forms`. The
//! parser does not parse these lines:
//!
//! - Bad lines.
//! - Lines of other kinds.
//! - Lines without a newline.
//! - Lines with a number that is 0 or above 999,999,999.

ghost use Rattle.std.specs.Prelude.{◌≡◌, ◌≤◌, ◌<◌, ◌+◌, ◌++◌, ◌∷◌, true, length, take, codes, decimal, Some, IfSome};
ghost use Rattle.std.specs.List.{list_all};
ghost use Rattle.job_bodies.specs.WellFormed.{is_name_byte, is_valid_name};
ghost use Rattle.support.specs.LineNumber.{is_valid_number};
ghost use Rattle.recordings.specs.RecordingLine.{line_view, lines_read};
ghost use Rattle.recordings.specs.LineText.{after_actor, is_valid_actor};
ghost use Rattle.recordings.specs.declared.recording_line.RecordedActor.TheVariants.{Job, Round};

use crate::recording_line::{Line, RecordedActor};
use job_bodies::MAX_NAME_BYTES;

/// The maximum number of digits in a number that this parser reads. A number of at most 9 digits is
/// below `MAX_LINE_NUMBER`, so no such number is too large for a line.
const MOST_DIGITS: usize = 9;

/// Parses the first line of a text if it has one of the frequent forms. Returns the line and the
/// text after its newline.
#[inline(always)]
pub(crate) fn split_frequent_line(text: &[u8]) -> Option<(Line<'_>, &[u8])>
    ensures { IfSome result
        (λ read. lines_read text.now ≡ Some (line_view read.0) ∷ lines_read read.1.now) }
{
    match text {
        [b'j', b'o', b'b', b' ', words @ ..] => {
            let (job, words) = split_number(words, b' ')?;
            split_job_line(job, words)
        }
        [b'r', b'o', b'u', b'n', b'd', b' ', words @ ..] => {
            let (round, words) = split_number(words, b' ')?;
            split_round_line(round, words)
        }
        _ => None,
    }
}

/// Parses a line that begins with `job N`. `job` is the number N, and `words` is the text after it.
/// Returns the line and the text after its newline, or `None` if the line has no frequent form.
#[inline(always)]
fn split_job_line(job: usize, words: &[u8]) -> Option<(Line<'_>, &[u8])>
    requires { is_valid_number job ≡ true }
    ensures { IfSome result (λ read.
        lines_read (after_actor (Job job) words.now)
        ≡ Some (line_view read.0) ∷ lines_read read.1.now) }
{
    if let [b's', b't', b'a', b'r', b't', b'\n', after @ ..] = words {
        return Some((Line::JobStarts { job }, after));
    }
    if let [b'e', b'n', b'd', b'\n', after @ ..] = words {
        return Some((Line::JobEnds { job }, after));
    }
    split_action(RecordedActor::Job(job), words)
}

/// Parses a line that begins with `round N`. `round` is the number N, and `words` is the text after
/// it. Returns the line and the text after its newline, or `None` if the line has no frequent form.
#[inline(always)]
fn split_round_line(round: usize, words: &[u8]) -> Option<(Line<'_>, &[u8])>
    requires { is_valid_number round ≡ true }
    ensures { IfSome result (λ read.
        lines_read (after_actor (Round round) words.now)
        ≡ Some (line_view read.0) ∷ lines_read read.1.now) }
{
    if let [b'b', b'e', b'g', b'i', b'n', b' ', kind @ ..] = words {
        let (kind, after) = split_name(kind, b'\n')?;
        return Some((Line::RoundBegins { round, kind }, after));
    }
    if let [b'e', b'n', b'd', b'\n', after @ ..] = words {
        return Some((Line::RoundEnds { round }, after));
    }
    split_action(RecordedActor::Round(round), words)
}

/// Parses the part of a line after the actor: `got J` or `submit J CLASS POOL`. Returns the line
/// and the text after its newline.
#[inline(always)]
fn split_action(actor: RecordedActor, words: &[u8]) -> Option<(Line<'_>, &[u8])>
    requires { is_valid_actor actor ≡ true }
    ensures { IfSome result (λ read.
        lines_read (after_actor actor words.now)
        ≡ Some (line_view read.0) ∷ lines_read read.1.now) }
{
    if let [b'g', b'o', b't', b' ', job @ ..] = words {
        let (job, after) = split_number(job, b'\n')?;
        return Some((Line::Got { actor, job }, after));
    }
    let [b's', b'u', b'b', b'm', b'i', b't', b' ', words @ ..] = words else {
        return None;
    };
    split_submit(actor, words)
}

/// Parses the part of a line after `submit`: `J CLASS POOL`. Returns the line and the text after
/// its newline.
#[inline(always)]
fn split_submit(actor: RecordedActor, words: &[u8]) -> Option<(Line<'_>, &[u8])>
    requires { is_valid_actor actor ≡ true }
    ensures { IfSome result (λ read.
        lines_read (after_actor actor (codes "submit" ++ 32 ∷ words.now))
        ≡ Some (line_view read.0) ∷ lines_read read.1.now) }
{
    let (job, words) = split_number(words, b' ')?;
    let (class, words) = split_name(words, b' ')?;
    let (pool, after) = split_name(words, b'\n')?;
    let line = Line::Submits {
        actor,
        job,
        class,
        pool,
    };
    Some((line, after))
}

/// Parses a number at the start of the text. The byte `end` must come directly after it. Returns
/// the number and the text after this byte.
#[inline(always)]
fn split_number(text: &[u8], end: u8) -> Option<(usize, &[u8])>
    ensures { IfSome result (λ read.
        (is_valid_number read.0 ≡ true) × (text.now ≡ decimal read.0 ++ end ∷ read.1.now)) }
{
    let [first @ b'1'..=b'9', ..] = text else {
        return None;
    };
    let most = text.len().min(MOST_DIGITS);
    let mut number = digit_of(*first);
    let mut count = 1;
    while count < most {
        let digit = digit_of(text[count]);
        if digit > 9 {
            break;
        }
        number = number * 10 + digit;
        count += 1;
    }
    Some((number, strip_byte(&text[count..], end)?))
}

/// Returns the value of a digit, or a value above 9 for any other byte.
#[inline(always)]
fn digit_of(byte: u8) -> usize
    ensures digit { 48 ≤ byte → result + 48 ≡ byte }
    ensures other { byte < 48 → 9 < result }
{
    usize::from(byte).wrapping_sub(usize::from(b'0'))
}

/// Parses a name at the start of the text. The byte `end` must come directly after it. Returns the
/// name and the text after this byte.
#[inline(always)]
fn split_name(text: &[u8], end: u8) -> Option<(&str, &[u8])>
    ensures { IfSome result
        (λ read. (is_valid_name read.0.now ≡ true) × (text.now ≡ read.0.now ++ end ∷ read.1.now)) }
{
    let (name, after) = text.split_at(count_name_bytes(text));
    let [b'a'..=b'z', ..] = name else {
        return None;
    };
    if name.len() > MAX_NAME_BYTES {
        return None;
    }
    Some((name_text(name), strip_byte(after, end)?))
}

/// Returns the length of the longest prefix that consists of name bytes: `a` to `z`, `0` to `9` and
/// `_`.
#[inline(always)]
fn count_name_bytes(text: &[u8]) -> usize
    ensures inside { result ≤ length text.now }
    ensures names { list_all is_name_byte (take result text.now) ≡ true }
{
    let mut count = 0;
    while count < text.len() && is_name_byte(text[count]) {
        count += 1;
    }
    count
}

#[inline(always)]
fn is_name_byte(byte: u8) -> bool
    ensures { result ≡ is_name_byte byte }
{
    byte.is_ascii_lowercase() || byte.is_ascii_digit() || byte == b'_'
}

/// Converts the bytes of a name to a string. Does not check that they are UTF-8, because the bytes
/// of a name are ASCII.
#[inline(always)]
fn name_text(name: &[u8]) -> &str
    requires { list_all is_name_byte name.now ≡ true }
    ensures { result.now ≡ name.now }
{
    unsafe { std::str::from_utf8_unchecked(name) }
}

/// Strips the first byte if it is `byte`, and returns the rest. Otherwise returns `None`.
#[inline(always)]
fn strip_byte(text: &[u8], byte: u8) -> Option<&[u8]>
    ensures { IfSome result (λ after. text.now ≡ byte ∷ after.now) }
{
    match text {
        [first, after @ ..] if *first == byte => Some(after),
        _ => None,
    }
}
