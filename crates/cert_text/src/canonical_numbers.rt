//! Parsers of numbers in canonical form at the start of a text.

ghost use Rattle.std.specs.Prelude.{◌≡◌, ◌<◌, ◌+◌, ◌∷◌, ◌++◌, [], length, nat_lt, decimal, IfOk, IfSome, IsTrue, vec_len, vec_capacity};
ghost use Rattle.std.specs.List.{list_all};
ghost use Rattle.serde_json.specs.Written.{comma_if};
ghost use Rattle.weights.specs.Vector.{is_small};
ghost use Rattle.cert_text.specs.CertText.{numbers_data};
ghost use Rattle.cert_text.specs.Canonical.{BeginsAs};

use job_bodies::MAX_WEIGHT;
use std::alloc::Global;
use support::ReadError;

/// The fault of a text that is not in canonical form, which is the form that
/// [`write_cert`](crate::write_cert) writes. The fault does not store the reason.
#[derive(Clone, Copy)]
pub struct NonCanonical;

/// The error of a parser of canonical form: out of memory, or a text that is not in canonical form.
pub type CanonicalError = ReadError<NonCanonical>;

/// Returns the rest of the text after the prefix, or an error if the text does not begin with the
/// prefix.
pub fn strip_bytes<'a>(text: &'a [u8], prefix: &[u8]) -> Result<&'a [u8], CanonicalError>
    ensures { IfOk result (λ rest. text.now ≡ prefix.now ++ rest.now) }
{
    match text.strip_prefix(prefix) {
        Some(rest) => Ok(rest),
        None => Err(ReadError::Fault(NonCanonical)),
    }
}

/// Returns the rest of the text after its first byte, or an error if the first byte is not `byte`.
#[inline(always)]
pub fn strip_byte(text: &[u8], byte: u8) -> Result<&[u8], CanonicalError>
    ensures { IfOk result (λ rest. text.now ≡ byte ∷ rest.now) }
{
    match text.split_first() {
        Some((first, rest)) if *first == byte => Ok(rest),
        _ => Err(ReadError::Fault(NonCanonical)),
    }
}

/// Strips the comma before the list element at index `place`, and returns the rest of the text. If
/// `place` is 0, returns the whole text, because no comma precedes the first element. If `place` is
/// above 0 and the text does not begin with a comma, returns an error.
#[inline(always)]
pub fn strip_comma(text: &[u8], place: usize) -> Result<&[u8], CanonicalError>
    ensures { IfOk result (λ rest. text.now ≡ comma_if (nat_lt 0 place) ++ rest.now) }
{
    if place == 0 {
        Ok(text)
    } else {
        strip_byte(text, b',')
    }
}

/// Creates an empty list with room for `count` elements. Returns an error if the text has fewer
/// than `count` bytes, so that a short text never causes a large allocation.
pub fn list_with_capacity<T>(
    alloc: Global,
    count: usize,
    text: &[u8],
) -> Result<Vec<T>, CanonicalError>
    ensures items { IfOk result (λ list. list.items ≡ []) }
    ensures len { IfOk result (λ list. vec_len list ≡ 0) }
    ensures capacity { IfOk result (λ list. vec_capacity list ≡ count) }
{
    if text.len() < count {
        return Err(ReadError::Fault(NonCanonical));
    }
    Ok(Vec::with_capacity(alloc, count)?)
}

#[inline(always)]
fn parse_digit(text: &[u8]) -> Option<(u64, &[u8])>
    ensures digit { IfSome result (λ read. read.0 < 10) }
    ensures text { IfSome result (λ read. text.now ≡ (48 + read.0) ∷ read.1.now) }
{
    match text.split_first() {
        Some((first, rest)) if first.is_ascii_digit() => Some((u64::from(*first - b'0'), rest)),
        _ => None,
    }
}

/// Parses the number at the start of a text, and returns the number and the rest of the text. A
/// number that begins with `0` ends after this digit.
///
/// # Errors
///
/// Returns an error if the text does not begin with a digit, or if the number is above
/// [`MAX_WEIGHT`].
#[inline(always)]
fn parse_number(text: &[u8]) -> Result<(u64, &[u8]), CanonicalError>
    ensures text { IfOk result (λ read. text.now ≡ decimal read.0 ++ read.1.now) }
    ensures small { IfOk result (λ read. IsTrue (is_small read.0)) }
{
    let Some((first, remaining)) = parse_digit(text) else {
        return Err(ReadError::Fault(NonCanonical));
    };
    if first == 0 {
        return Ok((0, remaining));
    }
    let mut value = first;
    let mut rest = remaining;
    'digits: while let Some((digit, remaining)) = parse_digit(rest) {
        value = value * 10 + digit;
        if value > MAX_WEIGHT {
            return Err(ReadError::Fault(NonCanonical));
        }
        rest = remaining;
    }
    Ok((value, rest))
}

/// Parses the list of `count` numbers at the start of a text, and returns the numbers and the rest
/// of the text.
pub fn parse_numbers(
    alloc: Global,
    count: usize,
    text: &[u8],
) -> Result<(Vec<u64>, &[u8]), CanonicalError>
    ensures text { IfOk result (λ read. BeginsAs text.now (numbers_data read.0.items) read.1.now) }
    ensures count { IfOk result (λ read. length read.0.items ≡ count) }
    ensures small { IfOk result (λ read. IsTrue (list_all is_small read.0.items)) }
{
    let mut numbers = list_with_capacity(alloc, count, text)?;
    let mut rest = strip_byte(text, b'[')?;
    for place in 0..count {
        let element = strip_comma(rest, place)?;
        let (number, remaining) = parse_number(element)?;
        numbers.push_reserved(number);
        rest = remaining;
    }
    Ok((numbers, strip_byte(rest, b']')?))
}
