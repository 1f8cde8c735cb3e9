//! The parsing of unsigned integers in the lines of a text.

ghost use Rattle.std.specs.Prelude.{◌≡◌, ◌==◌, ◌&&◌, not, length, option_map};
ghost use Rattle.support.specs.LineNumber as spec;

/// The maximum of each number in event lines and in lines of recordings. The minimum is 0.
pub const MAX_LINE_NUMBER: usize = 1_000_000_000;

/// Returns the number that the text spells in decimal digits. Returns `None` if
///
/// - the text is empty or has a byte that is not a digit,
/// - the first of several digits is `0`, or
/// - the number is above [`MAX_LINE_NUMBER`].
pub fn number_of(text: &[u8]) -> Option<usize>
    ensures { result ≡ spec.number_of text.now }
{
    let (number, rest_after) = leading_number(text)?;
    if rest_after.is_empty() {
        Some(number)
    } else {
        None
    }
}

/// Parses the decimal number at the start of a text. Returns this number and the text after its
/// digits. Returns `None` if
///
/// - the text does not begin with a digit,
/// - the first of several digits is `0`, or
/// - the number is above [`MAX_LINE_NUMBER`].
pub fn leading_number(text: &[u8]) -> Option<(usize, &[u8])>
    ensures { option_map (λ found. (found.0, found.1.now)) result ≡ spec.leading_number text.now }
{
    let mut value = 0;
    let mut count = 0;
    while count < text.len() && text[count].is_ascii_digit() {
        value = value * 10 + usize::from(text[count] - b'0');
        if value > MAX_LINE_NUMBER {
            return None;
        }
        count += 1;
    }
    let (digits, rest_after) = text.split_at(count);
    if !begins_as_number(digits) {
        return None;
    }
    Some((value, rest_after))
}

fn begins_as_number(digits: &[u8]) -> bool
    ensures { result ≡ (not (length digits.now == 0) && not (spec.has_leading_zero digits.now)) }
{
    !digits.is_empty() && !has_leading_zero(digits)
}

fn has_leading_zero(text: &[u8]) -> bool
    ensures { result ≡ spec.has_leading_zero text.now }
{
    text.len() > 1 && text[0] == b'0'
}
