//! The writing of numbers in decimal digits. A general formatter would take about thirty more
//! instructions for each number, because it supports any value and padding.

ghost use Rattle.std.specs.Prelude.{◌≡◌, OnErr, string_bytes, decimal};
ghost use Rattle.support.specs.Pushed.{Pushes};

use itoa::Buffer;
use std::alloc::AllocError;

/// Appends the number in decimal digits.
///
/// # Errors
///
/// Returns [`AllocError`] if memory runs out. The text is then unchanged.
#[inline(always)]
#[tactic(auto, using(std::proofs::lemmas::Fmt::decimal_digit))]
pub fn push_number(text: &mut String, number: u64) -> Result<(), AllocError>
    ensures digits { Pushes result text.old text.new (decimal number) }
    ensures unchanged { OnErr result (string_bytes text.new ≡ string_bytes text.old) }
{
    // Most numbers have one digit.
    if number < 10 {
        return text.push((b'0' + number as u8) as char);
    }
    let mut digits = Buffer::new();
    text.push_str(digits.format(number))
}
