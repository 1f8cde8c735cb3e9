//! The check that numbers are in ascending order, without duplicates.

ghost use Rattle.std.specs.Prelude.{◌≡◌};
ghost use Rattle.counterexample.specs.Rising.{are_rising, rise_above};

/// Returns `true` if each number is greater than the number before it.
pub(crate) fn are_rising(numbers: &[usize]) -> bool
    ensures { result ≡ are_rising numbers.now }
{
    match numbers.split_first() {
        Some((first, rest)) => rise_above(*first, rest),
        None => true,
    }
}

/// Returns `true` if the first of the numbers is greater than `last`, and each other number is
/// greater than the number before it.
fn rise_above(mut last: usize, mut numbers: &[usize]) -> bool
    ensures { result ≡ rise_above last numbers.now }
{
    while let Some((first, rest)) = numbers.split_first() {
        if *first <= last {
            return false;
        }
        last = *first;
        numbers = rest;
    }
    true
}
