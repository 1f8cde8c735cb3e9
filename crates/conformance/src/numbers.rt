//! A test for empty slices of numbers.

ghost use Rattle.std.specs.Prelude.{◌≡◌};
ghost use Rattle.conformance.specs.Verdicts.{is_empty};

pub(crate) fn is_empty_slice(numbers: &[usize]) -> bool
    ensures { result ≡ is_empty numbers.now }
{
    numbers.is_empty()
}
