//! Functions that read and write an element of a list without panics.

ghost use Rattle.std.specs.Prelude.{◌≡◌, length};

/// Returns the number at index `place`, or 0 if the list has no such index.
pub(crate) fn number_at(numbers: &[u64], place: usize) -> u64 {
    numbers.get(place).copied().unwrap_or(0)
}

/// Sets the number at index `place`. Does nothing if the list has no such index.
pub(crate) fn put_at(numbers: &mut [u64], place: usize, number: u64)
    ensures { length numbers.new ≡ length numbers.old }
{
    if place < numbers.len() {
        numbers[place] = number;
    }
}
