//! Sets of job numbers.

ghost use Rattle.std.specs.Prelude.{◌≡◌, ◌<◌, ◌-◌, length, not, take, slice_index};
ghost use Rattle.pool_machine.specs.Waiting.{is_member};

use std::marker::Model;

/// A set of job numbers, given as a list that may contain duplicates. If the list is sorted, a
/// look-up is a binary search, and otherwise a scan.
#[derive(Drop)]
pub(crate) struct Members<'a> {
    numbers: &'a [usize],
    // Whether the list is sorted in ascending order.
    rise: bool,
}

impl<'a> Model for Members<'a> {
    ghost use Rattle.std.specs.Prelude.{◌≡◌, ℕ, List, true};
    ghost use Rattle.std.specs.List.Sorted.{IsNonDecreasing};

    ghost Value = { List ℕ };

    ghost view = { λ m. m.numbers.now };

    ghost invariant = { λ m. m.rise ≡ true → IsNonDecreasing m.numbers.now };
}

impl<'a> Members<'a> {
    pub(crate) fn new(numbers: &'a [usize]) -> Members<'a>
        ensures { result ≡ numbers.now }
    {
        Members {
            numbers,
            rise: numbers.is_sorted(),
        }
    }

    pub(crate) fn numbers(&self) -> &'a [usize]
        ensures { result.now ≡ self.now }
    {
        self.numbers
    }

    pub(crate) fn contains(&self, number: usize) -> bool
        ensures { result ≡ is_member self.now number }
    {
        if self.rise {
            self.numbers.binary_search(&number).is_ok()
        } else {
            is_among(self.numbers, number)
        }
    }

    /// Returns `true` if the number at index `place` of the list does not occur at a lower index.
    pub(crate) fn is_first(&self, place: usize) -> bool
        requires { place < length self.now }
        ensures { result ≡ not (is_member (take place self.now) (slice_index self.now place)) }
    {
        let numbers = self.numbers();
        if self.rise {
            place == 0 || numbers[place - 1] < numbers[place]
        } else {
            !is_among(&numbers[..place], numbers[place])
        }
    }
}

fn is_among(numbers: &[usize], number: usize) -> bool
    ensures { result ≡ is_member numbers.now number }
{
    numbers.iter().any(|&member| member == number)
}
