//! A function that reads the elements of a list in order.

ghost use Rattle.std.specs.Prelude.{◌≡◌};
ghost use Rattle.std.specs.Borrow.{Bor};
ghost use Rattle.support.specs.Each.{IsReadOfEach};

use crate::ReadError;
use std::alloc::Global;

/// Calls `read` for each element in order, with the index of the element and a reference to it.
/// Returns the list of the results.
///
/// # Errors
///
/// Stops at the first call that fails, and returns the error of that call. Also returns an error if
/// memory runs out.
pub fn read_each<'a, X, Y: Drop, F, R>(
    alloc: Global,
    elements: &'a [X],
    read: R,
) -> Result<Vec<Y>, ReadError<F>>
where
    R: Fn(usize, &'a X) -> Result<Y, ReadError<F>>,
    requires { R.IsAlwaysCallable read }
    ensures { IsReadOfEach
        (λ place x given. (element : Bor X) × (element.now ≡ x) × R.post read place element given)
        elements.now result }
{
    let mut given = Vec::new(alloc);
    for (place, element) in elements.iter().enumerate() {
        let one = read(place, element)?;
        given.push(one)?;
    }
    Ok(given)
}
