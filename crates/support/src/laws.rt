//! The proof that each fault has its documented number, as the contract of a function with an empty
//! body.

ghost use Rattle.support.specs.Number.{FaultNumbersAreStated};

/// Proves that each fault has its documented number.
pub fn fault_numbers_are_stated()
    ensures { FaultNumbersAreStated }
{}
