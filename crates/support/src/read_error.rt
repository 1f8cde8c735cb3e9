//! The error of a reading function.

ghost use Rattle.std.specs.Prelude.{◌≡◌};
ghost use Rattle.support.specs.declared.read_error.ReadError.TheVariants.{Memory};

use std::alloc::{AllocError, AllocFailed};

/// The error of a function that reads an input: out of memory, or the first fault of the input.
#[derive(Drop)]
pub enum ReadError<F> {
    /// Out of memory.
    Memory,
    /// The first fault of the input.
    Fault(F),
}

impl<F> From<AllocError> for ReadError<F> {
    ghost from_gives = { λ _ e. e ≡ Memory };

    fn from(_e: AllocError) -> ReadError<F> {
        ReadError::Memory
    }
}

impl<F, T: Drop> From<AllocFailed<T>> for ReadError<F> {
    ghost from_gives = { λ _ e. e ≡ Memory };

    fn from(_e: AllocFailed<T>) -> ReadError<F> {
        ReadError::Memory
    }
}
