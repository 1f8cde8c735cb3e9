//! The error of a learning step.

ghost use Rattle.std.specs.Prelude.{◌≡◌};

use crate::inference_limit::InferenceLimit;
use std::alloc::AllocError;

/// The error of a learning step: out of memory, or the reason why no plan can be learned.
#[derive(Drop)]
pub(crate) enum LearnError {
    Memory(AllocError),
    InferenceLimit(InferenceLimit),
}

impl From<AllocError> for LearnError {
    ghost use Rattle.learning.specs.declared.learn_error.LearnError.TheVariants.{Memory};

    ghost from_gives = { λ error learn_error. learn_error ≡ Memory error };

    fn from(error: AllocError) -> LearnError {
        LearnError::Memory(error)
    }
}
