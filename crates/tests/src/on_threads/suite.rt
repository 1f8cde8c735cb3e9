//! The suite of the commands that use threads.

use crate::files::Suite;
use std::alloc::{AllocError, Global};

/// A function that returns the answer to an input. Its arguments are an allocator, the kind of the
/// input, and the input.
pub type Answer = Box<dyn Fn(Global, &str, &[u8]) -> Result<String, AllocError> + Drop>;

/// A suite that calls a function to get each answer. The function can start threads, which the
/// method of a suite cannot do.
#[derive(Drop)]
pub struct OnThreads {
    answer: Answer,
    ghost callable: { IsAlwaysCallable answer },
}

impl OnThreads {
    pub fn new(answer: Answer) -> OnThreads
        requires { IsAlwaysCallable answer }
    {
        OnThreads { answer }
    }
}

impl Suite for OnThreads {
    fn answer(&self, alloc: Global, kind: &str, input: &[u8]) -> Result<String, AllocError> {
        (self.answer)(alloc, kind, input)
    }
}
