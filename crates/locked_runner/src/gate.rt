//! The interface to the code that does the work of a run's `work` actions.

/// A client or a job of a run.
#[derive(Clone, Copy)]
pub enum Actor {
    Client(usize),
    Job(usize),
}

/// The error that a [`Gate`] returns if the work failed.
#[derive(Clone, Copy)]
pub struct GateFault;

/// The code that does the work of a run's `work` actions. Many threads may call it at the same
/// time. A calling thread does not hold the lock of the plan's machine.
pub trait Gate: Sync {
    /// Performs `units` units of work for the actor.
    ///
    /// # Errors
    ///
    /// Returns `GateFault` if the work failed. The run then ends with fault 43, or with fault 20 if
    /// memory also runs out (see [`RunFault`](crate::RunFault)). Before the run ends, other threads
    /// may still call the gate.
    fn work(&self, actor: Actor, units: u32) -> Result<(), GateFault>;
}
