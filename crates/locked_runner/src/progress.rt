//! The progress of a run.

use crate::ThreadFault;

/// The progress of a run: the number of clients that have not finished, whether the run stops
/// early, and the fault that a thread reported.
#[derive(Drop)]
pub(crate) struct Progress {
    /// The number of clients that have an event left.
    clients_left: usize,
    /// Whether the threads must stop early, before the run is complete.
    is_over: bool,
    /// The reported fault with the lowest number, if any.
    fault: Option<ThreadFault>,
}

impl Progress {
    /// Creates the progress of a run with `clients` clients, before its first event.
    pub(crate) fn new(clients: usize) -> Progress {
        Progress {
            clients_left: clients,
            is_over: false,
            fault: None,
        }
    }

    /// Returns `true` if no client has an event left.
    pub(crate) fn clients_are_complete(&self) -> bool {
        self.clients_left == 0
    }

    /// Returns `true` if the threads must stop early, before the run is complete.
    pub(crate) fn is_over(&self) -> bool {
        self.is_over
    }

    /// Records that a client has no event left.
    pub(crate) fn client_done(&mut self) {
        self.clients_left = self.clients_left.saturating_sub(1);
    }

    /// Stops the run early, before it is complete, and stores no fault. The check of the results
    /// later finds that the run is not complete.
    pub(crate) fn end(&mut self) {
        self.is_over = true;
    }

    /// Stops the run. Stores the fault, unless a fault with a lower number is already stored.
    pub(crate) fn note(&mut self, cause: ThreadFault) {
        self.end();
        if self.fault != Some(ThreadFault::Memory) {
            self.fault = Some(cause);
        }
    }

    /// Returns the reported fault with the lowest number, if any.
    pub(crate) fn fault(&self) -> Option<ThreadFault> {
        self.fault
    }
}
