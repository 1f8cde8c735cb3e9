//! The gate that the program uses. A gate is a hook. A search or a check calls the gate before each
//! pool, and the gate can stop the search or check. A run calls the gate from the run's threads to
//! do the declared work.

use cert_check::PoolGate;
use locked_runner::{Actor, Gate, GateFault};

/// A gate that does nothing. Before each pool, a search or a check asks the gate for permission to
/// continue. This gate always gives the permission. A run calls the gate to do the declared work.
/// With this gate, the work takes no time.
pub struct NoopGate;

impl PoolGate for NoopGate {
    fn begin(&self, _pool: usize) -> bool {
        true
    }
}

impl Gate for NoopGate {
    fn work(&self, _actor: Actor, _units: u32) -> Result<(), GateFault> {
        Ok(())
    }
}
