//! The clients that act in a list of events.

ghost use Rattle.std.specs.Prelude.{◌≡◌, IfOk};
ghost use Rattle.report.specs.Description as spec;

use interleaving::Event;
use std::alloc::{AllocError, Global};

/// Returns the number of different clients that act in the events.
///
/// # Errors
///
/// Returns [`AllocError`] if memory runs out.
pub(crate) fn active_client_count(alloc: Global, events: &[Event]) -> Result<usize, AllocError>
    ensures { IfOk result (spec.IsActiveClientCount events.now) }
{
    let mut clients = active_clients(alloc, events)?;
    clients.sort_unstable();
    clients.dedup();
    Ok(clients.len())
}

/// Returns the numbers of the clients that act in the events, in the order of the events. Skips
/// events in which no client acts. A client that acts several times occurs several times.
fn active_clients(alloc: Global, mut events: &[Event]) -> Result<Vec<usize>, AllocError>
    ensures { IfOk result (λ clients. clients.items ≡ spec.active_clients events.now) }
{
    let mut clients = Vec::new(alloc);
    while let Some((event, rest)) = events.split_first() {
        if let Event::Client(client) = *event {
            clients.push(client)?;
        }
        events = rest;
    }
    Ok(clients)
}
