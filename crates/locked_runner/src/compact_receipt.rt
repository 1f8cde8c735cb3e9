//! The compact form of receipts. A receipt has an event of a run, and the number of the event in
//! the history.

ghost use Rattle.std.specs.Prelude.{◌≡◌, ◌<◌, ◌^◌, ◌↔◌, IfSome, IsSome};
ghost use Rattle.locked_runner.specs.CompactReceipt.{IsKeepable, event_of, number_in};

use held_machines::Receipt;
use interleaving::Event;
use std::marker::Model;

/// A receipt in 12 bytes. This is half the size of a [`Receipt`], because the numbers have 32 bits.
/// The receipts of a run are stored in this form.
#[derive(Drop)]
pub struct CompactReceipt {
    number: u32,
    kind: Kind,
    /// The number of the event's client, job or pool. `kind` says which of the three has this
    /// number.
    of: u32,
}

/// The kind of an event.
#[derive(Clone, Copy)]
enum Kind {
    Client,
    Job,
    Take,
    Retire,
}

impl Model for CompactReceipt {
    ghost use Rattle.held_machines.specs.declared.held.Receipt.{Receipt};
    ghost use Rattle.pool_machine.specs.declared.event.Event.{Event};
    ghost use Rattle.locked_runner.specs.CompactReceipt.{event_of};

    ghost Value = { Receipt Event };

    ghost view = { λ kept. record { number = kept.number; event = event_of kept.kind kept.of } };
}

impl CompactReceipt {
    /// Returns the compact form of a receipt, or `None` if a number of the receipt does not fit in
    /// 32 bits.
    pub fn new(receipt: Receipt<Event>) -> Option<CompactReceipt>
        ensures same { IfSome result (λ kept. kept ≡ receipt) }
        ensures keepable { IsSome result ↔ IsKeepable receipt }
    {
        let (kind, of) = parts(receipt.event);
        Some(CompactReceipt {
            number: u32::try_from(receipt.number).ok()?,
            kind,
            of: u32::try_from(of).ok()?,
        })
    }

    /// Returns the receipt in its full form.
    pub fn receipt(&self) -> Receipt<Event>
        ensures { result ≡ self.now }
    {
        Receipt {
            number: u64::from(self.number),
            event: event_of(self.kind, self.of as usize),
        }
    }
}

/// Returns the event's kind, and the number of its client, job or pool.
fn parts(event: Event) -> (Kind, usize)
    ensures event { event_of result.0 result.1 ≡ event }
    ensures number { number_in event ≡ result.1 }
{
    match event {
        Event::Client(client) => (Kind::Client, client),
        Event::Job(job) => (Kind::Job, job),
        Event::Take(pool) => (Kind::Take, pool),
        Event::Retire(pool) => (Kind::Retire, pool),
    }
}

fn event_of(kind: Kind, of: usize) -> Event
    ensures { result ≡ event_of kind of }
{
    match kind {
        Kind::Client => Event::Client(of),
        Kind::Job => Event::Job(of),
        Kind::Take => Event::Take(of),
        Kind::Retire => Event::Retire(of),
    }
}
