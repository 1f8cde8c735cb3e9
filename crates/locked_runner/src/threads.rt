//! The work of each thread of a run.

use crate::shared::SharedState;
use crate::{Actor, CompactReceipt, Gate, ThreadFault};
use held_machines::Receipt;
use interleaving::Event;
use job_bodies::{Action, Client};
use std::alloc::{AllocError, Global};
use std::sync::Wait;

/// The initial capacity of a list of receipts: 16,384 receipts, which take 192 KiB of memory.
///
/// The C library allocates blocks of this size with `mmap`, so a page uses memory only after it is
/// written. A list that does not exceed this capacity is never moved and leaves no gaps in the
/// heap.
const FIRST_ROOM: usize = 16_384;

/// The state of one thread of a run, with the receipts of the events that it performed.
#[derive(Drop)]
pub(crate) struct Runner<'a, 'b, R, G> {
    pub(crate) rt: &'b R,
    pub(crate) shared: &'b SharedState<'a>,
    pub(crate) gate: &'b G,
    pub(crate) receipts: Vec<CompactReceipt>,
}

impl<'a, 'b, R: Wait, G: Gate> Runner<'a, 'b, R, G> {
    /// Creates the state of a thread before its first event.
    ///
    /// # Errors
    ///
    /// Returns `AllocError` if there is not enough memory for its first receipts.
    pub(crate) fn new(
        alloc: Global,
        rt: &'b R,
        shared: &'b SharedState<'a>,
        gate: &'b G,
    ) -> Result<Runner<'a, 'b, R, G>, AllocError> {
        Ok(Runner {
            rt,
            shared,
            gate,
            receipts: Vec::with_capacity(alloc, FIRST_ROOM)?,
        })
    }

    /// Runs the thread of the client with this number. The thread performs the client's body
    /// `rounds` times, unless the run stops early. `client` is the client's kind. Returns the
    /// receipts of the thread.
    pub(crate) fn run_client(
        mut self,
        client: &Client,
        number: usize,
        rounds: u64,
    ) -> Vec<CompactReceipt> {
        for round in 0..rounds {
            if !self.perform_body(&client.body, Actor::Client(number)) {
                return self.receipts;
            }
            if round + 1 < rounds && !self.act(Event::Client(number)) {
                return self.receipts;
            }
        }
        self.shared.leave(self.rt);
        self.receipts
    }

    /// Runs a worker thread of a pool. The thread performs jobs of the pool, one at a time, until
    /// the run is complete or stops early. Returns the receipts of the thread.
    pub(crate) fn run_worker(mut self, pool: usize) -> Vec<CompactReceipt> {
        for _ in self.rt.forever() {
            let Some(work) = self.shared.next_job(self.rt, pool) else {
                break;
            };
            if let Some(taken) = work.taken {
                if !self.note(taken) {
                    break;
                }
            }
            if !self.run_job(work.job, work.class) {
                break;
            }
        }
        self.receipts
    }

    /// Performs all events of a job of this class, from its first action to its end. Returns
    /// `false` if the thread must stop.
    fn run_job(&mut self, job: usize, class: usize) -> bool {
        let Some(class) = self.shared.plan.class_at(class) else {
            self.shared.end(self.rt);
            return false;
        };
        self.perform_body(&class.body, Actor::Job(job)) && self.act(Event::Job(job))
    }

    /// Performs the actions of a body. Calls the gate before the event of each `work` action, and
    /// stops the run if the gate fails. Returns `false` if the thread must stop.
    fn perform_body(&mut self, body: &[Action], actor: Actor) -> bool {
        for action in body {
            if let Action::Work(units) = action {
                if self.gate.work(actor, *units).is_err() {
                    self.shared.fail(self.rt, ThreadFault::Gate);
                    return false;
                }
            }
            if !self.act(event_of(actor)) {
                return false;
            }
        }
        true
    }

    /// Waits until the event is possible, performs it and records its receipt. Returns `false` if
    /// the thread must stop.
    fn act(&mut self, event: Event) -> bool {
        match self.shared.act(self.rt, event) {
            Some(receipt) => self.note(receipt),
            None => false,
        }
    }

    /// Records the receipt. Stops the run and returns `false` if there is not enough memory, or if
    /// a number of the receipt does not fit in 32 bits.
    fn note(&mut self, receipt: Receipt<Event>) -> bool {
        let Some(kept) = CompactReceipt::new(receipt) else {
            self.shared.end(self.rt);
            return false;
        };
        let noted = self.receipts.push(kept).is_ok();
        if !noted {
            self.shared.fail(self.rt, ThreadFault::Memory);
        }
        noted
    }
}

/// Returns the event in which the actor performs its next action.
fn event_of(actor: Actor) -> Event {
    match actor {
        Actor::Client(number) => Event::Client(number),
        Actor::Job(number) => Event::Job(number),
    }
}
