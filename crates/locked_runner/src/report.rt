//! The result of a run: a report, or the reason why the run is not complete.

ghost use Rattle.std.specs.Prelude.{◌≡◌};
ghost use Rattle.job_bodies.specs.Plan as spec;
ghost use Rattle.locked_runner.specs.Run.{IsLengthOfLegal, number_of};

use crate::CompactReceipt;
use interleaving::Event;
use std::marker::Model;
use support::number::{GATE, MEMORY};

/// The report of a run that was performed and checked.
#[derive(Drop)]
pub struct RunReport {
    /// The number of jobs that were submitted.
    pub jobs: u64,
    /// The units of work done by clients and jobs.
    pub units: u64,
    /// The number of refused submits. It is always 0, because the certificate accepts the plan.
    pub refused: u64,
    /// All events of the run, in the order in which they happened.
    pub history: Vec<Event>,
    /// A list of receipts for each thread of the run: first for each client, and then for each
    /// thread of each pool. Each list is in ascending order.
    pub receipts: Vec<Vec<CompactReceipt>>,
}

impl Model for RunReport {
    ghost use Rattle.std.specs.Prelude.{map};
    ghost use Rattle.locked_runner.specs.Report.{RunReport};

    ghost Value = { RunReport };

    ghost view = { λ r. record { jobs = r.jobs; units = r.units; refused = r.refused; history = r.history.items; receipts = map (λ list. list.items) r.receipts.items } };
}

/// The reason why a run is not complete. `events` is the length of a legal prefix of the history. A
/// prefix is legal if each of its events was possible. `number` is one of these fault numbers:
///
/// - 20: memory ran out, or a thread could not be started.
/// - 40: the run exceeds a limit, and no thread was started.
/// - 41: the number of lists of receipts is wrong, or a list is wrong. In a wrong list, the
///   receipts are not in ascending order, do not match the history, or belong to another client or
///   pool.
/// - 42: the history has an impossible event or is not complete. This is also the fault if the
///   number of jobs or of units differs from the computed number, or if an event does not have
///   exactly one receipt.
/// - 43: the gate failed.
#[derive(Clone, Copy, Debug, PartialEq, Eq)]
pub struct RunFault {
    pub number: u8,
    pub events: u64,
}

impl RunFault {
    /// Creates a fault with this number and a legal prefix of length 0.
    #[tactic(auto, using(crate::proofs::Histories::nothing_is_legal))]
    pub fn at_start(number: u8) -> RunFault
        ensures value { result ≡ record { number = number; events = 0 } }
        ensures legal { (plan : spec.Plan) → IsLengthOfLegal plan result.events }
    {
        RunFault { number, events: 0 }
    }
}

/// A fault that a thread of a run reports. All threads of the run then stop early.
#[derive(Clone, Copy, PartialEq, Eq)]
pub enum ThreadFault {
    /// Memory ran out, or a thread could not be started.
    Memory,
    /// A call of the [`Gate`](crate::Gate) returned an error.
    Gate,
}

impl ThreadFault {
    /// Returns the number that identifies this fault: [`MEMORY`] or [`GATE`].
    pub fn number(self) -> u8
        ensures { result ≡ number_of self }
    {
        match self {
            ThreadFault::Memory => MEMORY,
            ThreadFault::Gate => GATE,
        }
    }
}

/// The results of the threads of a run: the history, the receipts of each thread, and the reported
/// fault with the lowest number. `fault` is `None` if no thread reported a fault.
#[derive(Drop)]
pub struct ThreadResults {
    pub history: Vec<Event>,
    pub receipts: Vec<Vec<CompactReceipt>>,
    pub fault: Option<ThreadFault>,
}

impl Model for ThreadResults {
    ghost use Rattle.std.specs.Prelude.{map};
    ghost use Rattle.locked_runner.specs.Report.{ThreadResults};

    ghost Value = { ThreadResults };

    ghost view = { λ results. record { history = results.history.items; receipts = map (λ list. list.items) results.receipts.items; fault = results.fault } };
}
