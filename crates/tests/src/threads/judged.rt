//! Tests of the call that checks the results of a run. The histories and receipts in these results
//! are written by hand, and no run returns them.

use crate::threads::plans::certified;
use held_machines::Receipt;
use interleaving::Event;
use locked_runner::{
    CompactReceipt, RunFault, RunNumbers, RunReport, ThreadFault, ThreadResults, check_run,
};
use std::alloc::{AllocError, Global};
use std::process::Abort;
use std::sync::Wait;
use std::test::Fail;
use std::thread::Threads;

// A plan with a client that submits a job and waits for it.
const ONE_CLIENT: &str = "
    pool = [{ name = 'p', core = 1, max = 1, queue = 1 }]
    class = [{ name = 'a', pool = 'p', body = ['work 1'] }]
    client = [{ name = 'c', count = 1, body = ['submit a as x', 'get x'] }]
";

// A whole run: the client's submit, which starts job 0; the job's work and its end; the client's
// get.
const WHOLE: &[Event] = &[
    Event::Client(0),
    Event::Job(0),
    Event::Job(0),
    Event::Client(0),
];

const NUMBERS: RunNumbers = RunNumbers {
    jobs: 1,
    units: 1,
    events: 6,
};

// Returns the receipts with these numbers, which are below 2 to the 32, and these events.
fn receipts(alloc: Global, list: &[(u64, Event)]) -> Result<Vec<CompactReceipt>, AllocError> {
    let mut receipts = Vec::new(alloc);
    for (number, event) in list {
        let receipt = Receipt {
            number: *number,
            event: *event,
        };
        if let Some(kept) = CompactReceipt::new(receipt) {
            receipts.push(kept)?;
        }
    }
    Ok(receipts)
}

// Builds the results of the threads of a run: a client's thread and a worker thread of a pool.
fn thread_results(
    alloc: Global,
    history: &[Event],
    client: &[(u64, Event)],
    carrier: &[(u64, Event)],
    fault: Option<ThreadFault>,
) -> Result<ThreadResults, AllocError> {
    let mut events = Vec::new(alloc);
    events.extend_from_slice(history)?;
    let mut lists = Vec::new(alloc);
    lists.push(receipts(alloc, client)?)?;
    lists.push(receipts(alloc, carrier)?)?;
    Ok(ThreadResults {
        history: events,
        receipts: lists,
        fault,
    })
}

// The receipts that a thread returns: numbers and events.
type Handed = &'static [(u64, Event)];

const CLIENT: Handed = &[(0, Event::Client(0)), (3, Event::Client(0))];

const CARRIER: Handed = &[(1, Event::Job(0)), (2, Event::Job(0))];

// Returns the result of the check of these results, for the plan with one client.
fn judged<R: Abort + Threads + Wait + Sync>(
    rt: &R,
    alloc: Global,
    results: ThreadResults,
) -> Result<RunReport, RunFault> {
    let certified = certified(rt, alloc, ONE_CLIENT).expect(rt, "a certificate is found");
    check_run(alloc, &certified, 1, NUMBERS, results)
}

#[test]
fn a_whole_run_is_reported(rt: HostRuntime) -> Result<(), Fail> {
    let alloc = rt.alloc();
    let results = thread_results(alloc, WHOLE, CLIENT, CARRIER, None)?;
    match judged(&rt, alloc, results) {
        Ok(report) => {
            assert_eq!(rt; (report.jobs, report.units, report.refused), (1, 1, 0));
            assert_eq!(rt; report.history.as_slice(), WHOLE);
            assert_eq!(rt; report.receipts.len(), 2);
        }
        Err(fault) => assert_eq!(rt; Some(fault), None),
    }
    Ok(())
}

const TAKEN: Handed = &[(1, Event::Take(0)), (2, Event::Job(0))];

const PAST: Handed = &[(1, Event::Job(0)), (2, Event::Job(0)), (4, Event::Job(0))];

const FALLING: Handed = &[(3, Event::Client(0)), (0, Event::Client(0))];

const ANOTHERS: Handed = &[(0, Event::Client(0)), (1, Event::Job(0))];

const ONE: Handed = &[(1, Event::Job(0))];

const FIRST: Handed = &[(0, Event::Client(0))];

const NONE: Handed = &[];

const CUT: &[Event] = &[Event::Client(0), Event::Job(0), Event::Job(0)];

// A history in which the third step of the job is not possible.
const AGAIN: &[Event] = &[
    Event::Client(0),
    Event::Job(0),
    Event::Job(0),
    Event::Job(0),
    Event::Client(0),
];

// A name, the results (the history, the receipts of the client and of the worker thread, and the
// fault that a thread met), and the number and events of the expected fault.
type Case = (
    &'static str,
    &'static [Event],
    Handed,
    Handed,
    Option<ThreadFault>,
    u8,
    u64,
);

const NO_RUNS: &[Case] = &[
    ("another event", WHOLE, CLIENT, TAKEN, None, 41, 4),
    ("past the end", WHOLE, CLIENT, PAST, None, 41, 4),
    ("falling numbers", WHOLE, FALLING, CARRIER, None, 41, 4),
    ("another's event", WHOLE, ANOTHERS, CARRIER, None, 41, 4),
    (
        "another event of a history that is cut",
        CUT,
        FIRST,
        TAKEN,
        None,
        41,
        3,
    ),
    ("past what is possible", AGAIN, CLIENT, CARRIER, None, 41, 3),
    ("a receipt too few", WHOLE, CLIENT, ONE, None, 42, 4),
    ("a history that is cut", CUT, FIRST, CARRIER, None, 42, 3),
    (
        "an event that is not possible",
        AGAIN,
        FIRST,
        CARRIER,
        None,
        42,
        3,
    ),
    ("nothing", &[], NONE, NONE, None, 42, 0),
    (
        "a strange receipt and a gate",
        WHOLE,
        CLIENT,
        TAKEN,
        Some(ThreadFault::Gate),
        43,
        4,
    ),
    (
        "a whole run and no memory",
        WHOLE,
        CLIENT,
        CARRIER,
        Some(ThreadFault::Memory),
        20,
        4,
    ),
];

// The fault that a thread met is returned before any other. Fault 41 follows if a receipt does not
// match an event of its owner in the history. Fault 42 is returned if each receipt matches and the
// results are still not those of a run.
#[test]
fn what_is_no_run_has_its_fault(rt: HostRuntime) -> Result<(), Fail> {
    let alloc = rt.alloc();
    for (name, history, client, carrier, fault, number, events) in NO_RUNS.iter().copied() {
        let results = thread_results(alloc, history, client, carrier, fault)?;
        let answered = judged(&rt, alloc, results).err();
        assert_eq!(rt; answered, Some(RunFault { number, events }), "{name}");
    }
    Ok(())
}
