//! Tests of the number of rounds of a run, and of the limits of a run.

use crate::threads::gates::Counting;
use crate::threads::plans::{NESTED, certified, many_clients, totals};
use locked_runner::{RunFault, run};
use std::alloc::Global;
use std::sync::Wait;
use std::test::Fail;
use std::thread::Threads;

// The fault of a run that would exceed a limit. No event was made.
const TOO_LARGE: RunFault = RunFault {
    number: 40,
    events: 0,
};

// The fault of a run of no rounds, which is not complete: a client that repeats has no event, and
// is not at the end of its body.
const NO_RUN: RunFault = RunFault {
    number: 42,
    events: 0,
};

// The numbers of jobs and of units of work of a run, or its fault.
type Totals = Result<(u64, u64), RunFault>;

// A plan with a client that only works. Each of its rounds has 2 events, except that the last round
// has 1.
const ALONE: &str = "
    client = [{ name = 'c', count = 1, repeat = true, body = ['work 1'] }]
";

// Cases: a plan, the number of rounds, the result of the run, and the number of its gate calls. A
// run may have at most 1,000,000 events. A round of the nested plan has 10 events, and the last
// round 9, so 100,001 rounds would have 1,000,009 events. For the client that only works, 500,000
// rounds have 999,999 events, and 500,001 rounds would have 1,000,001.
const ROUNDS: &[(&str, u64, Totals, u64)] = &[
    (NESTED, 0, Err(NO_RUN), 0),
    (NESTED, 3, Ok((6, 3)), 3),
    (NESTED, 1_000, Ok((2_000, 1_000)), 1_000),
    (NESTED, 100_001, Err(TOO_LARGE), 0),
    (ALONE, 500_000, Ok((0, 500_000)), 500_000),
    (ALONE, 500_001, Err(TOO_LARGE), 0),
];

#[test]
fn as_many_rounds_as_a_run_may_have(rt: HostRuntime) -> Result<(), Fail> {
    for (plan, rounds, wanted, calls) in ROUNDS.iter().copied() {
        let gate = Counting::new();
        let run = totals(&rt, rt.alloc(), plan, rounds, &gate);
        assert_eq!(rt; run, wanted, "{rounds} rounds");
        assert_eq!(rt; gate.calls(), calls, "{rounds} rounds");
    }
    Ok(())
}

// Cases: the numbers of clients and of threads, which may be at most 64 each in a run, the result
// of the run, and the number of its gate calls.
const CROWDS: &[(u64, u64, Totals, u64)] = &[
    (64, 64, Ok((64, 64)), 64),
    (65, 64, Err(TOO_LARGE), 0),
    (64, 65, Err(TOO_LARGE), 0),
];

#[test]
fn at_most_64_clients_and_64_threads_of_pools(rt: HostRuntime) -> Result<(), Fail> {
    for (clients, threads, wanted, calls) in CROWDS.iter().copied() {
        let plan = many_clients(rt.alloc(), clients, threads)?;
        let gate = Counting::new();
        let run = totals(&rt, rt.alloc(), &plan, 1, &gate);
        assert_eq!(rt; run, wanted, "{clients} clients, {threads} threads");
        assert_eq!(rt; gate.calls(), calls, "{clients} clients, {threads} threads");
    }
    Ok(())
}

// Runs the plan, and returns the number of lists of receipts, the length of the first list, and the
// number of events of the history.
fn handed_back<R: Threads + Wait + Sync>(
    rt: &R,
    alloc: Global,
    plan: &str,
    rounds: u64,
) -> Option<(usize, usize, usize)> {
    let certified = certified(rt, alloc, plan)?;
    let report = run(rt, alloc, &certified, rounds, &Counting::new()).ok()?;
    let first = report.receipts.first()?;
    Some((report.receipts.len(), first.len(), report.history.len()))
}

// The run has the threads of a client and two worker threads, so three lists of receipts. The
// client has 8 events in three rounds. The jobs have 19: 6 submits and gets, 3 works, 6 ends, and 4
// takes, since the two jobs of the first round are started by their submits.
#[test]
fn three_rounds_have_27_events(rt: HostRuntime) -> Result<(), Fail> {
    let back = handed_back(&rt, rt.alloc(), NESTED, 3);
    assert_eq!(rt; back, Some((3, 8, 27)));
    Ok(())
}

// Each of 64 clients has two events: a submit and a get.
#[test]
fn each_thread_hands_back_its_receipts(rt: HostRuntime) -> Result<(), Fail> {
    let plan = many_clients(rt.alloc(), 64, 64)?;
    let back = handed_back(&rt, rt.alloc(), &plan, 1);
    let lists = back.map(|(lists, of_the_first, _)| (lists, of_the_first));
    assert_eq!(rt; lists, Some((128, 2)));
    Ok(())
}
