//! Tests of witnesses against plans with pools whose core threads may time out.

use counterexample::{Event, Vector, Witness, confirmed, search_witness};
use job_bodies::Plan;
use plan_text::read_plan;
use std::alloc::{AllocError, Global};
use std::test::*;

// Returns a plan in which a job waits for another job of its own pool, whose core threads may time
// out. `sizes` is the rest of the pool's entry.
fn nested(alloc: Global, sizes: &str, count: u64) -> Result<String, AllocError> {
    format!(in alloc;
        "
        pool = [{{ name = 'p', core_timeout = true, {sizes} }}]
        class = [
            {{ name = 'outer', pool = 'p', body = ['submit inner as x', 'get x'] }},
            {{ name = 'inner', pool = 'p', body = ['work 1'] }},
        ]
        client = [{{ name = 'c', count = {count}, repeat = true, body = ['submit outer as x', 'get x'] }}]
    "
    )
}

// The events of a whole round of the client and of its next submit. In the round, each of two core
// threads runs a job. After the next submit, one thread waits for a queued job, and the other ends.
const STARVED: [Event; 12] = [
    Event::Client(0),
    Event::Job(0),
    Event::Job(1),
    Event::Job(1),
    Event::Job(0),
    Event::Job(0),
    Event::Client(0),
    Event::Client(0),
    Event::Client(0),
    Event::Take(0),
    Event::Job(2),
    Event::Retire(0),
];

// The events in which the jobs of two clients occupy both core threads, and their inner jobs are
// queued.
const BOTH_WAIT: [Event; 4] = [
    Event::Client(0),
    Event::Client(1),
    Event::Job(0),
    Event::Job(1),
];

/// A case: the rest of the pool's entry, the number of clients, events, the numbers of some jobs,
/// and the expected result. The call under test checks whether these jobs wait only for each other
/// after the events.
type Case = (
    &'static str,
    u64,
    &'static [Event],
    &'static [usize],
    &'static str,
);

const CASES: &[Case] = &[
    (
        "core = 2, max = 'unbounded', queue = 'unbounded'",
        1,
        &STARVED,
        &[2, 3],
        "StuckNow([2, 3]) after 12",
    ),
    (
        "core = 2, max = 2, queue = 5",
        1,
        &STARVED,
        &[2, 3],
        "StuckNow([2, 3]) after 12",
    ),
    (
        "core = 2, max = 8, queue = 5",
        1,
        &STARVED,
        &[2, 3],
        "StuckNow([2, 3]) after 12",
    ),
    (
        "core = 2, max = 'unbounded', queue = 'unbounded'",
        2,
        &BOTH_WAIT,
        &[0, 1, 2, 3],
        "StuckForever([0, 1, 2, 3], PoolsStayAtCore) after 4",
    ),
    (
        "core = 2, max = 2, queue = 'unbounded'",
        2,
        &BOTH_WAIT,
        &[0, 1, 2, 3],
        "StuckForever([0, 1, 2, 3], PoolsAreFull) after 4",
    ),
    (
        "core = 2, max = 8, queue = 5",
        2,
        &BOTH_WAIT,
        &[0, 1, 2, 3],
        "StuckForever([0, 1, 2, 3], PoolsStayAtCore) after 4",
    ),
    (
        "core = 2, max = 8, queue = 3",
        2,
        &BOTH_WAIT,
        &[0, 1, 2, 3],
        "StuckNow([0, 1, 2, 3]) after 4",
    ),
];

// Returns a standing vector of the nested plans: each outer job and client has the weight 2. For two
// clients the total is 4, for which a queue of 5 has room.
fn standing(alloc: Global) -> Result<Vec<Vector>, AllocError> {
    let mut classes = Vec::new(alloc);
    classes.push(Vec::from_slice(alloc, &[2, 2, 1, 2, 2])?)?;
    classes.push(Vec::from_slice(alloc, &[1, 1, 1, 1])?)?;
    let mut clients = Vec::new(alloc);
    clients.push(Vec::from_slice(alloc, &[2, 0, 2])?)?;
    let mut vectors = Vec::new(alloc);
    vectors.push(Vector {
        workers: Vec::from_slice(alloc, &[0])?,
        classes,
        clients,
    })?;
    Ok(vectors)
}

/// Tests whether a wait is permanent. In each case, some jobs wait only for each other. Consider a
/// pool that has one of these jobs in its queue. The wait is permanent only if this pool satisfies
/// two conditions:
///
/// - The pool has at least as many threads as its core size.
/// - The pool starts no thread above its core size.
#[test]
fn jobs_wait_forever_only_at_core(rt: HostRuntime) -> Result<(), Fail> {
    let alloc = rt.alloc();
    for (sizes, count, events, members, wanted) in CASES.iter().copied() {
        let plan = read_plan(alloc, nested(alloc, sizes, count)?.as_bytes())?;
        let events = Vec::from_slice(alloc, events)?;
        let members = Vec::from_slice(alloc, members)?;
        let found = confirmed(alloc, &plan, events, members, &standing(alloc)?)?;
        let text = match found {
            Some(witness) => {
                let events = witness.events.len();
                format!(in alloc; "{:?} after {events}", witness.ending)?
            }
            None => String::from_str(alloc, "none")?,
        };
        assert_eq!(rt; text.as_str(), wanted, "{sizes}");
    }
    Ok(())
}

fn found_witness(alloc: Global, plan: &Plan) -> Result<Option<Witness>, AllocError> {
    match search_witness(alloc, plan, 3000)?.found {
        Some(found) => confirmed(alloc, plan, found.events, found.members, &[]),
        None => Ok(None),
    }
}

/// Tests that the search ends core threads of a pool until only one thread is left. This last
/// thread then waits for a job of the same pool.
#[test]
fn a_search_ends_core_threads(rt: HostRuntime) -> Result<(), Fail> {
    let alloc = rt.alloc();
    for core in [2u64, 3, 8] {
        let sizes = format!(in alloc; "core = {core}, max = 'unbounded', queue = 'unbounded'")?;
        let plan = read_plan(alloc, nested(alloc, sizes.as_str(), 1)?.as_bytes())?;
        let found = found_witness(alloc, &plan)?;
        let ended = found.map(|witness| {
            witness
                .events
                .iter()
                .filter(|event| matches!(event, Event::Retire(_)))
                .count() as u64
        });
        assert_eq!(rt; ended, Some(core - 1));
    }
    Ok(())
}
