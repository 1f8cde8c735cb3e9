//! Tests of the call that confirms witnesses, and of the search for a rejected job.

use counterexample::{Event, Vector, Witness, confirmed, find_rejection};
use plan_text::read_plan;
use std::alloc::{AllocError, Global};
use std::test::*;

const TWO_CLIENTS: &str = "
    pool = [{ name = 'p', core = 1, max = 1, queue = 1 }]
    class = [{ name = 'a', pool = 'p', body = ['work 1'] }]
    client = [{ name = 'c', count = 2, repeat = true, body = ['submit a as x', 'get x'] }]
";

// A plan in which a job waits for another job of its own pool, which has one thread.
const NESTED: &str = "
    pool = [{ name = 'p', core = 1, max = 1, queue = 5 }]
    class = [
        { name = 'outer', pool = 'p', body = ['submit inner as x', 'get x'] },
        { name = 'inner', pool = 'p', body = ['work 1'] },
    ]
    client = [{ name = 'c', count = 1, repeat = true, body = ['submit outer as x', 'get x'] }]
";

// A plan like `NESTED` whose pool has a maximum of eight threads.
const UNUSED_MAX: &str = "
    pool = [{ name = 'p', core = 1, max = 8, queue = 5 }]
    class = [
        { name = 'outer', pool = 'p', body = ['submit inner as x', 'get x'] },
        { name = 'inner', pool = 'p', body = ['work 1'] },
    ]
    client = [{ name = 'c', count = 1, repeat = true, body = ['submit outer as x', 'get x'] }]
";

// A plan in which each client submits a job to a pool that may reject it, and then to another pool.
const REJECTING: &str = "
    pool = [
        { name = 'p', core = 1, max = 1, queue = 1, may_reject = true },
        { name = 'q', core = 1, max = 1, queue = 1 },
    ]
    class = [
        { name = 'a', pool = 'p', body = ['work 1'] },
        { name = 'b', pool = 'q', body = ['work 1'] },
    ]
    client = [{ name = 'c', count = 5, repeat = true, body = ['submit a as x', 'get x', 'submit b as y', 'get y'] }]
";

// Returns a plan like `UNUSED_MAX` with this number of clients.
fn unused_max(alloc: Global, count: u64) -> Result<String, AllocError> {
    format!(in alloc;
        "
        pool = [{{ name = 'p', core = 1, max = 8, queue = 5 }}]
        class = [
            {{ name = 'outer', pool = 'p', body = ['submit inner as x', 'get x'] }},
            {{ name = 'inner', pool = 'p', body = ['work 1'] }},
        ]
        client = [{{ name = 'c', count = {count}, repeat = true, body = ['submit outer as x', 'get x'] }}]
    "
    )
}

// The events of a whole round of client 0, its next submit, which is queued, and the submit of
// client 1, which is refused although the thread is idle.
const REFUSED: [Event; 7] = [
    Event::Client(0),
    Event::Job(0),
    Event::Job(0),
    Event::Client(0),
    Event::Client(0),
    Event::Client(0),
    Event::Client(1),
];

// The events of `REFUSED` without the last one.
const NOT_YET_REFUSED: [Event; 6] = [
    Event::Client(0),
    Event::Job(0),
    Event::Job(0),
    Event::Client(0),
    Event::Client(0),
    Event::Client(0),
];

// The events of `REFUSED` without the first one.
const WITHOUT_A_BEGIN: [Event; 6] = [
    Event::Job(0),
    Event::Job(0),
    Event::Client(0),
    Event::Client(0),
    Event::Client(0),
    Event::Client(1),
];

// The events in which the outer job starts, and submits the inner job, which is queued.
const STUCK: [Event; 2] = [Event::Client(0), Event::Job(0)];

const NOT_YET_STUCK: [Event; 1] = [Event::Client(0)];

// Returns a standing vector of the nested plans, in which each client has this weight. If it is 2,
// the vector's total for one client is 2, and the queue of 5 has room for it.
fn standing(alloc: Global, client: u64) -> Result<Vector, AllocError> {
    let mut classes = Vec::new(alloc);
    classes.push(Vec::from_slice(alloc, &[2, 2, 1, 2, 2])?)?;
    classes.push(Vec::from_slice(alloc, &[1, 1, 1, 1])?)?;
    let mut clients = Vec::new(alloc);
    clients.push(Vec::from_slice(alloc, &[client, 0, client])?)?;
    Ok(Vector {
        workers: Vec::from_slice(alloc, &[0])?,
        classes,
        clients,
    })
}

fn witness_text(alloc: Global, found: Option<Witness>) -> Result<String, AllocError> {
    match found {
        Some(witness) => {
            let events = witness.events.len();
            format!(in alloc; "{:?} after {events}", witness.ending)
        }
        None => String::from_str(alloc, "none"),
    }
}

// The events in which the first pool of `REJECTING` gets two jobs and rejects those of the other
// three clients. Each of these gets its job at once and submits the next one. The second pool
// refuses the last one.
const REFUSED_AFTER_REJECTIONS: [Event; 11] = [
    Event::Client(0),
    Event::Client(1),
    Event::Client(2),
    Event::Client(2),
    Event::Client(2),
    Event::Client(3),
    Event::Client(3),
    Event::Client(3),
    Event::Client(4),
    Event::Client(4),
    Event::Client(4),
];

// The events of `REFUSED_AFTER_REJECTIONS` up to the first rejection.
const REJECTED: [Event; 3] = [Event::Client(0), Event::Client(1), Event::Client(2)];

/// A case: a plan, events, the numbers of some jobs, and the expected result. The call under test
/// checks whether these jobs wait only for each other after the events.
type Case = (
    &'static str,
    &'static [Event],
    &'static [usize],
    &'static str,
);

const CASES: &[Case] = &[
    (TWO_CLIENTS, &REFUSED, &[], "Refused(0) after 7"),
    (TWO_CLIENTS, &NOT_YET_REFUSED, &[], "none"),
    (TWO_CLIENTS, &WITHOUT_A_BEGIN, &[], "none"),
    (
        NESTED,
        &STUCK,
        &[0, 1],
        "StuckForever([0, 1], PoolsAreFull) after 2",
    ),
    (NESTED, &STUCK, &[1, 0], "none"),
    (NESTED, &STUCK, &[0, 1, 1], "none"),
    (NESTED, &STUCK, &[0], "none"),
    (NESTED, &STUCK, &[], "none"),
    (NESTED, &NOT_YET_STUCK, &[0, 1], "none"),
    (UNUSED_MAX, &STUCK, &[0, 1], "StuckNow([0, 1]) after 2"),
    (
        REJECTING,
        &REFUSED_AFTER_REJECTIONS,
        &[],
        "Refused(1) after 11",
    ),
    (REJECTING, &REJECTED, &[], "none"),
];

/// Tests whether lists of events are witnesses. A list is a witness if it ends with a refused
/// submit, or if the given jobs wait only for each other after the events. The numbers of these
/// jobs must be in ascending order. The jobs wait permanently if the pool has all its threads.
#[test]
fn lists_that_are_witnesses(rt: HostRuntime) -> Result<(), Fail> {
    let alloc = rt.alloc();
    for (text, events, members, wanted) in CASES.iter().copied() {
        let plan = read_plan(alloc, text.as_bytes())?;
        let events = Vec::from_slice(alloc, events)?;
        let members = Vec::from_slice(alloc, members)?;
        let found = confirmed(alloc, &plan, events, members, &[])?;
        assert_eq!(rt; witness_text(alloc, found)?.as_str(), wanted);
    }
    Ok(())
}

/// Tests that a witness ends at the first refused submit, so that later events are ignored.
#[test]
fn a_witness_ends_at_its_first_refusal(rt: HostRuntime) -> Result<(), Fail> {
    let plan = read_plan(rt.alloc(), TWO_CLIENTS.as_bytes())?;
    let mut events = Vec::from_slice(rt.alloc(), &REFUSED)?;
    events.push(Event::Take(0))?;
    events.push(Event::Take(5))?;
    let found = confirmed(rt.alloc(), &plan, events, Vec::new(rt.alloc()), &[])?;
    assert_eq!(rt;
        witness_text(rt.alloc(), found)?.as_str(),
        "Refused(0) after 7"
    );
    Ok(())
}

/// Tests that a standing vector can show that jobs wait permanently, because the pool never has
/// more than its one core thread. The vector shows nothing in two cases:
///
/// - The vector breaks a condition.
/// - The total of the vector exceeds the queue of 5, such as for three clients of weight 2.
#[test]
fn a_standing_vector_shows_that_jobs_wait_for_ever(rt: HostRuntime) -> Result<(), Fail> {
    let alloc = rt.alloc();
    for (count, client, wanted) in [
        (1, 2, "StuckForever([0, 1], PoolsStayAtCore) after 2"),
        (2, 2, "StuckForever([0, 1], PoolsStayAtCore) after 2"),
        (3, 2, "StuckNow([0, 1]) after 2"),
        (1, 3, "StuckNow([0, 1]) after 2"),
        (1, 1, "StuckNow([0, 1]) after 2"),
    ] {
        let plan = read_plan(alloc, unused_max(alloc, count)?.as_bytes())?;
        let mut vectors = Vec::new(alloc);
        vectors.push(standing(alloc, client)?)?;
        let events = Vec::from_slice(alloc, &STUCK)?;
        let members = Vec::from_slice(alloc, &[0, 1])?;
        let found = confirmed(alloc, &plan, events, members, &vectors)?;
        assert_eq!(rt;
            witness_text(alloc, found)?.as_str(),
            wanted,
            "{count} clients that weigh {client}"
        );
    }
    Ok(())
}

/// Tests the search for a rejected job. If a pool may reject jobs, it rejects the first job that
/// arrives while its thread is busy and its queue is full. If a pool must not reject jobs, it
/// rejects none.
#[test]
fn a_full_pool_rejects(rt: HostRuntime) -> Result<(), Fail> {
    let plan = read_plan(rt.alloc(), REJECTING.as_bytes())?;
    let found = find_rejection(rt.alloc(), &plan, 0, 1000)?;
    assert_eq!(rt; found.map(|events| events.len()), Some(3));
    for pool in [1, 2] {
        let found = find_rejection(rt.alloc(), &plan, pool, 1000)?;
        assert!(rt; found.is_none(), "pool {pool}");
    }
    Ok(())
}
