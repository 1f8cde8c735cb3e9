//! Tests that runs end, for many kinds of plans. Each run must have the right numbers of jobs,
//! units and gate calls.

use crate::threads::gates::{Counting, RandomDelay};
use crate::threads::plans::{TWO_CLIENTS, totals};
use std::test::Fail;

const NO_PLAN: &str = "";

// A plan with a pool and no clients.
const NO_CLIENTS: &str = "
    pool = [{ name = 'p', core = 2, max = 3, queue = 1, prestart = true }]
    class = [{ name = 'a', pool = 'p', body = ['work 1'] }]
";

// A plan with two clients that only work.
const NO_POOLS: &str = "
    client = [{ name = 'c', count = 2, repeat = true, body = ['work 2'] }]
";

// A plan with a client that ends before its job is done, while other threads of two pools wait for
// a job. The end of the job ends all these threads.
const NO_GET: &str = "
    pool = [
        { name = 'p', core = 2, max = 3, queue = 2 },
        { name = 'q', core = 1, max = 2, queue = 1 },
    ]
    class = [{ name = 'a', pool = 'p', body = ['work 1', 'work 1'] }]
    client = [{ name = 'c', count = 1, body = ['submit a'] }]
";

// A plan in which a client kind and a class have no actions.
const NOTHING_TO_DO: &str = "
    pool = [{ name = 'p', core = 1, max = 1, queue = 4 }]
    class = [{ name = 'a', pool = 'p', body = [] }]
    client = [
        { name = 'b', count = 2, repeat = true, body = [] },
        { name = 'c', count = 2, body = ['submit a', 'submit a'] },
    ]
";

// A plan with three clients that run their bodies once, whatever the number of rounds.
const ONCE: &str = "
    pool = [{ name = 'p', core = 2, max = 2, queue = 1 }]
    class = [{ name = 'a', pool = 'p', body = ['work 1'] }]
    client = [{ name = 'c', count = 3, body = ['submit a as x', 'get x'] }]
";

// A plan with a job that waits for three other jobs of its pool.
const FAN_OUT: &str = "
    pool = [{ name = 'p', core = 2, max = 2, queue = 3 }]
    class = [
        { name = 'outer', pool = 'p', body = [
            'submit inner as x', 'submit inner as y', 'submit inner as z', 'get x', 'get y', 'get z',
        ] },
        { name = 'inner', pool = 'p', body = ['work 1'] },
    ]
    client = [{ name = 'c', count = 1, repeat = true, body = ['submit outer as x', 'get x'] }]
";

// A plan with two pools, each with jobs that wait for jobs of the other.
const TWO_POOLS: &str = "
    pool = [
        { name = 'p', core = 1, max = 1, queue = 2 },
        { name = 'q', core = 2, max = 2, queue = 2 },
    ]
    class = [
        { name = 'a', pool = 'p', body = ['submit b as x', 'get x'] },
        { name = 'b', pool = 'q', body = ['work 1'] },
        { name = 'c', pool = 'q', body = ['submit d as x', 'get x'] },
        { name = 'd', pool = 'p', body = ['work 1'] },
    ]
    client = [
        { name = 'u', count = 1, repeat = true, body = ['submit a as x', 'get x'] },
        { name = 'w', count = 1, repeat = true, body = ['submit c as x', 'get x'] },
    ]
";

// Cases: a plan, the number of rounds, and the numbers of jobs, units and gate calls of the run.
const RUNS: &[(&str, u64, u64, u64, u64)] = &[
    (NO_PLAN, 1, 0, 0, 0),
    (NO_CLIENTS, 2, 0, 0, 0),
    (NO_POOLS, 3, 0, 12, 6),
    (NO_GET, 1, 1, 2, 2),
    (NOTHING_TO_DO, 3, 4, 0, 0),
    (ONCE, 5, 3, 3, 3),
    (TWO_CLIENTS, 50, 100, 100, 100),
    (FAN_OUT, 50, 200, 150, 150),
    (TWO_POOLS, 50, 200, 100, 100),
];

#[test]
fn every_run_ends(rt: HostRuntime) -> Result<(), Fail> {
    for (plan, rounds, jobs, units, calls) in RUNS {
        let gate = Counting::new();
        let run = totals(&rt, rt.alloc(), plan, *rounds, &gate);
        assert_eq!(rt; run, Ok((*jobs, *units)), "{plan}");
        assert_eq!(rt; (gate.calls(), gate.units()), (*calls, *units), "{plan}");
    }
    Ok(())
}

#[test]
fn every_run_ends_whatever_time_its_work_takes(rt: HostRuntime) -> Result<(), Fail> {
    for (plan, rounds, jobs, units, _) in RUNS {
        for seed in [1, 1_000_000, 2_000_000] {
            let run = totals(&rt, rt.alloc(), plan, *rounds, &RandomDelay::new(&rt, seed));
            assert_eq!(rt; run, Ok((*jobs, *units)), "{seed} {plan}");
        }
    }
    Ok(())
}
