//! Tests of checks on threads. Each check has a gate, which it calls before each pool.

use cert_check::{CheckFault, PoolGate, check_on};
use cert_search::{SearchFault, search};
use plan_text::read_plan;
use std::alloc::{AllocError, Global};
use std::sync::atomic::{AtomicU64, Ordering};
use std::test::*;
use std::thread;
use std::time::{Clock, Duration};

// A plan with two pools, each with jobs that wait for jobs of the other.
const TWO_POOLS: &str = "
    pool = [
        { name = 'p', core = 1, max = 1, queue = 2 },
        { name = 'q', core = 2, max = 2, queue = 2 },
    ]
    class = [
        { name = 'a', pool = 'p', body = ['submit b as x', 'get x'] },
        { name = 'b', pool = 'q', body = ['work 1'] },
        { name = 'c', pool = 'q', body = ['submit d as x', 'get x'] },
        { name = 'd', pool = 'p', body = ['work 1'] },
    ]
    client = [
        { name = 'u', count = 1, repeat = true, body = ['submit a as x', 'get x'] },
        { name = 'w', count = 1, repeat = true, body = ['submit c as x', 'get x'] },
    ]
";

const TWO_POOLS_CERT: &str = r#"{"version": 1, "pools": [
    {"standing": {"workers": [0, 0],
        "classes": [[1, 1, 1, 1, 1], [0, 0, 0, 0], [1, 1, 0, 1, 1], [1, 1, 1, 1]],
        "clients": [[1, 0, 1], [1, 0, 1]]},
     "blocked": {"workers": [0, 0],
        "classes": [[0, 0, 0, 0, 0], [0, 0, 0, 0], [0, 0, 0, 0, 0], [0, 0, 0, 0]],
        "clients": [[0, 0, 0], [0, 0, 0]]}},
    {"standing": {"workers": [0, 0],
        "classes": [[1, 1, 0, 1, 1], [1, 1, 1, 1], [1, 1, 1, 1, 1], [0, 0, 0, 0]],
        "clients": [[1, 0, 1], [1, 0, 1]]},
     "blocked": {"workers": [0, 0],
        "classes": [[0, 0, 0, 0, 0], [0, 0, 0, 0], [1, 1, 1, 1, 1], [0, 0, 0, 0]],
        "clients": [[0, 0, 0], [1, 0, 1]]}}],
    "ranks": {"pools": [1, 0], "reach": [1, 0, 1, 1], "levels": [1, 0, 1, 0]}}"#;

/// A gate that holds its first call until another call is made. A check calls the gate before each
/// pool. If no other call is made within 10,000 waits of one millisecond, the gate refuses the pool
/// of the first call.
#[derive(Drop)]
struct Rendezvous<'a, C> {
    clock: &'a C,
    begun: AtomicU64,
}

impl<C: Clock + Sync> PoolGate for Rendezvous<'_, C> {
    fn begin(&self, _pool: usize) -> bool {
        if self.begun.fetch_add(1, Ordering::SeqCst) > 0 {
            return true;
        }
        for _ in 0..10_000 {
            if self.begun.load(Ordering::SeqCst) > 1 {
                return true;
            }
            thread::sleep(self.clock, Duration::from_millis(1));
        }
        false
    }
}

/// A gate that refuses every pool except the one with this number.
#[derive(Drop)]
struct OnePoolGate(usize);

impl PoolGate for OnePoolGate {
    fn begin(&self, pool: usize) -> bool {
        pool == self.0
    }
}

/// Tests that two workers check two pools at the same time. If only one worker checked at a time,
/// the gate would refuse a pool, and the check would fail.
#[test]
fn two_pools_are_looked_at_at_once(rt: HostRuntime) -> Result<(), Fail> {
    let gate = Rendezvous {
        clock: &rt,
        begun: AtomicU64::new(0),
    };
    let (plan, cert) = (TWO_POOLS.as_bytes(), TWO_POOLS_CERT.as_bytes());
    let Ok(verdict) = check_on(&rt, rt.alloc(), 2, plan, cert, &gate) else {
        return Err(Fail::from("the gate was held by one thread"));
    };
    assert!(rt; verdict.yes);
    assert_eq!(rt; verdict.pools.len(), 2);
    Ok(())
}

/// Tests that the check returns the fault of the gate if the gate refuses one of two pools. The
/// check runs with 1, 2, 3 and 64 workers.
#[test]
fn a_no_of_the_gate(rt: HostRuntime) -> Result<(), Fail> {
    let (plan, cert) = (TWO_POOLS.as_bytes(), TWO_POOLS_CERT.as_bytes());
    for workers in [1, 2, 3, 64] {
        for pool in 0..2 {
            let Err(fault) = check_on(&rt, rt.alloc(), workers, plan, cert, &OnePoolGate(pool))
            else {
                return Err(Fail::from("the gate was not asked"));
            };
            assert_eq!(rt; fault, CheckFault::Gate);
        }
    }
    Ok(())
}

/// A gate that refuses only the pool with this number.
#[derive(Drop)]
struct AllButOneGate(usize);

impl PoolGate for AllButOneGate {
    fn begin(&self, pool: usize) -> bool {
        pool != self.0
    }
}

/// The maximum number of pools of a plan.
const MANY: usize = 64;

/// Returns the text of a plan that has the maximum number of pools and no client.
fn many_pools(alloc: Global) -> Result<String, AllocError> {
    let mut text = String::new(alloc);
    for pool in 0..MANY {
        writeln!(
            text,
            "[[pool]]\nname = 'p{pool}'\ncore = 1\nmax = 1\nqueue = 1"
        )?;
    }
    Ok(text)
}

/// Returns [`MANY`] zeros, separated by commas.
fn zeros(alloc: Global) -> Result<String, AllocError> {
    let mut text = String::new(alloc);
    text.push_str("0")?;
    for _ in 1..MANY {
        text.push_str(",0")?;
    }
    Ok(text)
}

/// Returns the text of a certificate in which all weights are 0. The certificate is for the plan of
/// [`many_pools`].
fn cert_of_many(alloc: Global) -> Result<String, AllocError> {
    let zeros = zeros(alloc)?;
    let nobody = format!(in alloc; "{{\"workers\":[{zeros}],\"classes\":[],\"clients\":[]}}")?;
    let mut text = String::new(alloc);
    text.push_str("{\"version\":1,\"pools\":[")?;
    for pool in 0..MANY {
        text.push_str(if pool == 0 { "" } else { "," })?;
        write!(text, "{{\"standing\":{nobody},\"blocked\":{nobody}}}")?;
    }
    write!(
        text,
        "],\"ranks\":{{\"pools\":[{zeros}],\"reach\":[],\"levels\":[]}}}}"
    )?;
    Ok(text)
}

/// Tests a gate that refuses one of 64 pools. The check and the search must return the fault of the
/// gate. The test refuses each of the pools in turn, with one worker and with a worker for each
/// pool.
#[test]
fn a_no_for_each_of_many_pools(rt: HostRuntime) -> Result<(), Fail> {
    let plan = many_pools(rt.alloc()).expect(&rt, "there is memory");
    let cert = cert_of_many(rt.alloc()).expect(&rt, "there is memory");
    let read = read_plan(rt.alloc(), plan.as_bytes()).expect(&rt, "the plan is read");
    for workers in [1, 64] {
        for pool in 0..MANY {
            let gate = AllButOneGate(pool);
            let checked = check_on(
                &rt,
                rt.alloc(),
                workers,
                plan.as_bytes(),
                cert.as_bytes(),
                &gate,
            );
            assert!(rt;
                matches!(checked, Err(CheckFault::Gate)),
                "the check, at {pool}"
            );
            let found = search(&rt, rt.alloc(), &read, workers, &gate);
            assert!(rt;
                matches!(found, Err(SearchFault::Gate)),
                "the search, at {pool}"
            );
        }
        let none = AllButOneGate(MANY);
        let checked = check_on(
            &rt,
            rt.alloc(),
            workers,
            plan.as_bytes(),
            cert.as_bytes(),
            &none,
        );
        assert!(rt;
            checked.is_ok_and(|verdict| verdict.yes),
            "no pool is refused"
        );
    }
    Ok(())
}
