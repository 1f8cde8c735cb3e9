//! Tests that a search calls its gate once for each pool of a round, and ends if the gate refuses a
//! pool.

use cert_check::{PoolGate, accepts};
use cert_search::{SearchFault, search};
use job_bodies::Plan;
use plan_text::read_plan;
use std::alloc::Global;
use std::process::Abort;
use std::rt::Clock;
use std::sync::atomic::{AtomicU64, Ordering};
use std::test::*;
use std::thread;
use std::time::Duration;

// A plan with a pool `front`, whose jobs wait for jobs of a pool `back`. The pool `front` gets its
// rank in the second round of the search.
const FRONT_AND_BACK: &str = "
    pool = [
        { name = 'front', core = 4, max = 4, queue = 1000 },
        { name = 'back', core = 2, max = 2, queue = 4 },
    ]
    class = [
        { name = 'f', pool = 'front', body = ['submit b as x', 'get x'] },
        { name = 'b', pool = 'back', body = ['work 1'] },
    ]
    client = [{ name = 'c', count = 1000, repeat = true, body = ['submit f as x', 'get x'] }]
";

fn front_and_back(rt: &impl Abort, alloc: Global) -> Plan {
    read_plan(alloc, FRONT_AND_BACK.as_bytes()).expect(rt, "the plan is read")
}

// A gate that holds the first call until there is a second call, for at most `turns` waits of a
// millisecond. It then refuses the pool of the first call.
#[derive(Drop)]
struct Rendezvous<'a, C> {
    clock: &'a C,
    turns: u64,
    begun: AtomicU64,
}

impl<C: Clock + Sync> PoolGate for Rendezvous<'_, C> {
    fn begin(&self, _pool: usize) -> bool {
        self.begun.fetch_add(1, Ordering::SeqCst);
        for _ in 0..self.turns {
            if self.begun.load(Ordering::SeqCst) >= 2 {
                return true;
            }
            thread::sleep(self.clock, Duration::from_millis(1));
        }
        false
    }
}

// A search fails at this gate if it calls the gate while it has the board locked, or if it has one
// thread.
#[test]
fn two_workers_look_at_two_pools_together(rt: HostRuntime) {
    let plan = front_and_back(&rt, rt.alloc());
    let gate = Rendezvous {
        clock: &rt,
        turns: 10_000,
        begun: AtomicU64::new(0),
    };
    let found = search(&rt, rt.alloc(), &plan, 2, &gate).expect(&rt, "both pools begin");
    let cert = found.expect(&rt, "a certificate is found");
    assert!(rt; accepts(&plan, &cert));
}

#[test]
fn one_worker_looks_at_one_pool_at_a_time(rt: HostRuntime) {
    let plan = front_and_back(&rt, rt.alloc());
    let gate = Rendezvous {
        clock: &rt,
        turns: 20,
        begun: AtomicU64::new(0),
    };
    let found = search(&rt, rt.alloc(), &plan, 1, &gate);
    assert!(rt; matches!(found, Err(SearchFault::Gate)));
}

// A gate that refuses the pool with this number.
#[derive(Clone, Copy)]
struct AllButOneGate(usize);

impl PoolGate for AllButOneGate {
    fn begin(&self, pool: usize) -> bool {
        pool != self.0
    }
}

#[test]
fn a_no_of_the_gate_ends_the_search(rt: HostRuntime) {
    let plan = front_and_back(&rt, rt.alloc());
    for pool in 0..2 {
        let alone = search(&rt, rt.alloc(), &plan, 1, &AllButOneGate(pool));
        assert!(rt; matches!(alone, Err(SearchFault::Gate)), "alone at {pool}");
        let many = search(&rt, rt.alloc(), &plan, 64, &AllButOneGate(pool));
        assert!(rt; matches!(many, Err(SearchFault::Gate)), "many at {pool}");
    }
    let other = search(&rt, rt.alloc(), &plan, 2, &AllButOneGate(2));
    assert!(rt; matches!(other, Ok(Some(_))), "the plan has no such pool");
}

// A gate that counts its calls for each of two pools.
#[derive(Drop)]
struct Counting {
    front: AtomicU64,
    back: AtomicU64,
}

impl PoolGate for Counting {
    fn begin(&self, pool: usize) -> bool {
        let count = if pool == 0 { &self.front } else { &self.back };
        count.fetch_add(1, Ordering::SeqCst);
        true
    }
}

#[test]
fn the_gate_is_asked_once_for_each_pool_of_a_round(rt: HostRuntime) {
    let plan = front_and_back(&rt, rt.alloc());
    for workers in [1, 2, 64] {
        let gate = Counting {
            front: AtomicU64::new(0),
            back: AtomicU64::new(0),
        };
        let found = search(&rt, rt.alloc(), &plan, workers, &gate);
        assert!(rt; matches!(found, Ok(Some(_))), "{workers} workers");
        assert_eq!(rt; gate.front.load(Ordering::SeqCst), 2);
        assert_eq!(rt; gate.back.load(Ordering::SeqCst), 1);
    }
}
