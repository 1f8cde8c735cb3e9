//! Tests that threads work at the same time. The gate of a run holds each thread until others work,
//! too. The run fails in three cases:
//!
//! - The run has one thread.
//! - The run has fewer worker threads than the pool has threads.
//! - The run calls the gate under the lock.

use crate::threads::gates::{HeldActors, Rendezvous};
use crate::threads::plans::{TWO_CLIENTS, WORKING_CLIENTS, with_certificate};
use locked_runner::run;
use std::test::Fail;

// A certificate for `TWO_CLIENTS`: each client has at most one job in the queue.
const TWO_CLIENTS_CERT: &str = r#"{"version":1,"pools":[{
    "standing":{"workers":[0],"classes":[[1,1,1,1]],"clients":[[1,0,1]]},
    "blocked":{"workers":[0],"classes":[[0,0,0,0]],"clients":[[0,0,0]]}}],
    "ranks":{"pools":[0],"reach":[0],"levels":[0]}}"#;

// The same for `WORKING_CLIENTS`.
const WORKING_CLIENTS_CERT: &str = r#"{"version":1,"pools":[{
    "standing":{"workers":[0],"classes":[[1,1,1,1]],"clients":[[1,1,0,1]]},
    "blocked":{"workers":[0],"classes":[[0,0,0,0]],"clients":[[0,0,0,0]]}}],
    "ranks":{"pools":[0],"reach":[0],"levels":[0]}}"#;

// A plan and its certificate, the text that replaces `= 2` in the plan (the number of threads and
// of clients), the actors whose work is held, the number of such actors that must work at the same
// time, and the numbers of jobs and units of work.
type Case = (
    &'static str,
    &'static str,
    &'static str,
    HeldActors,
    u64,
    (u64, u64),
);

#[rattlefmt::skip]
const CASES: &[Case] = &[
    (TWO_CLIENTS, TWO_CLIENTS_CERT, "= 2", HeldActors::Jobs, 2, (2, 2)),
    (TWO_CLIENTS, TWO_CLIENTS_CERT, "= 3", HeldActors::Jobs, 3, (3, 3)),
    (WORKING_CLIENTS, WORKING_CLIENTS_CERT, "= 2", HeldActors::Clients, 2, (2, 4)),
    (WORKING_CLIENTS, WORKING_CLIENTS_CERT, "= 3", HeldActors::Clients, 3, (3, 6)),
];

// Each plan is run with two threads and clients, with three, and with prestarted threads.
#[test]
fn all_work_at_once(rt: HostRuntime) -> Result<(), Fail> {
    for (plan, cert, size, held_actors, enough, numbers) in CASES.iter().copied() {
        let plan = plan.replace(rt.alloc(), "= 2", size)?;
        let prestarted = plan.replace(rt.alloc(), "core =", "prestart = true, core =")?;
        for plan in [plan, prestarted] {
            let certified = with_certificate(rt.alloc(), &plan, cert);
            let gate = Rendezvous::new(&rt, held_actors, enough);
            let run = run(
                &rt,
                rt.alloc(),
                &certified.expect(&rt, "it is accepted"),
                1,
                &gate,
            );
            let run = run.map(|report| (report.jobs, report.units));
            assert_eq!(rt; run, Ok(numbers), "{plan}");
        }
    }
    Ok(())
}
