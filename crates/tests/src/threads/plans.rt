//! Plans for the tests, and runs of them.

use cert_check::{Certified, PoolGate};
use cert_search::search;
use cert_text::read_cert;
use locked_runner::{Gate, RunFault, run};
use plan_text::read_plan;
use std::alloc::{AllocError, Global};
use std::process::Abort;
use std::sync::Wait;
use std::thread::Threads;

// A plan in which a job submits another job to its own pool and waits for it. Each round has 2 jobs
// and one unit of work. The client has 2 events in a round, and one more if it begins again. The
// outer job has at most 4 events, and the inner job at most 3.
pub(crate) const NESTED: &str = "
    pool = [{ name = 'p', core = 2, max = 2, queue = 5 }]
    class = [
        { name = 'outer', pool = 'p', body = ['submit inner as x', 'get x'] },
        { name = 'inner', pool = 'p', body = ['work 1'] },
    ]
    client = [{ name = 'c', count = 1, repeat = true, body = ['submit outer as x', 'get x'] }]
";

// A plan with two clients that each submit a job and wait for it.
pub(crate) const TWO_CLIENTS: &str = "
    pool = [{ name = 'p', core = 2, max = 2, queue = 2 }]
    class = [{ name = 'a', pool = 'p', body = ['work 1'] }]
    client = [{ name = 'c', count = 2, repeat = true, body = ['submit a as x', 'get x'] }]
";

// A plan like `TWO_CLIENTS` whose clients work before their submit.
pub(crate) const WORKING_CLIENTS: &str = "
    pool = [{ name = 'p', core = 2, max = 2, queue = 2 }]
    class = [{ name = 'a', pool = 'p', body = ['work 1'] }]
    client = [{ name = 'c', count = 2, repeat = true, body = ['work 1', 'submit a as x', 'get x'] }]
";

// Returns the text of a plan with this number of clients, each of which submits one job and waits
// for it, and a pool that may have this number of threads.
pub(crate) fn many_clients(
    alloc: Global,
    clients: u64,
    threads: u64,
) -> Result<String, AllocError> {
    format!(in alloc;
        "
        pool = [{{ name = 'p', core = 1, max = {threads}, queue = {clients} }}]
        class = [{{ name = 'a', pool = 'p', body = ['work 1'] }}]
        client = [{{ name = 'c', count = {clients}, body = ['submit a as x', 'get x'] }}]
    "
    )
}

// A gate that always opens.
#[derive(Clone, Copy)]
struct OpenGate;

impl PoolGate for OpenGate {
    fn begin(&self, _pool: usize) -> bool {
        true
    }
}

// Returns the plan with this certificate, or `None` if a text has a fault or the certificate is not
// accepted.
pub(crate) fn with_certificate(alloc: Global, plan: &str, cert: &str) -> Option<Certified> {
    let plan = read_plan(alloc, plan.as_bytes()).ok()?;
    let cert = read_cert(alloc, cert.as_bytes(), &plan).ok()?;
    Certified::check(plan, cert).ok()
}

// Returns the plan with the certificate that the search finds, or `None` if the search finds none
// or the text of the plan has a fault.
pub(crate) fn certified<R: Threads + Wait + Sync>(
    rt: &R,
    alloc: Global,
    plan: &str,
) -> Option<Certified> {
    let plan = read_plan(alloc, plan.as_bytes()).ok()?;
    let cert = search(rt, alloc, &plan, 1, &OpenGate).ok()??;
    Certified::check(plan, cert).ok()
}

// Runs the plan for this number of rounds with the certificate that the search finds, and returns
// the numbers of jobs and of units of work.
pub(crate) fn totals<R: Abort + Threads + Wait + Sync, G: Gate>(
    rt: &R,
    alloc: Global,
    plan: &str,
    rounds: u64,
    gate: &G,
) -> Result<(u64, u64), RunFault> {
    let certified = certified(rt, alloc, plan).expect(rt, "a certificate is found");
    let report = run(rt, alloc, &certified, rounds, gate)?;
    Ok((report.jobs, report.units))
}
