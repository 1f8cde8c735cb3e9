//! The threads of a run.

use crate::shared::SharedState;
use crate::threads::Runner;
use crate::{
    CompactReceipt, Gate, Owner, ThreadFault, ThreadResults, kinds_of, lists_of, rounds_of_client,
};
use cert_check::Certified;
use job_bodies::{Client, Plan};
use std::alloc::{AllocError, Global};
use std::sync::Wait;
use std::thread;
use std::thread::Threads;

/// Starts the threads of a run, waits until all of them have ended, and returns their results.
/// There is one thread for each client, and each pool has its own threads. If a thread cannot be
/// started or memory runs out, the run stops. The fault in the results is then
/// [`ThreadFault::Memory`].
///
/// # Errors
///
/// Returns `AllocError` if there is not enough memory before the first thread is started.
pub(crate) fn run_threads<R: Threads + Wait + Sync, G: Gate>(
    rt: &R,
    alloc: Global,
    certified: &Certified,
    rounds: u64,
    gate: &G,
) -> Result<ThreadResults, AllocError> {
    let plan = certified.plan();
    let kinds = kinds_of(alloc, plan)?;
    let owners = lists_of(alloc, plan, &kinds)?;
    run_owners(rt, alloc, certified, rounds, gate, &kinds, &owners)
}

/// Runs a thread for each entry of `owners`, and returns the results of all threads. A pool has one
/// entry for each of its threads. `kinds` has, for each client, the index of its kind.
///
/// # Errors
///
/// Returns `AllocError` if there is not enough memory before the first thread is started.
fn run_owners<R: Threads + Wait + Sync, G: Gate>(
    rt: &R,
    alloc: Global,
    certified: &Certified,
    rounds: u64,
    gate: &G,
    kinds: &[usize],
    owners: &[Owner],
) -> Result<ThreadResults, AllocError> {
    let mut receipts = Vec::with_capacity(alloc, owners.len())?;
    let shared = SharedState::new(alloc, certified, kinds.len())?;
    let state = &shared;
    let lists = &mut receipts;
    thread::scope(thread::scope_env(), rt, |scope| {
        let mut handles = Vec::new(alloc);
        if handles.reserve(owners.len()).is_err() {
            state.fail(rt, ThreadFault::Memory);
            return;
        }
        for owner in owners {
            let owner = *owner;
            match scope.spawn(move || run_one(rt, alloc, state, gate, kinds, owner, rounds)) {
                Ok(handle) => {
                    if handles.push(handle).is_err() {
                        state.fail(rt, ThreadFault::Memory);
                    }
                }
                Err(_) => {
                    state.fail(rt, ThreadFault::Memory);
                    break;
                }
            }
        }
        for handle in handles {
            if lists.push(handle.join(rt)).is_err() {
                state.fail(rt, ThreadFault::Memory);
            }
        }
    });
    let (history, fault) = shared.into_history();
    Ok(ThreadResults {
        history,
        receipts,
        fault,
    })
}

/// Runs one thread of `owner`, which is a client or a pool, and returns the thread's receipts.
/// `kinds` has, for each client, the index of its client kind. Stops the run if there is not
/// enough memory for the thread's state, or if the plan has no such client.
fn run_one<R: Wait, G: Gate>(
    rt: &R,
    alloc: Global,
    shared: &SharedState<'_>,
    gate: &G,
    kinds: &[usize],
    owner: Owner,
    rounds: u64,
) -> Vec<CompactReceipt> {
    let Ok(runner) = Runner::new(alloc, rt, shared, gate) else {
        shared.fail(rt, ThreadFault::Memory);
        return Vec::new(alloc);
    };
    match owner {
        Owner::Client(number) => match client_of(shared.plan, kinds, number) {
            Some(client) => runner.run_client(client, number, rounds_of_client(client, rounds)),
            None => {
                shared.end(rt);
                runner.receipts
            }
        },
        Owner::Pool(pool) => runner.run_worker(pool),
    }
}

/// Returns the client kind of the client with this number, or `None` if there is no such client.
/// `kinds` has, for each client, the index of its kind.
fn client_of<'p>(plan: &'p Plan, kinds: &[usize], number: usize) -> Option<&'p Client> {
    plan.client_at(*kinds.get(number)?)
}
