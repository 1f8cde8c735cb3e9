//! The workers of a round. One of them runs on the calling thread, and each other worker on a
//! thread of its own.

ghost use Rattle.std.specs.Prelude.{IfOk, IsTrue};
ghost use Rattle.cert_search.specs.Results.{are_complete};

use crate::SearchFault;
use crate::board::Board;
use crate::results::check_complete;
use crate::round::{PoolVectors, Round};
use cert_check::PoolGate;
use held_machines::{Held, Locked};
use std::alloc::Global;
use std::sync::Wait;
use std::sync::atomic::{AtomicBool, Ordering};
use std::thread;
use std::thread::{JoinHandle, Threads};

/// Searches for the vectors of each pool without a rank, with `workers` workers. One of these
/// workers runs on the calling thread. Returns the results of all workers, in no particular order.
///
/// # Errors
///
/// Returns [`SearchFault::Memory`] if memory runs out or a thread cannot be started, and
/// [`SearchFault::Gate`] if the gate returns `false` for a pool. Returns [`SearchFault::Mixed`] if
/// the results are inconsistent. All other threads have ended before the error is returned.
pub(crate) fn search_pools<R: Threads + Wait + Sync, G: PoolGate>(
    rt: &R,
    alloc: Global,
    round: &Round,
    has_rank: &[bool],
    workers: usize,
    gate: &G,
) -> Result<Vec<PoolVectors>, SearchFault>
    ensures { IfOk result (λ found. IsTrue (are_complete has_rank.now found.items)) }
{
    let board = Board {
        has_rank: has_rank.to_vec(alloc)?,
    };
    let board = Locked::new(Held::new(alloc, board)?);
    let stop = AtomicBool::new(false);
    let (shared, stops) = (&board, &stop);
    let found = thread::scope(
        thread::scope_env(),
        rt,
        move |scope| -> Result<Vec<PoolVectors>, SearchFault> {
            let mut threads = Vec::with_capacity(alloc, workers)?;
            let mut refused = false;
            for _ in 1..workers {
                let worker = scope.spawn(move || round.work(rt, alloc, shared, stops, gate));
                refused = match worker {
                    Ok(thread) => threads.push(thread).is_err(),
                    Err(_) => true,
                };
                if refused {
                    stops.store(true, Ordering::SeqCst);
                    break;
                }
            }
            let own = round.work(rt, alloc, shared, stops, gate);
            let found = join_all(rt, own, threads);
            if refused {
                Err(SearchFault::Memory)
            } else {
                found
            }
        },
    )?;
    if board.into_inner().state().are_done() {
        check_complete(has_rank, found)
    } else {
        Err(SearchFault::Mixed)
    }
}

/// Waits for the workers in `threads` to end, and returns the results of all workers together.
/// `own` has the results of the worker on the calling thread.
///
/// # Errors
///
/// Returns the fault of the worker on the calling thread, if this worker failed. Otherwise returns
/// the fault of the failed worker that was started first.
fn join_all<R: Threads>(
    rt: &R,
    own: Result<Vec<PoolVectors>, SearchFault>,
    threads: Vec<JoinHandle<Result<Vec<PoolVectors>, SearchFault>>>,
) -> Result<Vec<PoolVectors>, SearchFault> {
    let mut all = own;
    for thread in threads {
        all = both(all, thread.join(rt));
    }
    all
}

/// Returns the results of two workers in one list. If one worker failed, returns its fault. If both
/// failed, returns the fault of `first`.
fn both(
    first: Result<Vec<PoolVectors>, SearchFault>,
    second: Result<Vec<PoolVectors>, SearchFault>,
) -> Result<Vec<PoolVectors>, SearchFault> {
    let mut all = first?;
    let mut more = second?;
    all.append(&mut more)?;
    Ok(all)
}
