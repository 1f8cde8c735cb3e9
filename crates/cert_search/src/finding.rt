//! The search for a certificate.

ghost use Rattle.std.specs.Prelude.{◌≡◌, ◌≢◌, ◌<◌, ◌≤◌, false, IfErr, IfOk, IfSome, IfNone, IsTrue, length};
ghost use Rattle.job_bodies.specs.declared.limits.TheConstants.{MAX_WORKERS};
ghost use Rattle.soundness.specs.Accepted.{accepted};
ghost use Rattle.size_search.specs.Steady.{steady_cert};
ghost use Rattle.cert_search.specs.declared.finding.SearchFault.TheVariants.{Memory};

use crate::draft::Draft;
use crate::fallback::steady_if_accepted;
use crate::round::Round;
use crate::workers::search_pools;
use cert_check::{PoolGate, accepts};
use cert_text::Cert;
use job_bodies::Plan;
use std::alloc::{AllocError, Global};
use std::sync::Wait;
use std::thread::Threads;
use weights::{Levels, reach};

/// The reason why a search for a certificate fails.
#[derive(Clone, Copy, Debug)]
pub enum SearchFault {
    /// Memory ran out, or a thread could not be started.
    Memory,
    /// The claims or results of a round's workers were inconsistent. The workers are threads of the
    /// search. One of these faults occurred:
    ///
    /// - A worker claimed a pool that the plan does not have.
    /// - A worker gave back a pool that was not claimed.
    /// - A pool was never given back.
    /// - A pool without a rank had no result, or more than one.
    /// - A pool with a rank had a result.
    ///
    /// No proof covers what threads do under a lock, so the search checks for these faults at run
    /// time.
    Mixed,
    /// The gate returned `false` for a pool. The gate is a hook that a thread of the search calls
    /// before it searches for the vectors of a pool (see [`PoolGate`](cert_check::PoolGate)).
    Gate,
}

impl From<AllocError> for SearchFault {
    ghost from_gives = { λ _ fault. fault ≡ Memory };

    fn from(_error: AllocError) -> SearchFault {
        SearchFault::Memory
    }
}

/// Searches for a certificate that accepts the plan. Returns `None` if the search finds none. In
/// this case, the plan can still be safe.
///
/// The search works in rounds. Each round has at most `workers` workers, and `workers` must be from
/// 1 to 64. In each round, the workers search for the vectors of the pools that have no rank yet. A
/// pool whose blocked vector is found gets the round's number as its rank.
///
/// A blocked vector bounds the number of jobs that wait at *counted* gets. In the first round, all
/// gets are counted. In a later round, a get is counted if the job for which it waits depends on a
/// pool without a rank. Other gets are not counted. A job depends on its own pool, and on the pools
/// of all jobs that it gets, directly or through other jobs.
///
/// If a pool has the same counted gets as in the previous round, the search for its blocked vector
/// is skipped, because the previous round found no vector for these gets.
///
/// If the rounds find no certificate that accepts the plan, the search tries the plan's steady
/// certificate, whose numbers do not depend on the pool sizes. If the steady certificate accepts
/// the plan, the result is never `None`.
///
/// A pool needs no bound if it may reject jobs or its queue is unbounded. If the search
/// nevertheless finds a bound for such a pool, the certificate contains it. A pool with a bound
/// never rejects a job, even if the plan allows the pool to reject jobs. The bound of a pool with
/// an unbounded queue is a standing vector, which bounds the number of queued jobs. The total of
/// this vector has no limit.
///
/// Tests check that the result does not depend on the number of workers. This is not proved.
///
/// # Errors
///
/// Returns [`SearchFault::Memory`] if memory runs out or a thread cannot be started. Returns
/// [`SearchFault::Gate`] if the gate returns `false` for a pool, and [`SearchFault::Mixed`] if the
/// results of the workers are inconsistent.
pub fn search<R: Threads + Wait + Sync, G: PoolGate>(
    rt: &R,
    alloc: Global,
    plan: &Plan,
    workers: usize,
    gate: &G,
) -> Result<Option<Cert>, SearchFault>
    requires some { 1 ≤ workers }
    requires few { workers ≤ MAX_WORKERS }
    ensures accepted { IfOk result
        (λ found. IfSome found (λ cert. IsTrue (accepted plan.now cert))) }
    ensures steady { IfOk result
        (λ found. IfNone found (accepted plan.now (steady_cert plan.now) ≡ false)) }
    // `Mixed` and `Gate` occur only if the plan has a pool.
    ensures fault { IfErr result (λ fault. fault ≢ Memory → 0 < length plan.now.pools) }
{
    if let Some(cert) = search_rounds(rt, alloc, plan, workers, gate)? {
        if accepts(plan, &cert) {
            return Ok(Some(cert));
        }
    }
    Ok(steady_if_accepted(alloc, plan)?)
}

/// Searches for a certificate in rounds. Returns `None` if the rounds find none. Does not check
/// that the certificate accepts the plan.
fn search_rounds<R: Threads + Wait + Sync, G: PoolGate>(
    rt: &R,
    alloc: Global,
    plan: &Plan,
    workers: usize,
    gate: &G,
) -> Result<Option<Cert>, SearchFault>
    ensures { IfErr result (λ fault. fault ≢ Memory → 0 < length plan.now.pools) }
{
    let Some(levels) = Levels::of(alloc, plan)? else {
        return Ok(None);
    };
    let mut draft = Draft::of(alloc, plan)?;
    let mut reach_before = Vec::new(alloc);
    for rank in 0..plan.pools().len() as u64 {
        let unranked = draft.unranked_count();
        if unranked == 0 {
            break;
        }
        let ranks = draft.ranks_or(alloc, rank)?;
        let reach = reach(alloc, plan, &levels, &ranks)?;
        let round = Round {
            plan,
            levels: &levels,
            reach: &reach,
            reach_before: &reach_before,
            rank,
        };
        let has_rank = draft.has_rank(alloc)?;
        let found = search_pools(rt, alloc, &round, &has_rank, workers.min(unranked), gate)?;
        if !draft.note(found, rank) {
            return Ok(None);
        }
        reach_before = reach;
    }
    Ok(draft.into_cert(alloc, plan, levels)?)
}
