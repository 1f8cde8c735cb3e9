//! The search for events after which a pool rejects a job. A pool rejects jobs only if the plan
//! allows it.

ghost use Rattle.std.specs.Prelude.{IfOk, IfSome};
ghost use Rattle.report.specs.Finding.{RejectsAfter, AreRejections};

use cert_text::{Cert, PoolCert};
use counterexample::find_rejection;
use job_bodies::Plan;
use std::alloc::{AllocError, Global};

/// The maximum number of states that the search visits for each pool.
const STATES: usize = 100_000;

/// Returns an element for each pool: the number of events after which the pool rejects a job, or
/// `None` if no such events are found. The search skips a pool if the certificate bounds the pool's
/// queue. If the certificate accepts the plan, such a pool never rejects a job.
#[tactic(auto, using(crate::proofs::RejectionLists::one_more))]
pub(crate) fn rejections_of(
    alloc: Global,
    plan: &Plan,
    cert: &Cert,
) -> Result<Vec<Option<u64>>, AllocError>
    ensures { IfOk result (λ found. AreRejections plan.now found.items) }
{
    let mut found = Vec::new(alloc);
    for part in &cert.pools {
        let pool = found.len();
        let events = rejection_of(alloc, plan, pool, part)?;
        found.push(events)?;
    }
    Ok(found)
}

/// Returns the number of events after which the pool rejects a job. `part` is this pool's part of
/// the certificate. Returns `None` if `part` has a bound of the pool's queue, or if the search
/// finds no such events.
fn rejection_of(
    alloc: Global,
    plan: &Plan,
    pool: usize,
    part: &PoolCert,
) -> Result<Option<u64>, AllocError>
    ensures { IfOk result (λ found. IfSome found (RejectsAfter plan.now pool)) }
{
    if part.bound.is_some() {
        return Ok(None);
    }
    match find_rejection(alloc, plan, pool, STATES)? {
        Some(events) => Ok(Some(events.len() as u64)),
        None => Ok(None),
    }
}
