//! The lowered plan, in which the maximum of each pool is its core size. Only a pool whose core
//! threads may time out keeps its maximum.

ghost use Rattle.std.specs.Prelude.{IfOk, IfErr, IfSome, IsTrue};
ghost use Rattle.sizing_cli.specs.Ask as spec;
ghost use Rattle.sizing_cli.specs.ServeFault.{is_of_search};

use crate::ServeFault;
use crate::certificate::WORKERS;
use crate::noop_gate::NoopGate;
use cert_search::search;
use cert_text::Cert;
use diagnostics::{at_core, can_be_lowered};
use job_bodies::Plan;
use report::PlanFinding;
use std::alloc::Global;
use std::sync::Wait;
use std::thread::Threads;

/// A lowered plan, and a certificate that accepts it. In a lowered plan, the maximum of each pool
/// is its core size. Only a pool whose core threads may time out keeps its maximum.
#[derive(Drop)]
pub(crate) struct LoweredPlan {
    pub(crate) plan: Plan,
    pub(crate) cert: Cert,
}

/// Searches for a certificate of the lowered plan (see [`LoweredPlan`]). Returns `None` if the
/// search finds no certificate.
///
/// A pool whose core threads may time out keeps its maximum, because it can start threads above its
/// core size even if its queue is never full.
///
/// Returns `None` without a search in these cases:
///
/// - The lowered plan would have the same maximums as the original plan.
/// - A pool may reject jobs, and the maximum of this pool would be lowered.
/// - `finding` already says whether the plan is safe. If the plan is not safe, the lowered plan is
///   not safe either: both plans behave alike until the lowered plan refuses a submit.
///
/// # Errors
///
/// - Fails with fault 20 if memory runs out or a thread cannot be started.
/// - Fails with fault 42 or 43 if the search ends with that fault.
pub(crate) fn lowered_plan<R: Threads + Wait + Sync>(
    rt: &R,
    alloc: Global,
    plan: &Plan,
    finding: &PlanFinding,
) -> Result<Option<LoweredPlan>, ServeFault>
    ensures lowered { IfOk result (spec.IsLowered plan.now finding.now) }
    ensures fault { IfErr result (λ fault. IsTrue (is_of_search fault.number)) }
{
    match finding {
        PlanFinding::NotDecided(_) => search_lowered(rt, alloc, plan),
        PlanFinding::Safe(_, _) | PlanFinding::NotSafe(_, _) => Ok(None),
    }
}

fn search_lowered<R: Threads + Wait + Sync>(
    rt: &R,
    alloc: Global,
    plan: &Plan,
) -> Result<Option<LoweredPlan>, ServeFault>
    ensures lowered { IfOk result (λ found. IfSome found (spec.IsAcceptedAtCore plan.now)) }
    ensures fault { IfErr result (λ fault. IsTrue (is_of_search fault.number)) }
{
    if !can_be_lowered(plan) {
        return Ok(None);
    }
    let lowered = at_core(alloc, plan)?;
    let cert = search(rt, alloc, &lowered, WORKERS, &NoopGate)?;
    Ok(match cert {
        Some(cert) => Some(LoweredPlan {
            plan: lowered,
            cert,
        }),
        None => None,
    })
}
