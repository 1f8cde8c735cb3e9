//! The searches of `ask`. They produce the finding, which says whether a plan is safe with its
//! declared sizes.

ghost use Rattle.std.specs.Prelude.{◌≡◌, IfOk, IfErr, IsTrue, false, not};
ghost use Rattle.soundness.specs.Accepted.{accepted};
ghost use Rattle.size_search.specs.Steady.{steady_cert};
ghost use Rattle.report.specs.Finding.{IsFinding, IsKnown};
ghost use Rattle.sizing_cli.specs.Ask as spec;
ghost use Rattle.sizing_cli.specs.ServeFault.{is_of_search};

use crate::ServeFault;
use crate::certificate::{SizesComparison, WORKERS, as_declared};
use crate::noop_gate::NoopGate;
use crate::rejections::rejections_of;
use crate::witness::witness_of;
use cert_check::accepts;
use cert_search::search;
use cert_text::Cert;
use job_bodies::{DEFAULT_STATES, Plan};
use report::PlanFinding;
use size_search::{SizesFound, search_sizes};
use std::alloc::{AllocError, Global};
use std::sync::Wait;
use std::thread::Threads;

/// The maximum number of states that a search for a witness visits.
const STATES: usize = DEFAULT_STATES as usize;

/// Decides whether a plan is safe. Returns the finding, and whether the given certificate is stale.
/// A certificate is stale if it does not accept the plan.
///
/// 1. If a certificate is given and accepts the plan, the plan is safe.
/// 2. Otherwise, the plan is safe if a search finds a certificate.
/// 3. Otherwise, the plan is not safe if a search finds a witness: events that show this.
/// 4. Otherwise, the plan is safe if a search for sizes finds a certificate that also accepts the
///    declared sizes. If the search finds none, the plan is undecided.
///
/// If the plan is undecided or not safe, the finding also has the result of the search for sizes.
///
/// # Errors
///
/// - Fails with fault 20 if memory runs out or a thread cannot be started.
/// - Fails with fault 42 or 43 if a search ends with that fault.
pub(crate) fn finding_of<R: Threads + Wait + Sync>(
    rt: &R,
    alloc: Global,
    plan: &Plan,
    cert: Option<Cert>,
) -> Result<(PlanFinding, bool), ServeFault>
    ensures finding { IfOk result (λ found. IsFinding plan.now found.0) }
    ensures rests { IfOk result (λ found. spec.RestsOnGiven plan.now cert found.0) }
    ensures stale { IfOk result (λ found. found.1 ≡ spec.is_stale plan.now cert) }
    ensures fault { IfErr result (λ fault. IsTrue (is_of_search fault.number)) }
{
    match cert {
        Some(cert) => finding_with(rt, alloc, plan, cert),
        None => Ok((search_finding(rt, alloc, plan)?, false)),
    }
}

/// Returns the result of [`finding_of`] for a plan with a given certificate.
fn finding_with<R: Threads + Wait + Sync>(
    rt: &R,
    alloc: Global,
    plan: &Plan,
    cert: Cert,
) -> Result<(PlanFinding, bool), ServeFault>
    ensures finding { IfOk result (λ found. IsFinding plan.now found.0) }
    ensures rests { IfOk result
        (λ found. IsTrue (accepted plan.now cert) → spec.IsSafeBy cert found.0) }
    ensures stale { IfOk result (λ found. found.1 ≡ not (accepted plan.now cert)) }
    ensures fault { IfErr result (λ fault. IsTrue (is_of_search fault.number)) }
{
    if accepts(plan, &cert) {
        Ok((safe_finding(alloc, plan, cert)?, false))
    } else {
        Ok((search_finding(rt, alloc, plan)?, true))
    }
}

fn search_finding<R: Threads + Wait + Sync>(
    rt: &R,
    alloc: Global,
    plan: &Plan,
) -> Result<PlanFinding, ServeFault>
    ensures finding { IfOk result (IsFinding plan.now) }
    ensures fault { IfErr result (λ fault. IsTrue (is_of_search fault.number)) }
{
    match search(rt, alloc, plan, WORKERS, &NoopGate)? {
        Some(cert) => Ok(safe_finding(alloc, plan, cert)?),
        None => Ok(without_certificate(alloc, plan)?),
    }
}

/// Searches for a witness and for sizes, and returns the finding. A witness is a list of events
/// that shows that the plan is not safe. Before this call, a search found no certificate for the
/// plan.
fn without_certificate(alloc: Global, plan: &Plan) -> Result<PlanFinding, AllocError>
    requires { accepted plan.now (steady_cert plan.now) ≡ false }
    ensures { IfOk result (IsFinding plan.now) }
{
    let witness = witness_of(alloc, plan, STATES)?.witness;
    let sizes = search_sizes(alloc, plan, None)?;
    match witness {
        Some(witness) => Ok(PlanFinding::NotSafe(witness, sizes)),
        None => without_witness(alloc, plan, sizes),
    }
}

/// Returns the finding after the searches found neither a certificate nor a witness. `sizes` is the
/// result of a search for pool sizes that a certificate accepts. The plan is safe if sizes were
/// found and their certificate also accepts the declared sizes. Otherwise, the plan is undecided.
fn without_witness(alloc: Global, plan: &Plan, sizes: SizesFound) -> Result<PlanFinding, AllocError>
    requires known { IsKnown plan.now sizes }
    requires not_steady { accepted plan.now (steady_cert plan.now) ≡ false }
    ensures { IfOk result (IsFinding plan.now) }
{
    match as_declared(plan, sizes) {
        SizesComparison::Accepted(cert) => safe_finding(alloc, plan, cert),
        SizesComparison::Other(sizes) => Ok(PlanFinding::NotDecided(sizes)),
    }
}

/// Returns the finding that the plan is safe by this certificate. The finding also has an entry for
/// each pool: the number of events after which the pool rejects a job, or `None` if no such events
/// are found.
fn safe_finding(alloc: Global, plan: &Plan, cert: Cert) -> Result<PlanFinding, AllocError>
    requires { IsTrue (accepted plan.now cert) }
    ensures finding { IfOk result (IsFinding plan.now) }
    ensures by { IfOk result (spec.IsSafeBy cert) }
{
    let rejections = rejections_of(alloc, plan, &cert)?;
    Ok(PlanFinding::Safe(cert, rejections))
}
