//! Bundles that `check` accepts. A bundle is a plan's text, a line `%%`, and a certificate.

ghost use Rattle.std.specs.Prelude.{◌≡◌, ◌≤◌, IfOk, IfErr, IsTrue};
ghost use Rattle.job_bodies.specs.declared.limits.TheConstants.{MAX_WORKERS};
ghost use Rattle.sizing_cli.specs.Certify.{IsBundleWith, IsYes};
ghost use Rattle.sizing_cli.specs.CertifiedSplit.{IsCertifiedSplit};
ghost use Rattle.sizing_cli.specs.ServeFault.{is_of_search};

use crate::answer::Output;
use crate::bundle::{Bundle, bundle_of, join_texts};
use crate::noop_gate::NoopGate;
use crate::{ServeFault, Status};
use cert_check::{CheckFault, check_on};
use std::alloc::Global;
use std::sync::Wait;
use std::thread::Threads;
use support::number::{GATE, MEMORY, MIXED};

/// Returns the bundle of a plan's text and a certificate's text, after these two tests:
///
/// - The bundle splits into the same two texts again.
/// - `check` accepts the bundle. The check runs in at most `workers` threads.
///
/// # Errors
///
/// - Fails with fault 20 if memory runs out.
/// - Fails with fault 42 if the bundle fails a test. This contradicts the search that found the
///   certificate.
/// - Fails with fault 43 if the check ends with that fault.
pub(crate) fn certified_bundle<R: Threads + Wait + Sync>(
    rt: &R,
    alloc: Global,
    workers: usize,
    plan: Vec<u8>,
    cert: Vec<u8>,
) -> Result<Output, ServeFault>
    requires some { 1 ≤ workers }
    requires most { workers ≤ MAX_WORKERS }
    ensures bundle { IfOk result (λ output. IsBundleWith plan.items cert.items output.text) }
    ensures done { IfOk result (λ output. output.status ≡ Status.Done) }
    ensures fault { IfErr result (λ fault. IsTrue (is_of_search fault.number)) }
{
    let plan_len = plan.len();
    let bytes = join_texts(plan, &cert)?;
    drop(cert);
    if is_certified(rt, alloc, workers, &bytes, plan_len)? {
        Ok(Output {
            bytes,
            status: Status::Done,
        })
    } else {
        Err(ServeFault { number: MIXED })
    }
}

/// Returns true if two conditions hold: the text is a bundle whose plan has `plan_len` bytes, and
/// `check` accepts this bundle.
fn is_certified<R: Threads + Wait + Sync>(
    rt: &R,
    alloc: Global,
    workers: usize,
    text: &[u8],
    plan_len: usize,
) -> Result<bool, ServeFault>
    requires some { 1 ≤ workers }
    requires most { workers ≤ MAX_WORKERS }
    ensures yes { IfOk result (λ yes. IsTrue yes → IsCertifiedSplit plan_len text.now) }
    ensures fault { IfErr result (λ fault. IsTrue (is_of_search fault.number)) }
{
    match bundle_of(text) {
        Some(bundle) if bundle.plan.len() == plan_len => is_accepted(rt, alloc, workers, bundle),
        _ => Ok(false),
    }
}

/// Returns true if `check` accepts the two parts of a bundle. Returns false if a part has a fault.
fn is_accepted<R: Threads + Wait + Sync>(
    rt: &R,
    alloc: Global,
    workers: usize,
    bundle: Bundle<'_>,
) -> Result<bool, ServeFault>
    requires some { 1 ≤ workers }
    requires most { workers ≤ MAX_WORKERS }
    ensures yes { IfOk result
        (λ yes. IsTrue yes → IsYes bundle.entry.plan.now bundle.entry.second.now) }
    ensures fault { IfErr result (λ fault. IsTrue (is_of_search fault.number)) }
{
    match check_on(rt, alloc, workers, bundle.plan, bundle.second, &NoopGate) {
        Ok(verdict) => Ok(verdict.yes),
        Err(CheckFault::Plan(_) | CheckFault::Cert(_)) => Ok(false),
        Err(CheckFault::Memory) => Err(ServeFault { number: MEMORY }),
        Err(CheckFault::Gate) => Err(ServeFault { number: GATE }),
    }
}
