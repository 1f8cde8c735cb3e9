//! The search for a certificate that accepts a plan with its declared sizes, and the text of a
//! certificate.

ghost use Rattle.std.specs.Prelude.{◌≡◌, ◌≤◌, IfOk, IfErr, IfSome, IfNone, IsTrue, Ok, false, option_map};
ghost use Rattle.job_bodies.specs.declared.limits.TheConstants.{MAX_WORKERS};
ghost use Rattle.soundness.specs.Accepted.{accepted};
ghost use Rattle.size_search.specs.Steady.{steady_cert};
ghost use Rattle.report.specs.Finding.{IsKnown};
ghost use Rattle.job_bodies.specs.Plan.{Plan as PlanValue};
ghost use Rattle.cert_text.specs.Cert.{cert_fits};
ghost use Rattle.cert_text.specs.CertOf.{cert_of};
ghost use Rattle.sizing_cli.specs.Certify.{IsLineOf, IsUncertified};
ghost use Rattle.sizing_cli.specs.DeclaredSizes as spec;
ghost use Rattle.sizing_cli.specs.ServeFault.{is_of_search};

use crate::ServeFault;
use crate::noop_gate::NoopGate;
use cert_check::accepts;
use cert_search::search;
use cert_text::{Cert, write_cert};
use job_bodies::{DEFAULT_WORKERS, MAX_CERT_BYTES, Plan};
use size_search::{SizesFound, search_sizes};
use std::alloc::{AllocError, Global};
use std::sync::Wait;
use std::thread::Threads;

/// The maximum number of threads of a search or a check, if the command has no option for this
/// number.
pub(crate) const WORKERS: usize = DEFAULT_WORKERS as usize;

/// The number of pools per search thread. A thread for fewer pools would save too little time to be
/// worth its memory.
const POOLS_OF_A_WORKER: usize = 16;

/// Returns a certificate that accepts the plan, or `None` if two searches find no such certificate:
///
/// - The first search looks for a certificate, in at most `workers` threads.
/// - The second search looks for sizes, and for a certificate that accepts these sizes. This
///   certificate is the result if it also accepts the declared sizes.
///
/// The second search makes `certify` agree with `fit`: if `fit` keeps the declared sizes, `certify`
/// finds a certificate.
///
/// # Errors
///
/// - Fails with fault 20 if memory runs out or a thread cannot be started.
/// - Fails with fault 42 or 43 if a search ends with that fault.
pub(crate) fn certificate_of<R: Threads + Wait + Sync>(
    rt: &R,
    alloc: Global,
    workers: usize,
    plan: &Plan,
) -> Result<Option<Cert>, ServeFault>
    requires some { 1 ≤ workers }
    requires most { workers ≤ MAX_WORKERS }
    ensures accepted { IfOk result
        (λ found. IfSome found (λ cert. IsTrue (accepted plan.now cert))) }
    ensures none { IfOk result (λ found. IfNone found (IsUncertified plan.now)) }
    ensures fault { IfErr result (λ fault. IsTrue (is_of_search fault.number)) }
{
    match search(rt, alloc, plan, workers_of(plan, workers), &NoopGate)? {
        Some(cert) => Ok(Some(cert)),
        None => Ok(certificate_of_sizes(alloc, plan)?),
    }
}

/// Returns the number of search threads for the plan: one for every 16 pools of the plan, but at
/// least 1 and at most `most`.
fn workers_of(plan: &Plan, most: usize) -> usize
    requires { 1 ≤ most }
    ensures some { 1 ≤ result }
    ensures most { result ≤ most }
{
    most.min(plan.pools().len() / POOLS_OF_A_WORKER).max(1)
}

/// Searches for sizes and a certificate that accepts them. Returns the certificate if it also
/// accepts the declared sizes. Returns `None` if it does not, or if no sizes are found.
fn certificate_of_sizes(alloc: Global, plan: &Plan) -> Result<Option<Cert>, AllocError>
    requires { accepted plan.now (steady_cert plan.now) ≡ false }
    ensures accepted { IfOk result
        (λ found. IfSome found (λ cert. IsTrue (accepted plan.now cert))) }
    ensures none { IfOk result (λ found. IfNone found (IsUncertified plan.now)) }
{
    let sizes = search_sizes(alloc, plan, None)?;
    Ok(match as_declared(plan, sizes) {
        SizesComparison::Accepted(cert) => Some(cert),
        SizesComparison::Other(_sizes) => None,
    })
}

/// The result of a search for sizes, after a comparison with the declared sizes.
pub(crate) enum SizesComparison {
    /// A certificate that accepts the plan with its declared sizes.
    Accepted(Cert),
    /// Any other result of the search: either sizes with a certificate that does not accept the
    /// declared sizes, or the reason why no sizes were found.
    Other(SizesFound),
}

/// Compares the result of a search for sizes with the plan's declared sizes. Returns
/// [`SizesComparison::Accepted`] if sizes were found and their certificate also accepts the
/// declared sizes. Otherwise, returns [`SizesComparison::Other`] with the result of the search.
pub(crate) fn as_declared(plan: &Plan, sizes: SizesFound) -> SizesComparison
    requires known { IsKnown plan.now sizes }
    requires not_steady { accepted plan.now (steady_cert plan.now) ≡ false }
    ensures { spec.IsComparison plan.now result }
{
    match sizes {
        SizesFound::Found { plan: fit, cert } => {
            if accepts(plan, &cert) {
                SizesComparison::Accepted(cert)
            } else {
                SizesComparison::Other(SizesFound::Found { plan: fit, cert })
            }
        }
        SizesFound::NotFound(cause) => SizesComparison::Other(SizesFound::NotFound(cause)),
    }
}

/// Returns the text of a certificate with a newline at its end, or `None` if this text is too long
/// to be read back.
#[tactic(auto, using(crate::proofs::FittedAnswers::long_with_newline))]
pub(crate) fn certificate_line(alloc: Global, cert: &Cert) -> Result<Option<Vec<u8>>, AllocError>
    ensures line { IfOk result
        (λ line. IsLineOf cert.now (option_map (λ text. text.items) line)) }
    ensures reads_back { IfOk result (λ line.
        IfSome line (λ text.
        (plan : PlanValue) → IsTrue (cert_fits plan cert.now) → cert_of text.items plan ≡ Ok cert.now)) }
{
    let mut text = write_cert(alloc, cert)?;
    if text.len() >= MAX_CERT_BYTES {
        return Ok(None);
    }
    text.push(b'\n')?;
    Ok(Some(text))
}
