//! The check on several threads, each of which checks some of the pools. The *gate* is a hook that
//! a thread calls before it checks a pool.

ghost use Rattle.std.specs.Prelude.{◌≡◌, ◌≢◌, ◌≤◌, ◌<◌, ℕ, slice_index_or, IfOk, IfErr, IfSome, IsTrue, Ok, Err, length, vec_len};
ghost use Rattle.job_bodies.specs.declared.limits.TheConstants.{MAX_WORKERS};
ghost use Rattle.cert_text.specs.Cert.{cert_fits};
ghost use Rattle.soundness.specs.Headline.{Promises};
ghost use Rattle.cert_check.specs.declared.from_bytes.CheckFault.TheVariants.{Memory, Gate};
ghost use Rattle.cert_check.specs.Check as check_spec;
ghost use Rattle.cert_check.specs.Verdict.{verdict};
ghost use Rattle.cert_check.specs.OnThreads.{AreChecked, IsRead, pool_check};

use crate::acceptance::pool_holds;
use crate::judge::pool_line;
use crate::parse::read_texts;
use crate::{CheckFault, PoolGate, PoolLine, Verdict};
use cert_text::Cert;
use job_bodies::Plan;
use std::alloc::{AllocError, Global};
use std::thread;
use std::thread::Threads;

/// The result of the check of one pool.
#[derive(Clone, Copy)]
pub(crate) struct PoolCheck {
    pub(crate) pool: usize,
    pub(crate) line: PoolLine,
    /// Whether all conditions of the pool's blocked vector and of its bound hold. A pool without a
    /// bound has only the conditions of the blocked vector.
    pub(crate) holds: bool,
}

/// Checks a plan and a certificate on up to `workers` threads, with the same result as
/// [`check`](crate::check). `workers` must be from 1 to [`MAX_WORKERS`](job_bodies::MAX_WORKERS).
///
/// Each thread checks some of the pools. Before a thread checks a pool, it calls the gate, a hook
/// that can stop the check. The thread holds no lock during this call. If no thread can be started,
/// the calling thread checks the pools.
///
/// # Errors
///
/// Returns the same errors as [`check`](crate::check). Also returns [`CheckFault::Gate`] if the
/// gate returned `false` for a pool. The gate is called only after both texts were read.
pub fn check_on<R: Threads + Sync, G: PoolGate>(
    rt: &R,
    alloc: Global,
    workers: usize,
    plan_text: &[u8],
    cert_text: &[u8],
    gate: &G,
) -> Result<Verdict, CheckFault>
    requires some { 1 ≤ workers }
    requires most { workers ≤ MAX_WORKERS }
    ensures verdict { IfOk result
        (λ verdict. check_spec.checked plan_text.now cert_text.now ≡ Ok verdict) }
    ensures fault { IfErr result (λ fault.
        fault ≢ Memory
        → fault ≢ Gate
        → check_spec.checked plan_text.now cert_text.now ≡ Err fault) }
    // `Gate` is returned only if both texts could be read and the plan has a pool.
    ensures gate { IfErr result (λ fault. fault ≡ Gate → IsRead plan_text.now cert_text.now) }
    // The meaning of `yes`.
    ensures safe { IfOk result
        (λ verdict. IsTrue verdict.yes → check_spec.IsSafeToRun plan_text.now cert_text.now) }
{
    let (plan, cert) = read_texts(alloc, plan_text, cert_text)?;
    verdict_on(rt, alloc, workers, &plan, &cert, gate)
}

fn verdict_on<R: Threads + Sync, G: PoolGate>(
    rt: &R,
    alloc: Global,
    workers: usize,
    plan: &Plan,
    cert: &Cert,
    gate: &G,
) -> Result<Verdict, CheckFault>
    requires workers { 1 ≤ workers }
    requires fits { IsTrue (cert_fits plan.now cert.now) }
    ensures verdict { IfOk result (λ made. made ≡ verdict plan.now cert.now) }
    ensures fault { IfErr result (λ fault. fault ≢ Memory → fault ≡ Gate) }
    ensures gate { IfErr result (λ fault. fault ≡ Gate → 0 < length plan.now.pools) }
    ensures promises { IfOk result (λ made. IsTrue made.yes → Promises plan.now cert.now) }
{
    let found = check_pools(rt, alloc, workers, plan, cert, gate)?;
    match verdict_of(alloc, plan, cert, &found)? {
        Some(verdict) => Ok(verdict),
        None => Err(CheckFault::Gate),
    }
}

/// Checks the pools on several threads, and returns the results of all pools. The result of a pool
/// is `None` if the gate returned `false` for this pool.
fn check_pools<R: Threads + Sync, G: PoolGate>(
    rt: &R,
    alloc: Global,
    workers: usize,
    plan: &Plan,
    cert: &Cert,
    gate: &G,
) -> Result<Vec<Option<PoolCheck>>, AllocError>
    requires workers { 1 ≤ workers }
    requires fits { IsTrue (cert_fits plan.now cert.now) }
    ensures { IfOk result (λ found. AreChecked plan.now cert.now found.items) }
{
    let mut found = empty_results(alloc, plan.pools().len())?;
    check_pools_into(rt, workers, plan, cert, gate, &mut found);
    Ok(found)
}

/// Checks each pool (see [`check_pool`]), and writes the result to the element of `places` at the
/// pool's index.
fn check_pools_into<R: Threads + Sync, G: PoolGate>(
    rt: &R,
    workers: usize,
    plan: &Plan,
    cert: &Cert,
    gate: &G,
    places: &mut [Option<PoolCheck>],
)
    requires workers { 1 ≤ workers }
    requires fits { IsTrue (cert_fits plan.now cert.now) }
    requires as_many { length places.old ≡ length plan.now.pools }
    ensures { (p : ℕ)
        → p < length places.old
        → IfSome (slice_index_or places.new p None)
        (λ check. check ≡ pool_check plan.now cert.now p) }
{
    thread::for_each_mut(
        rt,
        places,
        workers,
        &|pool: usize, place: &mut Option<PoolCheck>|
            requires { IsTrue (cert_fits plan.now cert.now) × (pool < length plan.now.pools) }
            ensures { IfSome place.new
                (λ check. check ≡ pool_check plan.entry.now cert.entry.now pool) }
        { *place = check_pool(plan, cert, gate, pool) },
    );
}

/// Returns a list of `pools` elements, each of which is `None`.
fn empty_results(alloc: Global, pools: usize) -> Result<Vec<Option<PoolCheck>>, AllocError>
    ensures { IfOk result (λ found. vec_len found ≡ pools) }
{
    let mut found = Vec::new(alloc);
    found.resize(pools, None)?;
    Ok(found)
}

/// Calls the gate for the pool. If the gate returns `true`, checks the pool and returns the result.
/// Otherwise returns `None`.
fn check_pool<G: PoolGate>(plan: &Plan, cert: &Cert, gate: &G, pool: usize) -> Option<PoolCheck>
    requires fits { IsTrue (cert_fits plan.now cert.now) }
    requires pool { pool < length plan.now.pools }
    ensures { IfSome result (λ check. check ≡ pool_check plan.now cert.now pool) }
{
    if !gate.begin(pool) {
        return None;
    }
    Some(PoolCheck {
        pool,
        line: pool_line(plan, cert, pool),
        holds: pool_holds(plan, cert, pool),
    })
}

/// Returns the verdict. `found` has the results of the pools in plan order. The conditions of the
/// ranks are checked here. Returns `None` if a pool has no result.
fn verdict_of(
    alloc: Global,
    plan: &Plan,
    cert: &Cert,
    found: &[Option<PoolCheck>],
) -> Result<Option<Verdict>, AllocError>
    requires fits { IsTrue (cert_fits plan.now cert.now) }
    requires checked { AreChecked plan.now cert.now found.now }
    ensures verdict { IfOk result (λ made. IfSome made (λ made. made ≡ verdict plan.now cert.now)) }
    ensures none { IfOk result (λ made. made ≡ None → 0 < length plan.now.pools) }
    ensures promises { IfOk result
        (λ made. IfSome made (λ made. IsTrue made.yes → Promises plan.now cert.now)) }
{
    let mut yes = cert.ranks.fault(plan).is_none();
    let mut pools = Vec::with_capacity(alloc, plan.pools().len())?;
    for (pool, place) in found.iter().enumerate() {
        let Some(check) = place else {
            return Ok(None);
        };
        prove_eq!(check.pool, pool);
        yes &= check.holds;
        pools.push(check.line)?;
    }
    Ok(Some(Verdict { yes, pools }))
}
