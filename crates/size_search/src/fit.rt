//! The least cores and queues with which a certificate accepts a plan.

ghost use Rattle.std.specs.Prelude.{◌≡◌, ◌<◌, if◌then◌else◌, IfOk, IfErr, IsTrue, None, Some, length, max, not, slice_index_or};
ghost use Rattle.std.specs.List.{enumerate_from, find};
ghost use Rattle.job_bodies.specs.Plan.{needs_no_bound, no_pool, pool_at};
ghost use Rattle.job_bodies.specs.WellFormed.{IsWellFormed};
ghost use Rattle.weights.specs.Vector.{vector_fits};
ghost use Rattle.weights.specs.Bound.{bound_vector};
ghost use Rattle.cert_text.specs.Cert.{bound_fits, cert_fits, pool_cert_at};
ghost use Rattle.size_search.specs.Fitted as spec;
ghost use Rattle.size_search.specs.Widened.{HasLeastCores};
ghost use Rattle.size_search.specs.FitError.{failing_elsewhere, first_short, first_tight, unfit_sizes, why_unfit};

use crate::FitError;
use crate::fit_error::unfit_pools;
use cert_text::Cert;
use job_bodies::{Plan, Pool};
use refusal_notes::notes;
use soundness::Note;
use std::alloc::{AllocError, Global};
use weights::{Bound, Place, Vector};

/// Returns the core that a pool with this blocked vector needs: 1 more than the total of the
/// vector. The total bounds the number of the pool's jobs that wait for other jobs at one time.
pub(crate) fn core_needed(plan: &Plan, blocked: &Vector) -> u64
    requires well_formed { IsWellFormed plan.now }
    requires fits { IsTrue (vector_fits plan.now blocked.now) }
    ensures { result ≡ spec.core_needed plan.now blocked.now }
{
    blocked.total(plan) + 1
}

/// Returns the number of the pool's `max` threads that are not prestarted. Each of them starts with
/// a job, which needs no place in the queue. Returns 0 if core threads may time out, because Java
/// then also starts threads without a job.
fn threads_with_job(pool: &Pool) -> u64
    ensures { result ≡ spec.threads_with_job pool.now }
{
    if pool.core_timeout {
        0
    } else {
        pool.max.saturating_sub(pool.first_workers())
    }
}

/// Returns the queue capacity that a pool with this core and maximum needs for this bound.
fn queue_of_bound(plan: &Plan, bound: &Bound, pool: &Pool) -> u64
    requires well_formed { IsWellFormed plan.now }
    requires fits { IsTrue (vector_fits plan.now (bound_vector bound.now)) }
    ensures { result ≡ spec.queue_of_bound plan.now bound.now pool.now }
{
    match bound {
        Bound::Standing(vector) => vector.total(plan),
        Bound::Lifetime(vector) => vector.total(plan).saturating_sub(threads_with_job(pool)),
    }
}

/// Returns the queue capacity that a pool needs for this bound. `number` is the number of the pool,
/// and `pool` has its core and maximum. Returns 0 if there is no bound or the queue is unbounded.
fn queue_needed(plan: &Plan, bound: &Option<Bound>, number: usize, pool: &Pool) -> u64
    requires well_formed { IsWellFormed plan.now }
    requires fits { IsTrue (bound_fits plan.now number bound.now) }
    ensures { result ≡ spec.queue_needed plan.now bound.now pool.now }
{
    match bound {
        Some(bound) if !pool.unbounded => queue_of_bound(plan, bound, pool),
        _ => 0,
    }
}

/// Returns the capacity of the pool's queue, raised to at least `needed`. If the pool needs no
/// bound, returns the capacity unchanged.
fn raised_queue(pool: &Pool, needed: u64) -> u64
    ensures { result
        ≡ (if needs_no_bound pool.now then pool.now.queue else max pool.now.queue needed) }
{
    if pool.needs_no_bound() {
        pool.queue
    } else {
        pool.queue.max(needed)
    }
}

/// Returns the core of the pool, raised to at least `needed`. A core whose threads may time out
/// stays unchanged.
fn raised_core(pool: &Pool, needed: u64) -> u64
    ensures { result
        ≡ (if pool.now.core_timeout then pool.now.core else max pool.now.core needed) }
{
    if pool.core_timeout {
        pool.core
    } else {
        pool.core.max(needed)
    }
}

/// Returns the pool with this number, after its core and then its queue were raised to what the
/// certificate needs. The core is raised first, because a prestarted pool with a larger core can
/// need a larger queue. The queue of a pool that needs no bound stays unchanged. A core whose
/// threads may time out stays unchanged too.
fn raised_pool(alloc: Global, plan: &Plan, cert: &Cert, number: usize) -> Result<Pool, AllocError>
    requires fits { IsTrue (cert_fits plan.now cert.now) }
    requires number { number < length plan.now.pools }
    ensures { IfOk result (λ raised.
        raised
        ≡ spec.raised_pool plan.now (pool_cert_at cert.now number) (pool_at plan.now number)) }
{
    let needs = cert.pool_at(number);
    let mut raised = plan.pools()[number].try_clone(alloc)?;
    raised.core = raised_core(&raised, core_needed(plan, &needs.blocked));
    let needed = queue_needed(plan, &needs.bound, number, &raised);
    raised.queue = raised_queue(&raised, needed);
    Ok(raised)
}

fn raised_pools(alloc: Global, plan: &Plan, cert: &Cert) -> Result<Vec<Pool>, AllocError>
    requires { IsTrue (cert_fits plan.now cert.now) }
    ensures pools { IfOk result (λ pools. pools.items ≡ (spec.raised plan.now cert.now).pools) }
    ensures well_formed { IsWellFormed plan.now }
{
    let mut pools = Vec::with_capacity(alloc, plan.pools().len())?;
    for number in 0..plan.pools().len() {
        pools.push(raised_pool(alloc, plan, cert, number)?)?;
    }
    Ok(pools)
}

/// Returns whether the place is [`Place::Total`]. The conditions at this place limit the total of a
/// vector, and their limits depend on the sizes of pools.
fn is_total(place: Place) -> bool
    ensures { result ≡ spec.is_total place }
{
    matches!(place, Place::Total)
}

/// Returns the first condition in `notes` that does not limit a total, or `None` if each of them
/// limits a total. `notes` has failing conditions.
fn first_elsewhere(notes: &[Note]) -> Option<Note>
    ensures { result ≡ find (λ note. not (spec.is_total note.place)) notes.now }
{
    for note in notes {
        if !is_total(note.place) {
            return Some(*note);
        }
    }
    None
}

/// Returns the first failing condition of the certificate that depends neither on cores nor on
/// queues, or `None` if there is no such condition.
fn failing_elsewhere(alloc: Global, plan: &Plan, cert: &Cert) -> Result<Option<Note>, AllocError>
    requires { IsTrue (cert_fits plan.now cert.now) }
    ensures { IfOk result (λ found. found ≡ failing_elsewhere plan.now cert.now) }
{
    let failing = notes(alloc, plan, cert)?;
    Ok(first_elsewhere(&failing))
}

/// Returns whether the raised pool with this number has a smaller queue than the certificate needs.
/// This is possible only if the pool may reject jobs, because its queue is then not raised.
fn is_tight(plan: &Plan, cert: &Cert, raised: &[Pool], number: usize) -> bool
    requires well_formed { IsWellFormed plan.now }
    requires fits { IsTrue (cert_fits plan.now cert.now) }
    requires raised { raised.now ≡ (spec.raised plan.now cert.now).pools }
    requires number { number < length raised.now }
    ensures { result
        ≡ not (spec.has_queue plan.now (pool_cert_at cert.now number).bound (slice_index_or raised.now number no_pool)) }
{
    let needs = cert.pool_at(number);
    let pool = &raised[number];
    pool.queue < queue_needed(plan, &needs.bound, number, pool)
}

/// Returns [`FitError::Queue`] with the number of the first raised pool that has a smaller queue
/// than the certificate needs. Returns `None` if there is no such pool.
fn tight_queue(plan: &Plan, cert: &Cert, raised: &[Pool]) -> Option<FitError>
    requires well_formed { IsWellFormed plan.now }
    requires fits { IsTrue (cert_fits plan.now cert.now) }
    requires raised { raised.now ≡ (spec.raised plan.now cert.now).pools }
    ensures { result ≡ first_tight plan.now cert.now (enumerate_from 0 raised.now) }
{
    for number in 0..raised.len() {
        if is_tight(plan, cert, raised, number) {
            return Some(FitError::Queue(number));
        }
    }
    None
}

/// Returns whether the raised pool with this number has fewer threads than the certificate needs.
/// This is possible only if the core threads of the pool may time out, because its core is then not
/// raised.
fn is_short(plan: &Plan, cert: &Cert, raised: &[Pool], number: usize) -> bool
    requires well_formed { IsWellFormed plan.now }
    requires fits { IsTrue (cert_fits plan.now cert.now) }
    requires raised { raised.now ≡ (spec.raised plan.now cert.now).pools }
    requires number { number < length raised.now }
    ensures { result
        ≡ not (spec.has_threads plan.now (pool_cert_at cert.now number).blocked (slice_index_or raised.now number no_pool)) }
{
    let needs = cert.pool_at(number);
    let pool = &raised[number];
    pool.least_threads() < core_needed(plan, &needs.blocked)
}

/// Returns [`FitError::CoreTimeout`] with the number of the first raised pool that has fewer
/// threads than the certificate needs. Returns `None` if there is no such pool.
fn short_pool(plan: &Plan, cert: &Cert, raised: &[Pool]) -> Option<FitError>
    requires well_formed { IsWellFormed plan.now }
    requires fits { IsTrue (cert_fits plan.now cert.now) }
    requires raised { raised.now ≡ (spec.raised plan.now cert.now).pools }
    ensures { result ≡ first_short plan.now cert.now (enumerate_from 0 raised.now) }
{
    for number in 0..raised.len() {
        if is_short(plan, cert, raised, number) {
            return Some(FitError::CoreTimeout(number));
        }
    }
    None
}

/// Returns `None` if the sizes that the certificate needs are possible, and otherwise the reason
/// why they are not. `raised` has the plan's pools with these sizes.
fn unfit_sizes(plan: &Plan, cert: &Cert, raised: &[Pool]) -> Option<FitError>
    requires well_formed { IsWellFormed plan.now }
    requires fits { IsTrue (cert_fits plan.now cert.now) }
    requires raised { raised.now ≡ (spec.raised plan.now cert.now).pools }
    ensures { result ≡ unfit_sizes plan.now cert.now }
{
    if let Some(unfit) = unfit_pools(raised) {
        return Some(unfit);
    }
    match tight_queue(plan, cert, raised) {
        Some(unfit) => Some(unfit),
        None => short_pool(plan, cert, raised),
    }
}

/// Returns the reason why the plan cannot be fitted to the certificate, or `None` if it can be
/// fitted. `raised` has the plan's pools with the sizes that the certificate needs.
fn fit_error(
    alloc: Global,
    plan: &Plan,
    cert: &Cert,
    raised: &[Pool],
) -> Result<Option<FitError>, AllocError>
    requires well_formed { IsWellFormed plan.now }
    requires fits { IsTrue (cert_fits plan.now cert.now) }
    requires raised { raised.now ≡ (spec.raised plan.now cert.now).pools }
    ensures { IfOk result (λ found. found ≡ why_unfit plan.now cert.now) }
{
    match failing_elsewhere(alloc, plan, cert)? {
        Some(note) => Ok(Some(FitError::Condition(note))),
        None => Ok(unfit_sizes(plan, cert, raised)),
    }
}

/// Returns the plan with the least cores and queues that make the certificate accept the plan. A
/// core or a queue is only raised, never made smaller. Even with larger maximums, no smaller cores
/// would be enough. If there are no such cores and queues, the inner error has the given plan and
/// the reason.
///
/// These sizes stay unchanged:
///
/// - The queue of a pool that may reject jobs. If the certificate has a bound of this queue, the
///   queue must already be large enough.
/// - An unbounded queue, which is large enough for every bound.
/// - A core whose threads may time out. The total of its pool's blocked vector must then be 0.
///
/// # Errors
///
/// Returns [`AllocError`] if memory runs out.
pub fn fitted(
    alloc: Global,
    plan: Plan,
    cert: &Cert,
) -> Result<Result<Plan, (Plan, FitError)>, AllocError>
    ensures fitted { IfOk result
        (λ answer. IfOk answer (λ fit. spec.fitted plan cert.now ≡ Some fit)) }
    ensures least { IfOk result (λ answer. IfOk answer (spec.IsLeastFit plan cert.now)) }
    ensures least_cores { IfOk result (λ answer. IfOk answer (HasLeastCores plan cert.now)) }

    ensures not_fitted { IfOk result
        (λ answer. IfErr answer (λ _. spec.fitted plan cert.now ≡ None)) }
    ensures none { IfOk result (λ answer. IfErr answer (λ _. spec.NoneFits plan cert.now)) }
    ensures why { IfOk result
        (λ answer. IfErr answer (λ back. why_unfit plan cert.now ≡ Some back.1)) }
    ensures back { IfOk result (λ answer. IfErr answer (λ back. back.0 ≡ plan)) }
{
    if !cert.fits(&plan) {
        return Ok(Err((plan, FitError::Shape)));
    }
    let pools = raised_pools(alloc, &plan, cert)?;
    match fit_error(alloc, &plan, cert, &pools)? {
        Some(unfit) => Ok(Err((plan, unfit))),
        None => Ok(Ok(plan.with_pools(pools))),
    }
}

fn smallest_queue(pool: &Pool) -> u64
    ensures { result ≡ (if needs_no_bound pool.now then pool.now.queue else 1) }
{
    if pool.needs_no_bound() { pool.queue } else { 1 }
}

fn smallest_core(pool: &Pool) -> u64
    ensures { result ≡ (if pool.now.core_timeout then pool.now.core else 1) }
{
    if pool.core_timeout { pool.core } else { 1 }
}

fn smallest_pool(alloc: Global, pool: &Pool) -> Result<Pool, AllocError>
    ensures { IfOk result (λ small. small ≡ spec.smallest_pool pool.now) }
{
    let mut small = pool.try_clone(alloc)?;
    small.core = smallest_core(pool);
    small.queue = smallest_queue(pool);
    Ok(small)
}

fn smallest_pools(alloc: Global, plan: &Plan) -> Result<Vec<Pool>, AllocError>
    ensures pools { IfOk result (λ small. small.items ≡ (spec.smallest plan.now).pools) }
    ensures well_formed { IsWellFormed plan.now }
{
    let mut small = Vec::with_capacity(alloc, plan.pools().len())?;
    for pool in plan.pools() {
        small.push(smallest_pool(alloc, pool)?)?;
    }
    Ok(small)
}

/// Returns the plan with each core and each queue set to 1, except for these sizes, which stay
/// unchanged: the cores whose threads may time out, the queues of pools that may reject jobs, and
/// the unbounded queues.
///
/// [`fitted`] raises the sizes of the returned plan to the least cores and queues that make a
/// certificate accept the plan. The fitted sizes can be smaller than the declared sizes.
///
/// # Errors
///
/// Returns [`AllocError`] if memory runs out.
pub fn smallest(alloc: Global, plan: &Plan) -> Result<Plan, AllocError>
    ensures { IfOk result (λ small. small ≡ spec.smallest plan.now) }
{
    let pools = smallest_pools(alloc, plan)?;
    Ok(plan.try_clone(alloc)?.with_pools(pools))
}
