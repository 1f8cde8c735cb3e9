//! The check that no new thread can end the wait of a waiting set. A waiting set is a set of jobs
//! that wait only for each other. The check is that each pool with one of these jobs in its queue
//! starts no new thread.

ghost use Rattle.std.specs.Prelude.{◌≡◌, ◌<◌, IsTrue, Some, length, slice_get};
ghost use Rattle.job_bodies.specs.Plan.{pool_at};
ghost use Rattle.interleaving.specs.ViewStep.{live_job};
ghost use Rattle.interleaving.specs.OfPlan.{IsReachableView};
ghost use Rattle.weights.specs.Vector.{vector_fits};
ghost use Rattle.counterexample.specs.NoThreadStarts as spec;

use crate::Reason;
use interleaving::{Phase, World};
use job_bodies::{Class, Plan};
use weights::Vector;

/// Returns `true` if `reason` holds for each pool that has a job of `members` in its queue. These
/// pools then start no new thread. If the reason is [`PoolsStayAtCore`](Reason::PoolsStayAtCore),
/// the vectors in `standing` can prove that their pools never have more than `core` threads.
pub(crate) fn all_start_no_thread(
    plan: &Plan,
    world: &World,
    members: &[usize],
    standing: &[Vector],
    reason: Reason,
) -> bool
    requires { IsReachableView plan.now world.now.view }
    ensures { result
        ≡ spec.all_start_no_thread plan.now world.now.view standing.now reason members.now }
{
    members.iter().all(|&member| job_starts_no_thread(plan, world, member, standing, reason))
}

fn job_starts_no_thread(
    plan: &Plan,
    world: &World,
    member: usize,
    standing: &[Vector],
    reason: Reason,
) -> bool
    requires { IsReachableView plan.now world.now.view }
    ensures { result
        ≡ spec.job_starts_no_thread plan.now world.now.view standing.now reason
        (live_job world.now.view.jobs member) }
{
    let Some(job) = world.job(member) else {
        return true;
    };
    match job.phase {
        Phase::Queued => class_starts_no_thread(plan, world, job.class, standing, reason),
        _ => true,
    }
}

fn class_starts_no_thread(
    plan: &Plan,
    world: &World,
    class: usize,
    standing: &[Vector],
    reason: Reason,
) -> bool
    requires { IsReachableView plan.now world.now.view }
    ensures { result
        ≡ spec.class_starts_no_thread plan.now world.now.view standing.now reason
        (slice_get plan.now.classes class) }
{
    match plan.classes().get(class) {
        Some(class) => pool_starts_no_thread(plan, world, class.pool, standing, reason),
        None => false,
    }
}

fn pool_starts_no_thread(
    plan: &Plan,
    world: &World,
    pool: usize,
    standing: &[Vector],
    reason: Reason,
) -> bool
    requires { IsReachableView plan.now world.now.view }
    ensures { result
        ≡ spec.pool_starts_no_thread plan.now world.now.view standing.now reason pool }
{
    pool < plan.pools().len() && starts_none_for(plan, world, pool, standing, reason)
}

/// Returns `true` if `reason` holds for the pool, so that the pool starts no new thread.
fn starts_none_for(
    plan: &Plan,
    world: &World,
    pool: usize,
    standing: &[Vector],
    reason: Reason,
) -> bool
    requires inside { pool < length plan.now.pools }
    requires in_view { pool < length world.now.view.pools }
    ensures { result ≡ spec.starts_none_for plan.now world.now.view standing.now reason pool }
{
    match reason {
        Reason::PoolsAreFull => has_max_threads(world, pool),
        Reason::PoolsStayAtCore => {
            has_max_threads(world, pool) || stays_at_core(plan, world, pool, standing)
        }
    }
}

/// Returns `true` if the pool has `max` threads.
fn has_max_threads(world: &World, pool: usize) -> bool
    requires { pool < length world.now.view.pools }
    ensures { result ≡ spec.has_max_threads world.now.view pool }
{
    let state = world.pool(pool);
    state.threads() == state.max()
}

/// Returns `true` if the pool has at least `core` threads and starts no thread above `core`. The
/// pool starts none in two cases:
///
/// - The pool has an unbounded queue.
/// - The pool's vector in `standing` proves that the pool never has more than `core` threads.
fn stays_at_core(plan: &Plan, world: &World, pool: usize, standing: &[Vector]) -> bool
    requires inside { pool < length plan.now.pools }
    requires in_view { pool < length world.now.view.pools }
    ensures { result ≡ spec.stays_at_core plan.now world.now.view standing.now pool }
{
    let state = world.pool(pool);
    state.threads() >= state.core() && (state.is_unbounded() || has_standing(plan, pool, standing))
}

/// Returns `true` if the pool's vector in `standing` proves that the pool never has more than
/// `core` threads. The proof needs two conditions:
///
/// - The vector is a standing vector of the pool: its weights bound the number of queued jobs.
/// - Under the vector, a rejected job does not increase the weight of a state.
fn has_standing(plan: &Plan, pool: usize, standing: &[Vector]) -> bool
    requires { pool < length plan.now.pools }
    ensures { result ≡ spec.has_standing plan.now pool (slice_get standing.now pool) }
{
    match standing.get(pool) {
        Some(vector) => {
            vector.fits(plan)
                && vector.standing_fault(plan, pool).is_none()
                && rejected_are_light(plan, vector)
        }
        None => false,
    }
}

/// Returns `true` if, under the vector, a rejected job does not increase the weight of a state. For
/// each class whose pool may reject jobs, tests whether a done job weighs at most as much as a
/// queued job.
fn rejected_are_light(plan: &Plan, vector: &Vector) -> bool
    requires { IsTrue (vector_fits plan.now vector.now) }
    ensures { result ≡ spec.rejected_are_light plan.now vector.now }
{
    for (number, class) in plan.classes().iter().enumerate() {
        if !is_light(plan, vector, number, class) {
            return false;
        }
    }
    true
}

/// Returns `true` if a done job of the class weighs at most as much as a queued job under the
/// vector. Also returns `true` if the pool of the class must not reject jobs. `number` is the
/// number of the class.
fn is_light(plan: &Plan, vector: &Vector, number: usize, class: &Class) -> bool
    requires fits { IsTrue (vector_fits plan.now vector.now) }
    requires class { slice_get plan.now.classes number ≡ Some class.now }
    ensures { result ≡ spec.is_light plan.now vector.now (number, class.now) }
{
    if !may_reject(plan, class.pool) {
        return true;
    }
    let weights = vector.class_weights(number);
    let queued = weights[0];
    let done = weights[weights.len() - 1];
    done <= queued
}

/// Returns `true` if the plan allows the pool to reject jobs.
pub(crate) fn may_reject(plan: &Plan, pool: usize) -> bool
    ensures { result ≡ (pool_at plan.now pool).may_reject }
{
    plan.pool_at(pool).is_some_and(|pool| pool.may_reject)
}
