//! The conditions under which lints are reported.

ghost use Rattle.std.specs.Prelude.{◌≡◌, slice_index_or, false};
ghost use Rattle.std.specs.List.{list_any, list_all};
ghost use Rattle.job_bodies.specs.Plan.{pool_at, class_at};
ghost use Rattle.diagnostics.specs.Lints as spec;

use crate::open_futures::has_open_future;
use job_bodies::{Action, Class, Client, Plan, Pool, has_get_of};

/// The number by which [`is_far_above`] divides the capacity of a queue, before it compares the
/// result with a number of jobs.
const FAR_ABOVE: u64 = 10;

/// The least length of a `work`, in units, that can look like a size. For a shorter length,
/// [`looks_like_a_size`] always returns `false`.
const LIKE_A_SIZE: u32 = 50;

/// Returns whether clients submit the class with this number, directly or through other jobs.
/// `marks` has the answer for each class. Returns `false` if there is no such class.
pub(crate) fn is_submitted(marks: &[bool], class: usize) -> bool
    ensures { result ≡ slice_index_or marks.now class false }
{
    class < marks.len() && marks[class]
}

/// Returns whether clients submit any class. `marks` has, for each class, whether clients submit
/// it.
pub(crate) fn is_any_submitted(marks: &[bool]) -> bool
    ensures { result ≡ list_any (λ mark. mark) marks.now }
{
    marks.iter().any(|mark| *mark)
}

/// Returns the bound on the number of jobs in the queue of this pool at once. `needed` has this
/// bound for each pool. Returns `None` if no bound is known, or if there is no such pool.
pub(crate) fn most_at(needed: &[Option<u64>], pool: usize) -> Option<u64>
    ensures { result ≡ slice_index_or needed.now pool None }
{
    if pool < needed.len() {
        needed[pool]
    } else {
        None
    }
}

/// Returns whether clients submit jobs to the pool with this number, directly or through other
/// jobs. `marks` has, for each class, whether clients submit it.
pub(crate) fn gets_a_job(plan: &Plan, marks: &[bool], pool: usize) -> bool
    ensures { result ≡ spec.gets_a_job plan.now marks.now pool }
{
    plan.classes()
        .iter()
        .enumerate()
        .any(|(number, class)| brings_jobs(marks, number, class, pool))
}

fn brings_jobs(marks: &[bool], number: usize, class: &Class, pool: usize) -> bool
    ensures { result ≡ spec.brings_jobs marks.now pool number class.now }
{
    is_submitted(marks, number) && class.pool == pool
}

/// Returns whether the pool starts threads above its core size when a submit finds the queue full,
/// and only then. Such a pool has a maximum above its core size, a bounded queue, and core threads
/// that never time out. If core threads may time out, the pool can start a thread above its core
/// size to replace one that ended, even if its queue is never full.
pub(crate) fn grows_if_full(pool: &Pool) -> bool
    ensures { result ≡ spec.grows_if_full pool.now }
{
    !pool.unbounded && !pool.core_timeout && pool.core < pool.max
}

/// Returns whether the pool's maximum is above its core size, but has no effect: the pool starts
/// threads above its core size only if its queue is full (see [`grows_if_full`]), and the queue can
/// hold `most` jobs. `most` is a bound on the number of jobs in the queue at once.
pub(crate) fn has_useless_max(pool: &Pool, most: u64) -> bool
    ensures { result ≡ spec.has_useless_max pool.now most }
{
    grows_if_full(pool) && most <= pool.queue
}

/// Returns whether the plan allows the pool to reject jobs, but the pool never does, because its
/// queue can hold `most` jobs. `most` is a bound on the number of jobs in the queue at once.
pub(crate) fn never_rejects(pool: &Pool, most: u64) -> bool
    ensures { result ≡ spec.never_rejects pool.now most }
{
    pool.may_reject && most <= pool.queue
}

/// Returns whether the capacity of the queue is far above `most`. This means that a tenth of the
/// capacity, rounded down, exceeds both `most` and 1. `most` is a bound on the number of jobs in
/// the queue at once.
pub(crate) fn is_far_above(pool: &Pool, most: u64) -> bool
    ensures { result ≡ spec.is_far_above pool.now most }
{
    most.max(1) < pool.queue / FAR_ABOVE
}

/// Returns true if the pool of the class may reject the class's jobs and the body of the class has
/// submits or gets. `needed` has, for each pool, a bound on the number of jobs in its queue at
/// once, or `None` if no bound is known.
pub(crate) fn may_run_in_caller(plan: &Plan, needed: &[Option<u64>], class: &Class) -> bool
    ensures { result ≡ spec.may_run_in_caller plan.now needed.now class.now }
{
    may_reject_jobs(plan, needed, class.pool) && !has_only_work(&class.body)
}

fn has_only_work(body: &[Action]) -> bool
    ensures { result ≡ list_all spec.is_work body.now }
{
    body.iter().all(|action| is_work(*action))
}

fn is_work(action: Action) -> bool
    ensures { result ≡ spec.is_work action }
{
    matches!(action, Action::Work(_))
}

/// Returns whether a submit of `class` at this position of the body meets two conditions:
///
/// - A future is open at the position (see [`has_open_future`]).
/// - The pool of the class may reject the job (see [`may_reject_jobs`]).
///
/// `needed` has, for each pool, a bound on the number of jobs in its queue at once, or `None` if no
/// bound is known.
pub(crate) fn leaves_a_future(
    plan: &Plan,
    needed: &[Option<u64>],
    body: &[Action],
    position: usize,
    class: usize,
) -> bool
    ensures { result ≡ spec.leaves_a_future plan.now needed.now body.now position class }
{
    may_reject_jobs(plan, needed, pool_of(plan, class)) && has_open_future(body, position)
}

/// Returns whether the pool with this number may reject jobs: the plan allows the pool to reject
/// jobs, and the queue may be too small for all jobs (see [`holds_all`]). `needed` has, for each
/// pool, a bound on the number of jobs in its queue at once, or `None` if no bound is known.
/// Returns `false` if there is no such pool.
fn may_reject_jobs(plan: &Plan, needed: &[Option<u64>], number: usize) -> bool
    ensures { result ≡ spec.may_reject_jobs plan.now needed.now number }
{
    match plan.pool_at(number) {
        Some(pool) => pool.may_reject && !holds_all(pool, most_at(needed, number)),
        None => false,
    }
}

/// Returns whether the queue of the pool certainly has room for all jobs: either it is unbounded,
/// or `most` is known, and the capacity of the queue is at least `most`. `most` is a bound on the
/// number of jobs in the queue at once, or `None` if no bound is known.
fn holds_all(pool: &Pool, most: Option<u64>) -> bool
    ensures { result ≡ spec.holds_all pool.now most }
{
    match most {
        Some(most) => pool.unbounded || most <= pool.queue,
        None => pool.unbounded,
    }
}

/// Returns true if the action at this position submits a job to a pool with an unbounded queue and
/// the body has no get of this job.
pub(crate) fn fills_queue(plan: &Plan, body: &[Action], position: usize, action: Action) -> bool
    ensures { result ≡ spec.fills_queue plan.now body.now position action }
{
    match action {
        Action::Submit(class) => {
            is_unbounded(plan, pool_of(plan, class)) && !has_get_of(body, position)
        }
        Action::Work(_) | Action::Get(_) => false,
    }
}

/// Returns whether the queue of the pool with this number is unbounded. Returns `false` if there is
/// no such pool.
fn is_unbounded(plan: &Plan, number: usize) -> bool
    ensures { result ≡ (pool_at plan.now number).unbounded }
{
    match plan.pool_at(number) {
        Some(pool) => pool.unbounded,
        None => false,
    }
}

/// Returns whether the clients of this kind submit jobs, but only to pools that are small for the
/// number of these clients (see [`is_small`]).
pub(crate) fn are_a_crowd(plan: &Plan, client: &Client) -> bool
    ensures { result ≡ spec.are_a_crowd plan.now client.now }
{
    submits_any(&client.body) && submits_to_small_alone(plan, client.count, &client.body)
}

fn submits_any(body: &[Action]) -> bool
    ensures { result ≡ list_any spec.is_submit body.now }
{
    body.iter().any(|action| is_submit(*action))
}

fn is_submit(action: Action) -> bool
    ensures { result ≡ spec.is_submit action }
{
    matches!(action, Action::Submit(_))
}

fn submits_to_small_alone(plan: &Plan, count: u64, body: &[Action]) -> bool
    ensures { result ≡ list_all (spec.is_for_small plan.now count) body.now }
{
    body.iter().all(|action| is_for_small(plan, count, *action))
}

/// Returns `true` if the action submits a job to a pool that is small for `count` clients (see
/// [`is_small`]). Also returns `true` if the action is not a submit.
fn is_for_small(plan: &Plan, count: u64, action: Action) -> bool
    ensures { result ≡ spec.is_for_small plan.now count action }
{
    match action {
        Action::Submit(class) => is_small_at(plan, count, pool_of(plan, class)),
        Action::Work(_) | Action::Get(_) => true,
    }
}

/// Returns the number of the pool that runs the jobs of the class, or 0 if there is no such class.
fn pool_of(plan: &Plan, class: usize) -> usize
    ensures { result ≡ (class_at plan.now class).pool }
{
    match plan.class_at(class) {
        Some(class) => class.pool,
        None => 0,
    }
}

fn is_small_at(plan: &Plan, count: u64, pool: usize) -> bool
    ensures { result ≡ spec.is_small count (pool_at plan.now pool) }
{
    match plan.pool_at(pool) {
        Some(pool) => is_small(count, pool),
        None => false,
    }
}

/// Returns whether the pool is small for `count` clients. Such a pool has one core thread, and a
/// bounded queue with a capacity below `count`. The plan does not allow such a pool to reject jobs.
fn is_small(count: u64, pool: &Pool) -> bool
    ensures { result ≡ spec.is_small count pool.now }
{
    pool.core == 1 && pool.queue < count && !pool.needs_no_bound()
}

/// Returns whether `units`, the length of a `work`, looks like a size: it is at least 50, and it is
/// a size of a pool or the count of a client kind (see [`is_a_size`]).
pub(crate) fn looks_like_a_size(plan: &Plan, units: u32) -> bool
    ensures { result ≡ spec.looks_like_a_size plan.now units }
{
    LIKE_A_SIZE <= units && is_a_size(plan, u64::from(units))
}

/// Returns whether the number is a size of some pool (see [`has_size`]) or the count of some client
/// kind.
fn is_a_size(plan: &Plan, number: u64) -> bool
    ensures { result ≡ spec.is_a_size plan.now number }
{
    is_size_of_any(plan.pools(), number) || is_count_of_any(plan.clients(), number)
}

fn is_size_of_any(pools: &[Pool], number: u64) -> bool
    ensures { result ≡ list_any (spec.has_size number) pools.now }
{
    pools.iter().any(|pool| has_size(pool, number))
}

/// Returns true if the number is a size of the pool that has an effect. If the queue is unbounded,
/// its capacity has no effect. The maximum then has an effect only if core threads may time out.
fn has_size(pool: &Pool, number: u64) -> bool
    ensures { result ≡ spec.has_size number pool.now }
{
    pool.core == number || has_used_max(pool, number) || !pool.unbounded && pool.queue == number
}

/// Returns true if the number is the maximum of the pool and this maximum has an effect.
fn has_used_max(pool: &Pool, number: u64) -> bool
    ensures { result ≡ spec.has_used_max number pool.now }
{
    pool.max == number && (!pool.unbounded || pool.core_timeout)
}

fn is_count_of_any(clients: &[Client], number: u64) -> bool
    ensures { result ≡ list_any (spec.has_count number) clients.now }
{
    clients.iter().any(|client| client.count == number)
}
