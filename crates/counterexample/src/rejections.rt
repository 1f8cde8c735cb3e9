//! The search for events after which a pool rejects a job, as the plan allows.

ghost use Rattle.std.specs.Prelude.{◌≡◌, ◌<◌, length, take, IfOk, IfSome};
ghost use Rattle.job_bodies.specs.WellFormed.{IsWellFormed};
ghost use Rattle.pool_machine.specs.Reach.{start};
ghost use Rattle.interleaving.specs.LiveView.{live_view};
ghost use Rattle.counterexample.specs.Rejection as spec;

use crate::search::search_witness;
use interleaving::{Event, Outcome, World};
use job_bodies::{Plan, Pool};
use std::alloc::{AllocError, Global};

/// Searches for events after which the pool rejects a job, as the plan allows. Visits at most
/// `states` states.
///
/// Returns the events up to and including the first rejection by this pool. Before it, other pools
/// may reject jobs, but no submit is refused. Returns `None` if
///
/// - the search finds no such events, although there may be some,
/// - the pool must not reject jobs,
/// - the pool has an unbounded queue, and so never rejects a job, or
/// - there is no such pool.
///
/// The result is the same for each call with the same arguments.
///
/// The search looks for a witness against a changed plan. In the changed plan, this pool must not
/// reject jobs, and its queue has a capacity of at least 1. The events of this witness are then
/// replayed in the given plan. The witness can also end with another violation: another pool
/// refuses a submit, or jobs wait only for each other. The result can then be `None`.
///
/// # Errors
///
/// Returns [`AllocError`] if memory runs out.
pub fn find_rejection(
    alloc: Global,
    plan: &Plan,
    pool: usize,
    states: usize,
) -> Result<Option<Vec<Event>>, AllocError>
    ensures { IfOk result (λ found.
        IfSome found (λ events. spec.EndsRejected plan.now events.items pool)) }
{
    let Some(own) = plan.pool_at(pool) else {
        return Ok(None);
    };
    if !own.may_reject || own.unbounded {
        return Ok(None);
    }
    let refusing = refusing_plan(alloc, plan, pool)?;
    match search_witness(alloc, &refusing, states)?.found {
        Some(found) => until_rejected(alloc, plan, found.events, pool),
        None => Ok(None),
    }
}

/// Returns a copy of the plan in which the pool must not reject jobs and its queue has a capacity
/// of at least 1.
fn refusing_plan(alloc: Global, plan: &Plan, pool: usize) -> Result<Plan, AllocError>
    requires { pool < length plan.now.pools }
    ensures { IfOk result (λ refusing. refusing ≡ spec.refusing plan.now pool) }
{
    let pools = refusing_pools(alloc, plan, pool)?;
    Ok(plan.try_clone(alloc)?.with_pools(pools))
}

fn refusing_pools(alloc: Global, plan: &Plan, pool: usize) -> Result<Vec<Pool>, AllocError>
    requires { pool < length plan.now.pools }
    ensures pools { IfOk result (λ pools. pools.items ≡ (spec.refusing plan.now pool).pools) }
    ensures well_formed { IsWellFormed plan.now }
{
    let mut pools = copies_of(alloc, plan.pools())?;
    forbid_rejections(&mut pools[pool]);
    Ok(pools)
}

/// Changes the pool into one that must not reject jobs. Raises a queue capacity of 0 to 1, because
/// such a pool needs at least 1.
fn forbid_rejections(pool: &mut Pool)
    ensures { pool.new ≡ spec.refusing_pool pool.old }
{
    pool.queue = pool.queue.max(1);
    pool.may_reject = false;
}

fn copies_of(alloc: Global, pools: &[Pool]) -> Result<Vec<Pool>, AllocError>
    ensures { IfOk result (λ copies. copies.items ≡ pools.now) }
{
    let mut copies = Vec::with_capacity(alloc, pools.len())?;
    for pool in pools {
        copies.push(pool.try_clone(alloc)?)?;
    }
    Ok(copies)
}

/// Returns the events up to and including the first event in which the pool rejects a job. Returns
/// `None` if
///
/// - there is no such event,
/// - an earlier event is not possible, or
/// - an earlier event is a refused submit.
fn until_rejected(
    alloc: Global,
    plan: &Plan,
    events: Vec<Event>,
    pool: usize,
) -> Result<Option<Vec<Event>>, AllocError>
    ensures { IfOk result (λ found.
        IfSome found (λ events. spec.EndsRejected plan.now events.items pool)) }
{
    let mut events = events;
    match length_until_rejected(alloc, plan, &events, pool)? {
        Some(length) => {
            events.truncate(length);
            Ok(Some(events))
        }
        None => Ok(None),
    }
}

/// Returns the number of events up to and including the first event in which the pool rejects a
/// job. Returns `None` in the cases of [`until_rejected`].
fn length_until_rejected(
    alloc: Global,
    plan: &Plan,
    events: &[Event],
    pool: usize,
) -> Result<Option<usize>, AllocError>
    ensures { IfOk result (λ found.
        IfSome found (λ length. spec.EndsRejected plan.now (take length events.now) pool)) }
{
    let mut world = World::start(alloc, plan)?;
    first_rejection(plan, &mut world, events, pool)
}

/// Performs the events in `world` until the pool rejects a job, and returns the number of performed
/// events. `world` must be in the plan's initial state. Returns `None` if
///
/// - the pool rejects no job,
/// - an earlier event is not possible, or
/// - an earlier event is a refused submit.
fn first_rejection(
    plan: &Plan,
    world: &mut World,
    events: &[Event],
    pool: usize,
) -> Result<Option<usize>, AllocError>
    requires { world.old.view ≡ live_view plan.now (start plan.now) }
    ensures { IfOk result (λ found.
        IfSome found (λ length. spec.EndsRejected plan.now (take length events.now) pool)) }
{
    for (index, event) in events.iter().enumerate() {
        let Some(outcome) = world.step(plan, *event)? else {
            return Ok(None);
        };
        if let Outcome::Refused(_) = outcome {
            return Ok(None);
        }
        if is_rejection_by(pool, outcome) {
            return Ok(Some(index + 1));
        }
    }
    Ok(None)
}

fn is_rejection_by(pool: usize, outcome: Outcome) -> bool
    ensures { result ≡ spec.is_rejection_by pool outcome }
{
    match outcome {
        Outcome::Rejected(by, _) => by == pool,
        _ => false,
    }
}
