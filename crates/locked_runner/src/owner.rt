//! The owners of events. Each list of receipts of a run belongs to one owner.

ghost use Rattle.std.specs.Prelude.{◌≡◌, ◌≢◌, ◌<◌, None, IfOk, map, length};
ghost use Rattle.job_bodies.specs.WellFormed.{IsWellFormed};
ghost use Rattle.pool_machine.specs.State.{State};
ghost use Rattle.pool_machine.specs.State as state;
ghost use Rattle.pool_machine.specs.Step.{step};
ghost use Rattle.pool_machine.specs.Reach.{IsReached};
ghost use Rattle.interleaving.specs.LiveView.{live_view};
ghost use Rattle.std.specs.List.{enumerate_from};
ghost use Rattle.locked_runner.specs.Owner as spec;

use crate::carriers::carriers;
use interleaving::{Event, World};
use job_bodies::Plan;
use std::alloc::{AllocError, Global};

/// The owner of an event: a client or a pool. A pool owns each event in which one of its threads
/// takes a job, performs an action of a job, or ends a job.
#[derive(Clone, Copy)]
pub enum Owner {
    Client(usize),
    Pool(usize),
}

/// If a job performs the event, returns the number of the job's pool. Returns 0 if no job performs
/// the event, or if the job is not in `world`. `world` is the world before the event.
pub(crate) fn pool_of(plan: &Plan, world: &World, event: Event) -> u8
    ensures { (s : State)
        → IsReached plan.now s
        → live_view plan.now s ≡ world.now.view
        → step plan.now s event ≢ None
        → spec.owner_by event result ≡ spec.owner_in plan.now s event }
{
    match event {
        Event::Job(number) => match world.job(number) {
            Some(job) => pool_of_class(plan, job.class),
            None => 0,
        },
        Event::Client(_) | Event::Take(_) | Event::Retire(_) => 0,
    }
}

/// Returns the number of the class's pool, or 0 if there is no such class. The number fits in 8
/// bits, because a plan has at most 64 pools.
fn pool_of_class(plan: &Plan, class: usize) -> u8
    ensures exists { class < length plan.now.classes → result ≡ state.pool_of plan.now class }
    ensures well_formed { IsWellFormed plan.now }
{
    match plan.classes().get(class) {
        Some(class) => class.pool as u8,
        None => 0,
    }
}

/// Returns the owner of the event. If a job performs the event, `pool` must be the pool of this
/// job. For any other event, `pool` has no effect. Returns `None` for the end of an idle worker,
/// because no thread of a run performs such an event.
pub(crate) fn owner_by(event: Event, pool: u8) -> Option<Owner>
    ensures { result ≡ spec.owner_by event pool }
{
    match event {
        Event::Client(client) => Some(Owner::Client(client)),
        Event::Job(_) => Some(Owner::Pool(usize::from(pool))),
        Event::Take(pool) => Some(Owner::Pool(pool)),
        Event::Retire(_) => None,
    }
}

/// Returns, for each client, the index of its client kind.
///
/// # Errors
///
/// Returns `AllocError` if there is not enough memory for the list.
pub fn kinds_of(alloc: Global, plan: &Plan) -> Result<Vec<usize>, AllocError>
    ensures { IfOk result (λ kinds. kinds.items ≡ spec.kinds_of plan.now) }
{
    let mut kinds = Vec::new(alloc);
    for (kind, client) in plan.clients().iter().enumerate() {
        let count = client.count as usize;
        kinds.resize(kinds.len() + count, kind)?;
    }
    Ok(kinds)
}

/// Returns the owner of each list of receipts of a run. First there is one list for each client.
/// Then there is, for each pool, one list for each thread that a run has for the pool. `kinds` has
/// one entry for each client (see [`kinds_of`]).
///
/// # Errors
///
/// Returns `AllocError` if there is not enough memory for the list.
pub fn lists_of(alloc: Global, plan: &Plan, kinds: &[usize]) -> Result<Vec<Owner>, AllocError>
    requires { kinds.now ≡ spec.kinds_of plan.now }
    ensures { IfOk result (λ lists. lists.items ≡ spec.lists_of plan.now) }
{
    let mut owners = clients_of(alloc, kinds)?;
    for (number, pool) in plan.pools().iter().enumerate() {
        let threads = carriers(pool) as usize;
        owners.resize(owners.len() + threads, Owner::Pool(number))?;
    }
    Ok(owners)
}

fn clients_of(alloc: Global, kinds: &[usize]) -> Result<Vec<Owner>, AllocError>
    ensures { IfOk result
        (λ lists. lists.items ≡ map spec.client_list (enumerate_from 0 kinds.now)) }
{
    let mut owners = Vec::new(alloc);
    for number in 0..kinds.len() {
        owners.push(Owner::Client(number))?;
    }
    Ok(owners)
}
