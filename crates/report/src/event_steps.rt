//! The events of a witness: the actor of each event, and what this actor does. A witness is a
//! counterexample: a list of events whose last event is a refused submit, or after which jobs wait
//! only for each other.

ghost use Rattle.std.specs.Prelude.{◌≡◌, IfOk};
ghost use Rattle.job_bodies.specs.WellFormed.{IsWellFormed};
ghost use Rattle.pool_machine.specs.State.{State, pool_of};
ghost use Rattle.pool_machine.specs.Reach.{start, IsReached};
ghost use Rattle.interleaving.specs.LiveView.{live_view};
ghost use Rattle.interleaving.specs.OfPlan.{IsReachableView};
ghost use Rattle.report.specs.EventSteps as spec;
ghost use Rattle.report.specs.Performed as performed;

use interleaving::{Clients, Event, Outcome, Phase, World};
use job_bodies::Plan;
use std::alloc::{AllocError, Global};

/// The actor of an event.
#[derive(Clone, Copy)]
pub(crate) enum Actor {
    /// A client. The first field is the index of its client kind, and the second field is its own
    /// number.
    Client(usize, usize),
    /// A job. The first field is the index of its class, and the second field is its own number.
    Job(usize, usize),
    /// An idle thread of the pool with this index.
    Pool(usize),
}

/// The number of threads of a pool, and the number of its idle threads.
#[derive(Clone, Copy)]
pub(crate) struct PoolCounts {
    /// The index of the pool in the plan.
    pub(crate) number: usize,
    pub(crate) threads: u64,
    pub(crate) idle: u64,
}

/// An event that was performed.
#[derive(Clone, Copy)]
pub(crate) struct EventStep {
    pub(crate) actor: Actor,
    /// The index of the performed action in the actor's body. It is `None` for an event at the end
    /// of a body, and for an event of a pool.
    pub(crate) action: Option<usize>,
    pub(crate) outcome: Outcome,
    /// The pool that the event changed, and the counts of its threads and idle threads after the
    /// event. For a refused or rejected submit, this is the pool that refused or rejected it. The
    /// field is `None` if the event concerns no pool.
    pub(crate) pool: Option<PoolCounts>,
    /// The class index of the taken job, if a thread took a job from a queue. Otherwise `None`.
    pub(crate) taken: Option<usize>,
}

/// Performs the events in `world`, and returns what each event did. Stops before the first event
/// that is not possible. `world` must be in the plan's initial state.
///
/// # Errors
///
/// Returns [`AllocError`] if memory runs out.
pub(crate) fn perform_all(
    alloc: Global,
    plan: &Plan,
    world: &mut World,
    events: &[Event],
) -> Result<Vec<EventStep>, AllocError>
    requires { world.old.view ≡ live_view plan.now (start plan.now) }
    ensures value { IfOk result (λ steps. performed.PerformsAll plan.now events.now world.new.view steps.items) }
    ensures well_formed { IsWellFormed plan.now }
{
    let kinds = Clients::new(alloc, plan.clients())?;
    let mut steps = Vec::new(alloc);
    push_steps(&mut steps, plan, &kinds, world, events)?;
    Ok(steps)
}

/// Performs the events and appends what each event did. Stops before the first event that is not
/// possible. `kinds` has the client kind of each client.
fn push_steps(
    steps: &mut Vec<EventStep>,
    plan: &Plan,
    kinds: &Clients,
    world: &mut World,
    mut events: &[Event],
) -> Result<(), AllocError>
    requires well_formed { IsWellFormed plan.now }
    requires kinds { kinds.now.items ≡ (start plan.now).clients }
    requires of_plan { IsReachableView plan.now world.old.view }
    ensures { IfOk result (λ nothing. (s : State) → IsReached plan.now s → live_view plan.now s ≡ world.old.view
        → performed.Appends plan.now s events.entry.now steps.old.items steps.new.items world.new.view) }
{
    while let Some((event, rest)) = events.split_first() {
        let Some(step) = perform(plan, kinds, world, *event)? else {
            return Ok(());
        };
        steps.push(step)?;
        events = rest;
    }
    Ok(())
}

/// Performs the event and returns what it did. Changes nothing and returns `None` if the event is
/// not possible. `kinds` has the client kind of each client.
fn perform(
    plan: &Plan,
    kinds: &Clients,
    world: &mut World,
    event: Event,
) -> Result<Option<EventStep>, AllocError>
    requires well_formed { IsWellFormed plan.now }
    requires kinds { kinds.now.items ≡ (start plan.now).clients }
    requires of_plan { IsReachableView plan.now world.old.view }
    ensures value { IfOk result (λ step. (s : State) → IsReached plan.now s → live_view plan.now s ≡ world.old.view
        → performed.Performs plan.now s event step world.new.view) }
    ensures of_plan { IsReachableView plan.now world.new.view }
{
    let actor = actor_of(kinds, world, event);
    let position = position_of(world, event);
    let Some(outcome) = world.step(plan, event)? else {
        return Ok(None);
    };
    let pool = changed_pool(plan, world, actor, outcome);
    Ok(Some(EventStep {
        actor,
        action: action_of(outcome, position),
        outcome,
        pool: counts_of(plan, world, pool),
        taken: taken_class(world, outcome),
    }))
}

fn actor_of(kinds: &Clients, world: &World, event: Event) -> Actor
    ensures { result ≡ performed.actor_seen kinds.now.items world.now.view event }
{
    match event {
        Event::Client(number) => Actor::Client(
            kinds.get(number).map_or(0, |client| client.kind),
            number,
        ),
        Event::Job(number) => Actor::Job(class_of(world, number), number),
        Event::Take(pool) | Event::Retire(pool) => Actor::Pool(pool),
    }
}

/// Returns the class index of the job with this number, or 0 if `world` does not have the job.
fn class_of(world: &World, number: usize) -> usize
    ensures { result ≡ performed.class_seen world.now.view number }
{
    world.job(number).map_or(0, |job| job.class)
}

/// Returns the position that the actor of the event has in its body before the event. Returns 0 if
/// the event is one of a pool, of a client that does not exist, or of a job that does not run.
fn position_of(world: &World, event: Event) -> usize
    ensures { result ≡ performed.position_seen world.now.view event }
{
    match event {
        Event::Client(number) => world.client(number).unwrap_or(0),
        Event::Job(number) => match world.job(number) {
            Some(job) => position_in(job.phase),
            None => 0,
        },
        Event::Take(_) | Event::Retire(_) => 0,
    }
}

fn position_in(phase: Phase) -> usize
    ensures { result ≡ performed.position_in phase }
{
    match phase {
        Phase::At(position) => position,
        Phase::Queued | Phase::Done => 0,
    }
}

fn action_of(outcome: Outcome, position: usize) -> Option<usize>
    ensures { result ≡ spec.action_of outcome position }
{
    match outcome {
        Outcome::Started(_)
        | Outcome::Queued(_)
        | Outcome::Refused(_)
        | Outcome::Rejected(_, _)
        | Outcome::Worked(_)
        | Outcome::Got(_) => Some(position),
        Outcome::Looped | Outcome::Finished(_) | Outcome::Took(_) | Outcome::Retired => None,
    }
}

/// Returns the index of the pool that an event changed. `actor` and `outcome` belong to this event,
/// and `world` is the world after the event. For a refused or rejected submit, the result is the
/// pool that refused or rejected it. Returns `None` if the event concerns no pool.
fn changed_pool(plan: &Plan, world: &World, actor: Actor, outcome: Outcome) -> Option<usize>
    ensures { result ≡ performed.changed_pool_seen plan.now world.now.view actor outcome }
{
    match outcome {
        Outcome::Started(job) | Outcome::Queued(job) => Some(pool_of(plan, class_of(world, job))),
        Outcome::Refused(pool) | Outcome::Rejected(pool, _) => Some(pool),
        Outcome::Finished(_) | Outcome::Took(_) | Outcome::Retired => pool_of_actor(plan, actor),
        Outcome::Worked(_) | Outcome::Got(_) | Outcome::Looped => None,
    }
}

/// Returns the class index of the job that a thread took from a queue. Returns `None` if no thread
/// took a job. `world` is the world after the event.
fn taken_class(world: &World, outcome: Outcome) -> Option<usize>
    ensures { result ≡ performed.taken_seen world.now.view outcome }
{
    match outcome {
        Outcome::Took(job) => Some(class_of(world, job)),
        _ => None,
    }
}

fn pool_of_actor(plan: &Plan, actor: Actor) -> Option<usize>
    ensures { result ≡ spec.pool_of_actor plan.now actor }
{
    match actor {
        Actor::Client(_, _) => None,
        Actor::Job(class, _) => Some(pool_of(plan, class)),
        Actor::Pool(pool) => Some(pool),
    }
}

/// Returns the index of the pool to which a class belongs. `class` is the index of the class.
/// Returns 0 if there is no such class.
pub(crate) fn pool_of(plan: &Plan, class: usize) -> usize
    ensures { result ≡ pool_of plan.now class }
{
    plan.class_at(class).map_or(0, |class| class.pool)
}

fn counts_of(plan: &Plan, world: &World, pool: Option<usize>) -> Option<PoolCounts>
    requires { IsReachableView plan.now world.now.view }
    ensures { result ≡ performed.counts_seen world.now.view pool }
{
    let number = pool?;
    if number >= plan.pools().len() {
        return None;
    }
    let pool = world.pool(number);
    Some(PoolCounts {
        number,
        threads: pool.threads(),
        idle: pool.idle(),
    })
}
