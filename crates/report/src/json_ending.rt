//! The ending of a witness as JSON. It has the pool that refuses a submit, or the jobs that wait
//! only for each other. For each of these jobs, it also says what the job waits for. A witness is a
//! counterexample: a list of events whose last event is a refused submit, or after which jobs wait
//! only for each other.

ghost use Rattle.std.specs.Prelude.{◌≡◌, ◌++◌, ◌∷◌, [], map, flat_map, IfOk, OnOk, slice_get};
ghost use Rattle.serde_json.specs.View.{view};
ghost use Rattle.job_bodies.specs.Plan.{class_at};
ghost use Rattle.pool_machine.specs.declared.parent.Parent.TheVariants as parent;
ghost use Rattle.interleaving.specs.ViewStep.{live_child, is_live_child};
ghost use Rattle.interleaving.specs.Waiting.{is_busy_job, is_at_work};
ghost use Rattle.counterexample.specs.EventLines.{stuck_members};
ghost use Rattle.report.specs.JsonEnding as spec;
ghost use Rattle.report.specs.WaitsSeen as seen;

use crate::event_steps::pool_of;
use crate::json_object::Object;
use crate::json_values::{array_value, numbers_value, push_value};
use counterexample::Ending;
use interleaving::{JobView, Parent, Phase, World};
use job_bodies::{Action, Plan};
use serde_json::Value;
use std::alloc::{AllocError, Global};

/// Converts the ending of a counterexample to JSON: the pool that refuses a submit, or the jobs
/// that wait only for each other. `world` is the state after the events of the counterexample.
#[tactic(auto, unfolding(crate::specs::JsonEnding::ending_parts))]
pub(crate) fn ending_value(
    alloc: Global,
    plan: &Plan,
    world: &World,
    ending: &Ending,
) -> Result<Value, AllocError>
    ensures { IfOk result (λ value. view value
        ≡ spec.ending_parts (stuck_members ending.now) (spec.kind_word ending.now) (spec.refusing_pool plan.now ending.now)
        (flat_map (seen.wait_seen plan.now world.now.view) (stuck_members ending.now))) }
{
    let members = members_of(ending);
    let waits = wait_values(alloc, plan, world, members)?;
    Object::new(alloc)
        .part("jobs", numbers_value(alloc, members))
        .text("kind", kind_word(ending))
        .part("pool", refusing_pool(alloc, plan, ending))
        .value("waits", array_value(waits))
        .done()
}

/// Returns the numbers of the jobs that wait only for each other at the end of a counterexample.
/// The list is empty if the counterexample ends with a refused submit.
pub(crate) fn members_of(ending: &Ending) -> &[usize]
    ensures { result.now ≡ stuck_members ending.now }
{
    match ending {
        Ending::Refused(_) => &[],
        Ending::StuckForever(members, _) => members,
        Ending::StuckNow(members) => members,
    }
}

fn kind_word(ending: &Ending) -> &'static str
    ensures { result.now ≡ spec.kind_word ending.now }
{
    match ending {
        Ending::Refused(_) => "refused",
        Ending::StuckForever(_, _) => "stuck forever",
        Ending::StuckNow(_) => "stuck now",
    }
}

fn refusing_pool(alloc: Global, plan: &Plan, ending: &Ending) -> Result<Value, AllocError>
    ensures { IfOk result (λ value. view value ≡ spec.refusing_pool plan.now ending.now) }
{
    match ending {
        Ending::Refused(pool) => Value::try_from_str(alloc, plan.pool_name(*pool)),
        Ending::StuckForever(_, _) | Ending::StuckNow(_) => Ok(Value::Null),
    }
}

/// Returns, for each job in `members`, a JSON value that says what the job waits for. Skips jobs
/// that are done or not in `world`.
fn wait_values(
    alloc: Global,
    plan: &Plan,
    world: &World,
    mut members: &[usize],
) -> Result<Vec<Value>, AllocError>
    ensures { IfOk result (λ values. map view values.items
        ≡ flat_map (seen.wait_seen plan.now world.now.view) members.entry.now) }
{
    let mut values = Vec::new(alloc);
    while let Some((member, rest)) = members.split_first() {
        push_wait(&mut values, alloc, plan, world, *member)?;
        members = rest;
    }
    Ok(values)
}

/// Appends a JSON value that says what the job with this number waits for. Appends nothing if the
/// job is done or not in `world`.
fn push_wait(
    values: &mut Vec<Value>,
    alloc: Global,
    plan: &Plan,
    world: &World,
    number: usize,
) -> Result<(), AllocError>
    ensures { OnOk result (map view values.new.items
        ≡ map view values.old.items ++ seen.wait_seen plan.now world.now.view number) }
{
    let Some(job) = world.job(number) else {
        return Ok(());
    };
    match job.phase {
        Phase::Queued => {
            let running = running_in(alloc, plan, world, pool_of(plan, job.class))?;
            push_wait_for(
                values,
                alloc,
                "queue",
                &running,
                number,
                pool_name(plan, job.class),
            )
        }
        Phase::At(position) => {
            let action = action_at(plan, job.class, position);
            let awaited = awaited(alloc, world, number, action)?;
            push_wait_for(
                values,
                alloc,
                "get",
                &awaited,
                number,
                pool_name(plan, job.class),
            )
        }
        Phase::Done => Ok(()),
    }
}

/// Appends a JSON object that says what a job waits for. `number` is the number of this job, and
/// `pool` is the name of its pool. `place` is `queue` if the job waits in the queue of this pool,
/// and `get` if it waits at a get. `awaited` has the numbers of the jobs for which it waits.
#[tactic(auto, unfolding(crate::specs::JsonEnding::wait_data))]
fn push_wait_for(
    values: &mut Vec<Value>,
    alloc: Global,
    place: &str,
    awaited: &[usize],
    number: usize,
    pool: &str,
) -> Result<(), AllocError>
    ensures { OnOk result (map view values.new.items
        ≡ map view values.old.items ++ spec.wait_data place.now awaited.now number pool.now ∷ []) }
{
    let value = Object::new(alloc)
        .text("at", place)
        .part("for", numbers_value(alloc, awaited))
        .value("job", Value::from(number))
        .text("pool", pool)
        .done();
    push_value(values, value)
}

pub(crate) fn pool_name(plan: &Plan, class: usize) -> &str
    ensures { result.now ≡ spec.pool_name plan.now class }
{
    plan.pool_name(pool_of(plan, class))
}

pub(crate) fn action_at(plan: &Plan, class: usize, position: usize) -> Option<Action>
    ensures { result ≡ slice_get (class_at plan.now class).body position }
{
    match plan.class_at(class) {
        Some(class) => class.body.get(position).copied(),
        None => None,
    }
}

/// Returns a list with the number of the job that is awaited. The waiting job has the number
/// `number`, and `action` is its current action. The list is empty if the action is not a get, or
/// if the awaited job is not in `world`.
fn awaited(
    alloc: Global,
    world: &World,
    number: usize,
    action: Option<Action>,
) -> Result<Vec<usize>, AllocError>
    ensures { IfOk result (λ jobs. jobs.items ≡ seen.awaited_seen world.now.view number action) }
{
    let mut jobs = Vec::new(alloc);
    if let Some(Action::Get(submit)) = action {
        if let Some(child) = child_of(world, number, submit) {
            jobs.push(child)?;
        }
    }
    Ok(jobs)
}

/// Returns the number of the job that a submit created. The submit is at the position `submit` in
/// the body of the job with the number `number`. If `world` has several jobs of this submit,
/// returns the number of the latest one. Returns `None` if `world` has no job of this submit.
pub(crate) fn child_of(world: &World, number: usize, submit: usize) -> Option<usize>
    ensures { result ≡ live_child world.now.view.jobs (parent.Job number) submit }
{
    let mut child = None;
    for job in 0..world.made() {
        if is_child_of(world.job(job), number, submit) {
            child = Some(job);
        }
    }
    child
}

fn is_child_of(job: Option<JobView>, number: usize, submit: usize) -> bool
    ensures { result ≡ is_live_child (parent.Job number) submit job }
{
    match job {
        Some(job) => job.is_child_of(Parent::Job(number), submit),
        None => false,
    }
}

/// Returns the numbers of the jobs that threads of the pool run, in ascending order.
fn running_in(
    alloc: Global,
    plan: &Plan,
    world: &World,
    pool: usize,
) -> Result<Vec<usize>, AllocError>
    ensures { IfOk result (λ jobs. jobs.items ≡ seen.running_seen plan.now world.now.view pool) }
{
    let mut jobs = Vec::new(alloc);
    for job in 0..world.made() {
        if runs_in(plan, world.job(job), pool) {
            jobs.push(job)?;
        }
    }
    Ok(jobs)
}

fn runs_in(plan: &Plan, job: Option<JobView>, pool: usize) -> bool
    ensures { result ≡ is_busy_job plan.now pool job }
{
    match job {
        Some(job) => is_at_work(job.phase) && pool_of(plan, job.class) == pool,
        None => false,
    }
}

fn is_at_work(phase: Phase) -> bool
    ensures { result ≡ is_at_work phase }
{
    match phase {
        Phase::At(_) => true,
        Phase::Queued | Phase::Done => false,
    }
}
