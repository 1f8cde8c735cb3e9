//! The queue of a pool, computed from steps that add jobs to it or take jobs from it. A step is an
//! event that was performed.

ghost use Rattle.std.specs.Prelude.{◌≡◌, ◌++◌, [], map, IfOk, OnOk};
ghost use Rattle.serde_json.specs.View.{view};
ghost use Rattle.report.specs.EventsShown as shown;
ghost use Rattle.report.specs.JsonEvents as spec;

use crate::event_steps::{EventStep, PoolCounts};
use interleaving::Outcome;
use serde_json::Value;
use std::alloc::{AllocError, Global};
use std::collections::VecDeque;

/// Returns a JSON list with the numbers of the jobs that are in the pool's queue after these steps,
/// in the order of the queue. The first step must start from the plan's initial state.
pub(crate) fn queue_value(
    alloc: Global,
    steps: &[EventStep],
    pool: usize,
) -> Result<Value, AllocError>
    ensures { IfOk result (λ value. view value ≡ spec.numbers_data (shown.queue_from pool [] steps.now)) }
{
    let queue = queue_after(alloc, steps, pool)?;
    let mut values = Vec::with_capacity(alloc, queue.len())?;
    push_jobs(&mut values, queue)?;
    Ok(Value::Array(values))
}

/// Appends the number of each job in the queue as a JSON value, from the head of the queue to its
/// end.
fn push_jobs(values: &mut Vec<Value>, mut queue: VecDeque<usize>) -> Result<(), AllocError>
    ensures { OnOk result (map view values.new.items ≡ map view values.old.items ++ map spec.number_data queue.items) }
{
    while let Some(job) = queue.pop_front() {
        values.push(Value::from(job))?;
    }
    Ok(())
}

/// Returns the queue of a pool after these steps. Before them, the queue is empty.
fn queue_after(
    alloc: Global,
    steps: &[EventStep],
    pool: usize,
) -> Result<VecDeque<usize>, AllocError>
    ensures { IfOk result (λ queue. queue.items ≡ shown.queue_from pool [] steps.now) }
{
    let mut queue = VecDeque::new(alloc);
    add_all(&mut queue, steps, pool)?;
    Ok(queue)
}

fn add_all(
    queue: &mut VecDeque<usize>,
    mut steps: &[EventStep],
    pool: usize,
) -> Result<(), AllocError>
    ensures { OnOk result (queue.new.items ≡ shown.queue_from pool queue.old.items steps.entry.now) }
{
    while let Some((step, rest)) = steps.split_first() {
        add(queue, *step, pool)?;
        steps = rest;
    }
    Ok(())
}

/// Updates the queue of the pool for one step. If the step adds a job to this queue, appends the
/// job. If a thread of this pool takes the first job, removes this job. Any other step leaves the
/// queue unchanged.
fn add(queue: &mut VecDeque<usize>, step: EventStep, pool: usize) -> Result<(), AllocError>
    ensures { OnOk result (queue.new.items ≡ shown.queue_with pool queue.old.items step) }
{
    if !is_of_pool(step.pool, pool) {
        return Ok(());
    }
    match step.outcome {
        Outcome::Queued(job) => queue.push_back(job)?,
        Outcome::Took(_) => {
            queue.pop_front();
        }
        _ => {}
    }
    Ok(())
}

fn is_of_pool(counts: Option<PoolCounts>, pool: usize) -> bool
    ensures { result ≡ shown.is_of_pool pool counts }
{
    match counts {
        Some(counts) => counts.number == pool,
        None => false,
    }
}
