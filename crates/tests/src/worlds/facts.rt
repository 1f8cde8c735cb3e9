//! The results of all look-ups of a world, as texts.

ghost use Rattle.interleaving.specs.OfPlan.{IsReachableView};

use interleaving::{JobView, Parent, Phase, World};
use job_bodies::Plan;
use pool_machine::PoolState;
use std::alloc::{AllocError, Global};

// The number of clients that are looked up. No plan of these tests has more than three clients, so
// the last of them does not exist.
const CLIENTS_SHOWN: usize = 4;

/// Returns the results of all look-ups of the world: the counts, the pools, the first four clients
/// and the jobs. Also looks up the two numbers after the last job, which belong to no job.
pub fn facts(alloc: Global, plan: &Plan, world: &World) -> Result<Vec<String>, AllocError>
    requires { IsReachableView plan.now world.now.view }
{
    let mut facts = counts(alloc, world)?;
    for number in 0..plan.pools().len() {
        push_pool(&mut facts, alloc, number, world.pool(number))?;
    }
    for number in 0..CLIENTS_SHOWN {
        let mut fact = format!(in alloc; "client {number} at ")?;
        push_number(&mut fact, world.client(number))?;
        facts.push(fact)?;
    }
    for number in 0..world.made().saturating_add(2) {
        let mut fact = format!(in alloc; "job {number}: ")?;
        push_job(&mut fact, world.job(number))?;
        facts.push(fact)?;
    }
    Ok(facts)
}

/// Returns the counts of the world: the numbers of its refused submits, created jobs, unfinished
/// jobs and places for live jobs.
pub fn counts(alloc: Global, world: &World) -> Result<Vec<String>, AllocError> {
    let mut facts = Vec::new(alloc);
    facts.push(format!(in alloc; "refusals {}", world.refusals())?)?;
    facts.push(format!(in alloc; "made {}", world.made())?)?;
    facts.push(format!(in alloc; "unfinished {}", world.unfinished())?)?;
    facts.push(format!(in alloc; "places {}", world.places())?)?;
    Ok(facts)
}

fn push_pool(
    facts: &mut Vec<String>,
    alloc: Global,
    number: usize,
    pool: &PoolState,
) -> Result<(), AllocError> {
    let (core, max, capacity) = (pool.core(), pool.max(), pool.capacity());
    let (threads, idle, busy) = (pool.threads(), pool.idle(), pool.busy());
    facts.push(format!(in alloc; "pool {number}: core {core}, max {max}, queue {capacity}")?)?;
    facts.push(format!(in alloc; "pool {number}: threads {threads}, idle {idle}, busy {busy}")?)?;
    let mut queue = format!(in alloc; "pool {number}: queued {}, head ", pool.queued())?;
    push_number(&mut queue, pool.head())?;
    facts.push(queue)?;
    Ok(())
}

/// Appends the number, or `none` if it is `None`.
pub fn push_number(text: &mut String, number: Option<usize>) -> Result<(), AllocError> {
    match number {
        Some(number) => write!(text, "{number}"),
        None => text.push_str("none"),
    }
}

/// Appends the class, parent, slot and phase of the job. Appends `none` if `job` is `None`. The
/// slot is the position, in the parent's body, of the submit that created the job.
pub fn push_job(text: &mut String, job: Option<JobView>) -> Result<(), AllocError> {
    let Some(job) = job else {
        return text.push_str("none");
    };
    let class = job.class;
    write!(text, "class {class} of")?;
    match job.parent {
        Parent::Client(number) => write!(text, " client {number}")?,
        Parent::Job(number) => write!(text, " job {number}")?,
    }
    let slot = job.slot;
    write!(text, " slot {slot}")?;
    match job.phase {
        Phase::Queued => text.push_str(" queued"),
        Phase::At(position) => write!(text, " at {position}"),
        Phase::Done => text.push_str(" done"),
    }
}

/// Appends each result in `now` that differs from the result at the same index of `before`:
///
/// - If `before` is empty, appends all results.
/// - If `before` is shorter than `now`, also appends the additional results, except those that end
///   with `none`.
pub fn push_changed(
    said: &mut String,
    before: &[String],
    now: &[String],
) -> Result<(), AllocError> {
    for (number, fact) in now.iter().enumerate() {
        let is_new = match before.get(number) {
            Some(old) => old != fact,
            None => before.is_empty() || !fact.ends_with(" none"),
        };
        if is_new {
            push_fact(said, fact)?;
        }
    }
    Ok(())
}

/// Appends a fact, after a separator if it is not the first.
pub fn push_fact(said: &mut String, fact: &str) -> Result<(), AllocError> {
    if !said.is_empty() {
        said.push_str("; ")?;
    }
    said.push_str(fact)
}
