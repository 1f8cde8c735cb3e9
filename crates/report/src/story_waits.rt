//! The lines of a story that show what each waiting job waits for. A story is a text that describes
//! a counterexample.

ghost use Rattle.std.specs.Prelude.{◌≡◌, flat_map};
ghost use Rattle.support.specs.Pushed.{Pushes};
ghost use Rattle.report.specs.Story as spec;
ghost use Rattle.report.specs.StorySeen as seen;
ghost use Rattle.report.specs.WaitsSeen.{awaited_seen};

use crate::json_ending::{action_at, child_of, pool_name};
use interleaving::{Phase, World};
use job_bodies::{Action, Plan};
use std::alloc::AllocError;
use weights::submitted_class;

/// The maximum number of waiting jobs that are listed.
const MAX_WAITS: usize = 20;

/// Appends a line for each job in `members` that says what the job waits for, such as
/// `job 0 (report) waits for job 1 (section)`. Only the first 20 jobs get a line. If there are
/// more, a last line has the number of the others.
///
/// # Errors
///
/// Returns [`AllocError`] if memory runs out.
pub(crate) fn push_waits(
    text: &mut String,
    plan: &Plan,
    world: &World,
    members: &[usize],
) -> Result<(), AllocError>
    ensures { Pushes result text.old text.new (seen.waits_text plan.now world.now.view members.now) }
{
    if members.len() <= MAX_WAITS {
        return push_each(text, plan, world, members);
    }
    push_each(text, plan, world, &members[..MAX_WAITS])?;
    push_more(text, members.len() - MAX_WAITS)
}

fn push_more(text: &mut String, more: usize) -> Result<(), AllocError>
    ensures { Pushes result text.old text.new (spec.more_jobs more) }
{
    writeln!(text, "and {more} more jobs")
}

fn push_each(
    text: &mut String,
    plan: &Plan,
    world: &World,
    mut members: &[usize],
) -> Result<(), AllocError>
    ensures { Pushes result text.old text.new
        (flat_map (seen.wait_seen plan.now world.now.view) members.now) }
{
    while let Some((member, rest)) = members.split_first() {
        push_wait(text, plan, world, *member)?;
        members = rest;
    }
    Ok(())
}

/// Appends a line that says what the job with this number waits for, if the job is queued or at a
/// get of a job in `world`. Otherwise appends nothing.
#[tactic(auto, unfolding(crate::specs::StorySeen::wait_seen))]
fn push_wait(text: &mut String, plan: &Plan, world: &World, number: usize) -> Result<(), AllocError>
    ensures { Pushes result text.old text.new (seen.wait_seen plan.now world.now.view number) }
{
    let Some(job) = world.job(number) else {
        return Ok(());
    };
    match job.phase {
        Phase::Queued => push_queued(text, plan, number, job.class),
        Phase::At(position) => {
            let action = action_at(plan, job.class, position);
            push_get(text, plan, world, number, job.class, action)
        }
        Phase::Done => Ok(()),
    }
}

fn push_queued(
    text: &mut String,
    plan: &Plan,
    number: usize,
    class: usize,
) -> Result<(), AllocError>
    ensures { Pushes result text.old text.new (spec.queued_text plan.now number class) }
{
    push_job(text, plan, number, class)?;
    push_in_queue(text, pool_name(plan, class))
}

fn push_in_queue(text: &mut String, pool: &str) -> Result<(), AllocError>
    ensures { Pushes result text.old text.new (spec.in_queue_of pool.now) }
{
    writeln!(
        text,
        " waits in the queue of {pool}, whose threads all run these jobs"
    )
}

/// Appends a line that says what a job waits for at this action, such as
/// `job 0 (report) waits for job 1 (section)`. `number` is the number of the waiting job, and
/// `class` is the index of its class. Appends nothing if the action is not a get, or if the awaited
/// job is not in `world`.
fn push_get(
    text: &mut String,
    plan: &Plan,
    world: &World,
    number: usize,
    class: usize,
    action: Option<Action>,
) -> Result<(), AllocError>
    ensures { Pushes result text.old text.new
        (flat_map (spec.awaited_text plan.now number class (spec.awaited_class plan.now class action))
        (awaited_seen world.now.view number action)) }
{
    let Some(Action::Get(submit)) = action else {
        return Ok(());
    };
    match child_of(world, number, submit) {
        Some(child) => push_awaited(text, plan, number, class, submit, child),
        None => Ok(()),
    }
}

fn push_awaited(
    text: &mut String,
    plan: &Plan,
    number: usize,
    class: usize,
    submit: usize,
    child: usize,
) -> Result<(), AllocError>
    ensures { Pushes result text.old text.new
        (spec.awaited_text plan.now number class (spec.submitted_in plan.now class submit) child) }
{
    push_job(text, plan, number, class)?;
    text.push_str(" waits for ")?;
    push_job(text, plan, child, submitted_in(plan, class, submit))?;
    text.push('\n')
}

/// Returns the class index of the job that a submit creates. `class` is the index of the class
/// whose body has the submit, and `submit` is the position of the submit in this body. Returns 0 if
/// there is no submit at this position.
fn submitted_in(plan: &Plan, class: usize, submit: usize) -> usize
    ensures { result ≡ spec.submitted_in plan.now class submit }
{
    match plan.class_at(class) {
        Some(class) => submitted_class(&class.body, submit),
        None => 0,
    }
}

/// Appends a job with its class, such as `job 0 (report)`.
fn push_job(text: &mut String, plan: &Plan, number: usize, class: usize) -> Result<(), AllocError>
    ensures { Pushes result text.old text.new (spec.job_text plan.now number class) }
{
    let name = plan.class_name(class);
    write!(text, "job {number} ({name})")
}
