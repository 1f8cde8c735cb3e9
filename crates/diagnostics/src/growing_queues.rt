//! The lints of unbounded queues that may grow without limit. Repeating clients submit jobs to such
//! a queue, directly or through other jobs, and no get waits for these jobs.

ghost use Rattle.std.specs.Prelude.{◌≡◌, ◌++◌, OnOk};
ghost use Rattle.diagnostics.specs.Lints as spec;

use crate::lint::Lint;
use crate::lint_conditions::{fills_queue, is_submitted};
use crate::lints::push_if;
use job_bodies::{Action, Class, Client, Part, Plan};
use std::alloc::AllocError;

/// Appends a lint for each submit that may let an unbounded queue grow without limit. Such a submit
/// meets three conditions:
///
/// - The queue of the submitted job's pool is unbounded.
/// - The body with the submit has no get of the job.
/// - The body belongs to a repeating client kind, or to a class that repeating clients submit,
///   directly or through other jobs. `repeated` marks these classes.
pub(crate) fn push_growing(
    found: &mut Vec<Lint>,
    plan: &Plan,
    repeated: &[bool],
) -> Result<(), AllocError>
    ensures { OnOk result
        (found.new.items ≡ found.old.items ++ spec.growing_lints plan.now repeated.now) }
{
    push_classes(found, plan, repeated)?;
    push_clients(found, plan)
}

fn push_classes(found: &mut Vec<Lint>, plan: &Plan, repeated: &[bool]) -> Result<(), AllocError>
    ensures { OnOk result
        (found.new.items ≡ found.old.items ++ spec.growing_of_classes plan.now repeated.now) }
{
    for (number, class) in plan.classes().iter().enumerate() {
        push_class(found, plan, repeated, number, class)?;
    }
    Ok(())
}

fn push_class(
    found: &mut Vec<Lint>,
    plan: &Plan,
    repeated: &[bool],
    number: usize,
    class: &Class,
) -> Result<(), AllocError>
    ensures { OnOk result
        (found.new.items
        ≡ found.old.items ++ spec.growing_of_class plan.now repeated.now number class.now) }
{
    if is_submitted(repeated, number) {
        push_body(found, plan, Part::Class, number, &class.body)
    } else {
        Ok(())
    }
}

fn push_clients(found: &mut Vec<Lint>, plan: &Plan) -> Result<(), AllocError>
    ensures { OnOk result
        (found.new.items ≡ found.old.items ++ spec.growing_of_clients plan.now) }
{
    for (number, client) in plan.clients().iter().enumerate() {
        push_client(found, plan, number, client)?;
    }
    Ok(())
}

fn push_client(
    found: &mut Vec<Lint>,
    plan: &Plan,
    number: usize,
    client: &Client,
) -> Result<(), AllocError>
    ensures { OnOk result
        (found.new.items
        ≡ found.old.items ++ spec.growing_of_client plan.now number client.now) }
{
    if client.repeat {
        push_body(found, plan, Part::Client, number, &client.body)
    } else {
        Ok(())
    }
}

/// Appends a lint for each submit in the body that meets two conditions: the pool of the submitted
/// job has an unbounded queue, and the body has no get of this job. `part` and `number` are the
/// kind and the number of the entry with this body.
fn push_body(
    found: &mut Vec<Lint>,
    plan: &Plan,
    part: Part,
    number: usize,
    body: &[Action],
) -> Result<(), AllocError>
    ensures { OnOk result
        (found.new.items
        ≡ found.old.items ++ spec.growing_of_body plan.now part number body.now) }
{
    for (position, action) in body.iter().enumerate() {
        push_if(
            found,
            fills_queue(plan, body, position, *action),
            Lint::QueueMayGrow(part, number, position),
        )?;
    }
    Ok(())
}
