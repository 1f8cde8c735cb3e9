//! The story of a witness: its events, the state after them, and what each waiting job waits for. A
//! witness is a counterexample: a list of events whose last event is a refused submit, or after
//! which jobs wait only for each other.

ghost use Rattle.std.specs.Prelude.{◌++◌, flat_map};
ghost use Rattle.std.specs.List.{enumerate_from};
ghost use Rattle.support.specs.Pushed.{Pushes};
ghost use Rattle.interleaving.specs.OfPlan.{IsReachableView};
ghost use Rattle.report.specs.Story as spec;
ghost use Rattle.report.specs.StorySeen as seen;

use crate::event_steps::{EventStep, perform_all};
use crate::story_lines::push_lines;
use crate::story_pools::push_pools;
use crate::story_turns::turns_of;
use crate::story_waits::push_waits;
use interleaving::{Event, World};
use job_bodies::Plan;
use std::alloc::{AllocError, Global};

/// Appends a description of the events, which start from the plan's initial state. Then appends the
/// state of the pools after the events, and what each job in `members` waits for. Ignores the first
/// event that is not possible, and all later events.
///
/// # Errors
///
/// Returns [`AllocError`] if memory runs out.
pub(crate) fn push_story(
    text: &mut String,
    alloc: Global,
    plan: &Plan,
    events: &[Event],
    members: &[usize],
) -> Result<(), AllocError>
    ensures { Pushes result text.old text.new (spec.story_text plan.now events.now members.now) }
{
    let mut world = World::start(alloc, plan)?;
    let steps = perform_all(alloc, plan, &mut world, events)?;
    push_parts(text, alloc, plan, &world, &steps, members)
}

/// Appends the parts of the text: what the steps did, the state of the pools after these steps, and
/// what each job in `members` waits for. `world` is the world after the steps.
fn push_parts(
    text: &mut String,
    alloc: Global,
    plan: &Plan,
    world: &World,
    steps: &[EventStep],
    members: &[usize],
) -> Result<(), AllocError>
    requires { IsReachableView plan.now world.now.view }
    ensures { Pushes result text.old text.new
        ((spec.steps_text plan.now steps.now
        ++ flat_map (seen.pool_line_seen world.now.view) (enumerate_from 0 plan.now.pools))
        ++ seen.waits_text plan.now world.now.view members.now) }
{
    push_steps(text, alloc, plan, steps)?;
    push_pools(text, plan, world)?;
    push_waits(text, plan, world, members)
}

fn push_steps(
    text: &mut String,
    alloc: Global,
    plan: &Plan,
    steps: &[EventStep],
) -> Result<(), AllocError>
    ensures { Pushes result text.old text.new (spec.steps_text plan.now steps.now) }
{
    let turns = turns_of(alloc, plan, steps)?;
    push_lines(text, alloc, &turns)
}
