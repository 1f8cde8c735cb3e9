//! The turns of a story, which is a text that describes a counterexample. A turn is a group of
//! consecutive steps of one actor. A client's turn ends when the client starts its body again.

ghost use Rattle.std.specs.Prelude.{◌≡◌, ◌<◌, ◌≤◌, ◌+◌, ◌++◌, ◌∷◌, List, length, map, codes, IfOk, OnOk};
ghost use Rattle.support.specs.Pushed.{Pushes};
ghost use Rattle.report.specs.declared.event_steps.EventStep.{EventStep as Step};
ghost use Rattle.report.specs.Story as spec;
ghost use Rattle.report.specs.StorySeen.{turn_seen};

use crate::event_steps::{Actor, EventStep};
use crate::story_steps::{may_time_out, push_actor, push_step};
use interleaving::Outcome;
use job_bodies::Plan;
use std::alloc::{AllocError, Global};

/// A turn: consecutive steps of one actor, such as `client web: works, submits page (queued)`. A
/// client's turn ends when the client starts its body again. A step in which a thread times out is
/// a turn of its own.
#[derive(Drop)]
pub(crate) struct Turn {
    pub(crate) actor: Actor,
    pub(crate) text: String,
    /// Whether the next step must begin a new turn. This is so if, in the last step of this turn, a
    /// client starts its body again or a thread times out.
    pub(crate) is_ended: bool,
    /// The number of steps in this turn and in all turns before it.
    pub(crate) end: usize,
}

/// Groups the steps into turns, which are as long as possible. A turn is a group of consecutive
/// steps of one actor.
///
/// # Errors
///
/// Returns [`AllocError`] if memory runs out.
pub(crate) fn turns_of(
    alloc: Global,
    plan: &Plan,
    steps: &[EventStep],
) -> Result<Vec<Turn>, AllocError>
    ensures { IfOk result (λ turns. map turn_seen turns.items ≡ spec.turns plan.now steps.now) }
{
    let mut turns = Vec::new(alloc);
    push_turns(&mut turns, alloc, plan, steps)?;
    Ok(turns)
}

fn push_turns(
    turns: &mut Vec<Turn>,
    alloc: Global,
    plan: &Plan,
    steps: &[EventStep],
) -> Result<(), AllocError>
    ensures { OnOk result (map turn_seen turns.new.items
        ≡ map turn_seen turns.old.items ++ spec.turns plan.now steps.now) }
{
    let Some((first, rest)) = steps.split_first() else {
        return Ok(());
    };
    let turn = new_turn(alloc, plan, 0, steps.len(), *first)?;
    push_turns_from(turns, alloc, plan, turn, rest, steps.len())
}

/// Appends `turn` and the turns of `steps`. If `steps` begins with steps that continue `turn`,
/// these steps become part of `turn`. `all` is the number of all steps of the story. It must be at
/// least `turn.end` plus the length of `steps`.
fn push_turns_from(
    turns: &mut Vec<Turn>,
    alloc: Global,
    plan: &Plan,
    mut turn: Turn,
    mut steps: &[EventStep],
    all: usize,
) -> Result<(), AllocError>
    requires { turn.end + length steps.now ≤ all }
    ensures { OnOk result (map turn_seen turns.new.items
        ≡ map turn_seen turns.old.items ++ spec.turns_from plan.now (turn_seen turn) steps.now) }
{
    while let Some((step, rest)) = steps.split_first() {
        turn = after_step(turns, alloc, plan, turn, *step, all)?;
        steps = rest;
    }
    turns.push(turn)?;
    Ok(())
}

/// Adds the step that follows `turn`, and returns the turn that ends with this step. If the step
/// continues `turn`, the result is `turn` with the step at its end. Otherwise appends `turn` to
/// `turns`, and returns a new turn that has only the step. `all` is the number of all steps of the
/// story.
fn after_step(
    turns: &mut Vec<Turn>,
    alloc: Global,
    plan: &Plan,
    mut turn: Turn,
    step: EventStep,
    all: usize,
) -> Result<Turn, AllocError>
    requires { turn.end < all }
    ensures turns { IfOk result (λ next. (rest : List Step)
        → map turn_seen turns.new.items ++ spec.turns_from plan.now (turn_seen next) rest
        ≡ map turn_seen turns.old.items ++ spec.turns_from plan.now (turn_seen turn) (step ∷ rest)) }
    ensures end { IfOk result (λ next. next.end ≡ turn.end + 1) }
{
    if is_continued(plan, &turn, step) {
        push_to_turn(&mut turn.text, plan, step)?;
        turn.is_ended = ends_turn(plan, step.actor, step.outcome);
        turn.end += 1;
        Ok(turn)
    } else {
        let next = new_turn(alloc, plan, turn.end, all, step)?;
        turns.push(turn)?;
        Ok(next)
    }
}

/// Returns a new turn that has only this step. `before` is the number of steps before this step,
/// and `all` is the number of all steps.
fn new_turn(
    alloc: Global,
    plan: &Plan,
    before: usize,
    all: usize,
    step: EventStep,
) -> Result<Turn, AllocError>
    requires { before < all }
    ensures { IfOk result (λ turn. turn_seen turn ≡ spec.new_turn plan.now before step) }
{
    let mut text = String::new(alloc);
    push_actor(&mut text, plan, step.actor)?;
    text.push_str(": ")?;
    push_step(&mut text, plan, step)?;
    Ok(Turn {
        actor: step.actor,
        text,
        is_ended: ends_turn(plan, step.actor, step.outcome),
        end: before + 1,
    })
}

/// Returns whether a step of this actor with this outcome ends the actor's turn. The turn ends if
/// the client starts its body again or a thread times out.
fn ends_turn(plan: &Plan, actor: Actor, outcome: Outcome) -> bool
    ensures { result ≡ spec.ends_turn plan.now actor outcome }
{
    match outcome {
        Outcome::Looped => true,
        _ => is_timeout(plan, actor, outcome),
    }
}

/// Returns whether a thread times out in this step. This is so if the step ends a thread of a pool
/// whose core threads may time out.
fn is_timeout(plan: &Plan, actor: Actor, outcome: Outcome) -> bool
    ensures { result ≡ spec.is_timeout plan.now actor outcome }
{
    match outcome {
        Outcome::Retired => may_time_out(plan, actor),
        _ => false,
    }
}

fn push_to_turn(text: &mut String, plan: &Plan, step: EventStep) -> Result<(), AllocError>
    ensures { Pushes result text.old text.new (codes ", " ++ spec.step_text plan.now step) }
{
    text.push_str(", ")?;
    push_step(text, plan, step)
}

fn is_continued(plan: &Plan, turn: &Turn, step: EventStep) -> bool
    ensures { result ≡ spec.is_continued plan.now (turn_seen turn.now) step }
{
    !turn.is_ended
        && !is_timeout(plan, step.actor, step.outcome)
        && is_same_actor(turn.actor, step.actor)
}

fn is_same_actor(actor: Actor, other: Actor) -> bool
    ensures { result ≡ spec.is_same_actor actor other }
{
    match (actor, other) {
        (Actor::Client(kind, number), Actor::Client(other_kind, other_number)) => {
            kind == other_kind && number == other_number
        }
        (Actor::Job(class, number), Actor::Job(other_class, other_number)) => {
            class == other_class && number == other_number
        }
        (Actor::Pool(pool), Actor::Pool(other_pool)) => pool == other_pool,
        _ => false,
    }
}
