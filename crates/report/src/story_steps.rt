//! The text of one step: the actor, and what it did.

ghost use Rattle.support.specs.Pushed.{Pushes};
ghost use Rattle.std.specs.Prelude.{◌≡◌, ◌++◌, codes};
ghost use Rattle.report.specs.Story as spec;

use crate::event_steps::{Actor, EventStep};
use interleaving::Outcome;
use job_bodies::{Action, Plan};
use std::alloc::AllocError;
use weights::submitted_class;

/// Appends the kind and name of an actor, such as `client web`, `job page` or `pool db`. The name
/// of a client is that of its client kind, and the name of a job is that of its class.
pub(crate) fn push_actor(text: &mut String, plan: &Plan, actor: Actor) -> Result<(), AllocError>
    ensures { Pushes result text.old text.new (spec.actor_text plan.now actor) }
{
    match actor {
        Actor::Client(kind, _) => push_named(text, "client ", plan.client_name(kind)),
        Actor::Job(class, _) => push_named(text, "job ", plan.class_name(class)),
        Actor::Pool(pool) => push_named(text, "pool ", plan.pool_name(pool)),
    }
}

/// Appends `words` and then `name`, with nothing between them.
pub(crate) fn push_named(text: &mut String, words: &str, name: &str) -> Result<(), AllocError>
    ensures { Pushes result text.old text.new (words.now ++ name.now) }
{
    text.push_str(words)?;
    text.push_str(name)
}

/// Appends what the step did, such as `submits page (queued)`.
pub(crate) fn push_step(text: &mut String, plan: &Plan, step: EventStep) -> Result<(), AllocError>
    ensures { Pushes result text.old text.new (spec.step_text plan.now step) }
{
    let submitted = submitted_name(plan, step.actor, step.action);
    let taken = taken_name(plan, step.taken);
    let timeout = may_time_out(plan, step.actor);
    push_act(text, plan, submitted, taken, timeout, step.outcome)
}

/// Returns the name of the class that the actor's action submits, or an empty name if `action` is
/// `None`. If the action is not a submit, the name has no meaning, and the caller does not use it.
fn submitted_name(plan: &Plan, actor: Actor, action: Option<usize>) -> &str
    ensures { result.now ≡ spec.submitted_name plan.now actor action }
{
    match action {
        Some(action) => plan.class_name(submitted_class(body_of(plan, actor), action)),
        None => "",
    }
}

fn body_of(plan: &Plan, actor: Actor) -> &[Action]
    ensures { result.now ≡ spec.body_of plan.now actor }
{
    match actor {
        Actor::Client(kind, _) => match plan.client_at(kind) {
            Some(client) => &client.body,
            None => &[],
        },
        Actor::Job(class, _) => match plan.class_at(class) {
            Some(class) => &class.body,
            None => &[],
        },
        Actor::Pool(_) => &[],
    }
}

fn taken_name(plan: &Plan, taken: Option<usize>) -> &str
    ensures { result.now ≡ spec.taken_name plan.now taken }
{
    match taken {
        Some(class) => plan.class_name(class),
        None => "",
    }
}

/// Returns whether the actor is an idle thread of a pool, neither a client nor a job, and the core
/// threads of this pool may time out.
pub(crate) fn may_time_out(plan: &Plan, actor: Actor) -> bool
    ensures { result ≡ spec.may_time_out plan.now actor }
{
    match actor {
        Actor::Client(_, _) | Actor::Job(_, _) => false,
        Actor::Pool(pool) => match plan.pool_at(pool) {
            Some(pool) => pool.core_timeout,
            None => false,
        },
    }
}

/// Appends what an actor did in a step with this outcome. Ignores the parameters that the outcome
/// does not need.
///
/// - `submitted` is the name of the class whose job the actor submitted.
/// - `taken` is the name of the class whose job the actor took.
/// - `timeout` says whether the actor is a thread of a pool whose core threads may time out.
fn push_act(
    text: &mut String,
    plan: &Plan,
    submitted: &str,
    taken: &str,
    timeout: bool,
    outcome: Outcome,
) -> Result<(), AllocError>
    ensures { Pushes result text.old text.new
        (spec.act_text plan.now submitted.now taken.now timeout outcome) }
{
    match outcome {
        Outcome::Started(_) => push_submit(text, submitted, " (a new thread starts it)"),
        Outcome::Queued(_) => push_submit(text, submitted, " (queued)"),
        Outcome::Refused(pool) => {
            push_not_taken(text, submitted, " (refused by ", plan.pool_name(pool))
        }
        Outcome::Rejected(pool, _) => {
            push_not_taken(text, submitted, " (rejected by ", plan.pool_name(pool))
        }
        Outcome::Worked(_) => text.push_str("works"),
        Outcome::Got(_) => text.push_str("gets its result"),
        Outcome::Looped => text.push_str("begins again"),
        Outcome::Finished(_) => text.push_str("is done"),
        Outcome::Took(_) => push_named(text, "a thread takes ", taken),
        Outcome::Retired => text.push_str(retired_words(timeout)),
    }
}

fn retired_words(timeout: bool) -> &'static str
    ensures { result.now ≡ spec.retired_words timeout }
{
    if timeout {
        "an idle thread times out"
    } else {
        "a thread ends"
    }
}

fn push_submit(text: &mut String, class: &str, answer: &str) -> Result<(), AllocError>
    ensures { Pushes result text.old text.new ((codes "submits " ++ class.now) ++ answer.now) }
{
    push_named(text, "submits ", class)?;
    text.push_str(answer)
}

/// Appends that the actor submitted a job, and that a pool refused or rejected the job. `class` is
/// the name of the job's class, and `pool` is the name of this pool. `answer` is the text between
/// the two names, such as ` (refused by `.
fn push_not_taken(
    text: &mut String,
    class: &str,
    answer: &str,
    pool: &str,
) -> Result<(), AllocError>
    ensures { Pushes result text.old text.new
        ((codes "submits " ++ class.now) ++ ((answer.now ++ pool.now) ++ codes ")")) }
{
    push_named(text, "submits ", class)?;
    push_named(text, answer, pool)?;
    text.push_str(")")
}
