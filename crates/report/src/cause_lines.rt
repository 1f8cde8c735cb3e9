//! The lines that say why the search found no sizes that make the plan safe.

ghost use Rattle.support.specs.Pushed.{Pushes};
ghost use Rattle.report.specs.Cause as spec;

use job_bodies::{MAX_SIZE, Plan};
use size_search::{Cause, NoSizes};
use std::alloc::AllocError;

/// Appends the line `no fitting sizes found` and a second line with the reason, such as `class
/// render submits itself`.
///
/// # Errors
///
/// Returns [`AllocError`] if memory runs out.
pub fn push_no_sizes(text: &mut String, plan: &Plan, cause: NoSizes) -> Result<(), AllocError>
    ensures { Pushes result text.old text.new (spec.no_sizes_text plan.now cause) }
{
    text.push_str("no fitting sizes found\n")?;
    push_cause(text, plan, cause)
}

fn push_cause(text: &mut String, plan: &Plan, cause: NoSizes) -> Result<(), AllocError>
    ensures { Pushes result text.old text.new (spec.cause_text plan.now cause) }
{
    push_cause_words(text, plan, cause)?;
    text.push('\n')
}

/// Appends the reason why no sizes were found, without a newline.
pub(crate) fn push_cause_words(
    text: &mut String,
    plan: &Plan,
    cause: NoSizes,
) -> Result<(), AllocError>
    ensures { Pushes result text.old text.new (spec.cause_words plan.now cause) }
{
    match cause {
        NoSizes::Cause(Cause::Circle(class)) => push_circle(text, plan.class_name(class)),
        NoSizes::Cause(Cause::ClientNeverGets(client, action)) => {
            push_never_got(text, "client", plan.client_name(client), action)
        }
        NoSizes::Cause(Cause::ClassNeverGets(class, action)) => {
            push_never_got(text, "class", plan.class_name(class), action)
        }
        NoSizes::Cause(Cause::PoolWaitsForItself(pool)) => {
            push_last_thread(text, plan.pool_name(pool))
        }
        NoSizes::TooLarge(pool) => push_above(text, plan.pool_name(pool)),
    }
}

fn push_circle(text: &mut String, name: &str) -> Result<(), AllocError>
    ensures { Pushes result text.old text.new (spec.circle_words name.now) }
{
    write!(text, "class {name} submits itself")
}

fn push_never_got(
    text: &mut String,
    kind: &str,
    name: &str,
    action: usize,
) -> Result<(), AllocError>
    ensures { Pushes result text.old text.new (spec.never_got_words kind.now name.now action) }
{
    write!(
        text,
        "{kind} {name} action {action}: submits without end, and no get waits for these jobs"
    )
}

fn push_last_thread(text: &mut String, name: &str) -> Result<(), AllocError>
    ensures { Pushes result text.old text.new (spec.last_thread_words name.now) }
{
    write!(
        text,
        "pool {name}: its last thread may wait for a job of this pool, since core threads may time out"
    )
}

fn push_above(text: &mut String, name: &str) -> Result<(), AllocError>
    ensures { Pushes result text.old text.new (spec.above_words name.now) }
{
    write!(text, "pool {name}: sizes above {MAX_SIZE}")
}
