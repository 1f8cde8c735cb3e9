//! The advice for a plan whose declared sizes are not safe, or are not known to be safe.

ghost use Rattle.std.specs.Prelude.{◌≡◌};
ghost use Rattle.support.specs.Pushed.{Pushes};
ghost use Rattle.report.specs.AdviceText as spec;

use job_bodies::{Plan, Pool};
use size_search::{Cause, NoSizes, SizesFound};
use std::alloc::AllocError;

/// Appends the advice for the user. If sizes were found, the advice is the reason for each core
/// size and each queue capacity that changes. Otherwise it says what the user can do.
pub(crate) fn push_advice(
    text: &mut String,
    plan: &Plan,
    sizes: &SizesFound,
) -> Result<(), AllocError>
    ensures { Pushes result text.old text.new (spec.advice_text plan.now sizes.now) }
{
    match sizes {
        SizesFound::Found { plan: fit, .. } => push_reasons(text, plan, fit),
        SizesFound::NotFound(cause) => text.push_str(advice_for_cause(*cause)),
    }
}

/// Appends the reason for each core size and each queue capacity that changes. `plan` is the
/// declared plan, and `fit` is the plan with the sizes that were found.
fn push_reasons(text: &mut String, plan: &Plan, fit: &Plan) -> Result<(), AllocError>
    ensures { Pushes result text.old text.new (spec.reasons_text plan.now fit.now) }
{
    for (declared, fitted) in plan.pools().iter().zip(fit.pools()) {
        push_pool(text, declared, fitted)?;
    }
    Ok(())
}

fn push_pool(text: &mut String, declared: &Pool, fit: &Pool) -> Result<(), AllocError>
    ensures { Pushes result text.old text.new (spec.pool_reasons (declared.now, fit.now)) }
{
    push_core(text, declared, fit)?;
    push_queue(text, declared, fit)
}

fn push_core(text: &mut String, declared: &Pool, fit: &Pool) -> Result<(), AllocError>
    ensures { Pushes result text.old text.new (spec.core_reason declared.now fit.now) }
{
    if declared.core == fit.core {
        return Ok(());
    }
    push_core_line(text, &declared.name, fit.core)
}

fn push_core_line(text: &mut String, name: &str, core: u64) -> Result<(), AllocError>
    ensures { Pushes result text.old text.new (spec.core_line name.now core) }
{
    let most = core.saturating_sub(1);
    writeln!(
        text,
        "{name}: up to {most} of its jobs may wait for other jobs at once, and core {core} leaves a thread"
    )
}

fn push_queue(text: &mut String, declared: &Pool, fit: &Pool) -> Result<(), AllocError>
    ensures { Pushes result text.old text.new (spec.queue_reason declared.now fit.now) }
{
    if fit.unbounded || declared.queue == fit.queue {
        return Ok(());
    }
    let name = declared.name.as_str();
    let queue = fit.queue;
    writeln!(
        text,
        "{name}: up to {queue} jobs may wait in its queue at once"
    )
}

/// Returns the advice that belongs to `cause`, which is the reason why no sizes were found. The
/// advice is a line.
fn advice_for_cause(cause: NoSizes) -> &'static str
    ensures { result.now ≡ spec.cause_advice_text cause }
{
    match cause {
        NoSizes::Cause(Cause::Circle(_)) => {
            "no certificate accepts any sizes while jobs submit jobs of their own class: write the levels as classes of their own\n"
        }
        NoSizes::Cause(Cause::ClientNeverGets(_, _) | Cause::ClassNeverGets(_, _)) => {
            "no certificate accepts any sizes as long as these jobs are never got: get the result, or bound them by permits (docs/PERMITS.md)\n"
        }
        NoSizes::Cause(Cause::PoolWaitsForItself(_)) => {
            "no certificate accepts any sizes while core threads of this pool may time out: do not allow it (Spring Boot: spring.task.execution.pool.allow-core-thread-timeout=false), or give the inner jobs a pool of their own\n"
        }
        NoSizes::TooLarge(_) => {
            "fewer clients, or bodies with fewer open jobs at a time, need less\n"
        }
    }
}

/// Appends the last line of the answer NOT DECIDED, with the words of [`open_words`].
pub(crate) fn push_open(text: &mut String, sizes: &SizesFound) -> Result<(), AllocError>
    ensures { Pushes result text.old text.new (spec.open_text sizes.now) }
{
    text.push_str(open_words(sizes))?;
    text.push('\n')
}

/// Returns the words that say that neither a counterexample nor a certificate for the declared
/// sizes was found. If no certificate accepts the plan with other sizes either, the words say so.
pub(crate) fn open_words(sizes: &SizesFound) -> &'static str
    ensures { result.now ≡ spec.open_words sizes.now }
{
    match sizes {
        SizesFound::NotFound(NoSizes::Cause(_)) => {
            "no certificate accepts this plan with any sizes, and no counterexample was found"
        }
        SizesFound::Found { .. } | SizesFound::NotFound(NoSizes::TooLarge(_)) => {
            "neither a certificate for the declared sizes nor a counterexample was found: the sizes may be safe"
        }
    }
}
