//! The lines with the sizes of a fitted plan, next to the declared sizes. A fitted plan is the
//! declared plan with the sizes that a search found.

ghost use Rattle.std.specs.Prelude.{◌≡◌, IfOk};
ghost use Rattle.support.specs.Pushed.{Pushes};
ghost use Rattle.report.specs.Sizes as spec;

use job_bodies::{Plan, Pool};
use std::alloc::AllocError;

/// Appends one line for each pool, with the sizes of this pool. Then appends a last line with the
/// number of sizes that change, such as `changes 1`, and returns this number. If a size changes,
/// its declared value follows the new value, as in `pool pages: core 1, max 1, queue 2 (now 1)`.
///
/// # Errors
///
/// Returns [`AllocError`] if memory runs out.
pub fn push_sizes(text: &mut String, declared: &Plan, fit: &Plan) -> Result<u64, AllocError>
    ensures text { Pushes result text.old text.new (spec.sizes_text declared.now fit.now) }
    ensures changes { IfOk result (λ changes. changes ≡ spec.changes declared.now fit.now) }
{
    let mut changes = 0;
    for (pool, fitted) in declared.pools().iter().zip(fit.pools()) {
        push_pool(text, pool, fitted)?;
        changes += pool_changes(pool, fitted);
    }
    writeln!(text, "changes {changes}")?;
    Ok(changes)
}

fn push_pool(text: &mut String, declared: &Pool, fit: &Pool) -> Result<(), AllocError>
    ensures { Pushes result text.old text.new (spec.pool_text declared.now fit.now) }
{
    let name = &fit.name;
    write!(text, "pool {name}: core ")?;
    push_size(text, declared.core, fit.core)?;
    push_max(text, declared, fit)?;
    push_queue(text, declared, fit)?;
    text.push('\n')
}

/// Appends the maximum of the pool `fit`. If the pool `declared` has another maximum, appends this
/// too, as in `, max 8 (now 4)`. Appends nothing if the maximum [has no effect](has_useless_max).
fn push_max(text: &mut String, declared: &Pool, fit: &Pool) -> Result<(), AllocError>
    ensures { Pushes result text.old text.new (spec.max_part declared.now fit.now) }
{
    if has_useless_max(fit) {
        return Ok(());
    }
    text.push_str(", max ")?;
    push_max_size(text, fit)?;
    if declared.max == fit.max {
        return Ok(());
    }
    text.push_str(" (now ")?;
    push_max_size(text, declared)?;
    text.push_str(")")
}

/// Returns whether the maximum of the pool has no effect: its queue is unbounded, and its core
/// threads never time out.
pub(crate) fn has_useless_max(pool: &Pool) -> bool
    ensures { result ≡ spec.has_useless_max pool.now }
{
    pool.unbounded && !pool.core_timeout
}

/// Appends the maximum of the pool, or `unbounded` if the pool has no maximum.
pub(crate) fn push_max_size(text: &mut String, pool: &Pool) -> Result<(), AllocError>
    ensures { Pushes result text.old text.new (spec.max_size pool.now) }
{
    if pool.has_no_max() {
        return text.push_str("unbounded");
    }
    let max = pool.max;
    write!(text, "{max}")
}

fn push_queue(text: &mut String, declared: &Pool, fit: &Pool) -> Result<(), AllocError>
    ensures { Pushes result text.old text.new (spec.queue_part declared.now fit.now) }
{
    if fit.unbounded {
        return text.push_str(", queue unbounded");
    }
    text.push_str(", queue ")?;
    push_size(text, declared.queue, fit.queue)
}

fn push_size(text: &mut String, declared: u64, fit: u64) -> Result<(), AllocError>
    ensures { Pushes result text.old text.new (spec.size_text declared fit) }
{
    if declared == fit {
        write!(text, "{fit}")
    } else {
        write!(text, "{fit} (now {declared})")
    }
}

/// Returns how many sizes of the pool change. If the maximum [has no effect](has_useless_max), all
/// changes of the pool count as one, because only the core size has an effect. The result is then 1
/// if any size changes, and otherwise 0.
fn pool_changes(declared: &Pool, fit: &Pool) -> u64
    ensures { result ≡ spec.pool_changes declared.now fit.now }
{
    if has_useless_max(fit) {
        return any_changed(declared, fit);
    }
    u64::from(declared.core != fit.core)
        + u64::from(declared.max != fit.max)
        + u64::from(declared.queue != fit.queue)
}

/// Returns 1 if a size of the pool changes, and otherwise 0.
fn any_changed(declared: &Pool, fit: &Pool) -> u64
    ensures { result ≡ spec.any_changed declared.now fit.now }
{
    let same = declared.core == fit.core && declared.max == fit.max && declared.queue == fit.queue;
    u64::from(!same)
}
