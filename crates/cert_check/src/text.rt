//! The text of a verdict.

ghost use Rattle.std.specs.Prelude.{None};
ghost use Rattle.job_bodies.specs.Plan.{pool_at};
ghost use Rattle.cert_check.specs.Text as spec;
ghost use Rattle.support.specs.Pushed.{Pushes};

use crate::{BoundTotal, PoolLine, Verdict};
use job_bodies::Plan;
use std::alloc::AllocError;

/// Appends the text of a verdict on the plan: `yes` or `no`, and then a line for each pool, such as
/// `pool pages: standing 2 of 2, blocked 0 of 0`. The part about the bound of the pool, here
/// `standing 2 of 2`, has one of these forms:
///
/// - `standing 2 of 2` or `lifetime 2 of 2`: the kind of the vector, its total, and the limit of
///   the total.
/// - `standing 2 of unbounded`: the queue is unbounded, so the total has no limit.
/// - `unbounded`: the certificate has no bound for the pool, and the queue of the pool is
///   unbounded.
/// - `may reject`: the certificate has no bound for the pool, and the queue of the pool is bounded.
///
/// # Errors
///
/// Returns [`AllocError`] if memory runs out.
pub fn push_verdict(text: &mut String, plan: &Plan, verdict: &Verdict) -> Result<(), AllocError>
    ensures { Pushes result text.old text.new (spec.verdict_text plan.now verdict.now) }
{
    text.push_str(if verdict.yes { "yes\n" } else { "no\n" })?;
    push_pool_lines(text, plan, &verdict.pools)
}

fn push_pool_lines(text: &mut String, plan: &Plan, lines: &[PoolLine]) -> Result<(), AllocError>
    ensures { Pushes result text.old text.new (spec.pool_lines_text plan.now lines.now) }
{
    for (pool, line) in lines.iter().enumerate() {
        push_pool_line(text, plan, pool, line)?;
    }
    Ok(())
}

fn push_pool_line(
    text: &mut String,
    plan: &Plan,
    pool: usize,
    line: &PoolLine,
) -> Result<(), AllocError>
    ensures { Pushes result text.old text.new
        (spec.pool_line_text (pool_at plan.now pool).name (pool_at plan.now pool).unbounded line.now) }
{
    match plan.pool_at(pool) {
        Some(pool) => push_named_line(text, &pool.name, pool.unbounded, line),
        None => push_named_line(text, "", false, line),
    }
}

fn push_named_line(
    text: &mut String,
    name: &str,
    unbounded: bool,
    line: &PoolLine,
) -> Result<(), AllocError>
    ensures { Pushes result text.old text.new (spec.pool_line_text name.now unbounded line.now) }
{
    write!(text, "pool {name}")?;
    push_bound(text, unbounded, &line.bound)?;
    push_blocked(text, line)
}

fn push_bound(
    text: &mut String,
    unbounded: bool,
    bound: &Option<BoundTotal>,
) -> Result<(), AllocError>
    ensures { Pushes result text.old text.new (spec.bound_text unbounded bound.now) }
{
    match bound {
        Some(bound) => push_total(text, bound),
        None => push_no_bound(text, unbounded),
    }
}

/// Appends the reason why a certificate needs no bound for a pool: `unbounded` if the queue of the
/// pool is unbounded, and otherwise `may reject`.
fn push_no_bound(text: &mut String, unbounded: bool) -> Result<(), AllocError>
    ensures { Pushes result text.old text.new (spec.bound_text unbounded None) }
{
    text.push_str(if unbounded {
        ": unbounded"
    } else {
        ": may reject"
    })
}

fn push_total(text: &mut String, bound: &BoundTotal) -> Result<(), AllocError>
    ensures { Pushes result text.old text.new (spec.total_text bound.now) }
{
    push_kind(text, bound.lifetime)?;
    let total = bound.total;
    write!(text, "{total} of ")?;
    push_limit(text, bound.limit)
}

/// Appends the limit of a total, or `unbounded` if there is no limit.
fn push_limit(text: &mut String, limit: Option<u64>) -> Result<(), AllocError>
    ensures { Pushes result text.old text.new (spec.limit_text limit) }
{
    match limit {
        Some(limit) => write!(text, "{limit}"),
        None => text.push_str("unbounded"),
    }
}

fn push_kind(text: &mut String, lifetime: bool) -> Result<(), AllocError>
    ensures { Pushes result text.old text.new (spec.bound_words lifetime) }
{
    text.push_str(if lifetime {
        ": lifetime "
    } else {
        ": standing "
    })
}

fn push_blocked(text: &mut String, line: &PoolLine) -> Result<(), AllocError>
    ensures { Pushes result text.old text.new (spec.blocked_text line.now) }
{
    let (blocked, limit) = (line.blocked, line.limit);
    writeln!(text, ", blocked {blocked} of {limit}")
}
