//! The line about a pool's waits. The line is part of the text for a plan that a certificate
//! accepts. It names the pools for which jobs of this pool wait. It also has the maximum number of
//! the pool's core threads that wait at counted gets at once. A counted get can block a thread that
//! other jobs need.

ghost use Rattle.std.specs.Prelude.{◌≡◌, ◌++◌, IfOk, OnOk, map, string_bytes};
ghost use Rattle.support.specs.Pushed.{Pushes};
ghost use Rattle.report.specs.SafeText as spec;

use crate::safe_bound::push_separated;
use crate::waits::waits_for;
use job_bodies::{Plan, Pool};
use std::alloc::{AllocError, Global};
use weights::Vector;

/// Appends the line that names the pools for which jobs of this pool wait. The line also has the
/// maximum number of core threads that wait at counted gets at once, if this number is known and
/// not 0. A counted get can block a thread that other jobs need.
pub(crate) fn push_waits(
    alloc: Global,
    text: &mut String,
    plan: &Plan,
    number: usize,
    pool: &Pool,
    blocked: &Vector,
) -> Result<(), AllocError>
    ensures { Pushes result text.old text.new
        (spec.waits_line plan.now number pool.now blocked.now) }
{
    let name = pool.name.as_str();
    write!(text, "  {name} waits for ")?;
    push_waited(alloc, text, plan, number)?;
    push_left(text, plan, pool, blocked)?;
    text.push('\n')
}

/// Appends the maximum number of core threads that wait at counted gets at once, and the number of
/// the other core threads. A counted get can block a thread that other jobs need. The maximum is
/// the total of the vector `blocked`. Appends nothing if this total is 0, or if the vector does not
/// fit the plan.
fn push_left(
    text: &mut String,
    plan: &Plan,
    pool: &Pool,
    blocked: &Vector,
) -> Result<(), AllocError>
    ensures { Pushes result text.old text.new (spec.left_text plan.now pool.now blocked.now) }
{
    if blocked.fits(plan) {
        push_waiting(text, pool, blocked.total(plan))
    } else {
        Ok(())
    }
}

fn push_waiting(text: &mut String, pool: &Pool, most: u64) -> Result<(), AllocError>
    ensures { Pushes result text.old text.new (spec.waiting_text pool.now most) }
{
    if most == 0 {
        return Ok(());
    }
    let core = pool.core;
    let left = core.saturating_sub(most);
    write!(
        text,
        ": at most {most} of its {core} core threads wait at once where other jobs need a thread, {left} left"
    )
}

/// Appends the names of the pools for which jobs of this pool wait. Appends `no pool` if there are
/// no such pools.
fn push_waited(
    alloc: Global,
    text: &mut String,
    plan: &Plan,
    number: usize,
) -> Result<(), AllocError>
    ensures { Pushes result text.old text.new (spec.waited_text plan.now number) }
{
    let names = waited_names(alloc, plan, number)?;
    if names.is_empty() {
        return text.push_str("no pool");
    }
    push_separated(alloc, text, &names)
}

pub(crate) fn waited_names(
    alloc: Global,
    plan: &Plan,
    number: usize,
) -> Result<Vec<String>, AllocError>
    ensures { IfOk result
        (λ names. map string_bytes names.items ≡ spec.waited_names plan.now number) }
{
    let mut names = Vec::new(alloc);
    for (other, pool) in plan.pools().iter().enumerate() {
        push_if_waited(alloc, &mut names, plan, number, other, pool)?;
    }
    Ok(names)
}

/// Appends the name of `pool` if a job of the waiting pool waits for a job of `pool`. `number` is
/// the number of the waiting pool, and `other` is the number of `pool`.
#[tactic(auto, using(std::proofs::lemmas::List::map_push))]
fn push_if_waited(
    alloc: Global,
    names: &mut Vec<String>,
    plan: &Plan,
    number: usize,
    other: usize,
    pool: &Pool,
) -> Result<(), AllocError>
    ensures { OnOk result
        (map string_bytes names.new.items
        ≡ map string_bytes names.old.items ++ spec.waited_name plan.now number (other, pool.now)) }
{
    if !waits_for(plan, number, other) {
        return Ok(());
    }
    names.push(String::from_str(alloc, &pool.name)?)?;
    Ok(())
}
