//! The lines of a story that show the state of the pools. A story is a text that describes a
//! counterexample.

ghost use Rattle.std.specs.Prelude.{◌≡◌, decimal, flat_map};
ghost use Rattle.std.specs.List.{enumerate_from};
ghost use Rattle.support.specs.Pushed.{Pushes};
ghost use Rattle.interleaving.specs.OfPlan.{IsReachableView};
ghost use Rattle.report.specs.Story as spec;
ghost use Rattle.report.specs.StorySeen.{pool_line_seen};

use interleaving::World;
use job_bodies::{MAX_THREADS, Plan, Pool};
use pool_machine::PoolState;
use std::alloc::AllocError;

/// Appends a line for each pool, such as `pool db: threads 10 of 10, idle 0, queued 190 of 190`.
/// For a pool with an unbounded queue, the line ends with, for example, `queued 190 of unbounded`.
/// For a pool without a maximum, the line has, for example, `threads 10 of unbounded`.
///
/// # Errors
///
/// Returns [`AllocError`] if memory runs out.
pub(crate) fn push_pools(text: &mut String, plan: &Plan, world: &World) -> Result<(), AllocError>
    requires { IsReachableView plan.now world.now.view }
    ensures { Pushes result text.old text.new
        (flat_map (pool_line_seen world.now.view) (enumerate_from 0 plan.now.pools)) }
{
    let mut pools = plan.pools();
    let mut number = 0;
    while let Some((pool, rest)) = pools.split_first() {
        push_pool(text, pool, world.pool(number))?;
        number += 1;
        pools = rest;
    }
    Ok(())
}

fn push_pool(text: &mut String, pool: &Pool, state: &PoolState) -> Result<(), AllocError>
    ensures { Pushes result text.old text.new (spec.pool_text pool.now.name state.now) }
{
    let name = pool.name.as_str();
    let threads = state.threads();
    write!(text, "pool {name}: threads {threads} of ")?;
    push_most_threads(text, state)?;
    let idle = state.idle();
    let queued = state.queued();
    write!(text, ", idle {idle}, queued {queued} of ")?;
    push_capacity(text, state)?;
    text.push('\n')
}

/// Appends the greatest number of threads that the pool can have, or `unbounded` if the pool has no
/// maximum.
#[tactic(auto, unfolding(crate::specs::Story::most_text))]
fn push_most_threads(text: &mut String, state: &PoolState) -> Result<(), AllocError>
    ensures { Pushes result text.old text.new (spec.most_text state.now) }
{
    if has_no_max(state) {
        text.push_str("unbounded")
    } else {
        push_number(text, most_threads(state))
    }
}

fn push_number(text: &mut String, number: u64) -> Result<(), AllocError>
    ensures { Pushes result text.old text.new (decimal number) }
{
    write!(text, "{number}")
}

/// Returns whether the pool has no maximum. This is so if all of these hold:
///
/// - The core threads of the pool may time out.
/// - The queue of the pool is unbounded.
/// - The value of `max` is [`MAX_THREADS`].
fn has_no_max(state: &PoolState) -> bool
    ensures { result ≡ spec.has_no_max state.now }
{
    state.has_core_timeout() && state.is_unbounded() && state.max() == MAX_THREADS
}

/// Returns the greatest number of threads that the pool can have. This is the core size if the
/// queue is unbounded and core threads never time out. Otherwise it is the maximum.
fn most_threads(state: &PoolState) -> u64
    ensures { result ≡ spec.most_threads state.now }
{
    if state.is_unbounded() && !state.has_core_timeout() {
        state.core()
    } else {
        state.max()
    }
}

/// Appends the capacity of the pool's queue, or `unbounded`.
#[tactic(auto, unfolding(crate::specs::Story::capacity_text))]
fn push_capacity(text: &mut String, state: &PoolState) -> Result<(), AllocError>
    ensures { Pushes result text.old text.new (spec.capacity_text state.now) }
{
    if state.is_unbounded() {
        return text.push_str("unbounded");
    }
    let capacity = state.capacity();
    write!(text, "{capacity}")
}
