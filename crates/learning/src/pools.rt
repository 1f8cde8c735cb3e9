//! The pools of a recording, as pools of a plan.

ghost use Rattle.std.specs.Prelude.{◌≡◌, ◌≤◌, ◌<◌, ◌++◌, ◌∷◌, List, Some, length, slice_get, IfOk, IfErr, IfSome, OnOk};
ghost use Rattle.recordings.specs.RecordingLine.{RecordedLine, line_view};
ghost use Rattle.std.specs.List.{position};
ghost use Rattle.std.specs.Str.{bytes_eq};
ghost use Rattle.learning.specs.LearningState.{IsLearnError};
ghost use Rattle.conformance.specs.Sizes.{is_synchronous};
ghost use Rattle.learning.specs.Pools as spec;

use crate::inference_limit::InferenceLimit;
use crate::learn_error::LearnError;
use job_bodies::{MAX_POOLS, MAX_SIZE, MAX_THREADS, Pool};
use recordings::{Line, PoolSizes, QueueKind};
use std::alloc::{AllocError, Global};

/// Returns the pool of a `pool` line, with each size clamped to its range in a plan.
///
/// - The capacity of an unbounded queue is the largest size that a plan allows.
/// - If the queue is unbounded and core threads never time out, the maximum is the core size.
/// - If the queue is unbounded and core threads may time out, a maximum above the largest size that
///   a plan allows is not clamped. Instead, the pool has no maximum, which is written as
///   [`MAX_THREADS`].
/// - `prestart` is true if all core threads were prestarted and there is at least one.
/// - `may_reject` is true if the queue is a `SynchronousQueue`, because a plan allows such a queue
///   only in a pool that may reject jobs.
///
/// # Errors
///
/// Returns `AllocError` if memory runs out.
pub(crate) fn recorded_pool(alloc: Global, name: &str, sizes: PoolSizes) -> Result<Pool, AllocError>
    ensures { IfOk result (λ pool. pool ≡ spec.recorded_pool name.now sizes) }
{
    let core = into_range(1, sizes.core as u64);
    Ok(Pool {
        name: String::from_str(alloc, name)?,
        core,
        max: planned_max(core, sizes),
        queue: planned_queue(sizes),
        prestart: has_core_threads(sizes),
        may_reject: is_synchronous(sizes.queue),
        unbounded: sizes.has_unbounded_queue(),
        core_timeout: sizes.timeout,
    })
}

// Returns the maximum of a pool with this core size.
fn planned_max(core: u64, sizes: PoolSizes) -> u64
    ensures { result ≡ spec.planned_max core sizes }
{
    if sizes.has_unbounded_queue() {
        max_over_unbounded(core, sizes)
    } else {
        into_range(core, sizes.max as u64)
    }
}

// Returns the maximum of a pool with this core size and an unbounded queue. If core threads never
// time out, the maximum has no effect, and the result is the core size, as in a plan that is read
// from its text. Otherwise, a pool has no maximum if its recorded maximum is above the largest size
// that a plan allows.
fn max_over_unbounded(core: u64, sizes: PoolSizes) -> u64
    ensures { result ≡ spec.max_over_unbounded core sizes }
{
    if !sizes.timeout {
        core
    } else if sizes.max as u64 > MAX_SIZE {
        MAX_THREADS
    } else {
        into_range(core, sizes.max as u64)
    }
}

// Returns the capacity of the queue. If the queue is unbounded, the capacity has no effect, and the
// result is the largest size that a plan allows, as in a plan that is read from its text.
fn planned_queue(sizes: PoolSizes) -> u64
    ensures { result ≡ spec.planned_queue sizes }
{
    if sizes.has_unbounded_queue() {
        MAX_SIZE
    } else {
        into_range(least_capacity(sizes), sizes.capacity as u64)
    }
}

// Returns the least capacity that a plan allows for a queue of this kind.
fn least_capacity(sizes: PoolSizes) -> u64
    ensures { result ≡ spec.least_capacity sizes }
{
    if is_synchronous(sizes.queue) { 0 } else { 1 }
}

fn is_synchronous(kind: QueueKind) -> bool
    ensures { result ≡ is_synchronous kind }
{
    matches!(kind, QueueKind::Synchronous)
}

// Clamps the number to the range from `low` to the largest size that a plan allows.
fn into_range(low: u64, number: u64) -> u64
    ensures { result ≡ spec.into_range low number }
{
    number.min(MAX_SIZE).max(low)
}

fn has_core_threads(sizes: PoolSizes) -> bool
    ensures { result ≡ spec.has_core_threads sizes }
{
    sizes.prestarted != 0 && sizes.prestarted == sizes.core
}

/// Adds the pool of a `pool` line, unless `pools` already has a pool with this name. Does nothing
/// for any other line.
///
/// # Errors
///
/// - [`LearnError::InferenceLimit`] if a plan cannot have one more pool.
/// - [`LearnError::Memory`] if memory runs out.
pub(crate) fn note_pool(
    alloc: Global,
    pools: &mut Vec<Pool>,
    line: &Line<'_>,
) -> Result<(), LearnError>
    ensures ok { OnOk result
        (pools.new.items
        ≡ spec.with_first_of (spec.pool_of_line (line_view line.now)) pools.old.items) }
    ensures few { length pools.old.items ≤ MAX_POOLS
        → OnOk result (length pools.new.items ≤ MAX_POOLS) }
    ensures err { (before after : List RecordedLine)
        → pools.old.items ≡ spec.recorded_pools before
        → IfErr result (IsLearnError (before ++ line_view line.now ∷ after)) }
{
    match *line {
        Line::Pool { name, sizes } => add_pool(alloc, pools, name, sizes),
        _ => Ok(()),
    }
}

fn add_pool(
    alloc: Global,
    pools: &mut Vec<Pool>,
    name: &str,
    sizes: PoolSizes,
) -> Result<(), LearnError>
    ensures ok { OnOk result
        (pools.new.items ≡ spec.with_first pools.old.items (spec.recorded_pool name.now sizes)) }
    ensures few { length pools.old.items ≤ MAX_POOLS
        → OnOk result (length pools.new.items ≤ MAX_POOLS) }
    ensures err { (lines : List RecordedLine)
        → (length (spec.with_first pools.old.items (spec.recorded_pool name.now sizes))
        ≤ length (spec.recorded_pools lines))
        → IfErr result (IsLearnError lines) }
{
    if has_name(pools, name) {
        return Ok(());
    }
    if pools.len() >= MAX_POOLS {
        return Err(LearnError::InferenceLimit(InferenceLimit::Pools));
    }
    let pool = recorded_pool(alloc, name, sizes)?;
    pools.push(pool).map_err(AllocError::from)?;
    Ok(())
}

fn has_name(pools: &[Pool], name: &str) -> bool
    ensures { result ≡ spec.has_name name.now pools.now }
{
    pools.iter().any(|pool| pool.name.as_str() == name)
}

/// Returns the number of the pool with this name, or `None` if there is no such pool.
pub(crate) fn pool_number(pools: &[Pool], name: &str) -> Option<usize>
    ensures { result ≡ position (λ pool. bytes_eq pool.name name.now) pools.now }
{
    pools.iter().position(|pool| pool.name.as_str() == name)
}
