//! Comparison of one `pool` line with a pool of the plan.

ghost use Rattle.std.specs.Prelude.{◌≡◌, ◌++◌, ◌↔◌, [], OnOk, IfOk};
ghost use Rattle.conformance.specs.Sizes as spec;

use crate::Difference;
use job_bodies::{MAX_SIZE, Pool};
use recordings::{PoolSizes, QueueKind, UNBOUNDED_CAPACITY};
use std::alloc::{AllocError, Global};

/// Returns all differences between a `pool` line and the plan's pool, in the order of the variants
/// of [`Difference`]. The list is empty exactly if the pool is as planned. These values are not
/// always compared:
///
/// - The number of prestarted threads is compared only in the first line of the pool (`is_first`).
/// - The maximum is not compared if it has no effect in the plan. It has no effect if the plan's
///   pool has an unbounded queue and core threads that never time out.
/// - The handler is never compared, because a plan has no handlers.
///
/// # Errors
///
/// Returns [`AllocError`] if memory runs out.
pub fn differences(
    alloc: Global,
    sizes: &PoolSizes,
    pool: &Pool,
    is_first: bool,
) -> Result<Vec<Difference>, AllocError>
    ensures exact { IfOk result
        (λ found. found.items ≡ spec.differences is_first sizes.now pool.now) }
    ensures none { IfOk result
        (λ found. (found.items ≡ []) ↔ spec.IsAsPlanned is_first sizes.now pool.now) }
{
    let mut found = Vec::new(alloc);
    let (recorded, planned) = (sizes.core as u64, pool.core);
    push_unless(
        &mut found,
        recorded == planned,
        Difference::Core { recorded, planned },
    )?;
    let recorded = sizes.max as u64;
    push_unless(
        &mut found,
        fits_max(pool, recorded),
        max_difference(recorded, pool),
    )?;
    push_unless(
        &mut found,
        is_planned_kind(pool, sizes.queue),
        Difference::KindOfQueue(sizes.queue),
    )?;
    let (recorded, planned) = (sizes.capacity as u64, planned_capacity(pool));
    push_unless(
        &mut found,
        recorded == planned,
        capacity_difference(recorded, pool),
    )?;
    push_unless(
        &mut found,
        is_planned_timeout(pool, sizes.timeout),
        timeout_difference(pool),
    )?;
    let (recorded, planned) = (sizes.prestarted as u64, pool.first_workers());
    push_unless(
        &mut found,
        !is_first || recorded == planned,
        Difference::Prestarted { recorded, planned },
    )?;
    Ok(found)
}

/// Returns true if the recorded maximum is that of the plan's pool, or if the maximum has no effect
/// in the plan.
fn fits_max(pool: &Pool, recorded: u64) -> bool
    ensures { result ≡ spec.fits_max pool.now recorded }
{
    !uses_max(pool) || is_planned_max(pool, recorded)
}

/// Returns true if the maximum of the plan's pool has an effect: the pool has a bounded queue, or
/// its core threads may time out.
fn uses_max(pool: &Pool) -> bool
    ensures { result ≡ spec.uses_max pool.now }
{
    !pool.unbounded || pool.core_timeout
}

/// Returns true if the recorded maximum is that of the plan's pool. If the plan gives no maximum,
/// the recorded maximum must be above `MAX_SIZE`, the largest size in a plan.
fn is_planned_max(pool: &Pool, recorded: u64) -> bool
    ensures { result ≡ spec.is_planned_max pool.now recorded }
{
    if pool.has_no_max() {
        recorded > MAX_SIZE
    } else {
        recorded == pool.max
    }
}

/// Returns the difference to report for a recorded maximum that is not the plan's.
fn max_difference(recorded: u64, pool: &Pool) -> Difference
    ensures { result ≡ spec.max_difference recorded pool.now }
{
    if pool.has_no_max() {
        Difference::BoundedMax { recorded }
    } else {
        let planned = pool.max;
        Difference::Max { recorded, planned }
    }
}

/// Returns true if the kind of the recorded queue fits the plan's queue. If the plan's queue is
/// unbounded, only `LinkedBlockingQueue` fits. Otherwise, the kinds that fit depend on the capacity
/// of the plan's queue ([`is_kind_of`]).
fn is_planned_kind(pool: &Pool, kind: QueueKind) -> bool
    ensures { result ≡ spec.is_planned_kind pool.now kind }
{
    if pool.unbounded {
        kind.is_linked()
    } else {
        is_kind_of(pool.queue, kind)
    }
}

/// Returns the capacity that a `pool` line must have to agree with the plan's queue. For an
/// unbounded queue, this is `UNBOUNDED_CAPACITY`.
fn planned_capacity(pool: &Pool) -> u64
    ensures { result ≡ spec.planned_capacity pool.now }
{
    if pool.unbounded {
        UNBOUNDED_CAPACITY as u64
    } else {
        pool.queue
    }
}

/// Returns the difference to report for a recorded queue capacity that is not the plan's.
fn capacity_difference(recorded: u64, pool: &Pool) -> Difference
    ensures { result ≡ spec.capacity_difference recorded pool.now }
{
    if pool.unbounded {
        Difference::BoundedQueue { recorded }
    } else {
        let planned = pool.queue;
        Difference::Capacity { recorded, planned }
    }
}

/// Returns true if the recorded pool and the plan's pool agree on whether core threads may time
/// out.
fn is_planned_timeout(pool: &Pool, recorded: bool) -> bool
    ensures { result ≡ spec.is_planned_timeout pool.now recorded }
{
    if pool.core_timeout {
        recorded
    } else {
        !recorded
    }
}

/// Returns the difference to report if the recorded pool and the plan's pool disagree on whether
/// core threads may time out.
fn timeout_difference(pool: &Pool) -> Difference
    ensures { result ≡ spec.timeout_difference pool.now }
{
    if pool.core_timeout {
        Difference::NoCoreTimeout
    } else {
        Difference::CoreTimeout
    }
}

/// Returns true if a queue of this kind fits a plan's bounded queue with this capacity. Capacity 0
/// means a `SynchronousQueue`. Any other capacity means an `ArrayBlockingQueue` or a
/// `LinkedBlockingQueue`.
fn is_kind_of(capacity: u64, kind: QueueKind) -> bool
    ensures { result ≡ spec.is_kind_of capacity kind }
{
    if capacity == 0 {
        is_synchronous(kind)
    } else {
        is_array_or_linked(kind)
    }
}

fn is_synchronous(kind: QueueKind) -> bool
    ensures { result ≡ spec.is_synchronous kind }
{
    matches!(kind, QueueKind::Synchronous)
}

fn is_array_or_linked(kind: QueueKind) -> bool
    ensures { result ≡ spec.is_array_or_linked kind }
{
    matches!(kind, QueueKind::Array | QueueKind::Linked)
}

/// Appends the difference to the list, unless the recorded value and the plan agree (`agree`).
fn push_unless(
    found: &mut Vec<Difference>,
    agree: bool,
    difference: Difference,
) -> Result<(), AllocError>
    ensures { OnOk result (found.new.items ≡ found.old.items ++ spec.unless agree difference) }
{
    if !agree {
        found.push(difference)?;
    }
    Ok(())
}
