//! The checks of sizes and counts.

use crate::collector::FaultCollector;
use crate::diagnostic::NumberRange;
use crate::entry::PlacedEntry;
use crate::hints::{large_hint, max_hint, unbounded_max_hint, zero_hint};
use job_bodies::MAX_SIZE;
use std::alloc::AllocError;
use support::number::BAD_NUMBER;

/// The largest valid size and count.
const MOST: i64 = MAX_SIZE as i64;

/// Returns the least valid number for the key, except that a maximum must also be at least the core
/// size. The result is 0 for the queue of a pool that may reject jobs, because such a queue can be
/// a `SynchronousQueue`. Otherwise it is 1.
fn least(entry: &PlacedEntry<'_>, key: &str) -> u64 {
    if key == "queue" && entry.is_set("may_reject") {
        0
    } else {
        1
    }
}

fn is_in_range(least: u64, number: i64) -> bool {
    number >= 0 && number <= MOST && number.unsigned_abs() >= least
}

/// Checks the numbers at these keys, and reports those that are out of range. Returns whether any
/// number is out of range.
fn out_of_range(
    collector: &mut FaultCollector,
    entry: &PlacedEntry<'_>,
    keys: &[&str],
) -> Result<bool, AllocError> {
    let mut any = false;
    for key in keys {
        if let Some(number) = entry.number(*key)
            && !is_in_range(least(entry, *key), number)
        {
            any = true;
            report_number(collector, entry, *key, number)?;
        }
    }
    Ok(any)
}

fn report_number(
    collector: &mut FaultCollector,
    entry: &PlacedEntry<'_>,
    key: &str,
    number: i64,
) -> Result<(), AllocError> {
    let hint = number_hint(entry, key, number);
    let low = low_end(entry, key);
    let words = format!(in collector.alloc;
        "{key} is {number}, but must be from {low} to {MOST}{hint}"
    );
    report_range(collector, entry, key, low, words)
}

/// Reports the number at the key, with the range of valid numbers. `low` is the low end of the
/// range, and `words` is the message. If `words` is an error, returns this error.
fn report_range(
    collector: &mut FaultCollector,
    entry: &PlacedEntry<'_>,
    key: &str,
    low: u64,
    words: Result<String, AllocError>,
) -> Result<(), AllocError> {
    let range = NumberRange {
        low,
        high: MAX_SIZE,
    };
    let place = entry.value_place(key);
    entry.report_with_range(collector, BAD_NUMBER, place, words, Some(range))
}

/// Returns the end of the message for a number that is out of range. The end is empty if there is
/// no hint.
fn number_hint(entry: &PlacedEntry<'_>, key: &str, number: i64) -> &'static str {
    if number == 0 {
        zero_hint(key)
    } else if number > MOST {
        large_hint(key, has_no_limit(entry))
    } else {
        ""
    }
}

/// Returns whether the pool's queue has no limit: it is unbounded, or its capacity is larger than
/// every valid one.
fn has_no_limit(pool: &PlacedEntry<'_>) -> bool {
    match pool.number("queue") {
        Some(queue) => queue > MOST,
        None => pool.is_unbounded("queue"),
    }
}

/// Returns the low end of the valid range for the key. For a maximum, this is the core size, or 1
/// if the pool has no valid core size.
fn low_end(entry: &PlacedEntry<'_>, key: &str) -> u64 {
    if key == "max" {
        least_max(entry)
    } else {
        least(entry, key)
    }
}

/// Reports the sizes of a pool that are out of range. The maximum `unbounded` is out of range if
/// the queue has a capacity. If no number is out of range, but the maximum is less than the core
/// size, reports the maximum.
pub(crate) fn sizes(
    collector: &mut FaultCollector,
    pool: &PlacedEntry<'_>,
) -> Result<(), AllocError> {
    if pool.is_unbounded("max") && pool.number("queue").is_some() {
        unbounded_max(collector, pool)?;
    }
    if out_of_range(collector, pool, &["core", "max", "queue"])? {
        return Ok(());
    }
    if let Some(core) = pool.number("core")
        && let Some(max) = pool.number("max")
        && max < core
    {
        return max_below_core(collector, pool, core, max);
    }
    Ok(())
}

/// Reports a maximum of `unbounded` in a pool with a bounded queue.
fn unbounded_max(collector: &mut FaultCollector, pool: &PlacedEntry<'_>) -> Result<(), AllocError> {
    let low = least_max(pool);
    let hint = unbounded_max_hint();
    let words = format!(in collector.alloc;
        "max is \"unbounded\", but must be from {low} to {MOST}{hint}"
    );
    report_range(collector, pool, "max", low, words)
}

/// Returns the least valid maximum of the pool. This is its core size, or 1 if the pool has no
/// valid core size.
fn least_max(pool: &PlacedEntry<'_>) -> u64 {
    match pool.number("core") {
        Some(core) if is_in_range(1, core) => core.unsigned_abs(),
        _ => 1,
    }
}

fn max_below_core(
    collector: &mut FaultCollector,
    pool: &PlacedEntry<'_>,
    core: i64,
    max: i64,
) -> Result<(), AllocError> {
    let hint = max_hint(pool.is_unbounded("queue"));
    let words = format!(in collector.alloc;
        "max {max} is less than core {core}, but must be from {core} to {MOST}{hint}"
    );
    report_range(collector, pool, "max", core.unsigned_abs(), words)
}

/// Reports the count of a client kind if it is out of range.
pub(crate) fn count(
    collector: &mut FaultCollector,
    client: &PlacedEntry<'_>,
) -> Result<(), AllocError> {
    out_of_range(collector, client, &["count"])?;
    Ok(())
}
