//! The sizes of a pool, given the values of its keys.

ghost use Rattle.std.specs.Prelude.{◌≡◌};
ghost use Rattle.plan_text.specs.Sizes as spec;

use job_bodies::{MAX_SIZE, MAX_THREADS, is_within};

/// The maximum of a pool, the capacity of its queue, and whether its queue is unbounded.
#[derive(Clone, Copy)]
pub struct Sizes {
    pub max: u64,
    pub queue: u64,
    pub unbounded: bool,
}

/// Returns the sizes of a pool, given the values of its keys. A `max` or a `queue` of `None` means
/// the text `unbounded`.
///
/// If the queue has a capacity, a `max` of `None` becomes a number that is out of range. If the
/// queue is unbounded, `max_over_unbounded` determines the maximum.
pub fn sizes_of(core: u64, core_timeout: bool, max: Option<u64>, queue: Option<u64>) -> Sizes
    ensures { result ≡ spec.sizes_of core core_timeout max queue }
{
    match queue {
        Some(queue) => Sizes {
            max: max.unwrap_or(MAX_SIZE + 1),
            queue,
            unbounded: false,
        },
        None => Sizes {
            max: max_over_unbounded(core, core_timeout, max),
            queue: MAX_SIZE,
            unbounded: true,
        },
    }
}

/// Returns the maximum of a pool with an unbounded queue. A `max` of `None` means the text
/// `unbounded`. The first of these rules that applies gives the result:
///
/// 1. If `max` is a number outside the range from `core` to [`MAX_SIZE`], the result is
///    `MAX_SIZE + 1`. The check of the sizes then reports a fault, as for any other pool.
/// 2. If core threads may time out, the result is `max`, or [`MAX_THREADS`] for `None`.
/// 3. Otherwise `max` has no effect, and the result is `core`.
fn max_over_unbounded(core: u64, core_timeout: bool, max: Option<u64>) -> u64
    ensures { result ≡ spec.max_over_unbounded core core_timeout max }
{
    match max {
        Some(max) if !is_within(core, MAX_SIZE, max) => MAX_SIZE + 1,
        Some(max) if core_timeout => max,
        None if core_timeout => MAX_THREADS,
        _ => core,
    }
}
