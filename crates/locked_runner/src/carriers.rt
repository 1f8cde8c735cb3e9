//! The threads that a run has for a pool.

ghost use Rattle.std.specs.Prelude.{◌≡◌};
ghost use Rattle.locked_runner.specs.Carriers as spec;

use job_bodies::Pool;

/// Returns the number of threads that a run has for the pool. This is the core size of the pool in
/// these cases, because the run then needs no other threads:
///
/// - The queue is unbounded, and core threads never time out.
/// - The pool has no maximum.
///
/// Otherwise it is the maximum of the pool.
pub(crate) fn carriers(pool: &Pool) -> u64
    ensures { result ≡ spec.carriers pool.now }
{
    if needs_core_only(pool) {
        pool.core
    } else {
        pool.max
    }
}

// Returns `true` if a run needs only core threads for the pool. In Java, a pool without a maximum
// may start a thread above its core size, but only to replace another thread. A run replaces no
// thread, because its worker threads end only with the run.
fn needs_core_only(pool: &Pool) -> bool
    ensures { result ≡ spec.needs_core_only pool.now }
{
    pool.unbounded && !pool.core_timeout || pool.has_no_max()
}
