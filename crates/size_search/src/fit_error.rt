//! The reasons why the sizes of a plan cannot be raised to what a certificate needs.

ghost use Rattle.std.specs.Prelude.{◌≡◌};
ghost use Rattle.std.specs.List.{enumerate_from};
ghost use Rattle.size_search.specs.FitError as spec;

use job_bodies::{MAX_SIZE, Pool};
use soundness::Note;

/// The reason why [`fitted`](crate::fitted) or [`widened`](crate::widened) cannot raise the sizes
/// of a plan to what a certificate needs.
#[derive(Clone, Copy, Debug, PartialEq, Eq)]
pub enum FitError {
    /// The certificate does not have the shape of the plan, or it has a number above
    /// [`MAX_WEIGHT`](job_bodies::MAX_WEIGHT).
    Shape,
    /// The first failing condition that depends neither on cores nor on queues.
    Condition(Note),
    /// A pool needs a core that is too large. The field is the number of the pool. For
    /// [`fitted`](crate::fitted), a core is too large if it is above the pool's maximum. For
    /// [`widened`](crate::widened), it is too large if it is above 1,000,000.
    Core(usize),
    /// The queue of a pool is too small. The field is the number of the pool. This happens in two
    /// cases:
    ///
    /// - The certificate needs a queue larger than 1,000,000.
    /// - The pool may reject jobs, so its queue is not raised.
    ///
    /// An unbounded queue is never the reason.
    Queue(usize),
    /// Jobs of the pool with this number can wait at counted gets. A counted get can block a thread
    /// that other jobs need. The core threads of the pool may time out, so only one thread may be
    /// left.
    CoreTimeout(usize),
}

/// Returns the reason why the raised sizes of a pool are invalid, or `None` if they are valid. If
/// the maximum is above 1,000,000, it was raised for the core, so the core is the reason. The
/// maximum of a pool whose core threads may time out is not raised, and is never the reason.
fn unfit_pool(number: usize, pool: &Pool) -> Option<FitError>
    ensures { result ≡ spec.unfit_pool number pool.now }
{
    if pool.core > pool.max || pool.max > MAX_SIZE && !pool.core_timeout {
        Some(FitError::Core(number))
    } else if pool.queue > MAX_SIZE {
        Some(FitError::Queue(number))
    } else {
        None
    }
}

/// Returns the reason why the sizes of a pool are invalid, for the first such pool of the list.
/// Returns `None` if all sizes are valid.
pub(crate) fn unfit_pools(pools: &[Pool]) -> Option<FitError>
    ensures { result ≡ spec.first_unfit (enumerate_from 0 pools.now) }
{
    for number in 0..pools.len() {
        if let Some(unfit) = unfit_pool(number, &pools[number]) {
            return Some(unfit);
        }
    }
    None
}
