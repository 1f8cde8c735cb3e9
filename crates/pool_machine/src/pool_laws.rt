//! Laws of a single pool. Each law is the contract of a function with an empty body.

ghost use Rattle.std.specs.Prelude.{IsTrue};
ghost use Rattle.job_bodies.specs.Plan.{Pool};
ghost use Rattle.job_bodies.specs.WellFormed.{has_valid_sizes};
ghost use Rattle.pool_machine.specs.PoolState.{PoolView, IsSound, new_pool};
ghost use Rattle.pool_machine.specs.PoolLaws.{IsInvariant, HasSizesOf, QueuesHaveThreads, LoadIsOffered, FailureConditions};

/// Proves that no event changes these properties of a pool:
///
/// - Its sizes: core, maximum and capacity.
/// - Whether its queue is unbounded.
/// - Whether its core threads may time out.
pub fn sizes_stay()
    ensures { (first : PoolView) → IsInvariant (HasSizesOf first) }
{}

/// Proves that a pool with valid sizes never exceeds them:
///
/// - It has at most as many threads as its maximum.
/// - It has at most as many idle workers as threads.
/// - A bounded queue has at most as many jobs as its capacity. With capacity 0, it has at most as
///   many jobs as the pool has idle workers.
pub fn pools_stay_sound()
    ensures start { (pool : Pool) → IsTrue (has_valid_sizes pool) → IsSound (new_pool pool) }
    ensures kept { IsInvariant IsSound }
{}

/// Proves that a pool with a queued job has enough threads: at least as many as its core size. If
/// its core threads may time out, one thread is enough. The reasons are:
///
/// - A pool queues a job only if it has at least as many threads as its core size.
/// - While jobs are queued, no thread ends if the pool would then have too few.
pub fn pool_queues_have_threads()
    ensures start { (pool : Pool) → QueuesHaveThreads (new_pool pool) }
    ensures kept { IsInvariant QueuesHaveThreads }
{}

/// Proves how the load of a pool changes. The load is the number of its threads plus the number of
/// its queued jobs.
///
/// - The load of a new pool is the number of its prestarted threads.
/// - An offer of a job increases the load by at most 1, and no other operation increases it.
/// - A pool that refuses a job has a load of at least its capacity plus its maximum.
///
/// So before a pool refuses a job, it was offered at least this number of jobs: its capacity plus
/// its maximum, minus its prestarted threads.
pub fn load_is_offered()
    ensures { LoadIsOffered }
{}

/// Proves when the operations of a pool fail. Each operation fails in these cases, and in no
/// others:
///
/// - The pool refuses a job if its queue is bounded and full, and it has as many threads as its
///   maximum.
/// - [`PoolState::take`](crate::PoolState::take) fails if no worker is idle or the queue is empty.
/// - [`PoolState::retire`](crate::PoolState::retire) fails if no worker is idle, or if the pool
///   needs its threads. It also fails if the queue is bounded with capacity 0, and each idle worker
///   was already handed a job.
///
/// The pool needs its threads in these cases:
///
/// - Its core threads never time out, and it has at most as many threads as its core size.
/// - Its core threads may time out, it has only one thread, and a job is queued.
pub fn failure_conditions()
    ensures { (pool : PoolView) → IsSound pool → FailureConditions pool }
{}
