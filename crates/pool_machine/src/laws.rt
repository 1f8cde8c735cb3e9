//! Laws of the machine. Each law is the contract of a function with an empty body.
//!
//! A *waiting set* is a non-empty set of jobs that wait only for each other: each of them is queued
//! or at a get, and waits only for members of the set.

ghost use Rattle.pool_machine.specs.FullWaitingSets.{FullWaitingSetsStay, FixedPoolsAreFull};
ghost use Rattle.pool_machine.specs.JobsMade.{ThreadsHaveJobs, RefusalsNeedJobs};
ghost use Rattle.pool_machine.specs.Laws.{
  PoolsKeepTheirSizes,
  QueuesHaveThreads,
  GetsHaveChildren,
  WaitingSetsAreTested,
  WaitingSetsAreLoose,
};

/// States that no pool exceeds its sizes in a reachable state of a well-formed plan:
///
/// - A pool has at most as many threads as its maximum.
/// - A bounded queue has at most as many jobs as its capacity. If the capacity is 0, the queue has
///   at most as many jobs as its pool has idle workers.
pub fn pools_keep_their_sizes()
    ensures { PoolsKeepTheirSizes }
{}

/// Proves that a pool with a queued job always has threads. In every reachable state of a
/// well-formed plan, such a pool has at least this number of threads:
///
/// - If its core threads may time out, one thread.
/// - Otherwise, as many threads as its core size.
///
/// The reason is that a pool queues a job only if it has at least as many threads as its core size.
/// Its last threads do not end while jobs are queued.
pub fn queues_have_threads()
    ensures { QueuesHaveThreads }
{}

/// States that a client or job at a get has created the job for which it waits. A get refers to a
/// submit of the same body. The *awaited job* is the latest job that the client or job created by
/// this submit. In every reachable state of a well-formed plan, each client or job at a get has an
/// awaited job with these properties:
///
/// - The awaited job belongs to the class of the submit.
/// - No get has returned the result of the awaited job yet.
/// - If a job waits for the awaited job, the waiting job has the smaller number of the two.
pub fn gets_have_children()
    ensures { GetsHaveChildren }
{}

/// States that `is_waiting_set`, the test for waiting sets, is right. A waiting set is a non-empty
/// set of jobs that wait only for each other. The test accepts a list of jobs exactly when the list
/// is a waiting set.
pub fn waiting_sets_are_tested()
    ensures { WaitingSetsAreTested }
{}

/// States that, in every reachable state of a well-formed plan, each waiting set is also a loose
/// waiting set. A waiting set is a non-empty set of jobs that wait only for each other. In a loose
/// waiting set, a running member need not be at a get yet, but it must meet these two conditions:
///
/// - The member created another member.
/// - The member's body has a get at the member's position or later. This get waits for a job of the
///   other member's class.
pub fn waiting_sets_are_loose()
    ensures { WaitingSetsAreLoose }
{}

/// Proves that a full waiting set is permanent. A waiting set is full if each pool with a queued
/// member is full. A pool is full in these cases:
///
/// - The pool has as many threads as its maximum.
/// - Its queue is unbounded, and it has at least as many threads as its core size.
///
/// Consider a full waiting set in a reachable state of a well-formed plan. After any list of
/// events, these facts hold:
///
/// - The set is still a full waiting set.
/// - Its jobs are unchanged.
/// - The pools with a queued member have as many threads as before.
pub fn full_waiting_sets_stay()
    ensures { FullWaitingSetsStay }
{}

/// Proves that a waiting set is full, and therefore permanent (see [`full_waiting_sets_stay`]), if
/// the sizes of its pools are fixed. The sizes of a pool are fixed in these cases:
///
/// - Its core size equals its maximum, and its core threads never time out.
/// - Its core threads may time out, and its maximum is 1.
///
/// Consider a waiting set in a reachable state of a well-formed plan. If the sizes of each pool
/// with a queued member are fixed, each of these pools has as many threads as its maximum.
pub fn fixed_pools_are_full()
    ensures { FixedPoolsAreFull }
{}

/// States a limit for the threads and the queue of a pool. Let `n` be the number of jobs that were
/// created for the pool, plus the number of its prestarted threads. In every reachable state of a
/// well-formed plan, the pool's threads and queued jobs together are at most `n`.
pub fn threads_have_jobs()
    ensures { ThreadsHaveJobs }
{}

/// States that a pool refuses a job only after enough jobs were created for the pool. Let `n` be
/// the number of these jobs plus the number of the pool's prestarted threads. If the pool refuses a
/// job in a reachable state of a well-formed plan, `n` is at least the pool's queue capacity plus
/// its maximum.
pub fn refusals_need_jobs()
    ensures { RefusalsNeedJobs }
{}
