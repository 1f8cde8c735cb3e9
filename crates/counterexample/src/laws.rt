//! Laws of witnesses. A witness is a list of events that proves that a plan is not safe. Each law
//! is the contract of a function with an empty body.

ghost use Rattle.counterexample.specs.Witness.{WitnessedPlansAreNotAccepted, WitnessedPlansAreNotSafe};
ghost use Rattle.counterexample.specs.PermanentSets.{StandingPoolsStayAtCore, PermanentWaitingSetsStay};

/// States that no certificate accepts a well-formed plan that has a witness. A witness proves that
/// the plan is not safe, and a certificate that accepts the plan would prove the opposite.
pub fn witnessed_plans_are_not_accepted()
    ensures { WitnessedPlansAreNotAccepted }
{}

/// States that a plan with a witness is not safe. In some reachable state of the plan, a submit was
/// refused, or unfinished jobs wait only for each other.
pub fn witnessed_plans_are_not_safe()
    ensures { WitnessedPlansAreNotSafe }
{}

/// States that a pool with a standing vector never has more than `core` threads, even if core
/// threads of the pool may time out. A standing vector gives weights to workers, clients and jobs.
/// If the pool's queue is bounded, the weights limit the number of queued jobs to its capacity. The
/// vector must satisfy one more condition: if the pool of a class may reject jobs, a done job of
/// this class weighs at most as much as a queued job.
///
/// The other pools can have any sizes, and may even refuse submits.
///
/// The law holds if each submit is one event. In Java, a submit is performed in the steps of
/// `execute`. If core threads may time out, a pool can then have more than `core` threads, because
/// Java replaces a thread that ends while jobs are queued.
pub fn standing_pools_stay_at_core()
    ensures { StandingPoolsStayAtCore }
{}

/// States that a permanent waiting set lasts. After every list of events, the set is still a
/// permanent waiting set, and none of its jobs has moved.
///
/// A waiting set is a set of jobs that wait only for each other. The set is permanent if each pool
/// with a queued member satisfies one of these conditions:
///
/// - The pool has `max` threads.
/// - The pool has at least `core` threads and an unbounded queue.
/// - The pool has at least `core` threads and a vector as in [`standing_pools_stay_at_core`].
pub fn permanent_waiting_sets_stay()
    ensures { PermanentWaitingSetsStay }
{}
