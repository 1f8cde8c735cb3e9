//! Laws of weights, each as the contract of an empty function. A vector gives a weight to each
//! worker, to each client at each position of its body, and to each job at each stage. Its *rows*
//! are the conditions on these weights. The weight of a state is the sum of the weights of its
//! clients, its jobs and its workers that are not busy. Each pool counts here as if it had its
//! maximum of workers.
//!
//! The laws require that *rejected jobs are light*: if a pool may reject jobs, a done job of each
//! of its classes weighs at most as much as a queued job of the same class.
//! [`done_within_queued`](crate::done_within_queued) proves this condition from the rows of the
//! ranks and of the vector.

ghost use Rattle.soundness.specs.WeightLaws.{SumNeverRises, SumStaysWithinTotal, BoundsRefuseNothing, QueuesStayWithinTotal, JobsStayWithinTotal};

/// States that no event increases the weight of a reachable state. The weight is the sum of the
/// weights that a vector gives to clients, to jobs and to workers that are not busy. The rows (the
/// conditions) of the vector must hold, and a rejected job must weigh at most as much as a queued
/// job.
pub fn sum_never_rises()
    ensures { SumNeverRises }
{}

/// States that the weight of every reachable state is at most the total of a vector. The weight is
/// the sum of the weights that the vector gives to clients, to jobs and to workers that are not
/// busy. The rows (the conditions) of the vector must hold, and a rejected job must weigh at most
/// as much as a queued job.
pub fn sum_stays_within_total()
    ensures { SumStaysWithinTotal }
{}

/// States that a pool neither refuses nor rejects a job in any reachable state. The pool must have
/// a standing or a lifetime vector, and the rows (the conditions) of this vector must hold. In this
/// vector, a rejected job must weigh at most as much as a queued job. Nothing is assumed about the
/// other pools.
pub fn bounds_refuse_nothing()
    ensures { BoundsRefuseNothing }
{}

/// States that the queue of a pool never has more jobs than the total of a vector. This holds in
/// every reachable state, whether the queue is bounded or unbounded. These conditions must hold:
///
/// - The rows (the conditions) of the vector hold.
/// - Each queued job of the pool weighs at least 1.
/// - A rejected job weighs at most as much as a queued job.
pub fn queues_stay_within_total()
    ensures { QueuesStayWithinTotal }
{}

/// States a limit on the number of jobs ever submitted to a pool. In every reachable state, this
/// number is at most the total of the pool's lifetime vector. These conditions must hold:
///
/// - The rows (the conditions) of the vector hold.
/// - The queue of the pool is bounded.
/// - A rejected job weighs at most as much as a queued job.
pub fn jobs_stay_within_total()
    ensures { JobsStayWithinTotal }
{}
