//! Laws of accepted certificates, each as the contract of an empty function. They use these terms:
//!
//! - A *job event* is an event in which a job performs its next action or finishes.
//! - A *take* is the event in which a worker takes a job from a queue.
//! - The *remaining work* of a job is the number of job events and takes that are still needed to
//!   finish the job and all jobs that it will submit.
//! - A *vector* gives a weight to each worker, to each client at each position of its body, and to
//!   each job at each stage. A *standing* or *lifetime* vector bounds the queue of a pool. The
//!   *rows* of a vector are the conditions on it.
//! - A pool that must not reject jobs *refuses* a job if it has no room. A pool that may reject
//!   jobs *rejects* the job in this case. The submit is then skipped together with its get, and
//!   does not count as refused.
//! - If core threads of a pool may time out, Java *looks* at the pool after each offer that queues
//!   a job, and after each end of a thread. In a look, Java starts a thread if a job is queued and
//!   the pool has no thread. Other events can occur before the look.

ghost use Rattle.soundness.specs.Headline.{
  AcceptedPlansAreSafe,
  AcceptedPlansMakeProgress,
  AcceptedPlansDrain,
  BoundedPlansRefuseNothing,
  AcceptedPlansAreJavaSafe,
  AcceptedPlansMakeJavaProgress,
  AcceptedPlansJavaDrain,
  BoundedPlansJavaRefuseNothing,
  StandingPoolsAreNotAsked,
};
ghost use Rattle.soundness.specs.Headline.{AcceptedPlansMaySkip, AcceptedPlansMakeProgressWithSkips, AcceptedPlansDrainWithSkips};
ghost use Rattle.soundness.specs.Headline.{AcceptedBoundsNeverReject, AcceptedBoundsNeverDecline};

/// States that every reachable state is safe if a certificate accepts a well-formed plan. In a safe
/// state, these facts hold:
///
/// - No submit was refused.
/// - No set of unfinished jobs waits only for its own members. A running job counts as waiting for
///   a job that it submitted, even if it has not reached its get of that job yet.
/// - No pool has more threads than its maximum.
/// - No bounded queue has more jobs than its capacity. If the capacity is 0, the queue has at most
///   as many jobs as its pool has idle workers.
pub fn accepted_plans_are_safe()
    ensures { AcceptedPlansAreSafe }
{}

/// States that a well-formed plan makes progress if a certificate accepts it. In every reachable
/// state with an unfinished job, an event of a job or a take from a queue is possible.
pub fn accepted_plans_make_progress()
    ensures { AcceptedPlansMakeProgress }
{}

/// States that a well-formed plan drains if a certificate accepts it. In a *job event*, a job
/// performs its next action or finishes. In a *take*, a worker takes a job from a queue. Suppose
/// that no client acts after some reachable state. Then these facts hold:
///
/// - The number of job events and takes that follow is at most the remaining work of the jobs in
///   that state. The remaining work of a job is the number of job events and takes that are still
///   needed to finish the job and all jobs that it will submit.
/// - When no job event and no take is possible any longer, no job is unfinished.
///
/// Idle threads may end in between, as far as their pools allow it.
pub fn accepted_plans_drain()
    ensures { AcceptedPlansDrain }
{}

/// States that a well-formed plan refuses no submit if each pool has a valid bound or needs none.
/// The law says nothing about jobs that wait for each other. So it needs neither the ranks nor the
/// blocked vectors of a certificate, which concern such waits. For each pool, one of these
/// conditions must hold:
///
/// - The pool has a bound, which is a standing or a lifetime vector, and the rows (the conditions)
///   of this vector hold. In this vector, a rejected job weighs at most as much as a queued job of
///   its class.
/// - The pool may reject jobs or has an unbounded queue, so it needs no vector.
///
/// Then these facts hold in each reachable state:
///
/// - No submit was refused.
/// - No pool has more threads than its maximum.
/// - No bounded queue has more jobs than its capacity. If the capacity is 0, the queue has at most
///   as many jobs as its pool has idle workers.
pub fn bounded_plans_refuse_nothing()
    ensures { BoundedPlansRefuseNothing }
{}

/// Proves that accepted plans are safe in Java's steps. Let a certificate accept a well-formed
/// plan, and let a submit take the separate steps of Java's `execute`, with other events between
/// them. Then every reachable state is safe (see [`accepted_plans_are_safe`]).
///
/// If core threads of a pool may time out, Java checks after some steps whether the pool needs a
/// new thread. While such a check is still to come, the jobs in the queue of the pool do not count
/// as waiting, because Java may start a thread for them.
pub fn accepted_plans_are_java_safe()
    ensures { AcceptedPlansAreJavaSafe }
{}

/// Proves that accepted plans make progress in Java's steps. Let a certificate accept a well-formed
/// plan, and let a submit take the separate steps of Java's `execute`. Then one of these events is
/// possible in every reachable state with an unfinished job:
///
/// - An event of a job.
/// - A take from a queue.
/// - A look at a pool, in which Java checks whether the pool needs a thread.
pub fn accepted_plans_make_java_progress()
    ensures { AcceptedPlansMakeJavaProgress }
{}

/// Proves that accepted plans drain in Java's steps. Let a certificate accept a well-formed plan,
/// and let a submit take the separate steps of Java's `execute`. Suppose that no client acts after
/// some reachable state. Then these facts hold:
///
/// - The number of job events and takes that follow is at most three times the remaining work of
///   the jobs in that state. [`accepted_plans_drain`] explains these terms.
/// - When no job event, no take and no look at a pool is possible any longer, no job is unfinished.
///   In a look, Java checks whether the pool needs a thread.
///
/// Threads may end in between, as far as their pools allow it.
pub fn accepted_plans_java_drain()
    ensures { AcceptedPlansJavaDrain }
{}

/// States that a well-formed plan refuses no submit in Java's steps if each pool has a valid bound
/// or needs none. The premises and the conclusions are those of [`bounded_plans_refuse_nothing`],
/// but a submit takes the separate steps of Java's `execute`.
pub fn bounded_plans_java_refuse_nothing()
    ensures { BoundedPlansJavaRefuseNothing }
{}

/// States that no call of Java's `execute` ever finds the queue full in a pool with a standing
/// vector. Such a vector bounds the number of queued jobs. So no call requests a thread above core
/// from this pool. All pools of the plan must satisfy the conditions of
/// [`bounded_plans_refuse_nothing`].
pub fn standing_pools_are_not_asked()
    ensures { StandingPoolsAreNotAsked }
{}

/// States that accepted plans are safe even under weaker assumptions. Let a certificate accept a
/// well-formed plan. Then every reachable state is safe, even if the following is allowed:
///
/// - Submits may take the separate steps of Java's `execute`.
/// - An actor, which is a client or a job, may skip a submit of its body together with the get of
///   this submit.
/// - An actor may exchange its jobs of one class, and so get them in any order.
///
/// An actor decides each time anew whether it skips or exchanges.
pub fn accepted_plans_may_skip()
    ensures { AcceptedPlansMaySkip }
{}

/// States that accepted plans make progress even if actors skip submits and exchange their jobs of
/// one class. Let a certificate accept a well-formed plan. Then one of these events is possible in
/// every reachable state with an unfinished job, without a skip or an exchange before it:
///
/// - An event of a job.
/// - A take from a queue.
/// - A look at a pool, in which Java checks whether the pool needs a thread.
pub fn accepted_plans_make_progress_with_skips()
    ensures { AcceptedPlansMakeProgressWithSkips }
{}

/// Proves that accepted plans drain even if actors skip submits and exchange their jobs of one
/// class. Let a certificate accept a well-formed plan, and suppose that no client acts after some
/// reachable state. Then these facts hold:
///
/// - Only a limited number of these steps follow: job events, takes, skips by jobs and missed
///   offers by jobs. In a missed offer, a queue of capacity 0 does not take a job, although a
///   thread may be idle. The limit is three times the remaining work of the jobs in that state.
///   [`accepted_plans_drain`] explains job events, takes and the remaining work.
/// - When no job event, no take and no look at a pool is possible any longer, no job is unfinished.
///   In a look, Java checks whether the pool needs a thread.
///
/// Threads may end in between, as far as their pools allow it, and jobs may be exchanged.
pub fn accepted_plans_drain_with_skips()
    ensures { AcceptedPlansDrainWithSkips }
{}

/// States that a pool with a bound rejects no job. Let a certificate accept a well-formed plan, and
/// let the certificate have a bound for some pool. Then this pool rejects no job in any reachable
/// state, even if the plan says that the pool may reject jobs.
pub fn accepted_bounds_never_reject()
    ensures { AcceptedBoundsNeverReject }
{}

/// States that a pool with a bound neither refuses nor rejects a job, even if submits take the
/// separate steps of Java's `execute` and actors skip submits or exchange jobs. Let a certificate
/// accept a well-formed plan, and let the certificate have a bound for the pool. Then the pool has
/// fewer threads than its maximum whenever a call of `execute` requests a thread from it.
pub fn accepted_bounds_never_decline()
    ensures { AcceptedBoundsNeverDecline }
{}
