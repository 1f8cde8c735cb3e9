//! Laws of blocked vectors and of ranks, each as the contract of an empty function.
//!
//! The *blocked vector* of a pool bounds the number of its jobs that wait at counted gets. The
//! ranks of the pools decide which gets are *counted*. A get that is not counted waits for a job
//! that always makes progress. The *rows* of ranks and vectors are the conditions on them.

ghost use Rattle.soundness.specs.CountedGets.{FewerThanCoreMayBlock, NoLooseWaitingSets};
ghost use Rattle.soundness.specs.Drain.{FullIsWhole, FullIsOfThePlan};

/// Proves a limit on how many jobs of a pool can be blocked. A running job *can be blocked* if its
/// current action or a later action is a counted get. Such a get can block a thread that other jobs
/// need. The ranks of a certificate determine which gets are counted. Let the rows (the conditions)
/// of the ranks and of the pool's blocked vector hold. Then the number of the pool's jobs that can
/// be blocked has two limits in every reachable state:
///
/// - It is at most the total of the blocked vector.
/// - It is less than the pool's core size. If core threads may time out, it is 0.
pub fn fewer_than_core_may_block()
    ensures { FewerThanCoreMayBlock }
{}

/// States that jobs never wait only for each other. The rows (the conditions) of the ranks must
/// hold, and also the rows of a blocked vector for each pool. Then in every reachable state, no
/// non-empty set of unfinished jobs waits only for its own members.
///
/// The law also covers jobs that have not yet reached their get. Let a running member A have
/// created another member B. If the body of A still has a get of a job of B's class, A already
/// counts as waiting for B.
pub fn no_loose_waiting_sets()
    ensures { NoLooseWaitingSets }
{}

/// States what the *work* of a new job is, if the rows (the conditions) of the ranks hold. The work
/// is the number of events of the job and of all jobs that it submits, directly or through other
/// jobs. It is the sum of these numbers:
///
/// - One event for each action of the job's body.
/// - One event for the take of the job from the queue, and one for its end.
/// - The work of each job that it submits.
pub fn full_is_whole()
    ensures { FullIsWhole }
{}

/// States that the work of a new job depends only on the plan, although its definition uses ranks.
/// The work is the number of events of the job and of all jobs that it submits, directly or through
/// other jobs. It is the same for all ranks whose rows (the conditions) hold.
pub fn full_is_of_the_plan()
    ensures { FullIsOfThePlan }
{}
