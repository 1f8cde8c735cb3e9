//! Laws of live views. The live view of a state has its live jobs, pools and clients, and the
//! number of refusals. A waiting set is a set of unfinished jobs that wait only for each other.
//! Each law is the contract of a function with an empty body.

ghost use Rattle.interleaving.specs.Laws.{StartIsSeen, StepsCommute, UnfinishedJobsAreLive, WaitingSetsAreSeen, DeadJobsStayDead};

/// States what the live view of the initial state is. The live view of a state has its pools, its
/// clients, its live jobs and its number of refusals. In the live view of the initial state,
///
/// - there are no jobs and no refusals,
/// - each prestarted pool has `core` idle workers, and each other pool has no threads, and
/// - each client is at the start of its body.
pub fn start_is_seen()
    ensures { StartIsSeen }
{}

/// States that the live view of a state determines all later events. The live view has all clients
/// and pools, but only the jobs that are unfinished or that a get may still return. For every
/// reachable state of a well-formed plan, these facts hold:
///
/// - The same events are possible in the state and in its live view.
/// - Each of these events has the same outcome in the state and in the live view.
/// - After each of these events, the new live view is the live view of the new state.
pub fn steps_commute()
    ensures { StepsCommute }
{}

/// States that a state and its live view have the same number of unfinished jobs. The live view has
/// only the jobs that are unfinished or that a get may still return.
pub fn unfinished_jobs_are_live()
    ensures { UnfinishedJobsAreLive }
{}

/// States that a live view determines the waiting sets. The live view of a state has only the jobs
/// that are unfinished or that a get may still return. A waiting set is a non-empty set of jobs
/// that wait only for each other. In every reachable state of a well-formed plan, the live view and
/// the state have the same waiting sets.
pub fn waiting_sets_are_seen()
    ensures { WaitingSetsAreSeen }
{}

/// States that no event makes a dead job live again. A job is live while it is unfinished or a get
/// may still return it. Afterwards it is dead. The law holds in every reachable state of a
/// well-formed plan.
pub fn dead_jobs_stay_dead()
    ensures { DeadJobsStayDead }
{}
