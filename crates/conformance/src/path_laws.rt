//! Laws about paths and the machine of a plan. The machine has the states and the events of the
//! plan's pools, jobs and clients. A plan is accepted if a certificate accepts it. Each law is the
//! contract of a function with an empty body.

ghost use Rattle.conformance.specs.FollowedActors.{PlannedActorsAreFollowed};
ghost use Rattle.conformance.specs.LaggingRun.{PathsAreFollowed, RunsStayReachable};

/// States that the machine of an accepted plan can follow each path that matches the body of an
/// actor. Other actors and pools may act at any moment. In a pool whose core threads may time out,
/// each idle thread may end, and Java may start a thread that has no job yet.
///
/// Let the machine be in a reachable state in which the actor is at the start of this body. Then
/// these facts hold:
///
/// - The actor can make the submits of the path in their order. The pool takes the job of each
///   submit, or rejects it if the pool may reject jobs. A rejected job is done at once.
/// - The actor passes the actions of its body late: directly before the next submit of the path, or
///   before the end. It skips the submits among these actions, and gets only jobs that are not open
///   in the path. So the actor gets each job no sooner than the path does.
/// - Suppose that the actor is a job, and that the path waits in a get. Then the rest of the
///   actor's body still has a get of a job of the awaited job's class.
/// - The states of such a run are reachable, so they are safe.
pub fn paths_are_followed()
    ensures followed { PathsAreFollowed }
    ensures reachable { RunsStayReachable }
{}

/// States that the machine of an accepted plan can follow each job and each round of a recording in
/// which all jobs and rounds behave as planned. The path of such a job or round matches the body of
/// at least one class or kind that its label may refer to. The machine can follow the job or the
/// round with each body that the path matches.
pub fn planned_actors_are_followed()
    ensures { PlannedActorsAreFollowed }
{}
