//! Laws about the actors of a recording. Each law is the contract of a function with an empty body.

ghost use Rattle.conformance.specs.Laws.{PathsStay, JobsAreLater, ClassesStay, KindsStay, ClassesAreDetermined, KindsAreDetermined};

/// States that later lines of a recording change none of these:
///
/// - the path of an ended actor;
/// - the classes that a settled job can belong to;
/// - the client kinds that a settled round can belong to.
///
/// An actor is settled once it has ended and all jobs in its path are settled. Also states that a
/// job submits only jobs with larger numbers.
pub fn settled_actors_stay()
    ensures paths { PathsStay }
    ensures later { JobsAreLater }
    ensures classes { ClassesStay }
    ensures kinds { KindsStay }
{}

/// States that the lines of a recording determine the classes that a job can belong to, and the
/// kinds that a round can belong to.
pub fn classes_are_determined()
    ensures classes { ClassesAreDetermined }
    ensures kinds { KindsAreDetermined }
{}
