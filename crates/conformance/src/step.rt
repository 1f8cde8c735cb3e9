//! The steps of an actor.

ghost use Rattle.std.specs.Prelude.{◌≡◌};
ghost use Rattle.conformance.specs.PathStep as spec;

/// A step of an actor: a submit or a get.
#[derive(Drop)]
pub enum PathStep {
    /// A submit of a job. The field has the classes that the job may belong to, by their numbers in
    /// the plan.
    Submits(Vec<usize>),
    /// A get of the job that is submitted at this index of the path.
    Gets(usize),
}

/// The kind of an actor. An actor gets only jobs that it submitted, and the kind determines which
/// of these jobs it may get.
#[derive(Clone, Copy)]
pub enum ActorKind {
    /// A job. At each index of its body, it may get only jobs of classes that the body gets at this
    /// index or later.
    Job,
    /// A round, which is one pass of a client through its body. A round may get any job that it
    /// submitted, even if the body has no get for this job.
    Round,
}

/// Whether a path is whole or only a prefix.
#[derive(Clone, Copy)]
pub enum PathState {
    /// The whole path: the actor has ended.
    Whole,
    /// A prefix of the path: the actor may continue.
    Prefix,
}

impl PathStep {
    /// Returns true if the step is a submit of a job that may belong to this class.
    pub fn submits(&self, class: usize) -> bool
        ensures { result ≡ spec.submits self.now class }
    {
        match self {
            PathStep::Submits(classes) => classes.contains(&class),
            PathStep::Gets(_) => false,
        }
    }
}
