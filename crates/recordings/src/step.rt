//! The actions in the paths of actors.

ghost use Rattle.std.specs.Prelude.{◌≡◌};
ghost use Rattle.recordings.specs.ActorPath as spec;

/// A submit or a get in the path of an actor. It corresponds to an action of a body in a plan.
#[derive(Clone, Copy)]
pub enum RecordedStep {
    /// The actor submitted the job with this number.
    Submits(usize),
    /// The actor got the job that it submitted at this index of the path.
    Gets(usize),
}

impl RecordedStep {
    /// Returns true if this step is a submit of this job.
    pub fn submits(self, job: usize) -> bool
        ensures { result ≡ spec.submits job self }
    {
        match self {
            RecordedStep::Submits(one) => one == job,
            RecordedStep::Gets(_) => false,
        }
    }

    /// Returns true if this step gets the job that was submitted at index `place` of the path.
    pub fn gets(self, place: usize) -> bool
        ensures { result ≡ spec.gets place self }
    {
        match self {
            RecordedStep::Gets(got) => got == place,
            RecordedStep::Submits(_) => false,
        }
    }
}
