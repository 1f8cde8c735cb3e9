//! The actions in the body of a class or client kind.

ghost use Rattle.std.specs.Prelude.{◌≡◌};
ghost use Rattle.job_bodies.specs.Plan as spec;

/// An action of a body. The *actor* is the job or the client that performs the action.
#[derive(Clone, Copy, Debug)]
pub enum Action {
    /// The actor works for this number of units, from 1 to 1,000,000.
    Work(u32),
    /// The actor submits a job of the class with this index to the pool of the class, and
    /// continues. This is what Java's `submit` does.
    Submit(usize),
    /// The actor waits for a job that it submitted, as in Java's `Future.get`. The number is the
    /// position of the submit in the same body. If the body repeats, the actor waits for the latest
    /// job that it submitted at this position. A body has at most one get for each of its submits.
    Get(usize),
}

impl Action {
    /// Returns true if this action is a get of the submit at position `submit` of the same body.
    pub fn gets(self, submit: usize) -> bool
        ensures { result ≡ spec.gets submit self }
    {
        match self {
            Action::Get(got) => submit == got,
            Action::Work(_) | Action::Submit(_) => false,
        }
    }
}

/// Returns true if at least one of these actions is a get of the submit at position `submit` of the
/// same body.
pub fn has_get_of(actions: &[Action], submit: usize) -> bool
    ensures { result ≡ spec.has_get_of actions.now submit }
{
    actions.iter().any(|action| action.gets(submit))
}
