//! The reason why a body cannot reach a submit: too many jobs are open in the path.

/// The reason why a body cannot make the next step of a path, which is a submit: too many jobs are
/// open in the path. The body still has a matching submit. But at some index on the way to the next
/// one, more jobs of the class `class` are open in the path than in the body. The submit itself may
/// be of a different class.
#[derive(Clone, Copy, PartialEq, Eq)]
pub struct OpenExcess {
    /// The class of the open jobs, by its number in the plan.
    pub class: usize,
    /// The number of jobs of this class that are open in the path.
    pub open_jobs: usize,
    /// The smallest number of jobs of this class that are open in the body on the way to the
    /// submit.
    pub limit: usize,
}
