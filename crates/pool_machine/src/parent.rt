//! Actors: the clients and the jobs, which can create jobs.

/// An actor: the client or the job with this number. The parent of a job is the actor that created
/// the job.
#[derive(Clone, Copy, PartialEq, Eq)]
pub enum Parent {
    Client(usize),
    Job(usize),
}
