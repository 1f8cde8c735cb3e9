//! The answer of a pool to an offered job.

/// The answer of a pool to an offered job.
#[derive(Clone, Copy, Debug)]
pub enum Offer {
    /// A new thread starts the job.
    Started,
    /// The job is appended to the queue.
    Queued,
    /// The queue is full and the pool has as many threads as its maximum, so the job is refused. In
    /// Java, `AbortPolicy` rejects such a job.
    Refused,
}
