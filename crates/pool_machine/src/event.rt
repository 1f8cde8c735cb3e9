//! The events of the machine, and their outcomes.

/// An event of the machine of a plan.
#[derive(Clone, Copy, Debug, PartialEq, Eq)]
pub enum Event {
    /// The client with this number performs its next action. At the end of its body, it begins
    /// again if its kind repeats. Clients are numbered from 0: first the clients of the plan's
    /// first client kind, then those of its second client kind, and so on.
    Client(usize),
    /// The job with this number performs its next action. At the end of its body, it finishes. Jobs
    /// are numbered from 0 in the order of their creation.
    Job(usize),
    /// An idle worker of the pool with this index takes the head of the pool's queue.
    Take(usize),
    /// An idle worker of the pool with this index ends. This is possible only in these cases:
    ///
    /// - The pool has more threads than its core size.
    /// - Core threads of the pool may time out, and the pool has another thread or no queued job.
    Retire(usize),
}

/// The outcome of an event that is possible.
#[derive(Clone, Copy)]
pub enum Outcome {
    /// A submit created the job with this number, and a new thread runs it.
    Started(usize),
    /// A submit created the job with this number, and the job was appended to its pool's queue.
    Queued(usize),
    /// The pool with this index refused a submit, so no job was created.
    Refused(usize),
    /// A pool without room rejected the job of a submit, as the plan allows. The job was created,
    /// but it is already done, so a get of it does not wait. The fields are the index of the pool
    /// and the number of the job.
    Rejected(usize, usize),
    /// The actor performed this number of units of work.
    Worked(u32),
    /// A get returned the result of the job with this number.
    Got(usize),
    /// The client begins its body again.
    Looped,
    /// The job with this number finished.
    Finished(usize),
    /// An idle worker took the job with this number from the queue, and begins to run this job.
    Took(usize),
    /// An idle worker of the pool ended.
    Retired,
}
