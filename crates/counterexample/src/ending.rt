//! The ending of a witness: a refused submit, or jobs that wait only for each other.

/// The ending of a witness: a refused submit, or jobs that wait only for each other.
#[derive(Debug, Drop)]
pub enum Ending {
    /// The last event is a submit that the pool with this number refuses. This pool is one that
    /// must not reject jobs.
    Refused(usize),
    /// After the last event, the jobs with these numbers wait only for each other. The second field
    /// is the reason why no later event ends their wait.
    StuckForever(Vec<usize>, Reason),
    /// After the last event, the jobs with these numbers wait only for each other. A later event
    /// may end their wait.
    StuckNow(Vec<usize>),
}

/// The reason why no later event ends the wait of jobs that wait only for each other. In each case,
/// no new thread can take one of these jobs from a queue.
#[derive(Clone, Copy, Debug)]
pub enum Reason {
    /// Each pool that has at least one of these jobs in its queue has `max` threads.
    PoolsAreFull,
    /// Each pool that has at least one of these jobs in its queue starts no new thread, because it
    /// satisfies one of these conditions:
    ///
    /// - The pool has `max` threads.
    /// - The pool has at least `core` threads and an unbounded queue.
    /// - The pool has at least `core` threads, and a standing vector proves that its queue is never
    ///   full.
    ///
    /// A standing vector gives weights to workers, clients and jobs. These weights bound the number
    /// of queued jobs.
    PoolsStayAtCore,
}
