//! The parsed lines of a recording.

use crate::pool_sizes::PoolSizes;

/// An actor, which submits and gets jobs. It is a running job or a round. A round is one pass of a
/// thread outside the pools through the body of a client.
#[derive(Clone, Copy, PartialEq, Eq, Hash)]
pub enum RecordedActor {
    Job(usize),
    Round(usize),
}

/// A parsed line. The names in the line are slices of the text.
#[derive(Clone, Copy)]
pub enum Line<'a> {
    /// The first line of the recording, `recording 1`.
    Head,
    /// The recording of this pool began, or the settings of the pool changed. `sizes` has the
    /// settings from this line on.
    Pool {
        name: &'a str,
        sizes: PoolSizes,
    },
    /// A thread outside the pools began this round. `kind` is the client kind of the round.
    RoundBegins {
        round: usize,
        kind: &'a str,
    },
    /// The round ended.
    RoundEnds {
        round: usize,
    },
    /// The actor submits this job, of this class, to this pool.
    Submits {
        actor: RecordedActor,
        job: usize,
        class: &'a str,
        pool: &'a str,
    },
    /// The pool refused the job that this actor submitted.
    Refused {
        actor: RecordedActor,
        job: usize,
    },
    /// A thread began to run the job.
    JobStarts {
        job: usize,
    },
    /// The job is done.
    JobEnds {
        job: usize,
    },
    /// The job is done: it threw an exception. If a thread of the pool ran the job, the exception
    /// also ended this thread.
    JobThrew {
        job: usize,
    },
    /// A get of the job returned.
    Got {
        actor: RecordedActor,
        job: usize,
    },
    /// A get of the job timed out.
    TimedOut {
        actor: RecordedActor,
        job: usize,
    },
    /// A get of the job ended because its thread was interrupted.
    Interrupted {
        actor: RecordedActor,
        job: usize,
    },
    /// The actor cancels the job.
    Cancels {
        actor: RecordedActor,
        job: usize,
    },
    /// The actor calls `invokeAny` on this pool.
    InvokesAny {
        actor: RecordedActor,
        pool: &'a str,
    },
    /// `shutdownNow` took the job out of its queue.
    Removed {
        job: usize,
    },
    /// The pool was shut down.
    ShutDown {
        pool: &'a str,
    },
    /// The pool ran jobs that no line reports. `jobs` is the number of these jobs.
    Unseen {
        pool: &'a str,
        jobs: usize,
    },
    /// The recording was closed.
    End,
}
