//! The events of a recording that invalidate a SAFE answer, and their texts. SAFE says of a plan
//! that no sequence of its events ends in a deadlock, and that no pool rejects a job, except a pool
//! that may reject jobs.

ghost use Rattle.std.specs.Prelude.{◌≡◌, Some};
ghost use Rattle.recordings.specs.EventText as spec;
ghost use Rattle.recordings.specs.Invalidations.{keyword_of};

use crate::RecordedActor;
use std::fmt;

/// A recorded event that invalidates a SAFE answer. The answer does not apply to the lines after
/// the line of the event.
///
/// The displayed text is a short phrase without the line number, such as `job 4 was refused`.
#[derive(Clone, Copy)]
pub enum InvalidatingEvent {
    /// A pool refused the job that this actor submitted.
    Refused { actor: RecordedActor, job: usize },
    /// A get of the job by this actor timed out.
    TimedOut { actor: RecordedActor, job: usize },
    /// A get of the job by this actor was interrupted.
    Interrupted { actor: RecordedActor, job: usize },
    /// The actor cancelled the job.
    Cancelled { actor: RecordedActor, job: usize },
    /// The actor called `invokeAny`.
    AnyInvoked { actor: RecordedActor },
    /// `shutdownNow` took the job out of its queue.
    Removed { job: usize },
    /// The job threw an exception. If a thread of the pool ran the job, the exception also ended
    /// this thread.
    Threw { job: usize },
    /// A pool ran jobs that no line of the recording reports. `jobs` is the number of these jobs.
    Unseen { jobs: usize },
}

/// An event that invalidates a SAFE answer, with the line that reports it.
#[derive(Clone, Copy)]
pub struct Invalidation {
    /// The line number, from 1.
    pub line: usize,
    pub event: InvalidatingEvent,
}

impl InvalidatingEvent {
    /// Returns the keyword of the lines that report events of this type, such as `refused`.
    pub fn word(self) -> &'static str
        ensures { result.now ≡ keyword_of self }
    {
        match self {
            InvalidatingEvent::Refused { .. } => "refused",
            InvalidatingEvent::TimedOut { .. } => "timeout",
            InvalidatingEvent::Interrupted { .. } => "interrupted",
            InvalidatingEvent::Cancelled { .. } => "cancel",
            InvalidatingEvent::AnyInvoked { .. } => "any",
            InvalidatingEvent::Removed { .. } => "removed",
            InvalidatingEvent::Threw { .. } => "threw",
            InvalidatingEvent::Unseen { .. } => "unseen",
        }
    }

    // Returns the end of the displayed text, which says what happened.
    fn outcome(self) -> &'static str
        ensures { result.now ≡ spec.outcome self }
    {
        match self {
            InvalidatingEvent::Refused { .. } => "was refused",
            InvalidatingEvent::TimedOut { .. } => "timed out",
            InvalidatingEvent::Interrupted { .. } => "was interrupted",
            InvalidatingEvent::Cancelled { .. } => "was cancelled",
            InvalidatingEvent::AnyInvoked { .. } => "invokeAny was called",
            InvalidatingEvent::Removed { .. } => "was removed from its queue",
            InvalidatingEvent::Threw { .. } => "threw an exception",
            InvalidatingEvent::Unseen { .. } => "jobs were run that no line mentions",
        }
    }
}

impl fmt::Display for InvalidatingEvent {
    ghost output = { λ event. Some (spec.event_text event) };

    fn fmt<W: fmt::Write>(&self, f: &mut fmt::Formatter<W>) -> fmt::Result {
        match *self {
            InvalidatingEvent::TimedOut { job, .. } | InvalidatingEvent::Interrupted { job, .. } =>
                { write!(f, "a get of job {job} {}", self.outcome()) }
            InvalidatingEvent::Refused { job, .. }
            | InvalidatingEvent::Cancelled { job, .. }
            | InvalidatingEvent::Removed { job }
            | InvalidatingEvent::Threw { job } => write!(f, "job {job} {}", self.outcome()),
            InvalidatingEvent::AnyInvoked { .. } => f.write_str(self.outcome()),
            InvalidatingEvent::Unseen { jobs } => write!(f, "{jobs} {}", self.outcome()),
        }
    }
}
