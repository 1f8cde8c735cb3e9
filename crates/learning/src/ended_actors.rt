//! The ended actors during a pass over a recording.

use recordings::{Line, RecordedActor};
use std::alloc::{AllocError, Global};
use std::collections::HashSet;

/// The actors that have ended but are not yet classified: the pass has not yet searched for their
/// classes or client kinds. The pass uses this set to find out whether a path is complete.
#[derive(Drop)]
pub(crate) struct EndedActors {
    jobs: HashSet<usize>,
    rounds: HashSet<usize>,
}

impl EndedActors {
    /// Creates an empty set.
    pub(crate) fn new(alloc: Global) -> EndedActors {
        EndedActors {
            jobs: HashSet::new(alloc),
            rounds: HashSet::new(alloc),
        }
    }

    /// Adds the actor that ends at this line. Does nothing if no actor ends at it.
    ///
    /// # Errors
    ///
    /// Returns `AllocError` if memory runs out.
    pub(crate) fn note(&mut self, line: &Line<'_>) -> Result<(), AllocError> {
        match *line {
            Line::RoundEnds { round } => {
                self.rounds.insert(round)?;
                Ok(())
            }
            Line::JobEnds { job } | Line::JobThrew { job } => {
                self.jobs.insert(job)?;
                Ok(())
            }
            _ => Ok(()),
        }
    }

    pub(crate) fn contains(&self, actor: RecordedActor) -> bool {
        match actor {
            RecordedActor::Job(job) => self.jobs.contains(&job),
            RecordedActor::Round(round) => self.rounds.contains(&round),
        }
    }

    /// Removes an actor that was classified.
    pub(crate) fn remove(&mut self, actor: RecordedActor) {
        match actor {
            RecordedActor::Job(job) => self.jobs.remove(&job),
            RecordedActor::Round(round) => self.rounds.remove(&round),
        };
    }
}
