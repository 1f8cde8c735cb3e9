//! Pending gets. A get is pending if it timed out or was interrupted, and its actor has no later
//! line yet.

ghost use Rattle.std.specs.Prelude.{◌≡◌, OnOk, None, Some, if◌then◌else◌};
ghost use Rattle.recordings.specs.declared.recording_line.RecordedActor as actors;
ghost use Rattle.recordings.specs.LineParts.{is_same_actor};
ghost use Rattle.recordings.specs.InvalidationList.{line_in};

use crate::RecordedActor;
use std::alloc::{AllocError, Global};
use support::IdMap;

/// A map from actors to the line numbers of their pending gets. A get is pending if it timed out or
/// was interrupted, and no later line of its actor was read yet.
#[derive(Drop)]
pub(crate) struct PendingLines {
    jobs: IdMap<usize>,
    rounds: IdMap<usize>,
}

impl PendingLines {
    /// Creates an empty map.
    pub(crate) fn new(alloc: Global) -> PendingLines
        ensures { (one : actors.RecordedActor) → line_in result one ≡ None }
    {
        PendingLines {
            jobs: IdMap::new(alloc),
            rounds: IdMap::new(alloc),
        }
    }

    /// Stores the line number of the actor's pending get.
    ///
    /// # Errors
    ///
    /// Returns `AllocError` if memory runs out.
    pub(crate) fn insert(&mut self, actor: RecordedActor, line: usize) -> Result<(), AllocError>
        ensures { OnOk result
            ((one : actors.RecordedActor)
            → line_in self.new one
            ≡ (if is_same_actor actor one then Some line else line_in self.old one)) }
    {
        match actor {
            RecordedActor::Job(job) => self.jobs.insert(job, line),
            RecordedActor::Round(round) => self.rounds.insert(round, line),
        }
    }

    /// Removes the actor's pending get, if there is one, and returns its line number.
    pub(crate) fn remove(&mut self, actor: RecordedActor) -> Option<usize>
        ensures line { result ≡ line_in self.old actor }
        ensures rest { (one : actors.RecordedActor)
            → line_in self.new one
            ≡ (if is_same_actor actor one then None else line_in self.old one) }
    {
        match actor {
            RecordedActor::Job(job) => self.jobs.remove(job),
            RecordedActor::Round(round) => self.rounds.remove(round),
        }
    }
}
