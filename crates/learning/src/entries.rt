//! The classes or client kinds of a plan, while their bodies are learned.

ghost use Rattle.std.specs.Prelude.{◌≡◌, ◌≤◌, ◌&&◌, ◌==◌, ◌++◌, ◌∷◌, IsTrue, List, [], OnOk, IfErr, string_bytes};
ghost use Rattle.std.specs.List.{list_any};
ghost use Rattle.std.specs.Str.{bytes_eq};
ghost use Rattle.job_bodies.specs.declared.limits.TheConstants.{MAX_CLASSES};
ghost use Rattle.recordings.specs.RecordingLine.{RecordedLine};
ghost use Rattle.learning.specs.declared.inference_limit.InferenceLimit.{InferenceLimit as Reason};
ghost use Rattle.learning.specs.LearningState.{AreEntriesOf, IsGiven, IsLearnError};

use crate::inference_limit::InferenceLimit;
use crate::learn_error::LearnError;
use crate::names::free_name;
use conformance::{ActorKind, PathStep};
use job_bodies::Action;
use std::alloc::{AllocError, Global};

/// A class or client kind whose body is being learned.
#[derive(Drop)]
pub(crate) struct Entry {
    /// The name of the class or client kind in the recording.
    pub(crate) label: String,
    /// The number of the class's pool, or 0 for a client kind.
    pub(crate) pool: usize,
    /// The name in the learned plan: the label, or the label followed by `_` and a number.
    pub(crate) name: String,
    pub(crate) body: Vec<Action>,
    /// The paths for which the body was changed. All of them match the body.
    pub(crate) paths: Vec<Vec<PathStep>>,
}

/// The classes or the client kinds of a plan that is being learned, in the order of the plan.
#[derive(Drop)]
pub(crate) struct Entries {
    pub(crate) entries: Vec<Entry>,
    /// The kind of the actors that follow the bodies: jobs for classes, and rounds for client
    /// kinds.
    pub(crate) kind: ActorKind,
    /// The maximum number of classes or client kinds of a plan. If a recording needs more,
    /// [`add`](Entries::add) fails with the reason in the field `beyond`.
    limit: usize,
    beyond: InferenceLimit,
    pub(crate) alloc: Global,
}

impl Entries {
    /// Creates an empty list of classes or client kinds, whose actors are of this `kind`. If the
    /// list has `limit` entries, [`add`](Entries::add) fails with the reason `beyond`.
    pub(crate) fn new(
        alloc: Global,
        kind: ActorKind,
        limit: usize,
        beyond: InferenceLimit,
    ) -> Entries
        ensures { (lines : List RecordedLine)
            → limit ≤ MAX_CLASSES
            → AreEntriesOf lines beyond result }
    {
        Entries {
            entries: Vec::new(alloc),
            kind,
            limit,
            beyond,
            alloc,
        }
    }

    /// Adds an entry with an empty body, unless an entry already has this label and pool.
    ///
    /// # Errors
    ///
    /// Returns the errors of [`add`](Entries::add).
    pub(crate) fn note(&mut self, label: &str, pool: usize) -> Result<(), LearnError>
        ensures ok { (lines : List RecordedLine) (beyond : Reason)
            → IsGiven lines beyond label.now pool
            → AreEntriesOf lines beyond self.old
            → OnOk result (AreEntriesOf lines beyond self.new) }
        ensures err { (lines : List RecordedLine) (beyond : Reason)
            → IsGiven lines beyond label.now pool
            → AreEntriesOf lines beyond self.old
            → IfErr result (IsLearnError lines) }
    {
        if self.has(label, pool) {
            return Ok(());
        }
        self.add(label, pool, Vec::new(self.alloc), Vec::new(self.alloc))
    }

    /// Returns true if an entry has this label and pool.
    pub(crate) fn has(&self, label: &str, pool: usize) -> bool
        ensures { (lines : List RecordedLine) (beyond : Reason)
            → AreEntriesOf lines beyond self.now
            → IsTrue result
            → IsGiven lines beyond label.now pool }
    {
        self.entries.iter().any(|entry| entry.is_of(label, pool))
    }

    /// Adds an entry with this body, which all of these paths match. The entry gets the first free
    /// name among LABEL, LABEL_2, LABEL_3 and so on. A name is free if no other entry has it.
    ///
    /// # Errors
    ///
    /// - [`LearnError::InferenceLimit`] if a plan cannot have one more entry, or if the name would
    ///   be too long.
    /// - [`LearnError::Memory`] if memory runs out.
    pub(crate) fn add(
        &mut self,
        label: &str,
        pool: usize,
        body: Vec<Action>,
        paths: Vec<Vec<PathStep>>,
    ) -> Result<(), LearnError>
        ensures ok { (lines : List RecordedLine) (beyond : Reason)
            → IsGiven lines beyond label.now pool
            → AreEntriesOf lines beyond self.old
            → OnOk result (AreEntriesOf lines beyond self.new) }
        ensures err { (lines : List RecordedLine) (beyond : Reason)
            → IsGiven lines beyond label.now pool
            → AreEntriesOf lines beyond self.old
            → IfErr result (IsLearnError lines) }
    {
        if self.entries.len() >= self.limit {
            return Err(LearnError::InferenceLimit(self.beyond));
        }
        let name = free_name(self.alloc, &self.entries, label)?;
        let label = String::from_str(self.alloc, label)?;
        self.push(Entry {
            label,
            pool,
            name,
            body,
            paths,
        })?;
        Ok(())
    }

    fn push(&mut self, entry: Entry) -> Result<(), AllocError>
        ensures entries { OnOk result
            (self.new.entries.items ≡ self.old.entries.items ++ entry ∷ []) }
        ensures limit { self.new.limit ≡ self.old.limit }
        ensures beyond { self.new.beyond ≡ self.old.beyond }
    {
        self.entries.push(entry)?;
        Ok(())
    }

    /// Returns the body of the entry with this number, or an empty body if there is no such entry.
    pub(crate) fn body(&self, number: usize) -> &[Action] {
        match self.entries.get(number) {
            Some(entry) => entry.body.as_slice(),
            None => &[],
        }
    }
}

impl Entry {
    /// Returns true if the entry has this label and pool.
    pub(crate) fn is_of(&self, label: &str, pool: usize) -> bool
        ensures { result
            ≡ (bytes_eq (string_bytes self.now.label) label.now && self.now.pool == pool) }
    {
        self.label.as_str() == label && self.pool == pool
    }
}
