//! The draft of a plan, whose bodies are being learned. A label is the name of a class or client
//! kind in the recording.

ghost use Rattle.std.specs.Prelude.{◌≡◌, ◌==◌, ◌&&◌, length, List, OnOk, IfOk, IfErr, string_bytes};
ghost use Rattle.std.specs.List.{All, Contains};
ghost use Rattle.recordings.specs.RecordingLine.{RecordedLine, line_view};
ghost use Rattle.learning.specs.LearningState.{AreFirstPools, IsDraftOf, IsEntryOf, IsLearnError};
ghost use Rattle.learning.specs.Names.{IsNamedClass};
ghost use Rattle.learning.specs.InferenceLimit.{HasActors};
ghost use Rattle.learning.specs.declared.inference_limit.InferenceLimit.TheVariants as reason;

use crate::entries::{Entries, Entry};
use crate::growth::{Assignment, ObservedPath, reachable_classes};
use crate::inference_limit::InferenceLimit;
use crate::learn_error::LearnError;
use crate::pools::pool_number;
use conformance::ActorKind;
use job_bodies::{Class, Client, MAX_CLASSES, MAX_CLIENT_KINDS, Plan, Pool};
use recordings::Line;
use std::alloc::{AllocError, Global};

/// The classes and client kinds of a plan, with the bodies learned so far.
#[derive(Drop)]
pub(crate) struct PlanDraft {
    pub(crate) classes: Entries,
    pub(crate) kinds: Entries,
    alloc: Global,
}

impl PlanDraft {
    /// Creates an empty draft.
    pub(crate) fn new(alloc: Global) -> PlanDraft
        ensures { (lines : List RecordedLine) → IsDraftOf lines result }
    {
        PlanDraft {
            classes: Entries::new(alloc, ActorKind::Job, MAX_CLASSES, InferenceLimit::Classes),
            kinds: Entries::new(
                alloc,
                ActorKind::Round,
                MAX_CLIENT_KINDS,
                InferenceLimit::Kinds,
            ),
            alloc,
        }
    }

    /// Adds the class or client kind that occurs in the line, unless the draft already has it. Does
    /// not add a class whose pool is not in `pools`.
    ///
    /// # Errors
    ///
    /// - [`LearnError::InferenceLimit`] if a plan cannot have one more class or client kind, or if
    ///   the name of the new one would be too long.
    /// - [`LearnError::Memory`] if memory runs out.
    pub(crate) fn note(&mut self, pools: &[Pool], line: &Line<'_>) -> Result<(), LearnError>
        ensures ok { (lines : List RecordedLine)
            → Contains lines (line_view line.now)
            → AreFirstPools lines pools.now
            → IsDraftOf lines self.old
            → OnOk result (IsDraftOf lines self.new) }
        ensures err { (lines : List RecordedLine)
            → Contains lines (line_view line.now)
            → AreFirstPools lines pools.now
            → IsDraftOf lines self.old
            → IfErr result (IsLearnError lines) }
    {
        match *line {
            Line::RoundBegins { kind, .. } => self.kinds.note(kind, 0),
            Line::Submits { class, pool, .. } => match pool_number(pools, pool) {
                Some(pool) => self.classes.note(class, pool),
                None => Ok(()),
            },
            _ => Ok(()),
        }
    }

    /// Returns true if the draft has no classes and no client kinds.
    pub(crate) fn is_empty(&self) -> bool
        ensures { result
            ≡ (length self.now.classes.entries.items == 0
            && length self.now.kinds.entries.items == 0) }
    {
        self.classes.entries.is_empty() && self.kinds.entries.is_empty()
    }

    /// Returns a plan with the bodies learned so far. In this plan, each client kind has a count of
    /// 1 and does not repeat.
    ///
    /// # Errors
    ///
    /// - [`LearnError::InferenceLimit`] if the pools, classes and client kinds do not form a valid
    ///   plan.
    /// - [`LearnError::Memory`] if memory runs out.
    pub(crate) fn plan(&self, pools: &[Pool]) -> Result<Plan, LearnError>
        ensures { (lines : List RecordedLine) → HasActors lines → IfErr result (IsLearnError lines) }
    {
        let pools = copied_pools(self.alloc, pools)?;
        let classes = self.copied_classes()?;
        let clients = self.copied_clients()?;
        match Plan::build(self.alloc, pools, classes, clients) {
            Ok(plan) => Ok(plan),
            Err(_) => Err(LearnError::InferenceLimit(InferenceLimit::Paths)),
        }
    }

    pub(crate) fn copied_classes(&self) -> Result<Vec<Class>, AllocError>
        ensures { (lines : List RecordedLine)
            → IsDraftOf lines self.now
            → IfOk result (λ classes. All (IsNamedClass lines) classes.items) }
    {
        let mut classes = Vec::new(self.alloc);
        for entry in &self.classes.entries {
            classes.push(class_of(self.alloc, entry)?)?;
        }
        Ok(classes)
    }

    fn copied_clients(&self) -> Result<Vec<Client>, AllocError> {
        let mut clients = Vec::new(self.alloc);
        for entry in &self.kinds.entries {
            clients.push(client_of(self.alloc, entry, 1, false)?)?;
        }
        Ok(clients)
    }

    /// Returns the class of a job with this label, pool and path. If the path matches no body of
    /// the label's classes, changes one of these bodies or adds a class.
    ///
    /// Returns `None` in these cases:
    ///
    /// - The path matches no existing body, and no new body is found for it.
    /// - The draft has no class of this label in the pool.
    ///
    /// # Errors
    ///
    /// - [`LearnError::InferenceLimit`] if a plan cannot have one more class, or if the name of the
    ///   new class would be too long.
    /// - [`LearnError::Memory`] if memory runs out.
    pub(crate) fn learn_job(
        &mut self,
        label: &str,
        pool: usize,
        observed_path: &ObservedPath,
    ) -> Result<Option<Assignment>, LearnError>
        ensures ok { (lines : List RecordedLine)
            → IsDraftOf lines self.old
            → OnOk result (IsDraftOf lines self.new) }
        ensures err { (lines : List RecordedLine)
            → IsDraftOf lines self.old
            → IfErr result (IsLearnError lines) }
    {
        if let Some(assignment) = self.classes.matching_entry(label, pool, observed_path)? {
            return Ok(Some(assignment));
        }
        let reachable = reachable_classes(self.alloc, &self.classes, &observed_path.steps)?;
        self.classes.grow(label, pool, observed_path, &reachable)
    }

    /// Returns the client kind of a round with this label and path. If the path matches no body of
    /// the label's kinds, changes one of these bodies or adds a kind.
    ///
    /// Returns `None` in these cases:
    ///
    /// - The path matches no existing body, and no new body is found for it.
    /// - The draft has no kind of this label.
    ///
    /// # Errors
    ///
    /// - [`LearnError::InferenceLimit`] if a plan cannot have one more client kind, or if the name
    ///   of the new kind would be too long.
    /// - [`LearnError::Memory`] if memory runs out.
    pub(crate) fn learn_round(
        &mut self,
        label: &str,
        observed_path: &ObservedPath,
    ) -> Result<Option<Assignment>, LearnError>
        ensures ok { (lines : List RecordedLine)
            → IsDraftOf lines self.old
            → OnOk result (IsDraftOf lines self.new) }
        ensures err { (lines : List RecordedLine)
            → IsDraftOf lines self.old
            → IfErr result (IsLearnError lines) }
    {
        if let Some(assignment) = self.kinds.matching_entry(label, 0, observed_path)? {
            return Ok(Some(assignment));
        }
        self.kinds.grow(label, 0, observed_path, &[])
    }
}

fn copied_pools(alloc: Global, pools: &[Pool]) -> Result<Vec<Pool>, AllocError> {
    let mut copies = Vec::new(alloc);
    for pool in pools {
        copies.push(pool.try_clone(alloc)?)?;
    }
    Ok(copies)
}

fn class_of(alloc: Global, entry: &Entry) -> Result<Class, AllocError>
    ensures { (lines : List RecordedLine)
        → IsEntryOf lines reason.Classes entry.now
        → IfOk result (IsNamedClass lines) }
{
    Ok(Class {
        name: String::from_str(alloc, &entry.name)?,
        pool: entry.pool,
        body: Vec::from_slice(alloc, &entry.body)?,
    })
}

/// Returns a client kind for a plan, with the name and the body of `entry`. `count` is the number
/// of its clients. `repeat` says whether they start the body again after the last action.
///
/// # Errors
///
/// Returns `AllocError` if memory runs out.
pub(crate) fn client_of(
    alloc: Global,
    entry: &Entry,
    count: u64,
    repeat: bool,
) -> Result<Client, AllocError>
    ensures name { IfOk result (λ client. client.name ≡ string_bytes entry.now.name) }
    ensures count { IfOk result (λ client. client.count ≡ count) }
    ensures repeat { IfOk result (λ client. client.repeat ≡ repeat) }
{
    Ok(Client {
        name: String::from_str(alloc, &entry.name)?,
        count,
        repeat,
        body: Vec::from_slice(alloc, &entry.body)?,
    })
}
