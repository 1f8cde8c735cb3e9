//! Changes of bodies so that observed paths match them.

ghost use Rattle.std.specs.Prelude.{◌≡◌, List, None, length, OnOk, IfOk, IfErr, string_bytes};
ghost use Rattle.recordings.specs.RecordingLine.{RecordedLine};
ghost use Rattle.learning.specs.declared.inference_limit.InferenceLimit.{InferenceLimit as Reason};
ghost use Rattle.learning.specs.LearningState.{AreEntriesOf, IsGiven, IsLearnError};

use crate::entries::{Entries, Entry};
use crate::learn_error::LearnError;
use crate::{body_of_path, covering_body};
use conformance::{ActorKind, PathMatch, PathState, PathStep, match_path};
use job_bodies::Action;
use std::alloc::{AllocError, Global};

/// The maximum number of paths for which one body is changed. A path that already matches the body
/// does not count.
const MAX_PATHS: usize = 256;

/// An observed path, with the class assigned to each of its jobs.
#[derive(Drop)]
pub(crate) struct ObservedPath {
    pub(crate) steps: Vec<PathStep>,
    pub(crate) path_state: PathState,
}

/// The class or client kind assigned to an actor.
#[derive(Clone, Copy)]
pub(crate) struct Assignment {
    /// The number of the class or client kind.
    pub(crate) number: usize,
    /// True if the body of the class or client kind changed.
    pub(crate) is_changed: bool,
}

impl Entries {
    /// Searches the entries of this label and pool for the first one whose body the path matches.
    /// Returns the assignment of the path to this entry, or `None` if there is no such entry.
    ///
    /// # Errors
    ///
    /// Returns `AllocError` if memory runs out.
    pub(crate) fn matching_entry(
        &self,
        label: &str,
        pool: usize,
        observed_path: &ObservedPath,
    ) -> Result<Option<Assignment>, AllocError> {
        for (number, entry) in self.entries.iter().enumerate() {
            if entry.is_of(label, pool)
                && is_path_of(self.alloc, self.kind, &entry.body, observed_path)?
            {
                return Ok(Some(Assignment {
                    number,
                    is_changed: false,
                }));
            }
        }
        Ok(None)
    }

    /// Assigns the path to an entry with this label and pool. Changes the body of the entry so that
    /// the path and the entry's earlier paths match it. If this is possible for no entry, adds an
    /// entry for this path alone.
    ///
    /// Skips the classes that are marked in `reachable`. The path submits jobs of these classes,
    /// directly or through the bodies of other jobs (see [`reachable_classes`]). If the path
    /// belonged to such a class, the class would submit itself, directly or through other classes.
    ///
    /// Returns the assignment, or `None` in these cases:
    ///
    /// - No entry has this label and pool.
    /// - No body is found for the path alone. No entry is then added.
    ///
    /// # Errors
    ///
    /// Returns the errors of [`add`](Entries::add).
    pub(crate) fn grow(
        &mut self,
        label: &str,
        pool: usize,
        observed_path: &ObservedPath,
        reachable: &[bool],
    ) -> Result<Option<Assignment>, LearnError>
        ensures ok { (lines : List RecordedLine) (beyond : Reason)
            → AreEntriesOf lines beyond self.old
            → OnOk result (AreEntriesOf lines beyond self.new) }
        ensures err { (lines : List RecordedLine) (beyond : Reason)
            → AreEntriesOf lines beyond self.old
            → IfErr result (IsLearnError lines) }
        ensures none { IfOk result (λ found. found ≡ None
            → length self.new.entries.items ≡ length self.old.entries.items) }
    {
        for number in 0..self.entries.len() {
            if self.is_free(number, label, pool, reachable) {
                if let Some(assignment) = self.cover(number, &observed_path.steps)? {
                    return Ok(Some(assignment));
                }
            }
        }
        if !self.has(label, pool) {
            return Ok(None);
        }
        self.add_for(label, pool, &observed_path.steps)
    }

    // Adds an entry for this path alone. Adds nothing and returns `None` if no body was found.
    fn add_for(
        &mut self,
        label: &str,
        pool: usize,
        path: &[PathStep],
    ) -> Result<Option<Assignment>, LearnError>
        ensures ok { (lines : List RecordedLine) (beyond : Reason)
            → IsGiven lines beyond label.now pool
            → AreEntriesOf lines beyond self.old
            → OnOk result (AreEntriesOf lines beyond self.new) }
        ensures err { (lines : List RecordedLine) (beyond : Reason)
            → IsGiven lines beyond label.now pool
            → AreEntriesOf lines beyond self.old
            → IfErr result (IsLearnError lines) }
        ensures none { IfOk result (λ found. found ≡ None
            → length self.new.entries.items ≡ length self.old.entries.items) }
    {
        let Some(body) = body_of_path(self.alloc, path)? else {
            return Ok(None);
        };
        let number = self.entries.len();
        let paths = only_path(self.alloc, path)?;
        self.add(label, pool, body, paths)?;
        Ok(Some(Assignment {
            number,
            is_changed: true,
        }))
    }

    // Changes the body of the entry with this number so that the path and the entry's earlier paths
    // match it. Returns `None` if no such body was found, or if there is no such entry.
    fn cover(&mut self, number: usize, path: &[PathStep]) -> Result<Option<Assignment>, AllocError>
        ensures entries { (lines : List RecordedLine) (beyond : Reason)
            → AreEntriesOf lines beyond self.old
            → AreEntriesOf lines beyond self.new }
        ensures length { length self.new.entries.items ≡ length self.old.entries.items }
    {
        let alloc = self.alloc;
        let kind = self.kind;
        match self.entries.get_mut(number) {
            Some(entry) => {
                if entry.cover(alloc, kind, path)? {
                    Ok(Some(Assignment {
                        number,
                        is_changed: true,
                    }))
                } else {
                    Ok(None)
                }
            }
            None => Ok(None),
        }
    }

    // Returns true if the entry has this label and pool, and is not marked in `reachable`.
    fn is_free(&self, number: usize, label: &str, pool: usize, reachable: &[bool]) -> bool {
        match self.entries.get(number) {
            Some(entry) => entry.is_of(label, pool) && !is_marked(reachable, number),
            None => false,
        }
    }
}

impl Entry {
    // Changes the body so that the path and the entry's earlier paths match it. Returns false if no
    // such body was found, or if the entry already has `MAX_PATHS` paths.
    fn cover(
        &mut self,
        alloc: Global,
        kind: ActorKind,
        path: &[PathStep],
    ) -> Result<bool, AllocError>
        ensures label { string_bytes self.new.label ≡ string_bytes self.old.label }
        ensures name { string_bytes self.new.name ≡ string_bytes self.old.name }
        ensures pool { self.new.pool ≡ self.old.pool }
    {
        if self.paths.len() >= MAX_PATHS {
            return Ok(false);
        }
        self.paths.push(copied_steps(alloc, path)?)?;
        match covering_body(alloc, kind, &self.body, &self.paths)? {
            Some(body) => {
                self.body = body;
                Ok(true)
            }
            None => {
                self.paths.pop();
                Ok(false)
            }
        }
    }
}

// Returns a list that has only a copy of this path.
fn only_path(alloc: Global, path: &[PathStep]) -> Result<Vec<Vec<PathStep>>, AllocError> {
    let mut paths = Vec::new(alloc);
    paths.push(copied_steps(alloc, path)?)?;
    Ok(paths)
}

fn copied_steps(alloc: Global, path: &[PathStep]) -> Result<Vec<PathStep>, AllocError> {
    let mut steps = Vec::new(alloc);
    for step in path {
        steps.push(match step {
            PathStep::Submits(classes) => PathStep::Submits(Vec::from_slice(alloc, classes)?),
            PathStep::Gets(submit) => PathStep::Gets(*submit),
        })?;
    }
    Ok(steps)
}

fn is_path_of(
    alloc: Global,
    kind: ActorKind,
    body: &[Action],
    path: &ObservedPath,
) -> Result<bool, AllocError> {
    let path_match = match_path(alloc, body, &path.steps, kind, path.path_state)?;
    Ok(path_match == PathMatch::Fits)
}

/// Returns, for each class, whether these steps submit a job of the class, directly or through the
/// bodies of other jobs.
///
/// # Errors
///
/// Returns `AllocError` if memory runs out.
pub(crate) fn reachable_classes(
    alloc: Global,
    classes: &Entries,
    steps: &[PathStep],
) -> Result<Vec<bool>, AllocError> {
    let mut reachable = Vec::from_elem(alloc, false, classes.entries.len())?;
    for step in steps {
        mark_step(&mut reachable, step);
    }
    for _ in 0..classes.entries.len() {
        if !propagate(classes, &mut reachable) {
            break;
        }
    }
    Ok(reachable)
}

fn mark_step(reachable: &mut [bool], step: &PathStep) {
    if let PathStep::Submits(classes) = step {
        for class in classes {
            mark(reachable, *class);
        }
    }
}

/// Marks each class that the body of a marked class submits. Returns true if this marks a class
/// that was not marked before.
fn propagate(classes: &Entries, reachable: &mut [bool]) -> bool {
    let mut is_more = false;
    for number in 0..classes.entries.len() {
        if is_marked(reachable, number) && mark_body(reachable, classes.body(number)) {
            is_more = true;
        }
    }
    is_more
}

fn mark_body(reachable: &mut [bool], body: &[Action]) -> bool {
    let mut is_more = false;
    for action in body {
        if let Action::Submit(class) = *action {
            if mark(reachable, class) {
                is_more = true;
            }
        }
    }
    is_more
}

fn is_marked(reachable: &[bool], number: usize) -> bool {
    reachable.get(number).copied().unwrap_or(false)
}

/// Marks the class. Returns true if the class was not marked before. Returns false if it was
/// already marked or does not exist.
fn mark(reachable: &mut [bool], class: usize) -> bool {
    match reachable.get_mut(class) {
        Some(slot) => {
            let is_new = !*slot;
            *slot = true;
            is_new
        }
        None => false,
    }
}
