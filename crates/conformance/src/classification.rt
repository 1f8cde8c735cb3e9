//! The classification of one actor. It finds the classes or client kinds whose bodies the path of
//! the actor matches.

ghost use Rattle.std.specs.Prelude.{◌≡◌, true, List, Some, OnOk, IfOk};
ghost use Rattle.recordings.specs.RecordingLine.{RecordedLine};
ghost use Rattle.recordings.specs.PathsOfLines.{IsPathsOf, is_live};
ghost use Rattle.recordings.specs.Path.{path_of};
ghost use Rattle.conformance.specs.RemainingActors.{IsAt, IsActorPathOf};
ghost use Rattle.conformance.specs.ClassificationResults.{IsFamilyOf, AddsResult};

use crate::actor_classifier::ActorClassifier;
use crate::actor_path::ActorPath;
use crate::actor_table::EndedPath;
use crate::classified_actor::ClassifiedActor;
use crate::job_classes::both_hold;
use crate::{FamilyMatch, PathState, PathStep, classes_of_path, kinds_of_path};
use job_bodies::Plan;
use recordings::{RecordedActor, RecordedStep};
use std::alloc::{AllocError, Global};

impl ActorClassifier {
    /// Classifies the actor by its path, and appends the result to `reported`. Removes the classes
    /// of the jobs in the path from the classifier, which no longer needs them. If the actor is a
    /// job with a `submitter`, stores the classes that this actor can belong to, because
    /// classifying the submitter needs them.
    ///
    /// # Errors
    ///
    /// Returns `AllocError` if memory runs out.
    pub(crate) fn classify(
        &mut self,
        plan: &Plan,
        actor: RecordedActor,
        submitter: Option<RecordedActor>,
        label: String,
        pool: String,
        actor_path: ActorPath,
        reported: &mut Vec<ClassifiedActor>,
    ) -> Result<(), AllocError>
        ensures reported { OnOk result
            (AddsResult plan.now actor submitter label pool actor_path self.old.known
            self.new.known reported.old.items reported.new.items) }
        ensures actors { self.new.actors ≡ self.old.actors }
        ensures paths { self.new.paths ≡ self.old.paths }
    {
        let is_decided = self.known.take_path(&actor_path.path, &mut self.steps)?;
        let mut family = members_of(
            self.alloc,
            plan,
            actor,
            &label,
            &pool,
            &self.steps,
            actor_path.path_state,
        )?;
        family.is_decided = both_hold(family.is_decided, is_decided);
        self.known.keep(actor, submitter, &family)?;
        reported.push(ClassifiedActor {
            actor,
            label,
            pool,
            path: actor_path.path,
            family,
        })?;
        Ok(())
    }

    /// Returns the path of an actor that has not ended, up to the lines read so far. Returns an
    /// empty path for any other actor.
    ///
    /// # Errors
    ///
    /// Returns `AllocError` if memory runs out.
    fn path_now(&self, actor: RecordedActor) -> Result<Vec<RecordedStep>, AllocError>
        ensures { IfOk result (λ path.
            (lines : List RecordedLine)
            → IsPathsOf self.now.paths lines
            → is_live lines actor ≡ true
            → path.items ≡ path_of lines actor) }
    {
        match self.paths.path(actor) {
            Some(path) => Vec::from_slice(self.alloc, path),
            None => Ok(Vec::new(self.alloc)),
        }
    }

    /// Returns the path of the actor. If the actor has ended, `ended_path` must have its whole
    /// path, which is the result. Otherwise `ended_path` must be `None`, and the result is the path
    /// up to the lines read so far.
    ///
    /// # Errors
    ///
    /// Returns `AllocError` if memory runs out.
    pub(crate) fn actor_path_of(
        &self,
        actor: RecordedActor,
        ended_path: Option<EndedPath>,
    ) -> Result<ActorPath, AllocError>
        ensures { IfOk result (λ actor_path.
            (lines : List RecordedLine)
            → IsPathsOf self.now.paths lines
            → IsAt lines actor ended_path
            → IsActorPathOf lines actor actor_path) }
    {
        match ended_path {
            Some(ended_path) => Ok(ActorPath {
                path: ended_path.path,
                path_state: PathState::Whole,
            }),
            None => Ok(ActorPath {
                path: self.path_now(actor)?,
                path_state: PathState::Prefix,
            }),
        }
    }
}

// Returns the classes of a job or the kinds of a round with this path.
fn members_of(
    alloc: Global,
    plan: &Plan,
    actor: RecordedActor,
    label: &str,
    pool: &str,
    steps: &[PathStep],
    path_state: PathState,
) -> Result<FamilyMatch, AllocError>
    ensures { IfOk result (IsFamilyOf plan.now actor label.now pool.now path_state steps.now) }
{
    match actor {
        RecordedActor::Job(_) => classes_of_path(alloc, plan, label, pool, steps, path_state),
        RecordedActor::Round(_) => kinds_of_path(alloc, plan, label, steps, path_state),
    }
}
