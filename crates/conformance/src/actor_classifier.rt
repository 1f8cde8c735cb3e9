//! The classification of actors: the classes that the jobs of a recording can belong to, and the
//! client kinds that its rounds can belong to.

ghost use Rattle.std.specs.Prelude.{◌≡◌, ◌<◌, ◌++◌, ◌∷◌, [], ℕ, List, None, Some, OnOk, IfOk, is_some, true, MatchOption};
ghost use Rattle.support.specs.Numbered.{count_of};
ghost use Rattle.recordings.specs.RecordingLine.{RecordedLine, line_view};
ghost use Rattle.recordings.specs.PathsOfLines.{KeepsRules};
ghost use Rattle.job_bodies.specs.Plan as plans;
ghost use Rattle.conformance.specs.declared.classified_actor.ClassifiedActor.{ClassifiedActor};
ghost use Rattle.conformance.specs.Changes.{ChangesTable};
ghost use Rattle.conformance.specs.ClassifiedActor.{AreResultsOfPrefix, AddsSettled};
ghost use Rattle.conformance.specs.Represents.{IsClassifierOf, AreTablesOf};
ghost use Rattle.conformance.specs.ClassificationResults.{IsProgressOf, IsReady, IsStep, ended_path_of, submitter_of as spec_submitter_of};

use crate::actor_path::ActorPath;
use crate::actor_table::{ActorTable, EndedPath, UnsettledActor};
use crate::classified_actor::ClassifiedActor;
use crate::ended_actor::ended_by;
use crate::job_classes::ClassTable;
use crate::{PathState, PathStep};
use job_bodies::Plan;
use recordings::{Line, Paths, RecordedActor};
use std::alloc::{AllocError, Global};

/// A classifier for the actors of a recording. An actor is a job or a round. A round is one pass of
/// a client through its body.
///
/// An actor becomes settled once it has ended and all jobs in its path are settled. The classifier
/// then classifies the actor: it finds the classes or client kinds that the actor can belong to. If
/// a job never runs because it was refused, cancelled or removed, it stays unsettled until the
/// recording ends. At the end of the recording, [`finish`](ActorClassifier::finish) classifies all
/// actors that are not settled.
///
/// The classifier stores the paths of the unsettled actors. For each settled job that an unsettled
/// actor submitted, it also stores the classes that the job can belong to.
///
/// No contract bounds the running time of [`take`](ActorClassifier::take). If several actors become
/// settled with the same line, no contract states in which order they are reported.
#[derive(Drop)]
pub struct ActorClassifier {
    pub(crate) paths: Paths,
    pub(crate) actors: ActorTable,
    pub(crate) known: ClassTable,
    // The path that was classified last. Kept to reuse its allocation.
    pub(crate) steps: Vec<PathStep>,
    pub(crate) alloc: Global,
}

impl ActorClassifier {
    /// Creates a classifier that has read no line yet.
    pub fn new(alloc: Global) -> ActorClassifier
        ensures represents { (plan : plans.Plan) → IsClassifierOf plan result [] }
        ensures reported { (plan : plans.Plan) → AreResultsOfPrefix plan [] [] }
    {
        ActorClassifier {
            paths: Paths::new(alloc),
            actors: ActorTable::new(alloc),
            known: ClassTable::new(alloc),
            steps: Vec::new(alloc),
            alloc,
        }
    }

    /// Reads the next line of a valid recording. Classifies each actor that becomes settled with
    /// this line, and appends the results to `reported`. An actor becomes settled once it has ended
    /// and all jobs in its path are settled. The caller must pass the same `plan` for all lines.
    ///
    /// # Errors
    ///
    /// Returns `AllocError` if memory runs out. The classifier must not be used after an error.
    pub fn take(
        &mut self,
        plan: &Plan,
        line: &Line<'_>,
        reported: &mut Vec<ClassifiedActor>,
    ) -> Result<(), AllocError>
        ensures taken { (before : List RecordedLine)
            → KeepsRules (before ++ line_view line.now ∷ [])
            → IsClassifierOf plan.now self.old before
            → OnOk result
            (IsClassifierOf plan.now self.new (before ++ line_view line.now ∷ [])) }
        ensures reported { (before : List RecordedLine)
            → KeepsRules (before ++ line_view line.now ∷ [])
            → IsClassifierOf plan.now self.old before
            → OnOk result
            (AddsSettled plan.now before (before ++ line_view line.now ∷ []) reported.old.items
            reported.new.items) }

        // The caller may have removed actors from the list.
        ensures all { (before : List RecordedLine) (earlier : List ClassifiedActor)
            → KeepsRules (before ++ line_view line.now ∷ [])
            → IsClassifierOf plan.now self.old before
            → AreResultsOfPrefix plan.now before (earlier ++ reported.old.items)
            → OnOk result
            (AreResultsOfPrefix plan.now (before ++ line_view line.now ∷ [])
            (earlier ++ reported.new.items)) }
    {
        self.take_line(plan, line, reported)
    }

    fn take_line(
        &mut self,
        plan: &Plan,
        line: &Line<'_>,
        reported: &mut Vec<ClassifiedActor>,
    ) -> Result<(), AllocError>
        ensures taken { (before : List RecordedLine)
            → KeepsRules (before ++ line_view line.now ∷ [])
            → IsClassifierOf plan.now self.old before
            → OnOk result
            (IsClassifierOf plan.now self.new (before ++ line_view line.now ∷ [])) }
        ensures reported { (before : List RecordedLine)
            → KeepsRules (before ++ line_view line.now ∷ [])
            → IsClassifierOf plan.now self.old before
            → OnOk result
            (AddsSettled plan.now before (before ++ line_view line.now ∷ []) reported.old.items
            reported.new.items) }
    {
        let given = self.paths.take_last_path(line)?;
        let path = given.unwrap_or(Vec::new(self.alloc));
        self.note(line, EndedPath { path, known: 0 })?;
        match ended_by(line) {
            Some(actor) => self.settle_chain(plan, actor, reported),
            None => Ok(()),
        }
    }

    // Updates the unsettled actors for one line.
    fn note(&mut self, line: &Line<'_>, ended_path: EndedPath) -> Result<(), AllocError>
        ensures noted { OnOk result
            (ChangesTable self.old.actors (line_view line.now) ended_path self.new.actors) }
        ensures known { self.new.known ≡ self.old.known }
        ensures paths { self.new.paths ≡ self.old.paths }
    {
        let alloc = self.alloc;
        match *line {
            Line::RoundBegins { round, kind } => {
                let round = RecordedActor::Round(round);
                self.actors.begin(alloc, round, kind, "", None)
            }
            Line::Submits {
                actor,
                job,
                class,
                pool,
            } => {
                let job = RecordedActor::Job(job);
                self.actors.begin(alloc, job, class, pool, Some(actor))
            }
            Line::Refused { job, .. } => {
                self.actors.clear_submitter(job);
                Ok(())
            }
            Line::RoundEnds { round } => {
                self.actors
                    .set_ended(RecordedActor::Round(round), ended_path);
                Ok(())
            }
            Line::JobEnds { job } | Line::JobThrew { job } => {
                self.actors.set_ended(RecordedActor::Job(job), ended_path);
                Ok(())
            }
            _ => Ok(()),
        }
    }

    // Returns how much of the path of an ended actor is settled, and `None` for any other actor.
    fn progress(&self, actor: RecordedActor) -> Option<Progress>
        ensures { MatchOption result (ended_path_of self.now.actors actor ≡ None) (λ progress.
            IsProgressOf self.now.actors self.now.known actor progress.known progress.is_ready) }
    {
        let ended_path = self.actors.ended_path(actor)?;
        let known = self
            .known
            .first_unsettled(&ended_path.path, ended_path.known);
        Some(Progress {
            known,
            is_ready: known >= ended_path.path.len(),
        })
    }

    // Removes the actor from the table, and classifies it if it has ended. All jobs of its path
    // must be settled. Returns the submitter of a classified job, and `None` for any other actor.
    fn classify_ready(
        &mut self,
        plan: &Plan,
        actor: RecordedActor,
        reported: &mut Vec<ClassifiedActor>,
    ) -> Result<Option<RecordedActor>, AllocError>
        ensures reported { (lines : List RecordedLine)
            → AreTablesOf plan.now lines self.old.actors self.old.known (Some actor)
            → IsReady self.old.actors self.old.known actor
            → KeepsRules lines
            → IfOk result (λ next.
            IsStep plan.now lines self.old.actors self.new.actors self.new.known
            next reported.old.items reported.new.items) }
        ensures fewer { IfOk result (λ next.
            is_some next ≡ true → count_of self.new.actors.jobs < count_of self.old.actors.jobs) }
        ensures paths { self.new.paths ≡ self.old.paths }
    {
        let Some(kept) = self.actors.remove(actor) else {
            return Ok(None);
        };
        let UnsettledActor {
            label,
            pool,
            submitter,
            ended_path,
        } = kept;
        let Some(ended_path) = ended_path else {
            return Ok(None);
        };
        let actor_path = ActorPath {
            path: ended_path.path,
            path_state: PathState::Whole,
        };
        self.classify(plan, actor, submitter, label, pool, actor_path, reported)?;
        Ok(submitter_of(actor, submitter))
    }

    // Classifies the actor, if it has ended and all jobs of its path are settled. Returns its
    // submitter in that case.
    fn settle_one(
        &mut self,
        plan: &Plan,
        actor: RecordedActor,
        reported: &mut Vec<ClassifiedActor>,
    ) -> Result<Option<RecordedActor>, AllocError>
        ensures reported { (lines : List RecordedLine)
            → AreTablesOf plan.now lines self.old.actors self.old.known (Some actor)
            → KeepsRules lines
            → IfOk result (λ next.
            IsStep plan.now lines self.old.actors self.new.actors self.new.known
            next reported.old.items reported.new.items) }
        ensures fewer { IfOk result (λ next.
            is_some next ≡ true → count_of self.new.actors.jobs < count_of self.old.actors.jobs) }
        ensures paths { self.new.paths ≡ self.old.paths }
    {
        match self.progress(actor) {
            None => Ok(None),
            Some(progress) => {
                if progress.is_ready {
                    self.classify_ready(plan, actor, reported)
                } else {
                    self.actors.advance(actor, progress.known);
                    Ok(None)
                }
            }
        }
    }

    // Classifies the actor, its submitter, the submitter of that and so on. Stops at the first one
    // that has not ended or has an unsettled job in its path.
    fn settle_chain(
        &mut self,
        plan: &Plan,
        actor: RecordedActor,
        reported: &mut Vec<ClassifiedActor>,
    ) -> Result<(), AllocError>
        ensures reported { (lines : List RecordedLine)
            → AreTablesOf plan.now lines self.old.actors self.old.known (Some actor)
            → KeepsRules lines
            → OnOk result
            (IsStep plan.now lines self.old.actors self.new.actors self.new.known
            None reported.old.items reported.new.items) }
        ensures paths { self.new.paths ≡ self.old.paths }
    {
        let mut one = actor;
        loop {
            match self.settle_one(plan, one, reported)? {
                Some(next) => one = next,
                None => return Ok(()),
            }
        }
    }
}

/// The progress towards classifying an ended actor. All jobs that the first `known` steps of its
/// path submit are settled, which means that they are classified. `is_ready` is true if the path
/// has no step after these: the actor can then be classified.
#[derive(Clone, Copy)]
struct Progress {
    known: usize,
    is_ready: bool,
}

fn submitter_of(actor: RecordedActor, submitter: Option<RecordedActor>) -> Option<RecordedActor>
    ensures { result ≡ spec_submitter_of actor submitter }
{
    match actor {
        RecordedActor::Job(_) => submitter,
        RecordedActor::Round(_) => None,
    }
}
