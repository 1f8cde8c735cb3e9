//! Classification of the actors that are not yet classified at the end of a recording.

ghost use Rattle.std.specs.Prelude.{◌≡◌, ◌++◌, ℕ, List, None, OnOk, if◌then◌else◌};
ghost use Rattle.std.specs.List.Sorted.{IsNonDecreasing};
ghost use Rattle.recordings.specs.RecordingLine.{RecordedLine};
ghost use Rattle.recordings.specs.declared.recording_line.RecordedActor as actors;
ghost use Rattle.recordings.specs.LineParts.{is_same_actor};
ghost use Rattle.recordings.specs.PathsOfLines.{KeepsRules, IsPathsOf};
ghost use Rattle.conformance.specs.declared.classified_actor.ClassifiedActor.{ClassifiedActor};
ghost use Rattle.conformance.specs.ActorTables.{in_table};
ghost use Rattle.conformance.specs.RemainingActors.{IsStateAtEnd, AreNoneBelow, AreJobsAmong, AreRoundsAmong, HasNoJobs, HasNoRounds};
ghost use Rattle.conformance.specs.ClassifiedActor.{IsCorrectResult, AreResultsOfPrefix, AreAllResultsOf};
ghost use Rattle.conformance.specs.Represents.{IsClassifierOf};
ghost use Rattle.conformance.specs.ClassificationResults.{AddsResults};

use crate::actor_classifier::ActorClassifier;
use crate::actor_table::UnsettledActor;
use crate::classified_actor::ClassifiedActor;
use job_bodies::Plan;
use recordings::RecordedActor;
use std::alloc::AllocError;

impl ActorClassifier {
    /// Classifies each actor that is not yet classified at the end of the recording, and appends
    /// the results to `reported`. The jobs come first, in descending order of their numbers, and
    /// then the rounds.
    ///
    /// # Errors
    ///
    /// Returns `AllocError` if memory runs out.
    pub fn finish(
        mut self,
        plan: &Plan,
        reported: &mut Vec<ClassifiedActor>,
    ) -> Result<(), AllocError>
        ensures { (lines : List RecordedLine) (earlier : List ClassifiedActor)
            → KeepsRules lines
            → IsClassifierOf plan.now self lines
            → AreResultsOfPrefix plan.now lines (earlier ++ reported.old.items)
            → OnOk result (AreAllResultsOf plan.now lines (earlier ++ reported.new.items)) }
    {
        self.classify_remaining_actors(plan, reported)
    }

    fn classify_remaining_actors(
        &mut self,
        plan: &Plan,
        reported: &mut Vec<ClassifiedActor>,
    ) -> Result<(), AllocError>
        ensures remaining { (lines : List RecordedLine)
            → KeepsRules lines
            → IsPathsOf self.old.paths lines
            → IsStateAtEnd plan.now lines self.old.actors self.old.known
            → OnOk result
            (AddsResults (IsCorrectResult plan.now lines) self.old.actors self.new.actors
            reported.old.items reported.new.items) }
        ensures none { OnOk result
            ((actor : actors.RecordedActor) → in_table self.new.actors actor ≡ None) }
    {
        let jobs = self.actors.job_numbers(self.alloc)?;
        self.classify_remaining_jobs(plan, jobs, reported)?;
        let rounds = self.actors.round_numbers(self.alloc)?;
        self.classify_remaining_rounds(plan, rounds, reported)
    }

    // Classifies these jobs, starting with the last one. A job submits only jobs with larger
    // numbers, so each job is classified before its submitter.
    fn classify_remaining_jobs(
        &mut self,
        plan: &Plan,
        mut jobs: Vec<usize>,
        reported: &mut Vec<ClassifiedActor>,
    ) -> Result<(), AllocError>
        ensures remaining { (lines : List RecordedLine)
            → KeepsRules lines
            → IsPathsOf self.old.paths lines
            → IsStateAtEnd plan.now lines self.old.actors self.old.known
            → AreJobsAmong self.old.actors jobs.items
            → IsNonDecreasing jobs.items
            → OnOk result
            (IsStateAtEnd plan.now lines self.new.actors self.new.known
            × AddsResults (IsCorrectResult plan.now lines) self.old.actors self.new.actors
            reported.old.items reported.new.items) }
        ensures none { AreJobsAmong self.old.actors jobs.items
            → OnOk result (HasNoJobs self.new.actors) }
        ensures paths { self.new.paths ≡ self.old.paths }
    {
        while let Some(job) = jobs.pop() {
            self.classify_remaining(plan, RecordedActor::Job(job), reported)?;
        }
        Ok(())
    }

    // Classifies these rounds, after all jobs.
    fn classify_remaining_rounds(
        &mut self,
        plan: &Plan,
        mut rounds: Vec<usize>,
        reported: &mut Vec<ClassifiedActor>,
    ) -> Result<(), AllocError>
        ensures remaining { (lines : List RecordedLine)
            → KeepsRules lines
            → IsPathsOf self.old.paths lines
            → IsStateAtEnd plan.now lines self.old.actors self.old.known
            → HasNoJobs self.old.actors
            → OnOk result
            (IsStateAtEnd plan.now lines self.new.actors self.new.known
            × AddsResults (IsCorrectResult plan.now lines) self.old.actors self.new.actors
            reported.old.items reported.new.items) }
        ensures none { AreRoundsAmong self.old.actors rounds.items
            → OnOk result (HasNoRounds self.new.actors) }
        ensures jobs { HasNoJobs self.old.actors → HasNoJobs self.new.actors }
    {
        while let Some(round) = rounds.pop() {
            self.classify_remaining(plan, RecordedActor::Round(round), reported)?;
        }
        Ok(())
    }

    // Classifies and removes the actor, if it is in the table. All jobs of its path must have been
    // removed before.
    fn classify_remaining(
        &mut self,
        plan: &Plan,
        actor: RecordedActor,
        reported: &mut Vec<ClassifiedActor>,
    ) -> Result<(), AllocError>
        ensures remaining { (lines : List RecordedLine)
            → KeepsRules lines
            → IsPathsOf self.old.paths lines
            → IsStateAtEnd plan.now lines self.old.actors self.old.known
            → AreNoneBelow self.old.actors actor
            → OnOk result
            (IsStateAtEnd plan.now lines self.new.actors self.new.known
            × AddsResults (IsCorrectResult plan.now lines) self.old.actors self.new.actors
            reported.old.items reported.new.items) }
        ensures goes { (one : actors.RecordedActor)
            → in_table self.new.actors one
            ≡ (if is_same_actor actor one then None else in_table self.old.actors one) }
        ensures paths { self.new.paths ≡ self.old.paths }
    {
        let Some(kept) = self.actors.remove(actor) else {
            return Ok(());
        };
        let UnsettledActor {
            label,
            pool,
            submitter,
            ended_path,
        } = kept;
        let actor_path = self.actor_path_of(actor, ended_path)?;
        self.classify(plan, actor, submitter, label, pool, actor_path, reported)
    }
}
