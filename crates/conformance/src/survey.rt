//! The facts that a comparison with a plan needs, collected from all lines of a recording.

ghost use Rattle.std.specs.Prelude.{◌≡◌, ◌++◌, ◌∷◌, [], ℕ, false, List, Option, OnOk, IfOk};
ghost use Rattle.job_bodies.specs.Plan as plans;
ghost use Rattle.recordings.specs.RecordingLine.{RecordedLine, line_view};
ghost use Rattle.recordings.specs.PathsOfLines.{KeepsRules};
ghost use Rattle.conformance.specs.declared.classified_actor.ClassifiedActor as classified_actors;
ghost use Rattle.conformance.specs.ClassifiedActor.{AreResultsOfPrefix, AreAllResultsOf};
ghost use Rattle.conformance.specs.ExcessTracker.{CountsFirstKinds, IsExcessTrackerOf};
ghost use Rattle.conformance.specs.OtherKinds.{AreOtherKinds};
ghost use Rattle.conformance.specs.UnplannedLabels.{IsNext};
ghost use Rattle.conformance.specs.Verdicts.{IsVerdictsOf};
ghost use Rattle.conformance.specs.Survey as spec;

use crate::excess_tracker::ExcessTracker;
use crate::other_kinds::OtherKinds;
use crate::unplanned::UnplannedLabels;
use crate::verdicts::Verdicts;
use crate::{
    ActorClassifier, ClassifiedActor, PoolComparison, PoolDeviation, pools_are_as_planned,
};
use job_bodies::Plan;
use recordings::{CheckedLines, Line, RecordedNotes, RecordingFault};
use std::alloc::{AllocError, Global};

/// The facts about a recording that do not depend on the classes of its actors. Examples are the
/// pools that differ from the plan, and the labels that are not in the plan.
#[derive(Drop)]
pub(crate) struct LineSurvey {
    pools: PoolComparison,
    pub(crate) deviations: Vec<PoolDeviation>,
    pub(crate) notes: RecordedNotes,
    pub(crate) unplanned: UnplannedLabels,
}

impl LineSurvey {
    /// Creates the facts about a recording of which no line has been read yet.
    pub(crate) fn new(alloc: Global) -> LineSurvey
        ensures { (plan : plans.Plan) → spec.IsLineSurveyOf plan [] result }
    {
        let pools = PoolComparison::new(alloc);
        let deviations = Vec::new(alloc);
        let notes = RecordedNotes::new(alloc);
        let unplanned = UnplannedLabels::new(alloc);
        LineSurvey {
            pools,
            deviations,
            notes,
            unplanned,
        }
    }

    /// Updates the facts for line `number` of a valid recording.
    ///
    /// # Errors
    ///
    /// Returns `AllocError` if memory runs out.
    pub(crate) fn take(
        &mut self,
        plan: &Plan,
        number: usize,
        line: &Line<'_>,
    ) -> Result<(), AllocError>
        ensures { (before : List RecordedLine)
            → KeepsRules (before ++ line_view line.now ∷ [])
            → IsNext number before
            → spec.IsLineSurveyOf plan.now before self.old
            → OnOk result (spec.IsLineSurveyOf plan.now (before ++ line_view line.now ∷ []) self.new) }
    {
        pools_are_as_planned();
        self.pools.take(plan, number, line, &mut self.deviations)?;
        self.notes.take(number, line)?;
        self.unplanned.take(plan, number, line)
    }

    /// Adds a deviation for each pool of the plan that the recording lacks, if the recording ends
    /// with `end`.
    ///
    /// # Errors
    ///
    /// Returns `AllocError` if memory runs out.
    pub(crate) fn finish(&mut self, plan: &Plan) -> Result<(), AllocError>
        ensures { (lines : List RecordedLine)
            → spec.IsLineSurveyOf plan.now lines self.old
            → OnOk result (spec.IsLineSurveyAtEnd plan.now lines self.new) }
    {
        self.pools.finish(plan, &mut self.deviations)
    }
}

/// The facts about a recording that depend on the classes and kinds of its actors. Examples are the
/// actors with a path that matches no body.
#[derive(Drop)]
pub(crate) struct ActorSurvey {
    pub(crate) verdicts: Verdicts,
    pub(crate) others: OtherKinds,
}

impl ActorSurvey {
    /// Creates the facts before any actor of a recording is classified.
    pub(crate) fn new(alloc: Global) -> ActorSurvey
        ensures { (plan : plans.Plan)
            → AreResultsOfPrefix plan [] []
            → spec.IsActorSurveyOf plan [] [] result }
    {
        let verdicts = Verdicts::new(alloc);
        let others = OtherKinds::new(alloc);
        ActorSurvey { verdicts, others }
    }

    /// Adds the classified actors in `reported` to the facts, and empties this list.
    ///
    /// # Errors
    ///
    /// Returns `AllocError` if memory runs out.
    pub(crate) fn note_all(
        &mut self,
        plan: &Plan,
        reported: &mut Vec<ClassifiedActor>,
    ) -> Result<(), AllocError>
        ensures verdicts { (earlier : List classified_actors.ClassifiedActor)
            → IsVerdictsOf plan.now earlier self.old.verdicts
            → OnOk result (IsVerdictsOf plan.now (earlier ++ reported.old.items) self.new.verdicts) }
        ensures others { (earlier : List classified_actors.ClassifiedActor)
            → AreOtherKinds plan.now earlier self.old.others
            → OnOk result (AreOtherKinds plan.now (earlier ++ reported.old.items) self.new.others) }
        ensures had { OnOk result
            (self.new.others.has_any ≡ false → self.old.others.has_any ≡ false) }
        ensures emptied { OnOk result (reported.new.items ≡ []) }
    {
        if reported.is_empty() {
            return Ok(());
        }
        for settled in reported.drain(..) {
            self.others.note(plan, &settled)?;
            self.verdicts.note(plan, settled)?;
        }
        Ok(())
    }
}

/// The facts that one pass over a recording collects for the comparison with a plan.
#[derive(Drop)]
pub(crate) struct Survey {
    pub(crate) line_survey: LineSurvey,
    pub(crate) actor_survey: ActorSurvey,
    pub(crate) excess_tracker: ExcessTracker,
}

impl Survey {
    // Completes the survey at the end of the recording, with the actors that are still
    // unclassified.
    fn finish(
        &mut self,
        alloc: Global,
        plan: &Plan,
        classes: ActorClassifier,
    ) -> Result<(), AllocError>
        ensures { (lines : List RecordedLine)
            → KeepsRules lines
            → spec.IsLineSurveyOf plan.now lines self.old.line_survey
            → spec.IsCurrent plan.now lines classes self.old.actor_survey
            → CountsFirstKinds plan.now self.old.actor_survey.others lines self.old.excess_tracker
            → OnOk result (spec.IsSurveyOf plan.now lines self.new) }
    {
        finish(alloc, plan, classes, &mut self.actor_survey)?;
        self.line_survey.finish(plan)?;
        Ok(())
    }
}

/// Returns the facts about a recording, or the first invalid line of the recording.
///
/// # Errors
///
/// Returns `AllocError` if memory runs out.
pub(crate) fn survey_recording(
    alloc: Global,
    plan: &Plan,
    recording: &[u8],
) -> Result<Result<Survey, RecordingFault>, AllocError>
    ensures { IfOk result (spec.IsSurveyResult plan.now recording.now) }
{
    let excess_tracker = ExcessTracker::new(alloc, plan)?;
    let mut builder = SurveyBuilder::new(alloc, excess_tracker);
    match builder.take_all(alloc, plan, recording) {
        Ok(None) => Ok(Ok(builder.finish(alloc, plan)?)),
        Ok(Some(fault)) => {
            drop(builder);
            Ok(Err(fault))
        }
        Err(error) => {
            drop(builder);
            Err(error)
        }
    }
}

/// A survey under construction, with the state of the unclassified actors.
#[derive(Drop)]
pub(crate) struct SurveyBuilder {
    pub(crate) survey: Survey,
    pub(crate) classes: ActorClassifier,
    pub(crate) reported: Vec<ClassifiedActor>,
}

impl SurveyBuilder {
    // Creates a builder that has read no line yet.
    fn new(alloc: Global, excess_tracker: ExcessTracker) -> SurveyBuilder
        ensures { (plan : plans.Plan)
            → ((kinds : List (Option ℕ)) → IsExcessTrackerOf plan kinds [] excess_tracker)
            → spec.IsSurveyBuilderOf plan [] result }
    {
        let line_survey = LineSurvey::new(alloc);
        let actor_survey = ActorSurvey::new(alloc);
        let classes = ActorClassifier::new(alloc);
        let reported = Vec::new(alloc);
        SurveyBuilder {
            survey: Survey {
                line_survey,
                actor_survey,
                excess_tracker,
            },
            classes,
            reported,
        }
    }

    // Reads all lines. Returns the first invalid one, or `None` if all are valid.
    fn take_all(
        &mut self,
        alloc: Global,
        plan: &Plan,
        recording: &[u8],
    ) -> Result<Option<RecordingFault>, AllocError>
        ensures { spec.IsSurveyBuilderOf plan.now [] self.old
            → IfOk result (spec.ReadsAllLines plan.now recording.now self.new) }
    {
        let mut lines = CheckedLines::new(alloc, recording);
        while let Some(line) = lines.next()? {
            let line = match line {
                Ok(line) => line,
                Err(fault) => return Ok(Some(fault)),
            };
            self.take(plan, lines.number(), &line)?;
        }
        Ok(None)
    }

    // Reads line `number` of a valid recording.
    fn take(&mut self, plan: &Plan, number: usize, line: &Line<'_>) -> Result<(), AllocError>
        ensures { (before : List RecordedLine)
            → KeepsRules (before ++ line_view line.now ∷ [])
            → IsNext number before
            → spec.IsSurveyBuilderOf plan.now before self.old
            → OnOk result
            (spec.IsSurveyBuilderOf plan.now (before ++ line_view line.now ∷ []) self.new) }
    {
        self.survey.line_survey.take(plan, number, line)?;
        take_line(
            plan,
            line,
            &mut self.classes,
            &mut self.survey.actor_survey,
            &mut self.reported,
        )?;
        let actor_survey = &self.survey.actor_survey;
        self.survey
            .excess_tracker
            .take(plan, &actor_survey.others, number, line)?;
        Ok(())
    }

    // Completes the survey at the end of the recording.
    fn finish(self, alloc: Global, plan: &Plan) -> Result<Survey, AllocError>
        ensures { (lines : List RecordedLine)
            → KeepsRules lines
            → spec.IsSurveyBuilderOf plan.now lines self
            → IfOk result (spec.IsSurveyOf plan.now lines) }
    {
        let SurveyBuilder {
            mut survey,
            classes,
            ..
        } = self;
        survey.finish(alloc, plan, classes)?;
        Ok(survey)
    }
}

// Reads a line and records the actors that it classifies. `reported` is a scratch list, empty
// before and after the call.
fn take_line(
    plan: &Plan,
    line: &Line<'_>,
    classes: &mut ActorClassifier,
    actor_survey: &mut ActorSurvey,
    reported: &mut Vec<ClassifiedActor>,
) -> Result<(), AllocError>
    ensures emptied { OnOk result (reported.new.items ≡ []) }
    ensures had { OnOk result
        (actor_survey.new.others.has_any ≡ false → actor_survey.old.others.has_any ≡ false) }
    ensures current { (before : List RecordedLine)
        → KeepsRules (before ++ line_view line.now ∷ [])
        → reported.old.items ≡ []
        → spec.IsCurrent plan.now before classes.old actor_survey.old
        → OnOk result
        (spec.IsCurrent plan.now (before ++ line_view line.now ∷ []) classes.new actor_survey.new) }
{
    classes.take(plan, line, reported)?;
    actor_survey.note_all(plan, reported)
}

// Records the actors that are still unclassified at the end of the recording.
fn finish(
    alloc: Global,
    plan: &Plan,
    classes: ActorClassifier,
    actor_survey: &mut ActorSurvey,
) -> Result<(), AllocError>
    ensures had { OnOk result
        (actor_survey.new.others.has_any ≡ false → actor_survey.old.others.has_any ≡ false) }
    ensures all { (lines : List RecordedLine)
        → KeepsRules lines
        → spec.IsCurrent plan.now lines classes actor_survey.old
        → OnOk result (spec.IsActorSurveyAtEnd plan.now lines actor_survey.new) }
{
    let mut reported = Vec::new(alloc);
    classes.finish(plan, &mut reported)?;
    actor_survey.note_all(plan, &mut reported)
}
