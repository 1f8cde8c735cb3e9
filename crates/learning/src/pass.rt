//! A pass over a part of a recording, which changes the bodies of a plan.

ghost use Rattle.std.specs.Prelude.{◌≡◌, List, OnOk, IfErr};
ghost use Rattle.recordings.specs.RecordingLine.{RecordedLine};
ghost use Rattle.learning.specs.LearningState.{IsDraftOf, IsLearnError};

use crate::assigned_classes::AssignedClasses;
use crate::draft::PlanDraft;
use crate::ended_actors::EndedActors;
use crate::extent::RecordingPart;
use crate::growth::{Assignment, ObservedPath};
use crate::learn_error::LearnError;
use crate::pools::pool_number;
use conformance::{ActorClassifier, ClassifiedActor, PathState};
use job_bodies::{Plan, Pool};
use recordings::{Line, RecordedActor, RecordingLines};
use std::alloc::{AllocError, Global};

/// The state of a pass over a part of a recording.
#[derive(Drop)]
pub(crate) struct Pass {
    /// For each round, by round number, the first client kind of the plan to which the round can
    /// belong. It is `None` if the round matches no kind or is not yet classified.
    pub(crate) kinds: Vec<Option<usize>>,
    /// True if the pass changed a body.
    pub(crate) is_changed: bool,
    /// True if each actor matched a class or client kind of the plan.
    pub(crate) is_explained: bool,
    /// True if the recording continues after the part that this pass reads.
    is_cut: bool,
    members: AssignedClasses,
    ended: EndedActors,
    alloc: Global,
}

/// Runs one pass over the part of the recording. `plan` is the plan of `draft` before the pass. If
/// an actor matches no class or client kind of `plan`, tries to change a body of `draft` so that
/// the actor's path matches it. Changes no body for the actor in these cases:
///
/// - A job that the actor submitted has no class.
/// - For some body, it is unknown whether the actor's path matches it.
/// - The actor has not ended, and the recording continues after the part.
/// - The actor has not ended, and a path of an ended actor changed a body in this pass.
///
/// # Errors
///
/// - [`LearnError::InferenceLimit`] if the actors need more classes or client kinds than a plan may
///   have, or if the name of a new class or client kind would be too long.
/// - [`LearnError::Memory`] if memory runs out.
pub(crate) fn run_pass(
    alloc: Global,
    part: RecordingPart<'_>,
    pools: &[Pool],
    plan: &Plan,
    draft: &mut PlanDraft,
) -> Result<Pass, LearnError>
    ensures ok { (lines : List RecordedLine)
        → IsDraftOf lines draft.old
        → OnOk result (IsDraftOf lines draft.new) }
    ensures err { (lines : List RecordedLine)
        → IsDraftOf lines draft.old
        → IfErr result (IsLearnError lines) }
{
    let mut pass = Pass::new(alloc, part.is_cut);
    let mut classifier = PassClassifier::new(alloc);
    let mut lines = RecordingLines::new(part.text);
    while let Some(line) = lines.next() {
        if let Ok(line) = line {
            pass.process_line(pools, plan, &line, &mut classifier, draft)?;
        }
    }
    let reported = classifier.finish(plan)?;
    pass.process_unclassified(pools, &reported, draft)?;
    Ok(pass)
}

/// An [`ActorClassifier`], and the actors that it classified at the current line.
#[derive(Drop)]
struct PassClassifier {
    classes: ActorClassifier,
    reported: Vec<ClassifiedActor>,
}

impl PassClassifier {
    fn new(alloc: Global) -> PassClassifier {
        PassClassifier {
            classes: ActorClassifier::new(alloc),
            reported: Vec::new(alloc),
        }
    }

    // Classifies the actors that are still unclassified at the end of the lines, and returns them.
    fn finish(self, plan: &Plan) -> Result<Vec<ClassifiedActor>, AllocError> {
        let PassClassifier {
            classes,
            mut reported,
        } = self;
        classes.finish(plan, &mut reported)?;
        Ok(reported)
    }
}

impl Pass {
    fn new(alloc: Global, is_cut: bool) -> Pass {
        Pass {
            kinds: Vec::new(alloc),
            is_changed: false,
            is_explained: true,
            is_cut,
            members: AssignedClasses::new(alloc),
            ended: EndedActors::new(alloc),
            alloc,
        }
    }

    fn note(&mut self, line: &Line<'_>) -> Result<(), AllocError> {
        match *line {
            Line::RoundBegins { .. } => self.kinds.push(None)?,
            Line::Refused { job, .. } => self.members.refuse(job)?,
            _ => {}
        }
        self.ended.note(line)
    }

    // Processes the next line, and the actors that can be classified after it.
    fn process_line(
        &mut self,
        pools: &[Pool],
        plan: &Plan,
        line: &Line<'_>,
        classifier: &mut PassClassifier,
        draft: &mut PlanDraft,
    ) -> Result<(), LearnError>
        ensures ok { (lines : List RecordedLine)
            → IsDraftOf lines draft.old
            → OnOk result (IsDraftOf lines draft.new) }
        ensures err { (lines : List RecordedLine)
            → IsDraftOf lines draft.old
            → IfErr result (IsLearnError lines) }
    {
        self.note(line)?;
        classifier
            .classes
            .take(plan, line, &mut classifier.reported)?;
        self.process_classified(pools, &classifier.reported, draft)?;
        classifier.reported.clear();
        Ok(())
    }

    // Processes actors that were classified before the end of the lines. All of them have ended.
    fn process_classified(
        &mut self,
        pools: &[Pool],
        reported: &[ClassifiedActor],
        draft: &mut PlanDraft,
    ) -> Result<(), LearnError>
        ensures ok { (lines : List RecordedLine)
            → IsDraftOf lines draft.old
            → OnOk result (IsDraftOf lines draft.new) }
        ensures err { (lines : List RecordedLine)
            → IsDraftOf lines draft.old
            → IfErr result (IsLearnError lines) }
    {
        for one in reported {
            self.ended.remove(one.actor);
            let class = self.learn(pools, one, PathState::Whole, draft)?;
            self.members.forget(&one.path);
            self.record_assignment(one, class)?;
        }
        Ok(())
    }

    // Processes the actors that are classified at the end of the lines. Some of them may not have
    // ended.
    fn process_unclassified(
        &mut self,
        pools: &[Pool],
        reported: &[ClassifiedActor],
        draft: &mut PlanDraft,
    ) -> Result<(), LearnError>
        ensures ok { (lines : List RecordedLine)
            → IsDraftOf lines draft.old
            → OnOk result (IsDraftOf lines draft.new) }
        ensures err { (lines : List RecordedLine)
            → IsDraftOf lines draft.old
            → IfErr result (IsLearnError lines) }
    {
        for one in reported {
            let class = if self.ended.contains(one.actor) {
                self.learn(pools, one, PathState::Whole, draft)?
            } else {
                one.family.members.first().copied()
            };
            self.record_assignment(one, class)?;
        }
        if self.skips_open_actors() {
            return Ok(());
        }
        for one in reported {
            if !self.ended.contains(one.actor) {
                self.learn(pools, one, PathState::Prefix, draft)?;
            }
        }
        Ok(())
    }

    // Returns true if the paths of actors that have not ended must not change a body.
    fn skips_open_actors(&self) -> bool {
        self.is_changed || self.is_cut
    }

    // For a round, records the first client kind to which it can belong. For a job, records `class`
    // as its class. Also clears `is_explained` if the actor matches no class or client kind of the
    // plan.
    fn record_assignment(
        &mut self,
        one: &ClassifiedActor,
        class: Option<usize>,
    ) -> Result<(), AllocError> {
        let member = one.family.members.first().copied();
        if member.is_none() {
            self.is_explained = false;
        }
        match one.actor {
            RecordedActor::Job(job) => self.members.insert(job, class),
            RecordedActor::Round(round) => {
                if let Some(slot) = self.kinds.get_mut(round) {
                    *slot = member;
                }
                Ok(())
            }
        }
    }

    // Returns the class or client kind of the actor. If the actor matches none, tries to change a
    // body so that the actor's path matches it. There are two exceptions, in which the result is
    // `None`: for some body, it is unknown whether the path matches it, or a job that the actor
    // submitted has no class.
    fn learn(
        &mut self,
        pools: &[Pool],
        one: &ClassifiedActor,
        path_state: PathState,
        draft: &mut PlanDraft,
    ) -> Result<Option<usize>, LearnError>
        ensures ok { (lines : List RecordedLine)
            → IsDraftOf lines draft.old
            → OnOk result (IsDraftOf lines draft.new) }
        ensures err { (lines : List RecordedLine)
            → IsDraftOf lines draft.old
            → IfErr result (IsLearnError lines) }
    {
        let member = one.family.members.first().copied();
        if !one.family.is_decided || member.is_some() {
            return Ok(member);
        }
        let Some(steps) = self.members.steps(self.alloc, &one.path)? else {
            return Ok(None);
        };
        match learn_of(pools, one, &ObservedPath { steps, path_state }, draft)? {
            Some(assignment) => {
                self.is_changed = self.is_changed || assignment.is_changed;
                Ok(Some(assignment.number))
            }
            None => Ok(None),
        }
    }
}

fn learn_of(
    pools: &[Pool],
    one: &ClassifiedActor,
    observed_path: &ObservedPath,
    draft: &mut PlanDraft,
) -> Result<Option<Assignment>, LearnError>
    ensures ok { (lines : List RecordedLine)
        → IsDraftOf lines draft.old
        → OnOk result (IsDraftOf lines draft.new) }
    ensures err { (lines : List RecordedLine)
        → IsDraftOf lines draft.old
        → IfErr result (IsLearnError lines) }
{
    match one.actor {
        RecordedActor::Round(_) => draft.learn_round(&one.label, observed_path),
        RecordedActor::Job(_) => match pool_number(pools, &one.pool) {
            Some(pool) => draft.learn_job(&one.label, pool, observed_path),
            None => Ok(None),
        },
    }
}
