//! The classes of the settled jobs. A job is settled once it is classified.

ghost use Rattle.std.specs.Prelude.{◌≡◌, ◌≤◌, ◌&&◌, ◌++◌, ◌∷◌, [], ℕ, List, OnOk, IfOk, IsTrue, None, Some, is_some, if◌then◌else◌, ◌==◌, length};
ghost use Rattle.recordings.specs.RecordingLine.{RecordedLine};
ghost use Rattle.recordings.specs.declared.step.RecordedStep.{RecordedStep};
ghost use Rattle.recordings.specs.ActorPath.{submits};
ghost use Rattle.job_bodies.specs.Plan.{Plan};
ghost use Rattle.conformance.specs.declared.job_classes.JobClasses.{JobClasses};
ghost use Rattle.conformance.specs.Classes.{AreClassesOf, AreStepsOf};
ghost use Rattle.conformance.specs.ActorTables.{Keeps, AreRemoved, classes_in, is_settled_step, AreClassesIn, AreDecidedOn, AreAllIn, AreOnce, AreSettledBefore, IsUnsettledAt};

use crate::{FamilyMatch, PathStep};
use recordings::{RecordedActor, RecordedStep};
use std::alloc::{AllocError, Global};
use support::IdMap;

/// The classes that a job can belong to. If `is_decided` is false, the job may also belong to
/// classes that are not in `classes`.
#[derive(Drop)]
pub(crate) struct JobClasses {
    pub(crate) classes: Vec<usize>,
    pub(crate) is_decided: bool,
}

/// A map from job numbers to the classes that the jobs can belong to. A job is in the map from its
/// own classification until the classification of its submitter.
#[derive(Drop)]
pub(crate) struct ClassTable {
    jobs: IdMap<JobClasses>,
    alloc: Global,
}

impl ClassTable {
    /// Creates an empty table.
    pub(crate) fn new(alloc: Global) -> ClassTable
        ensures { (job : ℕ) → classes_in result job ≡ None }
    {
        ClassTable {
            jobs: IdMap::new(alloc),
            alloc,
        }
    }

    /// Stores the classes that a job can belong to.
    ///
    /// # Errors
    ///
    /// Returns `AllocError` if memory runs out.
    pub(crate) fn insert(&mut self, job: usize, classes: JobClasses) -> Result<(), AllocError>
        ensures { OnOk result
            ((one : ℕ)
            → classes_in self.new one
            ≡ (if job == one then Some classes else classes_in self.old one)) }
    {
        self.jobs.insert(job, classes)
    }

    /// Stores the classes of the actor, if the actor is a job with a submitter. Stores nothing for
    /// a refused job or a round, because neither is in the path of another actor.
    ///
    /// # Errors
    ///
    /// Returns `AllocError` if memory runs out.
    pub(crate) fn keep(
        &mut self,
        actor: RecordedActor,
        submitter: Option<RecordedActor>,
        family: &FamilyMatch,
    ) -> Result<(), AllocError>
        ensures { OnOk result
            (Keeps self.old actor submitter family.now.members.items family.now.is_decided
            self.new) }
    {
        if let (RecordedActor::Job(job), Some(_)) = (actor, submitter) {
            let classes = JobClasses {
                classes: family.members.clone()?,
                is_decided: family.is_decided,
            };
            self.insert(job, classes)?;
        }
        Ok(())
    }

    /// Returns the index of the first unsettled submit in the path. The search starts at index
    /// `from`. A submit is unsettled if its job is not in the table. Returns the length of the path
    /// if there is no such submit.
    pub(crate) fn first_unsettled(&self, path: &[RecordedStep], from: usize) -> usize
        ensures within { from ≤ length path.now → result ≤ length path.now }
        ensures before { AreSettledBefore self.now path.now from
            → AreSettledBefore self.now path.now result }
        ensures there { IsUnsettledAt self.now path.now result }
    {
        let mut place = from;
        while place < path.len() && self.is_settled(path[place]) {
            place += 1;
        }
        place
    }

    // A get refers to an earlier submit of the path, so it needs no check.
    fn is_settled(&self, step: RecordedStep) -> bool
        ensures { result ≡ is_settled_step self.now step }
    {
        match step {
            RecordedStep::Submits(job) => self.jobs.contains(job),
            RecordedStep::Gets(_) => true,
        }
    }

    /// Replaces the contents of `steps` with the steps of the path. In `steps`, each submit has the
    /// classes that its job can belong to. Removes the jobs of the path from the table. Returns
    /// true if the table had all of these jobs, and the classes of each of them were decided.
    ///
    /// # Errors
    ///
    /// Returns `AllocError` if memory runs out.
    pub(crate) fn take_path(
        &mut self,
        path: &[RecordedStep],
        steps: &mut Vec<PathStep>,
    ) -> Result<bool, AllocError>
        ensures represents { (plan : Plan) (lines : List RecordedLine)
            → AreClassesIn plan lines self.old
            → IfOk result
            (λ is_decided. IsTrue is_decided → AreStepsOf plan lines path.now steps.new.items) }
        ensures decided { AreDecidedOn self.old path.now
            → AreAllIn self.old path.now
            → AreOnce path.now
            → IfOk result (λ is_decided. IsTrue is_decided) }
        ensures gone { OnOk result (AreRemoved self.old path.now self.new) }
    {
        steps.clear();
        let mut is_decided = true;
        for step in path {
            let is_step_decided = self.take_step(*step, steps)?;
            is_decided = both_hold(is_decided, is_step_decided);
        }
        Ok(is_decided)
    }

    // Appends the step to the list. If the step is a submit, removes its job from the table, and
    // returns true if the classes of the job are decided. Returns true for a get.
    fn take_step(
        &mut self,
        step: RecordedStep,
        steps: &mut Vec<PathStep>,
    ) -> Result<bool, AllocError>
        ensures represents { (plan : Plan) (lines : List RecordedLine) (path : List RecordedStep)
            → AreClassesIn plan lines self.old
            → AreStepsOf plan lines path steps.old.items
            → IfOk result (λ is_step_decided.
            IsTrue is_step_decided → AreStepsOf plan lines (path ++ step ∷ []) steps.new.items) }
        ensures decided { AreDecidedOn self.old (step ∷ [])
            → IsTrue (is_settled_step self.old step)
            → IfOk result (λ is_step_decided. IsTrue is_step_decided) }
        ensures gone { OnOk result
            ((one : ℕ)
            → classes_in self.new one
            ≡ (if submits one step then None else classes_in self.old one)) }
    {
        match step {
            RecordedStep::Gets(place) => {
                steps.push(PathStep::Gets(place))?;
                Ok(true)
            }
            RecordedStep::Submits(job) => {
                let known = self.take_classes(job);
                steps.push(PathStep::Submits(known.classes))?;
                Ok(known.is_decided)
            }
        }
    }

    // Removes and returns the classes of a job. For a job that is not settled, returns undecided
    // classes with an empty list.
    fn take_classes(&mut self, job: usize) -> JobClasses
        ensures classes { (plan : Plan) (lines : List RecordedLine)
            → AreClassesIn plan lines self.old
            → IsTrue result.is_decided
            → AreClassesOf plan lines job result.classes.items }
        ensures decided { ((known : JobClasses) → classes_in self.old job ≡ Some known → IsTrue known.is_decided)
            → IsTrue (is_some (classes_in self.old job))
            → IsTrue result.is_decided }
        ensures gone { (one : ℕ)
            → classes_in self.new one ≡ (if job == one then None else classes_in self.old one) }
    {
        match self.jobs.remove(job) {
            Some(known) => known,
            None => JobClasses {
                classes: Vec::new(self.alloc),
                is_decided: false,
            },
        }
    }
}

pub(crate) fn both_hold(one: bool, other: bool) -> bool
    ensures { result ≡ (one && other) }
{
    one && other
}
