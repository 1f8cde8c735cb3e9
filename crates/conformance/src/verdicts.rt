//! For each label of the plan, the first actor with a path that matches no body, and the first
//! actor with an undecided match.

ghost use Rattle.std.specs.Prelude.{◌≡◌, ◌++◌, ◌∷◌, [], ℕ, List, OnOk};
ghost use Rattle.job_bodies.specs.Plan as plans;
ghost use Rattle.conformance.specs.declared.classified_actor.ClassifiedActor as classified_actors;
ghost use Rattle.conformance.specs.FirstActors.{AreFirstActorsOf};
ghost use Rattle.conformance.specs.JobSet.{has_job};
ghost use Rattle.conformance.specs.Verdicts as spec;

use crate::first_actors::FirstActors;
use crate::job_set::JobSet;
use crate::numbers::is_empty_slice;
use crate::{ClassifiedActor, first_class, first_client};
use job_bodies::Plan;
use recordings::RecordedActor;
use std::alloc::{AllocError, Global};

/// For each label of the plan, two actors:
///
/// - the first actor, by number, with a path that matches no body;
/// - the first actor, by number, with an undecided match: it is unknown which bodies the path
///   matches.
#[derive(Drop)]
pub(crate) struct Verdicts {
    pub(crate) mismatches: FirstActors,
    pub(crate) undecided: FirstActors,
    /// The jobs with a path that matches no class of the job's label. The plan need not have the
    /// label.
    pub(crate) classless: JobSet,
}

impl Verdicts {
    /// Creates an empty result, to which no actor has been added yet.
    pub(crate) fn new(alloc: Global) -> Verdicts
        ensures { (plan : plans.Plan) → spec.IsVerdictsOf plan [] result }
    {
        Verdicts {
            mismatches: FirstActors::new(alloc),
            undecided: FirstActors::new(alloc),
            classless: JobSet::new(alloc),
        }
    }

    /// Records the actor if the plan has its label, and its path matches no body or the match is
    /// undecided. Adds a job whose path matches no body to `classless`, even if the plan lacks the
    /// job's label.
    ///
    /// # Errors
    ///
    /// Returns `AllocError` if memory runs out.
    pub(crate) fn note(&mut self, plan: &Plan, settled: ClassifiedActor) -> Result<(), AllocError>
        ensures { (reported : List classified_actors.ClassifiedActor)
            → spec.IsVerdictsOf plan.now reported self.old
            → OnOk result (spec.IsVerdictsOf plan.now (reported ++ settled ∷ []) self.new) }
    {
        if !settled.family.is_decided {
            return self.note_undecided(plan, settled);
        }
        if is_empty_slice(&settled.family.members) {
            return self.note_mismatch(plan, settled);
        }
        Ok(())
    }

    fn note_undecided(&mut self, plan: &Plan, settled: ClassifiedActor) -> Result<(), AllocError>
        ensures undecided { OnOk result
            ((reported : List classified_actors.ClassifiedActor)
            → AreFirstActorsOf reported self.old.undecided.actors.items
            → AreFirstActorsOf (spec.with_planned plan.now settled reported) self.new.undecided.actors.items) }
        ensures mismatches { self.new.mismatches ≡ self.old.mismatches }
        ensures classless { self.new.classless ≡ self.old.classless }
    {
        if is_planned(plan, &settled) {
            self.undecided.note(settled)?;
        }
        Ok(())
    }

    fn note_mismatch(&mut self, plan: &Plan, settled: ClassifiedActor) -> Result<(), AllocError>
        ensures mismatches { OnOk result
            ((reported : List classified_actors.ClassifiedActor)
            → AreFirstActorsOf reported self.old.mismatches.actors.items
            → AreFirstActorsOf (spec.with_planned plan.now settled reported) self.new.mismatches.actors.items) }
        ensures undecided { self.new.undecided ≡ self.old.undecided }
        ensures classless { OnOk result
            ((job : ℕ)
            → has_job self.new.classless job
            ≡ spec.with_job settled.actor (has_job self.old.classless job) job) }
    {
        self.note_job(settled.actor)?;
        if is_planned(plan, &settled) {
            self.mismatches.note(settled)?;
        }
        Ok(())
    }

    fn note_job(&mut self, actor: RecordedActor) -> Result<(), AllocError>
        ensures mismatches { self.new.mismatches ≡ self.old.mismatches }
        ensures undecided { self.new.undecided ≡ self.old.undecided }
        ensures classless { OnOk result
            ((job : ℕ)
            → has_job self.new.classless job
            ≡ spec.with_job actor (has_job self.old.classless job) job) }
    {
        match actor {
            RecordedActor::Job(job) => self.classless.insert(job),
            RecordedActor::Round(_) => Ok(()),
        }
    }
}

/// Returns true if the actor's label is in the plan.
#[tactic(auto, using(crate::proofs::UnplannedAfter::is_filled))]
fn is_planned(plan: &Plan, settled: &ClassifiedActor) -> bool
    ensures { result ≡ spec.is_planned plan.now settled.now }
{
    match settled.actor {
        RecordedActor::Job(_) => first_class(plan, &settled.label, &settled.pool).is_some(),
        RecordedActor::Round(_) => first_client(plan, &settled.label).is_some(),
    }
}
