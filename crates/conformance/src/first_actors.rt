//! For each label, the actor with the smallest number.

ghost use Rattle.std.specs.Prelude.{◌≡◌, ◌++◌, ◌∷◌, [], List, OnOk, position};
ghost use Rattle.conformance.specs.declared.classified_actor.ClassifiedActor as classified_actors;
ghost use Rattle.conformance.specs.FirstActors as spec;

use crate::ClassifiedActor;
use recordings::RecordedActor;
use std::alloc::{AllocError, Global};

/// A set of classified actors that has, for each label, only the actor with the smallest number.
#[derive(Drop)]
pub(crate) struct FirstActors {
    pub(crate) actors: Vec<ClassifiedActor>,
}

impl FirstActors {
    /// Creates an empty set.
    pub(crate) fn new(alloc: Global) -> FirstActors
        ensures { spec.AreFirstActorsOf [] result.actors.items }
    {
        FirstActors {
            actors: Vec::new(alloc),
        }
    }

    /// Adds the actor. If the set has an actor of the same label, only one of the two stays in the
    /// set: the one with the smaller number. If the numbers are equal, nothing changes.
    ///
    /// # Errors
    ///
    /// Returns `AllocError` if memory runs out.
    pub(crate) fn note(&mut self, settled: ClassifiedActor) -> Result<(), AllocError>
        ensures { (reported : List classified_actors.ClassifiedActor)
            → spec.AreFirstActorsOf reported self.old.actors.items
            → OnOk result (spec.AreFirstActorsOf (reported ++ settled ∷ []) self.new.actors.items) }
    {
        match self.place_of(&settled) {
            None => {
                self.actors.push(settled)?;
                Ok(())
            }
            Some(place) => {
                if number_of(settled.actor) < number_of(self.actors[place].actor) {
                    self.actors[place] = settled;
                }
                Ok(())
            }
        }
    }

    // Returns the index of the actor with the same label.
    fn place_of(&self, settled: &ClassifiedActor) -> Option<usize>
        ensures { result
            ≡ position (λ (one : classified_actors.ClassifiedActor). spec.is_same_label one settled.now)
            self.now.actors.items }
    {
        self.actors
            .iter()
            .position(|one| is_same_label(one, settled))
    }
}

/// Returns true if both actors are jobs of the same class and pool, or both are rounds of the same
/// kind.
fn is_same_label(one: &ClassifiedActor, other: &ClassifiedActor) -> bool
    ensures { result ≡ spec.is_same_label one.now other.now }
{
    is_same_sort(one.actor, other.actor) && one.label == other.label && one.pool == other.pool
}

fn is_same_sort(one: RecordedActor, other: RecordedActor) -> bool
    ensures { result ≡ spec.is_same_sort one other }
{
    matches!(
        (one, other),
        (RecordedActor::Job(_), RecordedActor::Job(_))
            | (RecordedActor::Round(_), RecordedActor::Round(_))
    )
}

fn number_of(actor: RecordedActor) -> usize
    ensures { result ≡ spec.number_of actor }
{
    match actor {
        RecordedActor::Job(job) => job,
        RecordedActor::Round(round) => round,
    }
}
