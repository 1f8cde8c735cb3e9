//! The rounds that are not counted for the first client kind that their label may refer to.

ghost use Rattle.std.specs.Prelude.{◌≡◌, ◌++◌, ◌∷◌, [], List, OnOk, false};
ghost use Rattle.job_bodies.specs.Plan as plans;
ghost use Rattle.conformance.specs.declared.classified_actor.ClassifiedActor as classified_actors;
ghost use Rattle.conformance.specs.FirstKinds as first;
ghost use Rattle.conformance.specs.OtherKinds as spec;

use crate::{ClassifiedActor, first_client};
use job_bodies::Plan;
use recordings::RecordedActor;
use std::alloc::{AllocError, Global};
use support::IdMap;

/// A map from rounds to the client kinds for which they are counted. The label of a round may refer
/// to several client kinds. By default, a round is counted for the first of them, and is not in the
/// map. The map has only the other rounds. The value is `None` if the kind of the round is
/// undecided: such a round is not counted.
#[derive(Drop)]
pub(crate) struct OtherKinds {
    kinds: IdMap<Option<usize>>,
    pub(crate) has_any: bool,
}

impl OtherKinds {
    /// Creates an empty table.
    pub(crate) fn new(alloc: Global) -> OtherKinds
        ensures { (plan : plans.Plan) → spec.AreOtherKinds plan [] result }
    {
        OtherKinds {
            kinds: IdMap::new(alloc),
            has_any: false,
        }
    }

    /// Adds the round if it is counted for no client kind, or for another one than the first of its
    /// label's family. Does nothing otherwise, and for a job.
    ///
    /// # Errors
    ///
    /// Returns `AllocError` if memory runs out.
    pub(crate) fn note(&mut self, plan: &Plan, settled: &ClassifiedActor) -> Result<(), AllocError>
        ensures noted { (reported : List classified_actors.ClassifiedActor)
            → spec.AreOtherKinds plan.now reported self.old
            → OnOk result (spec.AreOtherKinds plan.now (reported ++ settled.now ∷ []) self.new) }
        ensures had { OnOk result (self.new.has_any ≡ false → self.old.has_any ≡ false) }
    {
        if let Some((round, kind)) = other_kind(plan, settled) {
            self.kinds.insert(round, kind)?;
            self.has_any = true;
        }
        Ok(())
    }

    /// Returns the client kind for which a round is counted, or `None` if the round is not counted.
    /// If the map does not have the round, the result is the first client kind that `label` may
    /// refer to.
    pub(crate) fn kind_of(&self, plan: &Plan, round: usize, label: &str) -> Option<usize>
        ensures { result ≡ spec.kind_by plan.now self.now round label.now }
    {
        match self.kinds.get(round) {
            Some(kind) => *kind,
            None => first_client(plan, label),
        }
    }
}

// Returns the round and the kind for which it is counted, if this is not the first kind of its
// label.
fn other_kind(plan: &Plan, settled: &ClassifiedActor) -> Option<(usize, Option<usize>)>
    ensures { result ≡ spec.other_kind_of plan.now settled.now }
{
    let (round, kind) = counted_kind(settled)?;
    if is_same_kind(first_client(plan, &settled.label), kind) {
        return None;
    }
    Some((round, kind))
}

fn is_same_kind(one: Option<usize>, other: Option<usize>) -> bool
    ensures { result ≡ spec.is_same_kind one other }
{
    match (one, other) {
        (None, None) => true,
        (Some(kind), Some(other)) => kind == other,
        _ => false,
    }
}

// Returns the round and the first kind that it can belong to. The kind is `None` if it is
// undecided. Returns `None` for a job, and for a round that can belong to no kind.
fn counted_kind(settled: &ClassifiedActor) -> Option<(usize, Option<usize>)>
    ensures { result ≡ first.round_and_kind settled.now }
{
    if settled.family.is_decided {
        first_kind(settled)
    } else {
        undecided_kind(settled.actor)
    }
}

// Returns the round and the first kind that it can belong to.
fn first_kind(settled: &ClassifiedActor) -> Option<(usize, Option<usize>)>
    ensures { result ≡ first.has_kind settled.now.family.members.items settled.now.actor }
{
    let kind = *settled.family.members.first()?;
    match settled.actor {
        RecordedActor::Round(round) => Some((round, Some(kind))),
        RecordedActor::Job(_) => None,
    }
}

// Returns the round, without a kind.
fn undecided_kind(actor: RecordedActor) -> Option<(usize, Option<usize>)>
    ensures { result ≡ first.has_no_kind actor }
{
    match actor {
        RecordedActor::Round(round) => Some((round, None)),
        RecordedActor::Job(_) => None,
    }
}
