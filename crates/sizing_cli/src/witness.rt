//! The search for a confirmed witness against a plan. A witness is a list of events after which a
//! submit is refused or jobs wait only for each other.

ghost use Rattle.std.specs.Prelude.{◌≤◌, IfOk, IfSome};
ghost use Rattle.sizing_cli.specs.Refute.{IsWitnessOf};

use counterexample::{CandidateWitness, Witness, confirmed, search_witness};
use job_bodies::Plan;
use std::alloc::{AllocError, Global};
use weights::{Bound, Levels, Vector, pool_bound};

/// The result of a search for a witness. A witness is a list of events that shows that a plan is
/// not safe.
#[derive(Drop)]
pub(crate) struct WitnessSearch {
    pub(crate) witness: Option<Witness>,
    /// The number of states that were searched.
    pub(crate) states: usize,
}

/// Searches at most `states` states for a witness against the plan. A witness is a list of events
/// that shows that the plan is not safe. Returns a witness only if a replay of its events confirms
/// it.
pub(crate) fn witness_of(
    alloc: Global,
    plan: &Plan,
    states: usize,
) -> Result<WitnessSearch, AllocError>
    ensures witness { IfOk result (λ search. IfSome search.witness (IsWitnessOf plan.now)) }
    ensures states { IfOk result (λ search. search.states ≤ states) }
{
    let searched = search_witness(alloc, plan, states)?;
    let states = searched.states;
    let witness = match searched.found {
        Some(found) => confirm(alloc, plan, found)?,
        None => None,
    };
    Ok(WitnessSearch { witness, states })
}

/// Replays the events that a search found. Returns them as a witness if they show that the plan is
/// not safe, and otherwise `None`.
fn confirm(
    alloc: Global,
    plan: &Plan,
    found: CandidateWitness,
) -> Result<Option<Witness>, AllocError>
    ensures { IfOk result (λ witness. IfSome witness (IsWitnessOf plan.now)) }
{
    let standing = if found.members.is_empty() {
        Vec::new(alloc)
    } else {
        standing_vectors(alloc, plan)?
    };
    let mut members = found.members;
    members.sort_unstable();
    members.dedup();
    confirmed(alloc, plan, found.events, members, &standing)
}

/// Returns a vector for each pool, in plan order: the standing vector that a search finds for the
/// pool, or a vector without weights if it finds none. A standing vector bounds the number of jobs
/// in the pool's queue. With it, [`confirmed`] can prove that the pool never starts a thread above
/// the core size. The list is empty if a class submits itself, directly or through other classes.
fn standing_vectors(alloc: Global, plan: &Plan) -> Result<Vec<Vector>, AllocError> {
    let mut vectors = Vec::new(alloc);
    let Some(levels) = Levels::of(alloc, plan)? else {
        return Ok(vectors);
    };
    for pool in 0..plan.pools().len() {
        let vector = match pool_bound(alloc, plan, &levels, pool)? {
            Some(bound) => standing_vector(alloc, bound),
            None => no_weights(alloc),
        };
        vectors.push(vector)?;
    }
    Ok(vectors)
}

/// Returns the vector of a standing bound, which limits the number of jobs in a queue at any one
/// time. For a lifetime bound, which limits the number of jobs that are ever submitted, returns a
/// vector without weights.
fn standing_vector(alloc: Global, bound: Bound) -> Vector {
    match bound {
        Bound::Standing(vector) => vector,
        Bound::Lifetime(_vector) => no_weights(alloc),
    }
}

fn no_weights(alloc: Global) -> Vector {
    Vector {
        workers: Vec::new(alloc),
        classes: Vec::new(alloc),
        clients: Vec::new(alloc),
    }
}
