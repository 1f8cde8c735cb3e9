//! The reasons why no joint walk over a body and a path continues.

ghost use Rattle.std.specs.Prelude.{◌≡◌, ◌<◌, ◌+◌, ℕ, List, Some, IfOk, length, slice_get};
ghost use Rattle.job_bodies.specs.declared.action.Action.{Action};
ghost use Rattle.conformance.specs.declared.open_job.OpenJob.{OpenJob};
ghost use Rattle.conformance.specs.declared.step.ActorKind.{ActorKind};
ghost use Rattle.conformance.specs.declared.step.PathStep.{PathStep};
ghost use Rattle.conformance.specs.declared.step.PathStep.TheVariants as step;
ghost use Rattle.conformance.specs.BodyGets.{AreGets};
ghost use Rattle.conformance.specs.MissingJob.{IsMissingJob};
ghost use Rattle.conformance.specs.OpenExcess.{IsReason};
ghost use Rattle.conformance.specs.Path.{Walks};
ghost use Rattle.conformance.specs.WalkState.{is_at};
ghost use Rattle.conformance.specs.WalkStates as spec;

use crate::blocking_get::blocking_get;
use crate::body_gets::BodyGet;
use crate::furthest::{Reached, furthest};
use crate::open_excess::OpenExcess;
use crate::open_job::{count_in, first_in};
use crate::row::has_submit_at;
use crate::step::{ActorKind, PathStep};
use crate::walk_state::WalkState;
use crate::walk_states::states_at;
use job_bodies::Action;
use std::alloc::{AllocError, Global};

/// The body's next submit of one of several classes. `submit` is the index of this submit.
/// `reached` has the last index up to this submit where the body can be.
#[derive(Clone, Copy)]
pub(crate) struct SubmitAhead {
    pub(crate) submit: usize,
    pub(crate) reached: Reached,
}

/// Finds the reason why no joint walk makes the step at index `place` of the path. Returns the open
/// jobs that block the body before its next matching submit. Returns `None` if the step is a get,
/// or if the body has no matching submit left. The result has a meaning only if no walk makes the
/// step.
///
/// # Errors
///
/// Returns [`AllocError`] if memory runs out.
pub(crate) fn excess_at(
    alloc: Global,
    kind: ActorKind,
    body: &[Action],
    gets: &[Option<BodyGet>],
    path: &[PathStep],
    place: usize,
) -> Result<Option<OpenExcess>, AllocError>
    requires gets { AreGets body.now gets.now }
    requires within { place < length path.now }
    ensures { ((index : ℕ) (jobs : List OpenJob)
        → ¬ Walks kind body.now path.now index (place + 1) jobs)
        → IfOk result (IsReason kind body.now path.now place) }
{
    match &path[place] {
        PathStep::Submits(classes) => {
            let states = states_at(alloc, kind, body, gets, path, place)?;
            Ok(excess_in(&states, body, gets, classes))
        }
        PathStep::Gets(_) => Ok(None),
    }
}

/// Returns the open jobs of the path that block the body before its next submit of one of the
/// classes. Returns `None` if the body has no such submit left.
fn excess_in(
    states: &[WalkState],
    body: &[Action],
    gets: &[Option<BodyGet>],
    classes: &Vec<usize>,
) -> Option<OpenExcess>
    requires gets { AreGets body.now gets.now }
    requires tables { spec.HaveTables body.now states.now }
    ensures { (kind : ActorKind) (path : List PathStep) (place : ℕ)
        → slice_get path place ≡ Some (step.Submits classes.now)
        → spec.AreStatesAt kind body.now path place states.now
        → ((index : ℕ) (jobs : List OpenJob) → ¬ Walks kind body.now path index (place + 1) jobs)
        → IsReason kind body.now path place result }
{
    let ahead = submit_ahead(states, body, classes)?;
    let state = states.get(ahead.reached.state)?;
    let get = blocking_get(&state.row, &state.passes, gets, ahead.submit)?;
    Some(OpenExcess {
        class: get.class,
        open_jobs: count_in(get.class, &state.jobs),
        limit: get.limit,
    })
}

/// Returns a job that the actor should have got before its end, as the index of the job's submit in
/// the path. The result has a meaning only if no walk reaches the end of the body. A get then
/// blocks the walk that is furthest in the body. The result is the first open job of the path that
/// has the class of this get.
pub(crate) fn missing_in(
    states: &[WalkState],
    body: &[Action],
    gets: &[Option<BodyGet>],
) -> Option<usize>
    requires gets { AreGets body.now gets.now }
    requires tables { spec.HaveTables body.now states.now }
    ensures { (kind : ActorKind) (path : List PathStep) (place : ℕ)
        → spec.AreStatesAt kind body.now path place states.now
        → (index : ℕ) (jobs : List OpenJob)
        → Walks kind body.now path index place jobs
        → ((others : List OpenJob) → ¬ Walks kind body.now path (length body.now) place others)
        → (job : ℕ) × (result ≡ Some job) × IsMissingJob kind body.now path place job }
{
    let reached = furthest(states, body.len())?;
    let state = states.get(reached.state)?;
    let get = blocking_get(&state.row, &state.passes, gets, body.len())?;
    first_in(get.class, &state.jobs)
}

/// Returns the body's next submit of one of the classes: the first one at or after an index where
/// the body can be. Also returns the last index up to this submit where the body can be. Returns
/// `None` if there is no such submit.
fn submit_ahead(states: &[WalkState], body: &[Action], classes: &[usize]) -> Option<SubmitAhead>
    ensures { spec.AreAhead states.now body.now classes.now result }
{
    for submit in 0..body.len() {
        if submits_any(body, submit, classes) {
            if let Some(reached) = furthest(states, submit) {
                return Some(SubmitAhead { submit, reached });
            }
        }
    }
    None
}

/// Returns true if the body submits a job of one of the classes at this index.
fn submits_any(body: &[Action], submit: usize, classes: &[usize]) -> bool
    ensures { result ≡ spec.submits_any body.now classes.now submit }
{
    classes
        .iter()
        .any(|class| has_submit_at(body, submit, *class))
}
