//! Matching of a path against a body.

ghost use Rattle.std.specs.Prelude.{IfOk, IsTrue, length};
ghost use Rattle.conformance.specs.declared.step.ActorKind.{ActorKind};
ghost use Rattle.conformance.specs.declared.step.PathState.{PathState};
ghost use Rattle.conformance.specs.Path.{IsPathOf};
ghost use Rattle.conformance.specs.PathMatch.{OnFits, OnDeviates, IfDeviates, IsExplained, IsDecided, IsUnambiguous, HasManyOpenLists, OnUndecided, IsMatch};
ghost use Rattle.conformance.specs.BodyGets.{AreGets};
ghost use Rattle.conformance.specs.WalkStates.{AreStatesAt, HaveTables, HasState};

use crate::body_gets::{BodyGet, body_gets};
use crate::explained_prefix::ExplainedPrefix;
use crate::furthest::reaches;
use crate::narrowing::{Pick, narrowed};
use crate::path_match::{MAX_OPEN_LISTS, PathMatch};
use crate::same_steps::has_same_steps;
use crate::step::{ActorKind, PathState, PathStep};
use crate::stop_reasons::{excess_at, missing_in};
use crate::walk_state::WalkState;
use crate::walk_states::{start_states, states_after};
use job_bodies::Action;
use std::alloc::{AllocError, Global};

/// Matches the path of an actor against a body. `kind` is the kind of the actor. `path_state` says
/// whether the path is whole or the actor may continue.
///
/// The path matches if the path and the body can be walked together, each in its own order, under
/// these conditions:
///
/// - At each moment, for each class, the path has at most as many open jobs as the body.
/// - Each submit of the path is made at the same time as a submit of the same class in the body.
///   The body may have more submits.
/// - The path may get its jobs in any order, and earlier than the body. If the actor is a job, it
///   may get only jobs of classes that its body still gets.
/// - If `path_state` is [`PathState::Whole`], the walk can reach the end of the body.
///
/// A job of the path may belong to several classes that the body submits. The match then follows
/// every possible list of open jobs. In a list, each job has one of its classes. If more than
/// [`MAX_OPEN_LISTS`] lists are possible after a step of the path, three ways are tried to choose
/// one class for each job: the first class, the last class, and the class of the next submit of the
/// body that fits. The result is [`PathMatch::Undecided`] if the path matches in none of the three
/// ways. No contract says that these ways are tried.
///
/// If each job of the path has at most one of the body's classes, at most one list is possible
/// after each step. If each job has at most one class in all, the running time is at most
/// proportional to `B * (B + P)`, for a body with `B` actions and a path with `P` steps. No
/// contract states this.
///
/// # Errors
///
/// Returns [`AllocError`] if memory runs out.
pub fn match_path(
    alloc: Global,
    body: &[Action],
    path: &[PathStep],
    kind: ActorKind,
    path_state: PathState,
) -> Result<PathMatch, AllocError>
    ensures fits { IfOk result (λ path_match.
        OnFits path_match (IsPathOf kind path_state body.now path.now)) }
    ensures deviates { IfOk result (λ path_match.
        OnDeviates path_match (¬ IsPathOf kind path_state body.now path.now)) }

    // The explained prefix is the longest prefix of the path that the body explains, with the
    // reason why the body does not explain the next step.
    ensures explained { IfOk result
        (λ path_match. IfDeviates path_match (IsExplained kind body.now path.now)) }

    // The result is decided if each job of the path has at most one of the body's classes.
    ensures decided { IfOk result
        (λ path_match. IsUnambiguous body.now path.now → IsDecided path_match) }

    // The result is undecided only if more than `MAX_OPEN_LISTS` lists of open jobs are possible
    // after some step.
    ensures many { IfOk result
        (λ path_match. OnUndecided path_match (HasManyOpenLists kind body.now path.now)) }
{
    let path_match = match_exactly(alloc, body, path, kind, path_state)?;
    match path_match {
        PathMatch::Fits => Ok(PathMatch::Fits),
        PathMatch::Deviates(explained) => Ok(PathMatch::Deviates(explained)),
        PathMatch::Undecided => {
            let fits = fits_narrowed(alloc, body, path, kind, path_state)?;
            Ok(if fits {
                PathMatch::Fits
            } else {
                PathMatch::Undecided
            })
        }
    }
}

/// Matches the path against the body. A path with the steps of the body, in the same order, matches
/// at once. Any other path is matched in joint walks, which go through both together, step by step.
/// Walks share a state if they have the same open jobs with the same classes. The path deviates at
/// the first step that no walk can make. The result is undecided if there are more than
/// [`MAX_OPEN_LISTS`] states after a step.
///
/// # Errors
///
/// Returns [`AllocError`] if memory runs out.
fn match_exactly(
    alloc: Global,
    body: &[Action],
    path: &[PathStep],
    kind: ActorKind,
    path_state: PathState,
) -> Result<PathMatch, AllocError>
    ensures { IfOk result (IsMatch kind path_state body.now path.now) }
{
    if has_same_steps(body, path) {
        return Ok(PathMatch::Fits);
    }
    let gets = body_gets(alloc, body)?;
    let mut states = start_states(alloc, body)?;
    for place in 0..path.len() {
        states = states_after(alloc, states, kind, body, &gets, place, &path[place])?;
        if states.is_empty() {
            let excess = excess_at(alloc, kind, body, &gets, path, place)?;
            return Ok(PathMatch::Deviates(ExplainedPrefix {
                length: place,
                excess,
                missing: None,
            }));
        }
        if states.len() > MAX_OPEN_LISTS {
            return Ok(PathMatch::Undecided);
        }
    }
    Ok(match_at_end(&states, body, &gets, path, path_state))
}

/// Returns the result after all steps of the path. If the path is only a prefix, it matches. A
/// whole path matches only if a walk reaches the end of the body. `states` has the states after the
/// last step, and `gets` has the gets of the body.
fn match_at_end(
    states: &[WalkState],
    body: &[Action],
    gets: &[Option<BodyGet>],
    path: &[PathStep],
    path_state: PathState,
) -> PathMatch
    requires gets { AreGets body.now gets.now }
    requires tables { HaveTables body.now states.now }
    ensures { (kind : ActorKind)
        → AreStatesAt kind body.now path.now (length path.now) states.now
        → HasState states.now
        → IsMatch kind path_state body.now path.now result }
{
    match path_state {
        PathState::Prefix => PathMatch::Fits,
        PathState::Whole => {
            if reaches(states, body.len()) {
                PathMatch::Fits
            } else {
                PathMatch::Deviates(ExplainedPrefix {
                    length: path.len(),
                    excess: None,
                    missing: missing_in(states, body, gets),
                })
            }
        }
    }
}

/// Returns true if the path matches the body with at least one rule of [`Pick`]. A rule picks one
/// class for each job in the path.
///
/// # Errors
///
/// Returns [`AllocError`] if memory runs out.
fn fits_narrowed(
    alloc: Global,
    body: &[Action],
    path: &[PathStep],
    kind: ActorKind,
    path_state: PathState,
) -> Result<bool, AllocError>
    ensures { IfOk result (λ fits.
        IsTrue fits → IsPathOf kind path_state body.now path.now) }
{
    if fits_with(alloc, body, path, kind, path_state, Pick::First)? {
        return Ok(true);
    }
    if fits_with(alloc, body, path, kind, path_state, Pick::Last)? {
        return Ok(true);
    }
    let fits = fits_with(alloc, body, path, kind, path_state, Pick::InOrder)?;
    Ok(fits)
}

/// Returns true if the path matches the body when the rule `pick` picks the classes of the path's
/// jobs.
///
/// # Errors
///
/// Returns [`AllocError`] if memory runs out.
fn fits_with(
    alloc: Global,
    body: &[Action],
    path: &[PathStep],
    kind: ActorKind,
    path_state: PathState,
    pick: Pick,
) -> Result<bool, AllocError>
    ensures { IfOk result (λ fits.
        IsTrue fits → IsPathOf kind path_state body.now path.now) }
{
    let fewer = narrowed(alloc, body, path, pick)?;
    let path_match = match_exactly(alloc, body, &fewer, kind, path_state)?;
    match path_match {
        PathMatch::Fits => Ok(true),
        PathMatch::Deviates(_) | PathMatch::Undecided => Ok(false),
    }
}
