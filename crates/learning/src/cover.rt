//! Bodies that cover several paths. A body covers a path if the path matches it.

ghost use Rattle.std.specs.Prelude.{◌≡◌, ◌≤◌, ◌∷◌, [], length, IfOk, IfSome, IsSomeAnd, IsTrue};
ghost use Rattle.std.specs.List.{list_any};
ghost use Rattle.std.specs.declared.alloc.Global.{Global as GlobalAlloc};
ghost use Rattle.std.specs.declared.vec.Vec.{Vec as PathVec};
ghost use Rattle.job_bodies.specs.declared.limits.TheConstants.{MAX_ACTIONS};
ghost use Rattle.conformance.specs.declared.step.PathStep.{PathStep as Step};
ghost use Rattle.conformance.specs.declared.step.PathState.TheVariants.{Whole};
ghost use Rattle.conformance.specs.Path.{IsPathOf};
ghost use Rattle.conformance.specs.PathMatch.{IsUnambiguous};
ghost use Rattle.learning.specs.Covers as spec;
ghost use Rattle.learning.specs.PathBody.{HasBody};
ghost use Rattle.conformance.specs.ValidGets.{HasValidGets};

use crate::body_cost::is_preferred;
use crate::candidates::{CANDIDATES, Choices, candidate};
use crate::path_body::body_of_path;
use conformance::{ActorKind, PathMatch, PathState, PathStep, has_valid_gets, match_path};
use job_bodies::{Action, MAX_ACTIONS};
use std::alloc::{AllocError, Global};

/// Returns a body that all paths match. `body` is the current body. `kind` says whether the paths
/// are those of jobs or of rounds. The result is found in these steps:
///
/// - If `body` is valid in a plan and [`match_path`] finds that all paths match it, the result is
///   `body`.
/// - Otherwise, if `body` has `work`, the result is `None`.
/// - Otherwise, if there is a single path, the result is the body whose actions are the steps of
///   the path.
/// - Otherwise, the result is the best of several candidates that all paths match. A candidate has
///   all submits of each path, in the path's order, and gets each job as soon as the paths allow.
///
/// The cost of a candidate is a sum over its classes. Each class adds the maximum number of jobs of
/// this class that are open at the same time. The best candidate has the lowest cost. Among
/// candidates of the same cost, it has the fewest actions.
///
/// Returns `None` if no body with at most [`MAX_ACTIONS`] actions is found. No new body is found if
/// a path has one of these faults:
///
/// - The job of a submit cannot belong to any class.
/// - A get names no earlier submit.
/// - Two gets name the same submit.
///
/// # Errors
///
/// Returns [`AllocError`] if memory runs out.
pub fn covering_body(
    alloc: Global,
    kind: ActorKind,
    body: &[Action],
    paths: &[Vec<PathStep>],
) -> Result<Option<Vec<Action>>, AllocError>
    ensures covers { IfOk result
        (λ found. IfSome found (λ new. spec.Covers kind new.items paths.now)) }
    ensures work { IfOk result
        (λ found. IfSome found (λ new. spec.work_of new.items ≡ spec.work_of body.now)) }
    ensures short { IfOk result (λ found. IfSome found (λ new. length new.items ≤ MAX_ACTIONS)) }
    ensures valid_gets { IfOk result (λ found. IfSome found (λ new. HasValidGets new.items)) }

    // A valid body that covers the paths is not changed if each job of a path can belong to at most
    // one of the body's classes.
    ensures same { spec.IsSurelyCovering kind body.now paths.now
        → IfOk result (λ found. IsSomeAnd found (λ new. new.items ≡ body.now)) }

    // For an empty body and a single path whose steps form a valid body, a body is found that is
    // not longer than the path.
    ensures single { (path : PathVec Step GlobalAlloc)
        → body.now ≡ []
        → paths.now ≡ path ∷ []
        → HasBody path.items
        → IfOk result (λ found. IsSomeAnd found (λ new. length new.items ≤ length path.items)) }
{
    if is_valid(body) && covers(alloc, kind, body, paths)? {
        return Ok(Some(Vec::from_slice(alloc, body)?));
    }
    if has_work(body) {
        return Ok(None);
    }
    new_body(alloc, kind, paths)
}

/// Returns a body that has no `work` and that all paths match. Returns `None` if no such body is
/// found.
fn new_body(
    alloc: Global,
    kind: ActorKind,
    paths: &[Vec<PathStep>],
) -> Result<Option<Vec<Action>>, AllocError>
    ensures covering { IfOk result
        (λ found. IfSome found (λ new. spec.IsCovering kind new.items paths.now)) }
    ensures single { (path : PathVec Step GlobalAlloc)
        → paths.now ≡ path ∷ []
        → HasBody path.items
        → IfOk result (λ found. IsSomeAnd found (λ new. length new.items ≤ length path.items)) }
{
    match paths {
        [path] => body_of_path(alloc, path),
        _ => best_candidate(alloc, kind, paths),
    }
}

/// Returns the candidate with the lowest cost (see [`is_preferred`]) among those that all paths
/// match. Returns `None` if there is no such candidate.
fn best_candidate(
    alloc: Global,
    kind: ActorKind,
    paths: &[Vec<PathStep>],
) -> Result<Option<Vec<Action>>, AllocError>
    ensures { IfOk result (λ found. IfSome found (λ new. spec.IsCovering kind new.items paths.now)) }
{
    let mut best = None;
    for number in 0..CANDIDATES {
        if let Some(body) = candidate(alloc, paths, Choices::with_number(number))? {
            if is_better(&body, &best) && is_covering(alloc, kind, &body, paths)? {
                best = Some(body);
            }
        }
    }
    Ok(best)
}

fn is_better(body: &[Action], best: &Option<Vec<Action>>) -> bool {
    match best {
        Some(best) => is_preferred(body, best),
        None => true,
    }
}

/// Returns true if the body has no `work` and is valid in a plan, and each of the paths matches it.
fn is_covering(
    alloc: Global,
    kind: ActorKind,
    body: &[Action],
    paths: &[Vec<PathStep>],
) -> Result<bool, AllocError>
    ensures { IfOk result (λ yes. IsTrue yes → spec.IsCovering kind body.now paths.now) }
{
    if has_work(body) || !is_valid(body) {
        return Ok(false);
    }
    covers(alloc, kind, body, paths)
}

fn has_work(body: &[Action]) -> bool
    ensures { result ≡ list_any spec.is_work body.now }
{
    body.iter().any(|action| is_work(*action))
}

fn is_work(action: Action) -> bool
    ensures { result ≡ spec.is_work action }
{
    match action {
        Action::Work(_) => true,
        Action::Submit(_) | Action::Get(_) => false,
    }
}

/// Returns true if the body is not too long and its gets are valid. Such a body is valid in any
/// plan that has its classes.
fn is_valid(body: &[Action]) -> bool
    ensures short { IsTrue result → length body.now ≤ MAX_ACTIONS }
    ensures valid_gets { IsTrue result → HasValidGets body.now }
    ensures always { length body.now ≤ MAX_ACTIONS → HasValidGets body.now → IsTrue result }
{
    body.len() <= MAX_ACTIONS && has_valid_gets(body)
}

/// Returns true if each of the paths matches the body.
fn covers(
    alloc: Global,
    kind: ActorKind,
    body: &[Action],
    paths: &[Vec<PathStep>],
) -> Result<bool, AllocError>
    ensures yes { IfOk result (λ yes. IsTrue yes → spec.Covers kind body.now paths.now) }
    ensures sure { spec.IsSurelyCovering kind body.now paths.now → IfOk result (λ yes. IsTrue yes) }
{
    for path in paths {
        if !is_path_of(alloc, kind, body, path)? {
            return Ok(false);
        }
    }
    Ok(true)
}

/// Returns true if the path matches the body. Returns false if the path does not match, or if
/// [`match_path`] cannot decide whether it matches.
fn is_path_of(
    alloc: Global,
    kind: ActorKind,
    body: &[Action],
    path: &[PathStep],
) -> Result<bool, AllocError>
    ensures yes { IfOk result (λ yes. IsTrue yes → IsPathOf kind Whole body.now path.now) }
    ensures sure { IsUnambiguous body.now path.now
        → IsPathOf kind Whole body.now path.now
        → IfOk result (λ yes. IsTrue yes) }
{
    match match_path(alloc, body, path, kind, PathState::Whole)? {
        PathMatch::Fits => Ok(true),
        PathMatch::Deviates(_) | PathMatch::Undecided => Ok(false),
    }
}
