//! The body whose actions are the steps of a single path.

ghost use Rattle.std.specs.Prelude.{◌≡◌, ◌≤◌, ◌↔◌, [], IfOk, IfSome, MatchOption, All, IsTrue, length};
ghost use Rattle.job_bodies.specs.declared.limits.TheConstants.{MAX_ACTIONS};
ghost use Rattle.conformance.specs.declared.step.ActorKind.{ActorKind};
ghost use Rattle.conformance.specs.declared.step.PathState.TheVariants.{Whole};
ghost use Rattle.conformance.specs.Path.{IsPathOf};
ghost use Rattle.learning.specs.Covers.{work_of};
ghost use Rattle.conformance.specs.ValidGets.{HasValidGets};
ghost use Rattle.learning.specs.PathBody as spec;

use conformance::{PathStep, has_valid_gets};
use job_bodies::{Action, MAX_ACTIONS};
use std::alloc::{AllocError, Global};

/// Returns the body whose actions are the steps of the path. The class of each submit is the first
/// class that the submitted job can belong to.
///
/// Returns `None` in these cases:
///
/// - The path is longer than a body may be.
/// - The job of a submit cannot belong to any class.
/// - A get names no earlier submit.
/// - Two gets name the same submit.
///
/// # Errors
///
/// Returns [`AllocError`] if memory runs out.
pub fn body_of_path(alloc: Global, path: &[PathStep]) -> Result<Option<Vec<Action>>, AllocError>
    ensures exact { IfOk result (λ found.
        MatchOption found (¬ spec.HasBody path.now) (λ body. body.items ≡ spec.body_of path.now)) }
    ensures has_body { IfOk result (λ found. IfSome found (λ body. spec.HasBody path.now)) }
    ensures fits { (kind : ActorKind)
        → IfOk result (λ found. IfSome found (λ body. IsPathOf kind Whole body.items path.now)) }
    ensures no_work { IfOk result (λ found. IfSome found (λ body. work_of body.items ≡ [])) }
    ensures short { IfOk result (λ found. IfSome found (λ body. length body.items ≤ MAX_ACTIONS)) }
    ensures valid_gets { IfOk result (λ found. IfSome found (λ body. HasValidGets body.items)) }
{
    if path.len() > MAX_ACTIONS || !has_classes(path) {
        return Ok(None);
    }
    let body = all_actions(alloc, path)?;
    if has_valid_gets(&body) {
        Ok(Some(body))
    } else {
        Ok(None)
    }
}

fn has_classes(path: &[PathStep]) -> bool
    ensures { IsTrue result ↔ All spec.HasClass path.now }
{
    path.iter().all(|step| has_class(step))
}

fn has_class(step: &PathStep) -> bool
    ensures { IsTrue result ↔ spec.HasClass step.now }
{
    match step {
        PathStep::Submits(classes) => !classes.is_empty(),
        PathStep::Gets(_) => true,
    }
}

fn all_actions(alloc: Global, path: &[PathStep]) -> Result<Vec<Action>, AllocError>
    ensures { IfOk result (λ body. body.items ≡ spec.body_of path.now) }
{
    path.iter().map(|step| action_of(step)).collect(alloc)
}

fn action_of(step: &PathStep) -> Action
    ensures { result ≡ spec.action_of step.now }
{
    match step {
        PathStep::Submits(classes) => Action::Submit(classes.first().copied().unwrap_or(0)),
        PathStep::Gets(place) => Action::Get(*place),
    }
}
