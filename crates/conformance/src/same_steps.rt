//! Paths that have the steps of a body, in the same order.

ghost use Rattle.std.specs.Prelude.{◌≡◌, ◌↔◌, IsTrue, slice_get};
ghost use Rattle.conformance.specs.SameSteps as spec;

use crate::step::PathStep;
use crate::valid_gets::has_valid_gets;
use job_bodies::Action;

/// Returns true if the path has the steps of the body, one for each action and in the same order.
/// Such a path matches the body. Returns false if the body has `work` or an invalid get.
pub(crate) fn has_same_steps(body: &[Action], path: &[PathStep]) -> bool
    ensures { IsTrue result ↔ spec.HasSameSteps body.now path.now }
{
    if body.len() != path.len() {
        return false;
    }
    for index in 0..body.len() {
        if !is_same_step_at(body, path, index) {
            return false;
        }
    }
    has_valid_gets(body)
}

fn is_same_step_at(body: &[Action], path: &[PathStep], index: usize) -> bool
    ensures { result ≡ spec.is_same_step_at (slice_get body.now index) (slice_get path.now index) }
{
    match (body.get(index), path.get(index)) {
        (Some(action), Some(step)) => is_same_step(*action, step),
        _ => false,
    }
}

fn is_same_step(action: Action, step: &PathStep) -> bool
    ensures { result ≡ spec.is_same_step action step.now }
{
    match action {
        Action::Work(_) => false,
        Action::Submit(class) => step.submits(class),
        Action::Get(submit) => matches!(step, PathStep::Gets(job) if *job == submit),
    }
}
