//! The futures that are open at a position of a body.

ghost use Rattle.std.specs.Prelude.{◌≡◌};
ghost use Rattle.diagnostics.specs.OpenFutures as spec;

use job_bodies::Action;

/// Returns whether a future is open at this position of the body. A future is open if a job was
/// submitted before the position, and the get of this job comes after the position.
pub fn has_open_future(body: &[Action], position: usize) -> bool
    ensures { result ≡ spec.has_open_future body.now position }
{
    body.iter().enumerate().any(|(number, action)| is_get_around(position, number, *action))
}

/// Returns whether `action` comes after `position` and gets a job that was submitted before
/// `position`. `number` is the index of `action` in the body.
pub(crate) fn is_get_around(position: usize, number: usize, action: Action) -> bool
    ensures { result ≡ spec.is_get_around position number action }
{
    match action {
        Action::Get(submit) => submit < position && position < number,
        Action::Work(_) | Action::Submit(_) => false,
    }
}
