//! The validity of the gets of a body.

ghost use Rattle.std.specs.Prelude.{◌≡◌, ◌↔◌, IsTrue, take, slice_get};
ghost use Rattle.job_bodies.specs.WellFormed as spec;
ghost use Rattle.job_bodies.specs.Plan.{submits, has_get_of};
ghost use Rattle.conformance.specs.ValidGets.{HasValidGets, is_valid_at};

use job_bodies::Action;

/// Returns true if each get names an earlier submit of the body, and no two gets name the same
/// submit.
pub fn has_valid_gets(body: &[Action]) -> bool
    ensures { IsTrue result ↔ HasValidGets body.now }
{
    for position in 0..body.len() {
        if !is_valid_at(body, position) {
            return false;
        }
    }
    true
}

/// Returns true if the action at this index is a valid get or is not a get.
fn is_valid_at(body: &[Action], position: usize) -> bool
    ensures { result ≡ is_valid_at body.now position (slice_get body.now position) }
{
    match body.get(position) {
        Some(Action::Get(submit)) => is_valid_get(body, position, *submit),
        _ => true,
    }
}

/// Returns true if a get at index `position` may name the action at index `submit`. This action
/// must satisfy three conditions:
///
/// - It is before the get.
/// - It is a submit.
/// - No get before `position` names it.
fn is_valid_get(body: &[Action], position: usize, submit: usize) -> bool
    ensures { result ≡ spec.is_valid_get body.now position submit }
{
    submit < position && is_submit(body, submit) && !is_got_before(body, position, submit)
}

fn is_submit(body: &[Action], position: usize) -> bool
    ensures { result ≡ submits (slice_get body.now position) }
{
    matches!(body.get(position), Some(Action::Submit(_)))
}

fn is_got_before(body: &[Action], position: usize, submit: usize) -> bool
    ensures { result ≡ has_get_of (take position body.now) submit }
{
    body.iter().take(position).any(|action| action.gets(submit))
}
