//! The weights of an actor at the positions of its body, given the weights of the jobs that it
//! submits.
//!
//! A job is *open* at a position of the body if the actor submits it before that position, and gets
//! it at that position or later. A job that is never got is not open at any position.

ghost use Rattle.std.specs.Prelude.{◌≡◌, ◌≤◌, ◌<◌, ◌+◌, ◌*◌, IfOk, length, slice_index};
ghost use Rattle.job_bodies.specs.ValidBody.{IsValidBody};
ghost use Rattle.job_bodies.specs.declared.limits.TheConstants.{MAX_ACTIONS, MAX_WEIGHT};
ghost use Rattle.weights.specs.Vector as vector_spec;
ghost use Rattle.size_search.specs.Small.{JobsAreSmall};
ghost use Rattle.size_search.specs.Steady as spec;

use crate::levels::number_at;
use job_bodies::{Action, Client, Plan, has_get_of};
use std::alloc::{AllocError, Global};
use weights::{Vector, submitted_class};

/// Returns the weight at index `place` in the list of the class's weights, or 0 if there is no such
/// class or index. The list has the weight of a queued job, the weight at each position of the
/// body, and the weight of a done job, in this order.
fn number_of(vector: &Vector, class: usize, place: usize) -> u64
    ensures { result ≡ slice_index (vector_spec.class_weights vector.now class) place }
{
    if class < vector.classes.len() {
        number_at(vector.class_weights(class), place)
    } else {
        0
    }
}

/// Returns the weight of a queued job of the class.
fn queued(vector: &Vector, class: usize) -> u64
    ensures { result ≡ vector_spec.queued_weight vector.now class }
{
    number_of(vector, class, 0)
}

/// Returns the weight of a done job of the class.
fn done(plan: &Plan, vector: &Vector, class: usize) -> u64
    ensures { result ≡ vector_spec.done_weight plan.now vector.now class }
{
    let actions = match plan.class_at(class) {
        Some(class) => class.body.len(),
        None => 0,
    };
    number_of(vector, class, actions + 2)
}

/// Returns the total weight of the open jobs after the action at this position. A job that the body
/// gets is *open* between its submit and its get, and counts with the weight of a queued job of its
/// class. `current_weight` is the total weight of the open jobs before the action.
fn open_weight_after(
    plan: &Plan,
    vector: &Vector,
    body: &[Action],
    position: usize,
    current_weight: u64,
) -> u64
    requires valid { IsValidBody plan.now body.now }
    requires small { JobsAreSmall vector.now }
    requires inside { position < length body.now }
    requires current_weight { current_weight ≡ spec.open_weight vector.now body.now position }
    ensures { result ≡ spec.open_weight vector.now body.now (position + 1) }
{
    match body[position] {
        Action::Work(_) => current_weight,
        Action::Submit(class) => {
            if has_get_of(body, position) {
                current_weight + queued(vector, class)
            } else {
                current_weight
            }
        }
        Action::Get(submit) => current_weight - queued(vector, submitted_class(body, submit)),
    }
}

/// Returns the largest total weight of the open jobs at any position of the body. A job that the
/// body gets is *open* between its submit and its get, and counts with the weight of a queued job
/// of its class.
fn most(plan: &Plan, vector: &Vector, body: &[Action]) -> u64
    requires valid { IsValidBody plan.now body.now }
    requires small { JobsAreSmall vector.now }
    ensures value { result ≡ spec.most vector.now body.now }
    ensures bound { result ≤ MAX_ACTIONS * MAX_WEIGHT }
{
    let mut current_weight = 0;
    let mut most = 0;
    for position in 0..body.len() {
        current_weight = open_weight_after(plan, vector, body, position, current_weight);
        most = most.max(current_weight);
    }
    most
}

/// Returns the weight of the actor before the action, given `weight_after`, the weight after it:
///
/// - Before `work`, the weight is `weight_after`.
/// - Before a submit, it is `weight_after` plus the weight of the queued job.
/// - Before a get, it is `weight_after` minus the weight of the done job, but at least `least`.
fn before(
    plan: &Plan,
    vector: &Vector,
    least: u64,
    body: &[Action],
    action: Action,
    weight_after: u64,
) -> u64
    requires small { JobsAreSmall vector.now }
    requires weight_after { weight_after ≤ 2 + (MAX_ACTIONS + MAX_ACTIONS) * MAX_WEIGHT }
    ensures { result ≡ spec.weight_before plan.now vector.now least body.now action weight_after }
{
    match action {
        Action::Work(_) => weight_after,
        Action::Submit(class) => weight_after + queued(vector, class),
        Action::Get(submit) => {
            let returned_weight = done(plan, vector, submitted_class(body, submit));
            least.max(weight_after.saturating_sub(returned_weight))
        }
    }
}

/// Returns the weight of the actor at each position of its body. The weight at the end is `last`,
/// and the other weights are computed backwards from the end. The weight before a get is at least
/// `least`.
fn weights(
    alloc: Global,
    plan: &Plan,
    vector: &Vector,
    least: u64,
    body: &[Action],
    last: u64,
) -> Result<Vec<u64>, AllocError>
    requires valid { IsValidBody plan.now body.now }
    requires small { JobsAreSmall vector.now }
    requires least { least ≤ 1 }
    requires last { last ≤ 1 + MAX_ACTIONS * MAX_WEIGHT }
    ensures { IfOk result (λ weights.
        weights.items ≡ spec.weights_from plan.now vector.now least body.now last body.now) }
{
    let mut weights = Vec::with_capacity(alloc, body.len() + 1)?;
    let mut weight = last;
    weights.push(weight)?;
    for behind in 0..body.len() {
        let position = body.len() - 1 - behind;
        weight = before(plan, vector, least, body, body[position], weight);
        weights.push(weight)?;
    }
    weights.reverse();
    Ok(weights)
}

/// Returns the weights of a job with this body: when it is queued, at each position of the body,
/// and when it is done.
pub(crate) fn class_row(
    alloc: Global,
    plan: &Plan,
    vector: &Vector,
    body: &[Action],
) -> Result<Vec<u64>, AllocError>
    requires valid { IsValidBody plan.now body.now }
    requires small { JobsAreSmall vector.now }
    ensures { IfOk result (λ row. row.items ≡ spec.class_row plan.now vector.now body.now) }
{
    let last = most(plan, vector, body) + 1;
    let mut row = weights(alloc, plan, vector, 1, body, last)?;
    let queued = number_at(&row, 0);
    row.insert(0, queued)?;
    row.push(last)?;
    Ok(row)
}

/// Returns the weight of a client at each position of its body.
pub(crate) fn client_row(
    alloc: Global,
    plan: &Plan,
    vector: &Vector,
    client: &Client,
) -> Result<Vec<u64>, AllocError>
    requires valid { IsValidBody plan.now client.now.body }
    requires small { JobsAreSmall vector.now }
    ensures { IfOk result (λ row. row.items ≡ spec.client_row plan.now vector.now client.now) }
{
    let last = if client.repeat {
        most(plan, vector, &client.body)
    } else {
        0
    };
    weights(alloc, plan, vector, 0, &client.body, last)
}
