//! The gets of a body, with the condition under which the body may pass each of them. When a path
//! is matched against a body, the body passes an action if it goes to the next action while the
//! path makes no step.

ghost use Rattle.std.specs.Prelude.{◌≡◌, ◌≤◌, ◌<◌, ◌↔◌, ℕ, ◌-◌, true, false, ◌==◌, not, None, List, IfOk, OnOk, nat_lt, length, filter, count_by, slice_get, slice_index_or};
ghost use Rattle.job_bodies.specs.declared.action.Action.{Action};
ghost use Rattle.job_bodies.specs.Plan.{submitted_class};
ghost use Rattle.conformance.specs.Path.{MayGet, open_after_action};
ghost use Rattle.conformance.specs.BodyGets as spec;

use crate::step::ActorKind;
use job_bodies::Action;
use std::alloc::{AllocError, Global};

/// A get of a body.
#[derive(Clone, Copy)]
pub(crate) struct BodyGet {
    /// The class of the job that the body gets.
    pub(crate) class: usize,
    /// The number of jobs of the class that are open in the body after the get. When a path is
    /// matched against the body, the body may pass the get only while at most this number of jobs
    /// of the class are open in the path.
    pub(crate) limit: usize,
}

/// Returns a list with an entry for each action of the body: the get, or `None` if the action is no
/// get.
///
/// # Errors
///
/// Returns [`AllocError`] if memory runs out.
pub(crate) fn body_gets(alloc: Global, body: &[Action]) -> Result<Vec<Option<BodyGet>>, AllocError>
    ensures { IfOk result (λ gets. spec.AreGets body.now gets.items) }
{
    let mut jobs = Vec::new(alloc);
    let mut gets = Vec::with_capacity(alloc, body.len())?;
    for index in 0..body.len() {
        let get = pass_action(body, index, &mut jobs)?;
        gets.push(get)?;
    }
    Ok(gets)
}

/// Updates `jobs` for the action at this index of the body. Returns the get if the action is a get,
/// and `None` otherwise. `jobs` has each open job of the body, as the index of the job's submit. A
/// submit adds its own index. A get removes the index of its job's submit.
fn pass_action(
    body: &[Action],
    index: usize,
    jobs: &mut Vec<usize>,
) -> Result<Option<BodyGet>, AllocError>
    ensures jobs { OnOk result
        (jobs.new.items ≡ open_after_action (slice_get body.now index) index jobs.old.items) }
    ensures get { IfOk result
        (λ get. get ≡ spec.get_with (slice_get body.now index) body.now jobs.new.items) }
{
    match body.get(index) {
        Some(Action::Submit(_)) => {
            jobs.push(index)?;
            Ok(None)
        }
        Some(Action::Get(submit)) => {
            let get = pass_get(body, *submit, jobs);
            Ok(Some(get))
        }
        Some(Action::Work(_)) | None => Ok(None),
    }
}

/// Removes from `jobs` the job that the body submits at the index `submit`, and returns the get of
/// this job. `jobs` has each open job of the body, as the index of the job's submit.
fn pass_get(body: &[Action], submit: usize, jobs: &mut Vec<usize>) -> BodyGet
    ensures jobs { jobs.new.items ≡ filter (λ other. not (other == submit)) jobs.old.items }
    ensures class { result.class ≡ submitted_class body.now submit }
    ensures limit { result.limit
        ≡ count_by (λ other. submitted_class body.now other == submitted_class body.now submit) jobs.new.items }
{
    jobs.retain(|other| *other != submit);
    let class = submitted_class(body, submit);
    let limit = jobs
        .iter()
        .filter(|other| submitted_class(body, **other) == class)
        .count();
    BodyGet { class, limit }
}

/// Returns the class of the submit at this index of the body, or 0 if there is no submit.
fn submitted_class(body: &[Action], submit: usize) -> usize
    ensures { result ≡ submitted_class body.now submit }
{
    match body.get(submit) {
        Some(Action::Submit(class)) => *class,
        _ => 0,
    }
}

/// Returns the first index of the body at which an actor of this kind may no longer get a job of
/// the class. At each smaller index, the actor may get one.
///
/// - For [`ActorKind::Job`], this is the index after the body's last get of the class, or 0 if
///   there is no such get.
/// - For [`ActorKind::Round`], this is greater than every index of the body, because a round may
///   get any of its jobs.
pub(crate) fn end_of_gets(kind: ActorKind, gets: &[Option<BodyGet>], class: usize) -> usize
    ensures { (body : List Action)
        → spec.AreGets body gets.now
        → (index : ℕ)
        → index ≤ length body
        → (nat_lt index result ≡ true) ↔ MayGet kind body index class }
{
    match kind {
        ActorKind::Job => end_of_gets_of(gets, class),
        ActorKind::Round => gets.len() + 1,
    }
}

/// Returns the index after the last get of the class, or 0 if there is no get of the class.
fn end_of_gets_of(gets: &[Option<BodyGet>], class: usize) -> usize
    ensures bound { result ≤ length gets.now }
    ensures last { 0 < result
        → spec.is_get_of class (slice_index_or gets.now (result - 1) None) ≡ true }
    ensures none_later { (index : ℕ)
        → result ≤ index
        → index < length gets.now
        → spec.is_get_of class (slice_index_or gets.now index None) ≡ false }
{
    let mut end = 0;
    for index in 0..gets.len() {
        if is_get_of(class, gets[index]) {
            end = index + 1;
        }
    }
    end
}

fn is_get_of(class: usize, get: Option<BodyGet>) -> bool
    ensures { result ≡ spec.is_get_of class get }
{
    match get {
        Some(get) => get.class == class,
        None => false,
    }
}
