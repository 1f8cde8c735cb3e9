//! The joint walks over a body and a path. A job of the path may belong to several classes, and
//! each walk chooses one of them. Walks share a [`WalkState`] if they have the same open jobs with
//! the same classes.

ghost use Rattle.std.specs.Prelude.{◌≡◌, ◌≤◌, ℕ, ◌+◌, ◌++◌, ◌∷◌, [], false, List, Some, IfOk, OnOk, IsTrue, length, map, slice_get};
ghost use Rattle.std.specs.List.{list_any};
ghost use Rattle.support.specs.In.{In};
ghost use Rattle.conformance.specs.declared.step.ActorKind.{ActorKind};
ghost use Rattle.conformance.specs.declared.step.PathStep.{PathStep};
ghost use Rattle.conformance.specs.declared.walk_state.WalkState.{WalkState};
ghost use Rattle.conformance.specs.BodyGets.{AreGets};
ghost use Rattle.conformance.specs.WalkState.{is_at, HasTables};
ghost use Rattle.conformance.specs.WalkStates as spec;

use crate::body_gets::BodyGet;
use crate::open_job::{OpenJob, are_same};
use crate::step::{ActorKind, PathStep};
use crate::walk_state::WalkState;
use job_bodies::Action;
use std::alloc::{AllocError, Global};

/// Returns the state before the first step of a path, as a list.
///
/// # Errors
///
/// Returns [`AllocError`] if memory runs out.
pub(crate) fn start_states(alloc: Global, body: &[Action]) -> Result<Vec<WalkState>, AllocError>
    ensures states { (kind : ActorKind) (path : List PathStep)
        → IfOk result (λ states. spec.AreStatesAt kind body.now path 0 states.items) }
    ensures some { IfOk result (λ states. spec.HasState states.items) }
{
    let state = WalkState::new(alloc, body)?;
    let mut states = Vec::with_capacity(alloc, 1)?;
    states.push(state)?;
    Ok(states)
}

/// Returns the states before the step at index `place` of the path.
///
/// # Errors
///
/// Returns [`AllocError`] if memory runs out.
pub(crate) fn states_at(
    alloc: Global,
    kind: ActorKind,
    body: &[Action],
    gets: &[Option<BodyGet>],
    path: &[PathStep],
    place: usize,
) -> Result<Vec<WalkState>, AllocError>
    requires gets { AreGets body.now gets.now }
    requires within { place ≤ length path.now }
    ensures { IfOk result (λ states. spec.AreStatesAt kind body.now path.now place states.items) }
{
    let mut states = start_states(alloc, body)?;
    for index in 0..place {
        states = states_after(alloc, states, kind, body, gets, index, &path[index])?;
    }
    Ok(states)
}

/// Returns the states after `step`, which is at index `place` of the path. `states` has the states
/// before the step, and `gets` has the gets of the body. The result is empty if no joint walk makes
/// the step.
///
/// # Errors
///
/// Returns [`AllocError`] if memory runs out.
pub(crate) fn states_after(
    alloc: Global,
    states: Vec<WalkState>,
    kind: ActorKind,
    body: &[Action],
    gets: &[Option<BodyGet>],
    place: usize,
    step: &PathStep,
) -> Result<Vec<WalkState>, AllocError>
    requires gets { AreGets body.now gets.now }
    requires tables { spec.HaveTables body.now states.items }
    ensures states { (path : List PathStep)
        → slice_get path place ≡ Some step.now
        → spec.AreStatesAt kind body.now path place states.items
        → IfOk result (λ next. spec.AreStatesAt kind body.now path (place + 1) next.items) }
    ensures distinct { IfOk result (λ next. spec.AreDistinct next.items) }
{
    match step {
        PathStep::Submits(classes) => {
            let next = states_after_submit(alloc, states, body, gets, place, classes)?;
            merged(alloc, next)
        }
        PathStep::Gets(job) => {
            let next = states_after_get(alloc, states, kind, body, gets, *job)?;
            merged(alloc, next)
        }
    }
}

/// Returns the states after a submit of a job that may belong to any of these classes. `job` is the
/// index of the submit in the path.
fn states_after_submit(
    alloc: Global,
    states: Vec<WalkState>,
    body: &[Action],
    gets: &[Option<BodyGet>],
    job: usize,
    classes: &[usize],
) -> Result<Vec<WalkState>, AllocError>
    requires gets { AreGets body.now gets.now }
    requires tables { spec.HaveTables body.now states.items }
    ensures { IfOk result (λ next.
        spec.AreAfterSubmit body.now job (spec.choices states.items classes.now) next.items) }
{
    let mut next = Vec::new(alloc);
    for state in states {
        push_after_submit(alloc, &mut next, state, body, gets, job, classes)?;
    }
    Ok(next)
}

/// Appends the states that follow `state` after a submit of a job that may belong to any of these
/// classes: one for each of the classes that the body can submit. `job` is the index of the submit
/// in the path.
fn push_after_submit(
    alloc: Global,
    next: &mut Vec<WalkState>,
    state: WalkState,
    body: &[Action],
    gets: &[Option<BodyGet>],
    job: usize,
    classes: &[usize],
) -> Result<(), AllocError>
    requires gets { AreGets body.now gets.now }
    requires tables { HasTables body.now state }
    ensures { (choices : List (WalkState × ℕ))
        → spec.AreAfterSubmit body.now job choices next.old.items
        → OnOk result
        (spec.AreAfterSubmit body.now job (choices ++ map (λ class. (state, class)) classes.now) next.new.items) }
{
    if classes.is_empty() {
        return Ok(());
    }
    let last = classes.len() - 1;
    for index in 0..last {
        push_copy_after_submit(alloc, next, &state, body, gets, job, classes[index])?;
    }
    push_submitted(next, state, body, gets, job, classes[last])
}

/// Appends a copy of `state`, updated for a submit of a job of the class. Appends nothing if the
/// body cannot make the submit.
fn push_copy_after_submit(
    alloc: Global,
    next: &mut Vec<WalkState>,
    state: &WalkState,
    body: &[Action],
    gets: &[Option<BodyGet>],
    job: usize,
    class: usize,
) -> Result<(), AllocError>
    requires gets { AreGets body.now gets.now }
    requires tables { HasTables body.now state.now }
    ensures { (choices : List (WalkState × ℕ))
        → spec.AreAfterSubmit body.now job choices next.old.items
        → OnOk result
        (spec.AreAfterSubmit body.now job (choices ++ (state.now, class) ∷ []) next.new.items) }
{
    if state.can_submit(body, class) {
        let after = state.after_submit(alloc, body, gets, job, class)?;
        next.push(after)?;
    }
    Ok(())
}

/// Appends `state`, updated for a submit of a job of the class. Appends nothing if the body cannot
/// make the submit.
fn push_submitted(
    next: &mut Vec<WalkState>,
    mut state: WalkState,
    body: &[Action],
    gets: &[Option<BodyGet>],
    job: usize,
    class: usize,
) -> Result<(), AllocError>
    requires gets { AreGets body.now gets.now }
    requires tables { HasTables body.now state }
    ensures { (choices : List (WalkState × ℕ))
        → spec.AreAfterSubmit body.now job choices next.old.items
        → OnOk result
        (spec.AreAfterSubmit body.now job (choices ++ (state, class) ∷ []) next.new.items) }
{
    if state.can_submit(body, class) {
        state.submit(body, gets, job, class)?;
        next.push(state)?;
    }
    Ok(())
}

/// Returns the states after a get of the job that the path submits at index `job`. Drops the states
/// in which no walk is left.
fn states_after_get(
    alloc: Global,
    states: Vec<WalkState>,
    kind: ActorKind,
    body: &[Action],
    gets: &[Option<BodyGet>],
    job: usize,
) -> Result<Vec<WalkState>, AllocError>
    requires gets { AreGets body.now gets.now }
    requires tables { spec.HaveTables body.now states.items }
    ensures { IfOk result (λ next. spec.AreAfterGet kind body.now job states.items next.items) }
{
    let mut next = Vec::new(alloc);
    for state in states {
        push_after_get(&mut next, state, kind, body, gets, job)?;
    }
    Ok(next)
}

/// Appends `state`, updated for a get of the job, if a walk is left in it.
fn push_after_get(
    next: &mut Vec<WalkState>,
    mut state: WalkState,
    kind: ActorKind,
    body: &[Action],
    gets: &[Option<BodyGet>],
    job: usize,
) -> Result<(), AllocError>
    requires gets { AreGets body.now gets.now }
    requires tables { HasTables body.now state }
    ensures { (states : List WalkState)
        → spec.AreAfterGet kind body.now job states next.old.items
        → OnOk result (spec.AreAfterGet kind body.now job (states ++ state ∷ []) next.new.items) }
{
    state.get(kind, body, gets, job);
    if state.is_begun() {
        next.push(state)?;
    }
    Ok(())
}

/// Merges states with the same open jobs into one state, and returns the resulting list. States
/// that differ only in the class of a job have the same open jobs once the path has got this job.
fn merged(alloc: Global, states: Vec<WalkState>) -> Result<Vec<WalkState>, AllocError>
    ensures { IfOk result (λ merged. spec.AreMerged states.items merged.items) }
{
    if states.len() <= 1 {
        return Ok(states);
    }
    let mut merged = Vec::new(alloc);
    for state in &states {
        if !has_state_with(&merged, &state.jobs) {
            let joined = merged_state(alloc, &states, state)?;
            merged.push(joined)?;
        }
    }
    Ok(merged)
}

fn has_state_with(states: &[WalkState], jobs: &[OpenJob]) -> bool
    ensures some { IsTrue result → (state : WalkState) × In state states.now × (state.jobs.items ≡ jobs.now) }
    ensures none { result ≡ false → (state : WalkState) → In state states.now → ¬ (state.jobs.items ≡ jobs.now) }
{
    for state in states {
        if are_same(&state.jobs, jobs) {
            return true;
        }
    }
    false
}

/// Merges all states that have the same open jobs as `one`, and returns the resulting state. It has
/// these open jobs, and the walks of all these states.
fn merged_state(
    alloc: Global,
    states: &[WalkState],
    one: &WalkState,
) -> Result<WalkState, AllocError>
    requires { In one.now states.now }
    ensures { IfOk result (spec.IsMerged states.now one.now) }
{
    let mut merged = one.try_clone(alloc)?;
    for state in states {
        if are_same(&state.jobs, &one.jobs) {
            merged.add_row(state);
        }
    }
    Ok(merged)
}
