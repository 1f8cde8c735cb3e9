//! The search for a cause: a reason why no certificate accepts a plan, whatever its sizes.

ghost use Rattle.std.specs.Prelude.{◌≡◌, ◌<◌, ◌↔◌, ◌⊎◌, ℕ, false, true, IfOk, IfSome, IfNone, length, slice_index_or};
ghost use Rattle.job_bodies.specs.Plan.{class_at, needs_no_bound, pool_at};
ghost use Rattle.job_bodies.specs.WellFormed.{IsWellFormed};
ghost use Rattle.size_search.specs.Submitted.{IsNeverGot, NoCircle, LostByClients, LostByJobs, IsAllGot, LosesWithoutBound, goes_without_bound};
ghost use Rattle.size_search.specs.ByClients.{MarksRepeated, MarksSubmitted};
ghost use Rattle.size_search.specs.Waiting.{GetsClass, GetsAreUsed, HasUnusedGet, IsSteady, MayLoseThreads, NoneWaitsForItself};
ghost use Rattle.size_search.specs.Causes.{IsCause, IsWithoutCause};

use crate::cause::Cause;
use crate::job_graphs::{submit_graph, wait_graph};
use crate::submitted::{submitted_by_clients, submitted_repeatedly};
use job_bodies::{Action, Plan, has_get_of};
use std::alloc::{AllocError, Global};
use weights::submitted_class;

/// Returns a cause, which is a reason why no certificate accepts the plan with any sizes. Returns
/// `None` if the plan has no cause.
///
/// # Errors
///
/// Returns [`AllocError`] if memory runs out.
pub fn cause_of(alloc: Global, plan: &Plan) -> Result<Option<Cause>, AllocError>
    ensures cause { IfOk result (λ found. IfSome found (IsCause plan.now)) }
    ensures none { IfOk result (λ found. IfNone found (IsWithoutCause plan.now)) }
    ensures well_formed { IsWellFormed plan.now }
{
    if let Some(cause) = circle(alloc, plan)? {
        return Ok(Some(cause));
    }
    if let Some((client, action)) = lost_by_clients(plan, false) {
        return Ok(Some(Cause::ClientNeverGets(client, action)));
    }
    let repeated = submitted_repeatedly(alloc, plan)?;
    if let Some((class, action)) = lost_by_jobs(plan, &repeated, false) {
        return Ok(Some(Cause::ClassNeverGets(class, action)));
    }
    pool_circle(alloc, plan)
}

/// Returns whether there may be no sizes with which the plan's [steady certificate](crate::steady)
/// accepts the plan. The plan must have no cause (see [`cause_of`]). The result is `true` in two
/// cases:
///
/// - A repeating client submits a job, directly or through other jobs. The job is never got, and
///   its pool may reject jobs or has an unbounded queue.
/// - A class has a get, but no client submits this class, directly or through other jobs. The core
///   threads of the class's pool may time out.
pub(crate) fn is_unsteady(alloc: Global, plan: &Plan) -> Result<bool, AllocError>
    requires { IsWithoutCause plan.now }
    ensures unsteady { IfOk result
        (λ unsteady. unsteady ≡ true → LosesWithoutBound plan.now ⊎ HasUnusedGet plan.now) }
    ensures steady { IfOk result (λ unsteady. unsteady ≡ false → IsSteady plan.now) }
{
    if loses_without_bound(alloc, plan)? {
        return Ok(true);
    }
    let submitted = submitted_by_clients(alloc, plan)?;
    Ok(has_unused_get(plan, &submitted))
}

/// Returns whether some job satisfies these three conditions:
///
/// - A repeating client submits the job, directly or through other jobs.
/// - The job is never got.
/// - The pool of the job may reject jobs or has an unbounded queue.
///
/// The plan must have no cause (see [`cause_of`]).
fn loses_without_bound(alloc: Global, plan: &Plan) -> Result<bool, AllocError>
    requires { IsWithoutCause plan.now }
    ensures loses { IfOk result (λ loses. loses ≡ true → LosesWithoutBound plan.now) }
    ensures none { IfOk result (λ loses. loses ≡ false → IsAllGot plan.now) }
{
    if let Some(_lost) = lost_by_clients(plan, true) {
        return Ok(true);
    }
    let repeated = submitted_repeatedly(alloc, plan)?;
    match lost_by_jobs(plan, &repeated, true) {
        Some(_lost) => Ok(true),
        None => Ok(false),
    }
}

/// Returns, as a cause, the first class that submits itself, directly or through other classes.
/// Returns `None` if there is no such class.
fn circle(alloc: Global, plan: &Plan) -> Result<Option<Cause>, AllocError>
    ensures cause { IfOk result (λ found. IfSome found (IsCause plan.now)) }
    ensures none { IfOk result (λ found. IfNone found (NoCircle plan.now)) }
    ensures well_formed { IsWellFormed plan.now }
{
    let graph = submit_graph(alloc, plan)?;
    let found = graph.circle_from(alloc, 0)?;
    match found {
        Some(class) => Ok(Some(Cause::Circle(class))),
        None => Ok(None),
    }
}

/// Returns, as a cause, the first pool whose last thread can wait until a job of this pool ends
/// (see [`Cause::PoolWaitsForItself`]). Returns `None` if there is no such pool.
fn pool_circle(alloc: Global, plan: &Plan) -> Result<Option<Cause>, AllocError>
    ensures cause { IfOk result (λ found. IfSome found (IsCause plan.now)) }
    ensures none { IfOk result (λ found. IfNone found (NoneWaitsForItself plan.now)) }
{
    let submitted = submitted_by_clients(alloc, plan)?;
    let graph = wait_graph(alloc, plan, &submitted)?;
    let classes = plan.classes().len();
    let found = graph.circle_from(alloc, classes)?;
    match found {
        Some(node) => Ok(Some(Cause::PoolWaitsForItself(node - classes))),
        None => Ok(None),
    }
}

/// Returns whether some class satisfies these three conditions:
///
/// - The class has a get.
/// - No client submits the class, directly or through other jobs.
/// - The core threads of the class's pool may time out.
///
/// `submitted` must mark the classes that clients submit, directly or through other jobs.
fn has_unused_get(plan: &Plan, submitted: &[bool]) -> bool
    requires { MarksSubmitted plan.now submitted.now }
    ensures unused { result ≡ true → HasUnusedGet plan.now }
    ensures used { result ≡ false → GetsAreUsed plan.now }
{
    for number in 0..plan.classes().len() {
        if !submitted[number] && has_get_in_pool(plan, number) {
            return true;
        }
    }
    false
}

/// Returns true if the body of the class has a get and the core threads of the class's pool may
/// time out.
fn has_get_in_pool(plan: &Plan, number: usize) -> bool
    requires { number < length plan.now.classes }
    ensures has { result ≡ true
        → MayLoseThreads plan.now number × ((j : ℕ) × GetsClass (class_at plan.now number).body j) }
    ensures none { result ≡ false
        → MayLoseThreads plan.now number → (j : ℕ) → ¬ GetsClass (class_at plan.now number).body j }
{
    let class = &plan.classes()[number];
    may_lose_threads(plan, class.pool) && has_get(&class.body)
}

/// Returns whether the body has a get.
fn has_get(body: &[Action]) -> bool
    ensures has { result ≡ true → (j : ℕ) × GetsClass body.now j }
    ensures none { result ≡ false → (j : ℕ) → ¬ GetsClass body.now j }
{
    for action in body {
        if let Action::Get(_) = *action {
            return true;
        }
    }
    false
}

fn may_lose_threads(plan: &Plan, pool: usize) -> bool
    ensures { result ≡ (pool_at plan.now pool).core_timeout }
{
    match plan.pool_at(pool) {
        Some(pool) => pool.core_timeout,
        None => false,
    }
}

/// Searches the bodies of the repeating client kinds for the first submit of a job that the body
/// never gets. Returns the number of the client kind and the position of the submit, or `None` if
/// there is no such submit.
///
/// If `without_bound` is `true`, considers only submits to pools that may reject jobs or have an
/// unbounded queue. Otherwise considers only submits to the other pools.
fn lost_by_clients(plan: &Plan, without_bound: bool) -> Option<(usize, usize)>
    ensures lost { IfSome result (λ found. LostByClients plan.now without_bound found.0 found.1) }
    ensures none { IfNone result ((c i : ℕ) → ¬ LostByClients plan.now without_bound c i) }
{
    for number in 0..plan.clients().len() {
        let client = &plan.clients()[number];
        if client.repeat {
            if let Some(action) = submit_without_get(plan, &client.body, without_bound) {
                return Some((number, action));
            }
        }
    }
    None
}

/// Searches the bodies of the classes that are marked in `repeated` for the first submit of a job
/// that the body never gets. Returns the number of the class and the position of the submit, or
/// `None` if there is no such submit.
///
/// `repeated` must mark the classes that repeating clients submit, directly or through other jobs.
/// `without_bound` is as in [`lost_by_clients`].
fn lost_by_jobs(plan: &Plan, repeated: &[bool], without_bound: bool) -> Option<(usize, usize)>
    requires { MarksRepeated plan.now repeated.now }
    ensures lost { IfSome result (λ found. LostByJobs plan.now without_bound found.0 found.1) }
    ensures none { IfNone result ((k i : ℕ) → ¬ LostByJobs plan.now without_bound k i) }
{
    for number in 0..plan.classes().len() {
        let class = &plan.classes()[number];
        if repeated[number] {
            if let Some(action) = submit_without_get(plan, &class.body, without_bound) {
                return Some((number, action));
            }
        }
    }
    None
}

/// Returns the position of the first submit of a job that the body never gets, or `None` if there
/// is no such submit. `without_bound` is as in [`lost_by_clients`].
fn submit_without_get(plan: &Plan, body: &[Action], without_bound: bool) -> Option<usize>
    ensures found { IfSome result
        (λ i. IsNeverGot body.now i × (goes_without_bound plan.now body.now i ≡ without_bound)) }
    ensures none { IfNone result
        ((i : ℕ) → IsNeverGot body.now i → ¬ (goes_without_bound plan.now body.now i ≡ without_bound)) }
{
    for position in 0..body.len() {
        if is_without_get(body, position)
            && goes_without_bound(plan, body, position) == without_bound
        {
            return Some(position);
        }
    }
    None
}

/// Returns whether the action at this position is a submit whose job the body never gets.
fn is_without_get(body: &[Action], position: usize) -> bool
    requires { position < length body.now }
    ensures { (result ≡ true) ↔ IsNeverGot body.now position }
{
    matches!(body[position], Action::Submit(_)) && !has_get_of(body, position)
}

/// Returns whether the submit at this position goes to a pool that needs no bound. A pool needs no
/// bound if it may reject jobs or its queue is unbounded.
fn goes_without_bound(plan: &Plan, body: &[Action], position: usize) -> bool
    ensures { result ≡ goes_without_bound plan.now body.now position }
{
    needs_no_bound(plan, pool_of(plan, submitted_class(body, position)))
}

/// Returns the index of the class's pool, or 0 if there is no such class.
fn pool_of(plan: &Plan, class: usize) -> usize
    ensures { result ≡ (class_at plan.now class).pool }
{
    match plan.class_at(class) {
        Some(class) => class.pool,
        None => 0,
    }
}

fn needs_no_bound(plan: &Plan, pool: usize) -> bool
    ensures { result ≡ needs_no_bound (pool_at plan.now pool) }
{
    match plan.pool_at(pool) {
        Some(pool) => pool.needs_no_bound(),
        None => false,
    }
}
