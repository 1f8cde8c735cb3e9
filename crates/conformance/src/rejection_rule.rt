//! Rules that say which refusals are allowed. An allowed refusal does not invalidate a SAFE answer.

ghost use Rattle.std.specs.Prelude.{◌≡◌};
ghost use Rattle.std.specs.List.{list_any};
ghost use Rattle.job_bodies.specs.Plan.{submitted_class};
ghost use Rattle.conformance.specs.RejectionRule as spec;

use job_bodies::{Action, Plan};
use recordings::HandlerKind;

/// The rule for the refusals by one pool. A refusal that the rule allows does not invalidate a SAFE
/// answer.
#[derive(Clone, Copy)]
pub(crate) enum RejectionRule {
    /// No refusal is allowed: each invalidates a SAFE answer.
    Never,
    /// Every refusal is allowed.
    Always,
    /// The refusal of a job is allowed if the job does not submit, get or cancel a job, and does
    /// not call `invokeAny`. If `closes` is true, the job must also have a `start` line, and no
    /// `shutdown` of the pool may precede the refusal.
    IfCallerRuns {
        /// Whether the recording has a `shutdown` of the pool. After a shutdown, the handler may
        /// have dropped a job instead of running it.
        closes: bool,
    },
}

impl RejectionRule {
    /// Returns true if the rule allows the refusal of a job.
    ///
    /// - `acted` says whether the job submits, gets or cancels a job or calls `invokeAny`.
    /// - `started` says whether the job has a `start` line.
    /// - `closed` says whether a `shutdown` of the pool precedes the refusal.
    pub(crate) fn allows(self, acted: bool, started: bool, closed: bool) -> bool
        ensures { result ≡ spec.is_allowed_by self acted started closed }
    {
        match self {
            RejectionRule::Never => false,
            RejectionRule::Always => true,
            RejectionRule::IfCallerRuns { closes } => !acted && (!closes || (started && !closed)),
        }
    }
}

/// Returns true if at least one pool of the plan may reject jobs.
#[tactic(auto, unfolding(crate::specs::RejectionRule::has_rejecting_pool))]
pub(crate) fn has_rejecting_pool(plan: &Plan) -> bool
    ensures { result ≡ spec.has_rejecting_pool plan.now }
{
    plan.pools().iter().any(|pool| pool.may_reject)
}

/// Returns true if at least one body of the plan gets a job of the pool.
#[tactic(auto, unfolding(crate::specs::RejectionRule::is_got))]
pub(crate) fn is_got(plan: &Plan, pool: usize) -> bool
    ensures { result ≡ spec.is_got plan.now pool }
{
    has_class_with_get_from(plan, pool) || has_client_with_get_from(plan, pool)
}

fn has_class_with_get_from(plan: &Plan, pool: usize) -> bool
    ensures { result ≡ list_any (λ class. spec.has_get_from plan.now pool class.body) plan.now.classes }
{
    plan.classes()
        .iter()
        .any(|class| has_get_from(plan, pool, &class.body))
}

fn has_client_with_get_from(plan: &Plan, pool: usize) -> bool
    ensures { result ≡ list_any (λ client. spec.has_get_from plan.now pool client.body) plan.now.clients }
{
    plan.clients()
        .iter()
        .any(|client| has_get_from(plan, pool, &client.body))
}

fn has_get_from(plan: &Plan, pool: usize, body: &[Action]) -> bool
    ensures { result ≡ spec.has_get_from plan.now pool body.now }
{
    body.iter()
        .any(|action| is_get_from(plan, pool, body, action))
}

fn is_get_from(plan: &Plan, pool: usize, body: &[Action], action: &Action) -> bool
    ensures { result ≡ spec.is_get_from plan.now pool body.now action.now }
{
    match action {
        Action::Get(submit) => pool_of_submit(plan, body, *submit) == pool,
        _ => false,
    }
}

// Returns the pool of the class that the submit at this index submits, or 0 if there is no such
// class.
fn pool_of_submit(plan: &Plan, body: &[Action], submit: usize) -> usize
    ensures { result ≡ spec.pool_of_submit plan.now body.now submit }
{
    match plan.class_at(class_of_submit(body, submit)) {
        Some(class) => class.pool,
        None => 0,
    }
}

// Returns the class that the action at this index submits, or 0 if it is no submit.
fn class_of_submit(body: &[Action], submit: usize) -> usize
    ensures { result ≡ submitted_class body.now submit }
{
    match body.get(submit) {
        Some(Action::Submit(class)) => *class,
        _ => 0,
    }
}

/// Returns true if the handler throws an exception.
pub(crate) fn is_abort(handler: HandlerKind) -> bool
    ensures { result ≡ spec.is_abort handler }
{
    matches!(handler, HandlerKind::Abort)
}

/// Returns true if the handler runs the job in the thread of its submitter.
pub(crate) fn is_caller_runs(handler: HandlerKind) -> bool
    ensures { result ≡ spec.is_caller_runs handler }
{
    matches!(handler, HandlerKind::CallerRuns)
}

/// Returns true if the handler drops the new job without an exception. Returns false for a handler
/// that accepts the new job and drops the oldest job of the queue instead.
pub(crate) fn is_discard(handler: HandlerKind) -> bool
    ensures { result ≡ spec.is_discard handler }
{
    matches!(handler, HandlerKind::Discard)
}
