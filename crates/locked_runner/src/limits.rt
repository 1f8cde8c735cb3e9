//! The limits of a run.

ghost use Rattle.std.specs.Prelude.{◌≡◌, ◌-◌, ◌^◌, min};
ghost use Rattle.job_bodies.specs.WellFormed.{IsWellFormed};
ghost use Rattle.locked_runner.specs.Limits as spec;

use crate::carriers::carriers;
use job_bodies::{MAX_RUN_CARRIERS, MAX_RUN_CLIENTS, MAX_RUN_EVENTS, Plan};

/// A limit that a run can exceed.
#[derive(Clone, Copy)]
pub enum RunLimit {
    /// The plan must have no pool that may reject jobs. A run must perform every job of the plan,
    /// but a rejected job is not performed.
    Rejections,
    /// The number of clients of all kinds together, which must be at most 64.
    Clients,
    /// The number of threads that a run has for all pools together, which must be at most 64.
    Threads,
    /// The upper bound of the number of events, which must be at most 1,000,000.
    Events,
}

/// Returns the first limit that a run of the plan exceeds, in the order of the variants of
/// [`RunLimit`]. The number of events is not compared with its limit: if the run exceeds none of
/// the first three limits, the result is [`RunLimit::Events`]. So the result is meaningful only if
/// the run exceeds a limit.
pub fn limit_of(plan: &Plan) -> RunLimit
    ensures { result ≡ spec.limit_of plan.now }
{
    if may_reject(plan) {
        RunLimit::Rejections
    } else if clients_of(plan) > MAX_RUN_CLIENTS {
        RunLimit::Clients
    } else if workers_of(plan) > MAX_RUN_CARRIERS {
        RunLimit::Threads
    } else {
        RunLimit::Events
    }
}

/// Returns `true` if a run of the plan exceeds a limit. `events` is an upper bound of the number of
/// events of the run.
pub(crate) fn exceeds_limits(plan: &Plan, events: u64) -> bool
    ensures value { result ≡ spec.exceeds_limits plan.now events }
    ensures well_formed { IsWellFormed plan.now }
{
    may_reject(plan)
        || clients_of(plan) > MAX_RUN_CLIENTS
        || workers_of(plan) > MAX_RUN_CARRIERS
        || events > MAX_RUN_EVENTS
}

/// Returns `true` if at least one pool may reject jobs.
pub fn may_reject(plan: &Plan) -> bool
    ensures value { result ≡ spec.may_reject plan.now }
    ensures well_formed { IsWellFormed plan.now }
{
    plan.pools().iter().any(|pool| pool.may_reject)
}

/// Returns the number of clients of all kinds together, or `u64::MAX` if the number is larger.
fn clients_of(plan: &Plan) -> u64
    ensures value { result ≡ min (spec.clients plan.now) (2 ^ 64 - 1) }
    ensures well_formed { IsWellFormed plan.now }
{
    let mut total = 0u64;
    for client in plan.clients() {
        total = total.saturating_add(client.count);
    }
    total
}

/// Returns the number of threads that a run has for all pools together, or `u64::MAX` if the number
/// is larger.
fn workers_of(plan: &Plan) -> u64
    ensures { result ≡ min (spec.workers plan.now) (2 ^ 64 - 1) }
{
    let mut total = 0u64;
    for pool in plan.pools() {
        total = total.saturating_add(carriers(pool));
    }
    total
}
