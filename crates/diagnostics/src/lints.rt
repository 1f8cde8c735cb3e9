//! The lints of a plan, in order. These parameters have the same meaning in all functions:
//!
//! - `needed` has, for each pool, a bound on the number of jobs in its queue at once, or `None` if
//!   no bound is known.
//! - `marks` has, for each class, whether clients submit it, directly or through other jobs.
//! - `number` is the number of a pool, class or client kind. In functions for a body, `part` says
//!   whether the body belongs to a class or to a client kind.

ghost use Rattle.std.specs.Prelude.{◌≡◌, ◌++◌, IfOk, OnOk};
ghost use Rattle.diagnostics.specs.Lints as spec;

use crate::growing_queues::push_growing;
use crate::lint::Lint;
use crate::lint_conditions::{
    are_a_crowd, gets_a_job, has_useless_max, is_any_submitted, is_far_above, is_submitted,
    leaves_a_future, looks_like_a_size, may_run_in_caller, most_at, never_rejects,
};
use job_bodies::{Action, Class, Client, Part, Plan, Pool};
use size_search::{Cause, cause_of, submitted_by_clients, submitted_repeatedly};
use std::alloc::{AllocError, Global};

/// Returns the lints of the plan: the parts of the plan that are probably mistakes.
/// `is_safe_at_core` says whether a certificate accepts the plan that [`at_core`](crate::at_core)
/// returns, which has lowered maximums.
pub(crate) fn lints_of(
    alloc: Global,
    plan: &Plan,
    needed: &[Option<u64>],
    is_safe_at_core: bool,
) -> Result<Vec<Lint>, AllocError>
    ensures { IfOk result
        (λ found. spec.AreLints plan.now needed.now is_safe_at_core found.items) }
{
    let cause = cause_of(alloc, plan)?;
    let marks = submitted_by_clients(alloc, plan)?;
    let repeated = submitted_repeatedly(alloc, plan)?;
    lints_with(
        alloc,
        plan,
        needed,
        is_safe_at_core,
        cause,
        &marks,
        &repeated,
    )
}

/// Returns the lints of the plan. `needed` and `is_safe_at_core` are as in [`lints_of`].
///
/// - `cause` is a reason why no certificate accepts the plan, whatever sizes the plan has. `cause`
///   is `None` if there is no such reason.
/// - `repeated` has, for each class, whether repeating clients submit it, directly or through other
///   jobs.
fn lints_with(
    alloc: Global,
    plan: &Plan,
    needed: &[Option<u64>],
    is_safe_at_core: bool,
    cause: Option<Cause>,
    marks: &[bool],
    repeated: &[bool],
) -> Result<Vec<Lint>, AllocError>
    ensures { IfOk result (λ found. found.items
        ≡ spec.all_lints plan.now needed.now is_safe_at_core cause marks.now repeated.now) }
{
    let mut found = Vec::new(alloc);
    push_all(
        &mut found,
        plan,
        needed,
        is_safe_at_core,
        cause,
        marks,
        repeated,
    )?;
    Ok(found)
}

fn push_all(
    found: &mut Vec<Lint>,
    plan: &Plan,
    needed: &[Option<u64>],
    is_safe_at_core: bool,
    cause: Option<Cause>,
    marks: &[bool],
    repeated: &[bool],
) -> Result<(), AllocError>
    ensures { OnOk result (found.new.items ≡ found.old.items
        ++ spec.all_lints plan.now needed.now is_safe_at_core cause marks.now repeated.now) }
{
    push_if(found, is_safe_at_core, Lint::SafeAtCore)?;
    push_cause(found, cause)?;
    push_growing(found, plan, repeated)?;
    push_plan(found, plan, needed, marks)
}

/// Appends the lint for `cause`, or nothing if `cause` is `None`. `cause` is a reason why no
/// certificate accepts the plan, whatever sizes the plan has.
fn push_cause(found: &mut Vec<Lint>, cause: Option<Cause>) -> Result<(), AllocError>
    ensures { OnOk result (found.new.items ≡ found.old.items ++ spec.lints_of_cause cause) }
{
    match cause {
        None => Ok(()),
        Some(cause) => push_if(found, true, lint_of_cause(cause)),
    }
}

fn lint_of_cause(cause: Cause) -> Lint
    ensures { result ≡ spec.lint_of_cause cause }
{
    match cause {
        Cause::Circle(class) => Lint::SubmitsItself(class),
        Cause::ClientNeverGets(client, action) => Lint::NeverGot(Part::Client, client, action),
        Cause::ClassNeverGets(class, action) => Lint::NeverGot(Part::Class, class, action),
        Cause::PoolWaitsForItself(pool) => Lint::PoolWaitsForItself(pool),
    }
}

/// Appends the lints of the pools, classes and client kinds. If the plan has no clients, or if its
/// clients submit nothing, appends only the lint that reports this.
fn push_plan(
    found: &mut Vec<Lint>,
    plan: &Plan,
    needed: &[Option<u64>],
    marks: &[bool],
) -> Result<(), AllocError>
    ensures { OnOk result
        (found.new.items ≡ found.old.items ++ spec.lints plan.now needed.now marks.now) }
{
    if plan.clients().is_empty() {
        push_if(found, true, without_clients(plan))
    } else if is_any_submitted(marks) {
        push_parts(found, plan, needed, marks)
    } else {
        push_if(found, true, Lint::NothingSubmitted)
    }
}

/// Returns the lint of a plan without clients: [`Lint::NothingToAsk`] if the plan also has no
/// pools, and otherwise [`Lint::NoClients`].
fn without_clients(plan: &Plan) -> Lint
    ensures { result ≡ spec.without_clients plan.now }
{
    if plan.pools().is_empty() {
        Lint::NothingToAsk
    } else {
        Lint::NoClients
    }
}

/// Appends the lints of the pools, then of the classes, and then of the client kinds.
fn push_parts(
    found: &mut Vec<Lint>,
    plan: &Plan,
    needed: &[Option<u64>],
    marks: &[bool],
) -> Result<(), AllocError>
    ensures { OnOk result
        (found.new.items
        ≡ found.old.items ++ spec.lints_of_parts plan.now needed.now marks.now) }
{
    push_pools(found, plan, needed, marks)?;
    push_classes(found, plan, needed, marks)?;
    push_clients(found, plan, needed)
}

fn push_pools(
    found: &mut Vec<Lint>,
    plan: &Plan,
    needed: &[Option<u64>],
    marks: &[bool],
) -> Result<(), AllocError>
    ensures { OnOk result
        (found.new.items
        ≡ found.old.items ++ spec.lints_of_pools plan.now needed.now marks.now) }
{
    for (number, pool) in plan.pools().iter().enumerate() {
        push_pool(found, plan, needed, marks, number, pool)?;
    }
    Ok(())
}

/// Appends a lint if no job is ever submitted to the pool. Otherwise appends the lints of the
/// pool's sizes and of its key `may_reject`.
fn push_pool(
    found: &mut Vec<Lint>,
    plan: &Plan,
    needed: &[Option<u64>],
    marks: &[bool],
    number: usize,
    pool: &Pool,
) -> Result<(), AllocError>
    ensures { OnOk result
        (found.new.items
        ≡ found.old.items ++ spec.lints_of_pool plan.now needed.now marks.now number pool.now) }
{
    if gets_a_job(plan, marks, number) {
        push_sizes(found, number, pool, most_at(needed, number))
    } else {
        push_if(found, true, Lint::PoolWithoutJobs(number))
    }
}

/// Appends the lints of the pool's sizes and of its key `may_reject`. If the queue of the pool is
/// unbounded, the only possible lint is that `may_reject` has no effect. `most` is a bound on the
/// number of jobs in the queue at once, or `None` if no bound is known.
fn push_sizes(
    found: &mut Vec<Lint>,
    number: usize,
    pool: &Pool,
    most: Option<u64>,
) -> Result<(), AllocError>
    ensures { OnOk result
        (found.new.items ≡ found.old.items ++ spec.lints_of_sizes number pool.now most) }
{
    if pool.unbounded {
        push_if(found, pool.may_reject, Lint::NeverRejects(number))
    } else {
        push_bounded(found, number, pool, most)
    }
}

/// Appends the lints of a pool with a bounded queue, if `most` is known. `most` is a bound on the
/// number of jobs in the queue at once. The lints are
///
/// - that the pool's maximum has no effect,
/// - that the pool's key `may_reject` has no effect, and
/// - that the capacity of the queue is far above `most`.
fn push_bounded(
    found: &mut Vec<Lint>,
    number: usize,
    pool: &Pool,
    most: Option<u64>,
) -> Result<(), AllocError>
    ensures { OnOk result
        (found.new.items ≡ found.old.items ++ spec.lints_of_bounded number pool.now most) }
{
    match most {
        None => Ok(()),
        Some(most) => push_known_sizes(found, number, pool, most),
    }
}

fn push_known_sizes(
    found: &mut Vec<Lint>,
    number: usize,
    pool: &Pool,
    most: u64,
) -> Result<(), AllocError>
    ensures { OnOk result
        (found.new.items ≡ found.old.items ++ spec.lints_of_known_sizes number pool.now most) }
{
    push_if(found, has_useless_max(pool, most), Lint::UselessMax(number))?;
    push_if(
        found,
        never_rejects(pool, most),
        Lint::UselessMayReject(number, most),
    )?;
    push_if(
        found,
        is_far_above(pool, most),
        Lint::QueueFarAbove(number, most),
    )
}

fn push_classes(
    found: &mut Vec<Lint>,
    plan: &Plan,
    needed: &[Option<u64>],
    marks: &[bool],
) -> Result<(), AllocError>
    ensures { OnOk result
        (found.new.items
        ≡ found.old.items ++ spec.lints_of_classes plan.now needed.now marks.now) }
{
    for (number, class) in plan.classes().iter().enumerate() {
        push_class(found, plan, needed, marks, number, class)?;
    }
    Ok(())
}

fn push_class(
    found: &mut Vec<Lint>,
    plan: &Plan,
    needed: &[Option<u64>],
    marks: &[bool],
    number: usize,
    class: &Class,
) -> Result<(), AllocError>
    ensures { OnOk result
        (found.new.items
        ≡ found.old.items ++ spec.lints_of_class plan.now needed.now marks.now number class.now) }
{
    push_if(
        found,
        !is_submitted(marks, number),
        Lint::ClassWithoutJobs(number),
    )?;
    push_if(
        found,
        may_run_in_caller(plan, needed, class),
        Lint::RunInCaller(number),
    )?;
    push_body(found, plan, needed, Part::Class, number, &class.body)
}

fn push_clients(
    found: &mut Vec<Lint>,
    plan: &Plan,
    needed: &[Option<u64>],
) -> Result<(), AllocError>
    ensures { OnOk result
        (found.new.items ≡ found.old.items ++ spec.lints_of_clients plan.now needed.now) }
{
    for (number, client) in plan.clients().iter().enumerate() {
        push_client(found, plan, needed, number, client)?;
    }
    Ok(())
}

fn push_client(
    found: &mut Vec<Lint>,
    plan: &Plan,
    needed: &[Option<u64>],
    number: usize,
    client: &Client,
) -> Result<(), AllocError>
    ensures { OnOk result
        (found.new.items
        ≡ found.old.items ++ spec.lints_of_client plan.now needed.now number client.now) }
{
    push_if(found, !client.repeat, Lint::GoesOnce(number))?;
    push_if(found, are_a_crowd(plan, client), Lint::Crowd(number))?;
    push_body(found, plan, needed, Part::Client, number, &client.body)
}

/// Appends the lints of the actions of the body, in order:
///
/// - one for each `work` with a length that looks like a size (see [`looks_like_a_size`]), and
/// - one for each submit whose job may be rejected while a future is open (see
///   [`leaves_a_future`]).
///
/// `part` and `number` are the kind and the number of the entry with this body.
fn push_body(
    found: &mut Vec<Lint>,
    plan: &Plan,
    needed: &[Option<u64>],
    part: Part,
    number: usize,
    body: &[Action],
) -> Result<(), AllocError>
    ensures { OnOk result
        (found.new.items
        ≡ found.old.items ++ spec.lints_of_body plan.now needed.now part number body.now) }
{
    for (place, action) in body.iter().enumerate() {
        push_action(found, plan, needed, part, number, body, place, *action)?;
    }
    Ok(())
}

fn push_action(
    found: &mut Vec<Lint>,
    plan: &Plan,
    needed: &[Option<u64>],
    part: Part,
    number: usize,
    body: &[Action],
    place: usize,
    action: Action,
) -> Result<(), AllocError>
    ensures { OnOk result
        (found.new.items
        ≡ found.old.items
        ++ spec.lints_of_action plan.now needed.now part number body.now place action) }
{
    match action {
        Action::Work(units) => push_if(
            found,
            looks_like_a_size(plan, units),
            Lint::WorkLikeASize(part, number, place, units),
        ),
        Action::Submit(class) => push_if(
            found,
            leaves_a_future(plan, needed, body, place, class),
            Lint::OpenFuture(part, number, place),
        ),
        Action::Get(_) => Ok(()),
    }
}

pub(crate) fn push_if(found: &mut Vec<Lint>, is_there: bool, lint: Lint) -> Result<(), AllocError>
    ensures { OnOk result (found.new.items ≡ found.old.items ++ spec.only_if is_there lint) }
{
    if is_there {
        found.push(lint)?;
    }
    Ok(())
}
