//! The text for a plan that a certificate accepts. For each pool, the text lists
//!
//! - the bound of the pool's queue,
//! - the pools for which its jobs wait,
//! - the maximum number of its core threads that wait at counted gets at once, and
//! - the submits to the pool, if its queue has a limited capacity and no bound in the certificate.
//!
//! A counted get can block a thread that other jobs need.

ghost use Rattle.std.specs.Prelude.{◌≡◌, ◌++◌};
ghost use Rattle.std.specs.List.{list_any, enumerate_from};
ghost use Rattle.support.specs.Pushed.{Pushes};
ghost use Rattle.report.specs.SafeText as spec;

use crate::places::is_unbounded;
use crate::safe_bound::push_bound;
use crate::safe_waits::push_waits;
use crate::submits_to::push_submits;
use cert_text::{Cert, PoolCert};
use job_bodies::{Plan, Pool};
use std::alloc::{AllocError, Global};
use weights::{Bound, Vector};

/// Appends the lines of each pool that is in the certificate. Then appends a last line with what
/// the certificate guarantees. For each pool, `rejections` has the number of events after which
/// this pool rejects a job, or `None` if the number is not known.
pub(crate) fn push_safe(
    alloc: Global,
    text: &mut String,
    plan: &Plan,
    cert: &Cert,
    rejections: &[Option<u64>],
) -> Result<(), AllocError>
    ensures { Pushes result text.old text.new
        (spec.safe_text plan.now cert.now rejections.now) }
{
    push_pools(alloc, text, plan, cert, rejections)?;
    text.push_str(safe_words(plan, cert))?;
    text.push('\n')
}

/// Returns the words for what the certificate guarantees: no submit is refused, and no jobs wait
/// for each other forever. If some pool may reject jobs (see [`may_reject_jobs`]), the first part
/// says only that no submit to another pool is refused.
pub(crate) fn safe_words(plan: &Plan, cert: &Cert) -> &'static str
    ensures { result.now ≡ spec.safe_words plan.now cert.now }
{
    if any_may_reject(plan, &cert.pools) {
        "no submit to another pool is ever refused, and no jobs wait for each other forever"
    } else {
        "no submit is ever refused, and no jobs wait for each other forever"
    }
}

fn any_may_reject(plan: &Plan, parts: &[PoolCert]) -> bool
    ensures { result
        ≡ list_any (spec.may_reject_jobs plan.now) (enumerate_from 0 parts.now) }
{
    parts
        .iter()
        .enumerate()
        .any(|(number, part)| may_reject_jobs(plan, number, part))
}

/// Returns whether the pool with this number has a queue of limited capacity but no bound in the
/// certificate. If a certificate accepts the plan, such a pool may reject jobs.
fn may_reject_jobs(plan: &Plan, number: usize, part: &PoolCert) -> bool
    ensures { result ≡ spec.may_reject_jobs plan.now (number, part.now) }
{
    part.bound.is_none() && !is_unbounded(plan, number)
}

fn push_pools(
    alloc: Global,
    text: &mut String,
    plan: &Plan,
    cert: &Cert,
    rejections: &[Option<u64>],
) -> Result<(), AllocError>
    ensures { Pushes result text.old text.new
        (spec.pools_text plan.now cert.now rejections.now) }
{
    for (number, pool) in plan.pools().iter().enumerate() {
        push_pool(alloc, text, plan, cert, rejections, number, pool)?;
    }
    Ok(())
}

/// Appends the lines of a pool. Appends nothing if the pool is not in the certificate. `rejections`
/// is as in [`push_safe`].
fn push_pool(
    alloc: Global,
    text: &mut String,
    plan: &Plan,
    cert: &Cert,
    rejections: &[Option<u64>],
    number: usize,
    pool: &Pool,
) -> Result<(), AllocError>
    ensures { Pushes result text.old text.new
        (spec.pool_lines plan.now cert.now rejections.now (number, pool.now)) }
{
    let rejection = rejection_at(rejections, number);
    match cert.pools.get(number) {
        Some(part) => push_lines(alloc, text, plan, number, pool, rejection, part),
        None => Ok(()),
    }
}

/// Returns the number of events after which the pool with this index rejects a job. Returns `None`
/// if this number is not known.
pub(crate) fn rejection_at(rejections: &[Option<u64>], pool: usize) -> Option<u64>
    ensures { result ≡ spec.rejection_at rejections.now pool }
{
    if pool < rejections.len() {
        rejections[pool]
    } else {
        None
    }
}

fn push_lines(
    alloc: Global,
    text: &mut String,
    plan: &Plan,
    number: usize,
    pool: &Pool,
    rejection: Option<u64>,
    part: &PoolCert,
) -> Result<(), AllocError>
    ensures { Pushes result text.old text.new
        (spec.bound_line plan.now number pool.now rejection part.now.bound
        ++ (spec.waits_line plan.now number pool.now part.now.blocked
        ++ spec.pool_submits plan.now number pool.now part.now.bound)) }
{
    push_bound(alloc, text, plan, number, pool, rejection, &part.bound)?;
    push_rest(alloc, text, plan, number, pool, &part.bound, &part.blocked)
}

/// Appends the lines that follow the line with the pool's bound: the line of [`push_waits`], and
/// those of [`push_pool_submits`].
fn push_rest(
    alloc: Global,
    text: &mut String,
    plan: &Plan,
    number: usize,
    pool: &Pool,
    bound: &Option<Bound>,
    blocked: &Vector,
) -> Result<(), AllocError>
    ensures { Pushes result text.old text.new
        (spec.waits_line plan.now number pool.now blocked.now
        ++ spec.pool_submits plan.now number pool.now bound.now) }
{
    push_waits(alloc, text, plan, number, pool, blocked)?;
    push_pool_submits(text, plan, number, pool, bound)
}

/// Appends a line for each submit to the pool. Appends nothing if the certificate has a bound for
/// the pool, or if the capacity of the pool's queue is unlimited.
fn push_pool_submits(
    text: &mut String,
    plan: &Plan,
    number: usize,
    pool: &Pool,
    bound: &Option<Bound>,
) -> Result<(), AllocError>
    ensures { Pushes result text.old text.new
        (spec.pool_submits plan.now number pool.now bound.now) }
{
    if bound.is_none() && !pool.unbounded {
        push_submits(text, plan, number)
    } else {
        Ok(())
    }
}
