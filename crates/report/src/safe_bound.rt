//! The line about a pool's threads and queue. The line is part of the text for a plan that a
//! certificate accepts. It has the number of threads, the bound of the queue, and the shares that
//! client kinds and pools have in the bound. The bound is the total of a vector, which has a weight
//! for each worker of each pool, and for each position of each class and each client kind. The
//! share of a client kind is the weight of all its clients. The share of a pool is the weight of
//! all its threads.

ghost use Rattle.std.specs.Prelude.{◌≡◌, ◌++◌, IsTrue, OnOk, map, string_bytes};
ghost use Rattle.support.specs.Pushed.{Pushes};
ghost use Rattle.weights.specs.Bound.{bound_vector};
ghost use Rattle.weights.specs.Vector.{vector_fits, total};
ghost use Rattle.report.specs.LostSubmits.{lost_texts};
ghost use Rattle.report.specs.SafeText as spec;

use crate::lost_submits::lost_texts;
use crate::places::bounds_jobs;
use crate::shares::{Shares, shares_of};
use job_bodies::{Plan, Pool};
use std::alloc::{AllocError, Global};
use weights::{Bound, Vector};

/// Appends the line with the number of the pool's threads and the bound of its queue. `number` is
/// the number of the pool. `rejection` is the number of events after which the pool rejects a job,
/// or `None` if it is not known.
pub(crate) fn push_bound(
    alloc: Global,
    text: &mut String,
    plan: &Plan,
    number: usize,
    pool: &Pool,
    rejection: Option<u64>,
    bound: &Option<Bound>,
) -> Result<(), AllocError>
    ensures { Pushes result text.old text.new
        (spec.bound_line plan.now number pool.now rejection bound.now) }
{
    let name = pool.name.as_str();
    write!(text, "{name}: ")?;
    push_threads(text, pool)?;
    push_queue(alloc, text, plan, number, pool, rejection, bound)?;
    text.push('\n')
}

/// Appends the capacity of the pool's queue and the bound of the queue. If there is no bound, or
/// the bound does not limit the jobs of the pool, appends the text of [`push_no_bound`] in place of
/// the bound.
fn push_queue(
    alloc: Global,
    text: &mut String,
    plan: &Plan,
    number: usize,
    pool: &Pool,
    rejection: Option<u64>,
    bound: &Option<Bound>,
) -> Result<(), AllocError>
    ensures { Pushes result text.old text.new
        (spec.queue_text plan.now number pool.now rejection bound.now) }
{
    match bound {
        Some(bound) if bounds_jobs(plan, number, bound) => {
            push_bounded(alloc, text, plan, pool, bound)
        }
        Some(_) | None => push_open_queue(alloc, text, plan, number, pool, rejection),
    }
}

/// Appends the capacity of the pool's queue and, in place of a bound, the text of
/// [`push_no_bound`]. The caller has checked that no bound of the certificate limits the jobs in
/// this queue.
fn push_open_queue(
    alloc: Global,
    text: &mut String,
    plan: &Plan,
    number: usize,
    pool: &Pool,
    rejection: Option<u64>,
) -> Result<(), AllocError>
    ensures { Pushes result text.old text.new
        (spec.open_queue_text plan.now number pool.now rejection) }
{
    text.push_str(", queue ")?;
    push_queue_size(text, pool)?;
    text.push_str(": ")?;
    push_no_bound(alloc, text, plan, number, pool, rejection)
}

/// Appends the capacity of the pool's queue, or `unbounded`.
pub(crate) fn push_queue_size(text: &mut String, pool: &Pool) -> Result<(), AllocError>
    ensures { Pushes result text.old text.new (spec.queue_size pool.now) }
{
    if pool.unbounded {
        return text.push_str("unbounded");
    }
    let queue = pool.queue;
    write!(text, "{queue}")
}

/// Appends the text that replaces the bound of a queue if no bound of the certificate limits the
/// jobs in it.
///
/// - If the capacity of the queue is unlimited, the text is the reason why there is no bound.
/// - If the capacity is limited, the text says that the pool may reject jobs. It also says after
///   how many events, if `rejection` is known.
fn push_no_bound(
    alloc: Global,
    text: &mut String,
    plan: &Plan,
    number: usize,
    pool: &Pool,
    rejection: Option<u64>,
) -> Result<(), AllocError>
    ensures { Pushes result text.old text.new
        (spec.no_bound_text plan.now number pool.now rejection) }
{
    if pool.unbounded {
        push_growth(alloc, text, plan, number)
    } else {
        push_rejection(text, rejection)
    }
}

/// Appends the reason why no bound of the certificate limits the jobs in the pool's queue, which
/// has an unlimited capacity. The reason consists of the texts of [`lost_texts`]. Each text says
/// that a body submits a job to the pool and never gets this job. If there are no such texts,
/// appends `no bound is known`.
fn push_growth(
    alloc: Global,
    text: &mut String,
    plan: &Plan,
    number: usize,
) -> Result<(), AllocError>
    ensures { Pushes result text.old text.new
        (spec.growth_text (lost_texts plan.now number)) }
{
    let lost = lost_texts(alloc, plan, number)?;
    if lost.is_empty() {
        return text.push_str("no bound is known");
    }
    text.push_str("no bound: ")?;
    push_separated(alloc, text, &lost)
}

/// Appends that a pool may reject jobs and, if `rejection` is known, after how many events.
fn push_rejection(text: &mut String, rejection: Option<u64>) -> Result<(), AllocError>
    ensures { Pushes result text.old text.new (spec.rejects_text rejection) }
{
    match rejection {
        Some(events) => write!(text, "may reject: after {events} events"),
        None => text.push_str("may reject (not shown)"),
    }
}

/// Appends the capacity of the pool's queue, the bound of the queue, and the shares that client
/// kinds and pools have in the bound. Appends nothing if the vector of `bound` does not fit the
/// plan.
fn push_bounded(
    alloc: Global,
    text: &mut String,
    plan: &Plan,
    pool: &Pool,
    bound: &Bound,
) -> Result<(), AllocError>
    ensures { Pushes result text.old text.new (spec.bounded_text plan.now pool.now bound.now) }
{
    let vector = bound.vector();
    if !vector.fits(plan) {
        return Ok(());
    }
    text.push_str(", queue ")?;
    push_queue_size(text, pool)?;
    text.push_str(": ")?;
    text.push_str(never_words(pool))?;
    push_places(alloc, text, plan, bound)
}

/// Returns the words that are written before the bound of a queue. If the queue is bounded and the
/// plan allows the pool to reject jobs, the words are `never rejects: `, because the pool never
/// uses this permission. Otherwise the words are empty.
fn never_words(pool: &Pool) -> &'static str
    ensures { result.now ≡ spec.never_text pool.now }
{
    if pool.may_reject && !pool.unbounded {
        "never rejects: "
    } else {
        ""
    }
}

/// Appends the bound of a queue, and the shares that client kinds and pools have in the bound. If
/// the bound is 0, appends only that no job waits in the queue.
fn push_places(
    alloc: Global,
    text: &mut String,
    plan: &Plan,
    bound: &Bound,
) -> Result<(), AllocError>
    requires { IsTrue (vector_fits plan.now (bound_vector bound.now)) }
    ensures { Pushes result text.old text.new
        (spec.places_text plan.now bound.now (total plan.now (bound_vector bound.now))) }
{
    let vector = bound.vector();
    let total = vector.total(plan);
    if total == 0 {
        return text.push_str("no job waits in it");
    }
    push_most(text, bound, total)?;
    text.push_str(" (")?;
    push_shares(alloc, text, plan, vector)?;
    text.push_str(")")
}

/// Appends the limit on the number of jobs, such as `up to 3 jobs wait at once`. `total` is the
/// total of the bound's vector. The total of a standing vector limits the jobs in the queue at one
/// time. The total of a lifetime vector limits the jobs that are ever submitted to the pool.
#[tactic(auto, unfolding(crate::specs::SafeText::most_text))]
pub(crate) fn push_most(text: &mut String, bound: &Bound, total: u64) -> Result<(), AllocError>
    ensures { Pushes result text.old text.new (spec.most_text bound.now total) }
{
    match bound {
        Bound::Standing(_) if total == 1 => text.push_str("up to 1 job waits at once"),
        Bound::Standing(_) => write!(text, "up to {total} jobs wait at once"),
        Bound::Lifetime(_) if total == 1 => text.push_str("at most 1 job is ever given to it"),
        Bound::Lifetime(_) => write!(text, "at most {total} jobs are ever given to it"),
    }
}

/// Appends the number of threads that the pool can have, such as `4 threads`, or `2 to 4 threads`
/// if the pool can have more threads than its core size. If core threads may time out, the text
/// says so, as in `2 to 4 threads that may time out`.
pub(crate) fn push_threads(text: &mut String, pool: &Pool) -> Result<(), AllocError>
    ensures { Pushes result text.old text.new (spec.threads_text pool.now) }
{
    if pool.core_timeout {
        push_timeouts(text, pool)
    } else {
        push_range(text, pool.core, most_threads(pool))
    }
}

/// Appends the number of threads of a pool whose core threads may time out, followed by words that
/// say so, such as `2 to 4 threads that may time out`.
fn push_timeouts(text: &mut String, pool: &Pool) -> Result<(), AllocError>
    ensures { Pushes result text.old text.new (spec.timeouts_text pool.now) }
{
    push_range_of_timeouts(text, pool)?;
    text.push_str(" that may time out")
}

/// Returns the greatest number of threads of a pool whose core threads never time out: the maximum,
/// or the core size if the queue is unbounded.
fn most_threads(pool: &Pool) -> u64
    ensures { result ≡ spec.most_threads pool.now }
{
    if pool.unbounded { pool.core } else { pool.max }
}

/// Appends the number of threads of a pool whose core threads may time out, such as `2 to 4
/// threads`, or `2 or more threads` if the pool has no maximum.
#[tactic(auto, unfolding(crate::specs::SafeText::range_of_timeouts))]
fn push_range_of_timeouts(text: &mut String, pool: &Pool) -> Result<(), AllocError>
    ensures { Pushes result text.old text.new (spec.range_of_timeouts pool.now) }
{
    if !pool.has_no_max() {
        return push_range(text, pool.core, pool.max);
    }
    let core = pool.core;
    write!(text, "{core} or more threads")
}

fn push_range(text: &mut String, least: u64, most: u64) -> Result<(), AllocError>
    ensures { Pushes result text.old text.new (spec.range_text least most) }
{
    if least != most {
        return write!(text, "{least} to {most} threads");
    }
    match least {
        1 => text.push_str("1 thread"),
        _ => write!(text, "{least} threads"),
    }
}

/// Appends the share of each client kind and of each pool in the total of a vector, such as
/// `200 browser, 8 from threads of web`. Skips shares of 0.
fn push_shares(
    alloc: Global,
    text: &mut String,
    plan: &Plan,
    vector: &Vector,
) -> Result<(), AllocError>
    requires { IsTrue (vector_fits plan.now vector.now) }
    ensures { Pushes result text.old text.new (spec.separated (spec.share_texts plan.now vector.now)) }
{
    let Shares { clients, workers } = shares_of(alloc, plan, vector)?;
    let mut parts = Vec::new(alloc);
    push_clients(alloc, &mut parts, plan, &clients)?;
    push_workers(alloc, &mut parts, plan, &workers)?;
    push_separated(alloc, text, &parts)
}

fn push_clients(
    alloc: Global,
    parts: &mut Vec<String>,
    plan: &Plan,
    shares: &[u64],
) -> Result<(), AllocError>
    ensures { OnOk result
        (map string_bytes parts.new.items
        ≡ map string_bytes parts.old.items ++ spec.client_parts plan.now shares.now) }
{
    for (kind, share) in shares.iter().enumerate() {
        push_share(alloc, parts, *share, "", plan.client_name(kind))?;
    }
    Ok(())
}

fn push_workers(
    alloc: Global,
    parts: &mut Vec<String>,
    plan: &Plan,
    shares: &[u64],
) -> Result<(), AllocError>
    ensures { OnOk result
        (map string_bytes parts.new.items
        ≡ map string_bytes parts.old.items ++ spec.worker_parts plan.now shares.now) }
{
    for (pool, share) in shares.iter().enumerate() {
        push_share(
            alloc,
            parts,
            *share,
            "from threads of ",
            plan.pool_name(pool),
        )?;
    }
    Ok(())
}

/// Appends the share of a client kind or of a pool as text, such as `8 from threads of web`. `from`
/// is the text between the number and the name. Appends nothing if the share is 0.
#[tactic(auto, using(std::proofs::lemmas::List::map_push))]
fn push_share(
    alloc: Global,
    parts: &mut Vec<String>,
    share: u64,
    from: &str,
    name: &str,
) -> Result<(), AllocError>
    ensures { OnOk result
        (map string_bytes parts.new.items
        ≡ map string_bytes parts.old.items ++ spec.share_text share from.now name.now) }
{
    if share == 0 {
        return Ok(());
    }
    parts.push(format!(in alloc; "{share} {from}{name}")?)?;
    Ok(())
}

/// Appends the parts, with a comma and a space between them.
#[tactic(auto, using(crate::proofs::Rows::row_seen))]
pub(crate) fn push_separated(
    alloc: Global,
    text: &mut String,
    parts: &[String],
) -> Result<(), AllocError>
    ensures { Pushes result text.old text.new (spec.separated (map string_bytes parts.now)) }
{
    let row = parts.join(alloc, ", ")?;
    text.push_str(&row)
}
