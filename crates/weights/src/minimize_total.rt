//! The search for a vector with a small total. The [`Target`] determines the pool, the kind of the
//! vector and the limit of its total. At first, workers weigh 0. A *loan* sets the weight of the
//! workers of one pool. When a worker takes a queued job, the job that then runs may weigh as much
//! as the queued job and the worker together. So the more a worker weighs, the less the queued jobs
//! of its pool need to weigh, and the total can become smaller. A [`Sketch`] has the weights that
//! determine the total.

ghost use Rattle.std.specs.Prelude.{◌≡◌, ◌<◌, ◌≤◌, length, IfOk, IfSome, IsTrue, vec_len};
ghost use Rattle.weights.specs.Vector.{vector_fits};

use crate::complete_vector::vector_of;
use crate::numbers::{number_at, put_at};
use crate::relief::relieving_loan;
use crate::sketch::{Sketch, TOO_HEAVY};
use crate::sketch_cache::SketchCache;
use crate::target::Target;
use crate::{Levels, Vector};
use job_bodies::Plan;
use std::alloc::{AllocError, Global};

/// The maximum number of loans in one search. A loan changes the weight of the workers of one pool.
/// This limit bounds the time of a search.
const MAX_LOANS: usize = 256;

/// A loan: a new weight for the workers of one pool. The fields are the pool, the weight, and the
/// index that the resulting sketch has in the cache.
#[derive(Clone, Copy)]
pub(crate) struct Loan {
    pub(crate) pool: usize,
    pub(crate) weight: u64,
    pub(crate) place: usize,
}

/// The result of [`minimize_total`]: the weight of a worker of each pool, and the sketch for these
/// weights.
#[derive(Drop)]
pub(crate) struct Loans {
    pub(crate) workers: Vec<u64>,
    /// The pools whose workers had weight at some point in the search, even if a later loan set
    /// this weight to 0 again. The maximums of these pools affect the result.
    pub(crate) lenders: Vec<usize>,
    pub(crate) sketch: Sketch,
}

/// Makes loans to reduce the total of the vector, and returns the resulting worker weights and
/// their sketch. A *loan* sets the weight of the workers of one pool, so that the queued jobs of
/// this pool can weigh less. The loans end when one of these conditions holds:
///
/// - The total is at most the limit of the target.
/// - [`next_loan`] finds no loan that helps. The total is then still above the limit.
/// - [`MAX_LOANS`] loans were made. The total can then still be above the limit.
pub(crate) fn minimize_total(
    alloc: Global,
    plan: &Plan,
    levels: &Levels,
    target: &Target,
) -> Result<Loans, AllocError>
    ensures { IfOk result (λ loans. vec_len loans.workers ≡ length plan.now.pools) }
{
    let mut workers = vec![in alloc; 0; plan.pools().len()]?;
    let mut lenders = Vec::new(alloc);
    let mut sketch_cache = SketchCache::new(alloc, plan, levels, target);
    let mut place = sketch_cache.index_of(&workers)?;
    for _ in 0..MAX_LOANS {
        if sketch_cache.sketch(place).total <= target.limit {
            break;
        }
        let Some(loan) = next_loan(&mut sketch_cache, &mut workers, place)? else {
            break;
        };
        put_at(&mut workers, loan.pool, loan.weight);
        if !lenders.contains(&loan.pool) {
            lenders.push(loan.pool)?;
        }
        place = loan.place;
    }
    Ok(Loans {
        workers,
        lenders,
        sketch: sketch_cache.into_sketch(place),
    })
}

/// Returns a vector of the target's pool and kind. The total of the vector is at most the limit of
/// the target. Returns `None` if the search finds no such vector.
pub(crate) fn least_vector(
    alloc: Global,
    plan: &Plan,
    levels: &Levels,
    target: &Target,
) -> Result<Option<Vector>, AllocError>
    ensures { IfOk result (λ found. IfSome found (λ vector. IsTrue (vector_fits plan.now vector))) }
{
    let Loans {
        workers,
        sketch,
        ..
    } = minimize_total(alloc, plan, levels, target)?;
    if sketch.total > target.limit {
        return Ok(None);
    }
    vector_of(alloc, plan, target, workers, &sketch)
}

/// Returns a vector of the target's pool and kind. Of all the vectors that the search finds, this
/// one has the smallest total. Returns `None` if the search finds none. The limit of the target
/// must be 0, so that the search does not stop early. The total of the vector may be above this
/// limit.
pub(crate) fn lightest_vector(
    alloc: Global,
    plan: &Plan,
    levels: &Levels,
    target: &Target,
) -> Result<Option<Vector>, AllocError>
    ensures { IfOk result (λ found. IfSome found (λ vector. IsTrue (vector_fits plan.now vector))) }
{
    let Loans {
        workers,
        sketch,
        ..
    } = minimize_total(alloc, plan, levels, target)?;
    if sketch.total == TOO_HEAVY {
        return Ok(None);
    }
    vector_of(alloc, plan, target, workers, &sketch)
}

/// Returns the next loan, or `None` if no loan helps. A loan sets the weight of the workers of one
/// pool. A class is *overweight* if it is never submitted and has a weight above `MAX_WEIGHT`. If
/// there is an overweight class, returns the loan of [`relieving_loan`], which reduces the number
/// of overweight classes. Otherwise, returns the loan of [`best_loan`], which reduces the total.
///
/// - `workers` has the current weights of workers. They are the same after the call, unless memory
///   runs out.
/// - `place` is the index that the sketch for these weights has in the cache.
fn next_loan(
    sketch_cache: &mut SketchCache,
    workers: &mut [u64],
    place: usize,
) -> Result<Option<Loan>, AllocError>
    requires { place < vec_len sketch_cache.old.sketches }
    ensures in_range { IfOk result
        (λ found. IfSome found (λ loan. loan.place < vec_len sketch_cache.new.sketches)) }
    ensures kept { vec_len sketch_cache.old.sketches ≤ vec_len sketch_cache.new.sketches }
    ensures workers { length workers.new ≡ length workers.old }
{
    if sketch_cache.sketch(place).overweight_unsubmitted > 0 {
        relieving_loan(sketch_cache, workers, place)
    } else {
        best_loan(sketch_cache, workers, place)
    }
}

/// Returns the loan that gives the smallest total, or `None` if no loan makes the total smaller.
/// Each loan that it tries gives the workers of one pool the weight that [`peak`] returns for this
/// pool. Ignores classes that are never submitted, because their jobs do not count towards the
/// total.
///
/// `workers` and `place` are as in [`next_loan`].
fn best_loan(
    sketch_cache: &mut SketchCache,
    workers: &mut [u64],
    place: usize,
) -> Result<Option<Loan>, AllocError>
    requires { place < vec_len sketch_cache.old.sketches }
    ensures in_range { IfOk result
        (λ found. IfSome found (λ loan. loan.place < vec_len sketch_cache.new.sketches)) }
    ensures kept { vec_len sketch_cache.old.sketches ≤ vec_len sketch_cache.new.sketches }
    ensures workers { length workers.new ≡ length workers.old }
{
    let plan = sketch_cache.plan;
    let target = sketch_cache.target;
    let on_loan = sketch_cache.sketch(place).on_loan;
    let mut best = None;
    let mut least = sketch_cache.sketch(place).total;
    for (number, pool) in plan.pools().iter().enumerate() {
        if !target.may_lend(number) {
            continue;
        }
        let max = target.max_of(number, pool);
        let before = number_at(workers, number);
        let weight = peak(sketch_cache, workers, number, place)?;
        let others = on_loan.saturating_sub(before.saturating_mul(max));
        if weight != before && others.saturating_add(weight.saturating_mul(max)) < least {
            put_at(workers, number, weight);
            let place = sketch_cache.index_of(workers)?;
            put_at(workers, number, before);
            let total = sketch_cache.sketch(place).total;
            if total < least {
                least = total;
                best = Some(Loan {
                    pool: number,
                    weight,
                    place,
                });
            }
        }
    }
    Ok(best)
}

/// Returns the largest weight that a job of the pool has at any position of its body, under two
/// assumptions: the workers of the pool weigh 0, and the job weighs as little as possible when it
/// is done. Classes that are never submitted are ignored.
///
/// `workers` and `place` are as in [`next_loan`].
fn peak(
    sketch_cache: &mut SketchCache,
    workers: &mut [u64],
    pool: usize,
    place: usize,
) -> Result<u64, AllocError>
    requires { place < vec_len sketch_cache.old.sketches }
    ensures kept { vec_len sketch_cache.old.sketches ≤ vec_len sketch_cache.new.sketches }
    ensures workers { length workers.new ≡ length workers.old }
{
    let before = number_at(workers, pool);
    if before == 0 {
        return Ok(number_at(&sketch_cache.sketch(place).peaks, pool));
    }
    put_at(workers, pool, 0);
    let without = sketch_cache.index_of(workers)?;
    put_at(workers, pool, before);
    Ok(number_at(&sketch_cache.sketch(without).peaks, pool))
}
