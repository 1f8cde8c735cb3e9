//! Loans for classes that are never submitted and have a weight above `MAX_WEIGHT`. The jobs of
//! such a class do not count towards the total, but their weights in the vector must still be at
//! most `MAX_WEIGHT`. A loan sets the weight of the workers of one pool. When a worker takes a
//! queued job, the job that then runs may weigh as much as the queued job and the worker together.
//! So the more a worker weighs, the less the queued jobs of its pool need to weigh.

ghost use Rattle.std.specs.Prelude.{◌≡◌, ◌<◌, ◌≤◌, IfOk, IfSome, vec_len, length};

use crate::minimize_total::Loan;
use crate::numbers::{number_at, put_at};
use crate::sketch_cache::SketchCache;
use job_bodies::MAX_SIZE;
use std::alloc::AllocError;

/// The number of steps in which bisection finds one of the weights from 0 to [`MAX_SIZE`].
const HALVINGS: usize = 20;

/// Returns the loan that leaves the fewest *overweight* classes. A loan sets the weight of the
/// workers of one pool. A class is overweight if it is never submitted and has a weight above
/// `MAX_WEIGHT`. Returns `None` if no loan makes the number of overweight classes smaller. If
/// several loans leave the fewest, returns the loan after which all workers together weigh least.
///
/// - `workers` has the current weights of workers. They are the same after the call, unless memory
///   runs out.
/// - `place` is the index that the sketch for these weights has in the cache.
pub(crate) fn relieving_loan(
    sketch_cache: &mut SketchCache,
    workers: &mut [u64],
    place: usize,
) -> Result<Option<Loan>, AllocError>
    requires { place < vec_len sketch_cache.old.sketches }
    ensures in_range { IfOk result
        (λ found. IfSome found (λ loan. loan.place < vec_len sketch_cache.new.sketches)) }
    ensures kept { vec_len sketch_cache.old.sketches ≤ vec_len sketch_cache.new.sketches }
    ensures workers { length workers.new ≡ length workers.old }
{
    let plan = sketch_cache.plan;
    let target = sketch_cache.target;
    let mut best = None;
    let mut fewest = sketch_cache
        .sketch(place)
        .overweight_unsubmitted
        .saturating_sub(1);
    let mut least = u64::MAX;
    for pool in 0..plan.pools().len() {
        if !target.may_lend(pool) {
            continue;
        }
        let before = number_at(workers, pool);
        put_at(workers, pool, MAX_SIZE);
        let overweight_unsubmitted = sketch_cache.overweight_unsubmitted(workers)?;
        if overweight_unsubmitted <= fewest {
            let weight = least_weight(sketch_cache, workers, pool, overweight_unsubmitted)?;
            put_at(workers, pool, weight);
            let on_loan = target.workers_weigh(plan, workers);
            if overweight_unsubmitted < fewest || on_loan < least {
                fewest = overweight_unsubmitted;
                least = on_loan;
                let place = sketch_cache.index_of(workers)?;
                best = Some(Loan {
                    pool,
                    weight,
                    place,
                });
            }
        }
        put_at(workers, pool, before);
    }
    Ok(best)
}

/// Returns the least weight of the pool's workers with which at most `overweight_unsubmitted`
/// classes are *overweight*. A class is overweight if it is never submitted and has a weight above
/// `MAX_WEIGHT`. Returns `MAX_SIZE` if no smaller weight suffices.
///
/// Uses bisection, since a larger weight of workers never increases the number of overweight
/// classes. Changes the weight of the pool's workers in `workers`.
fn least_weight(
    sketch_cache: &SketchCache,
    workers: &mut [u64],
    pool: usize,
    overweight_unsubmitted: usize,
) -> Result<u64, AllocError>
    ensures { length workers.new ≡ length workers.old }
{
    let mut low = 0u64;
    let mut high = MAX_SIZE;
    for _ in 0..HALVINGS {
        let middle = low.saturating_add(high) / 2;
        put_at(workers, pool, middle);
        if sketch_cache.overweight_unsubmitted(workers)? > overweight_unsubmitted {
            low = middle.saturating_add(1);
        } else {
            high = middle;
        }
    }
    Ok(high)
}
