//! The rows of the vector of a plan's steady certificate. In this module, a *row* is the list of
//! the weights of one class or client kind. A row depends on the rows of the classes that this
//! class or client kind submits. The level of a class is above the levels of the classes that it
//! submits. So the rows are computed from the lowest level to the highest.

ghost use Rattle.std.specs.Prelude.{◌≡◌, ◌≤◌, ◌<◌, ◌+◌, [], IfOk, IfSome, IfNone, false, length, map, slice_set, slice_index};
ghost use Rattle.std.specs.Bool.{OnTrue, OnFalse};
ghost use Rattle.job_bodies.specs.Plan.{class_at};
ghost use Rattle.weights.specs.Vector.{has_small_numbers, is_small};
ghost use Rattle.size_search.specs.Small.{JobsAreSmall};
ghost use Rattle.size_search.specs.ComputedRows.{IsComputedUpTo};
ghost use Rattle.size_search.specs.Submitted.{NoCircle};
ghost use Rattle.size_search.specs.Steady as spec;

use crate::body::{class_row, client_row};
use crate::levels::number_at;
use job_bodies::Plan;
use std::alloc::{AllocError, Global};
use weights::{Vector, are_small};

fn put_row(jobs: &mut Vector, number: usize, row: Vec<u64>)
    requires { number < length jobs.old.classes }
    ensures { jobs.new ≡ record jobs.old { classes = slice_set jobs.old.classes number row.items } }
{
    jobs.classes[number] = row;
}

/// Computes the row of one class, which is the list of its weights, and stores it in `jobs`.
/// `number` is the index of the class, and `level` is its level. `jobs` must have the rows of all
/// classes of lower levels. If one of the weights is above `MAX_WEIGHT`, stores nothing and returns
/// `false`.
fn set_class_row(
    alloc: Global,
    plan: &Plan,
    jobs: &mut Vector,
    level: u64,
    number: usize,
) -> Result<bool, AllocError>
    requires free { NoCircle plan.now }
    requires number { number < length plan.now.classes }
    requires level { slice_index (spec.steady_levels plan.now) number ≡ level }
    requires computed { IsComputedUpTo plan.now jobs.old level number }
    ensures computed { IfOk result
        (λ small. OnTrue small (IsComputedUpTo plan.now jobs.new level (number + 1))) }
    ensures heavy { IfOk result
        (λ small. OnFalse small (has_small_numbers (spec.steady_vector plan.now) ≡ false)) }
{
    let class = &plan.classes()[number];
    let row = class_row(alloc, plan, jobs, &class.body)?;
    if !are_small(&row) {
        return Ok(false);
    }
    put_row(jobs, number, row);
    Ok(true)
}

/// Computes the row of the class, which is the list of its weights, and stores it in `jobs`. Does
/// nothing and returns `true` if `level` is not the level of the class. If one of the weights is
/// above `MAX_WEIGHT`, stores nothing and returns `false`.
fn set_row_of_level(
    alloc: Global,
    plan: &Plan,
    levels: &[u64],
    jobs: &mut Vector,
    level: u64,
    number: usize,
) -> Result<bool, AllocError>
    requires free { NoCircle plan.now }
    requires levels { levels.now ≡ spec.steady_levels plan.now }
    requires number { number < length plan.now.classes }
    requires computed { IsComputedUpTo plan.now jobs.old level number }
    ensures computed { IfOk result
        (λ small. OnTrue small (IsComputedUpTo plan.now jobs.new level (number + 1))) }
    ensures heavy { IfOk result
        (λ small. OnFalse small (has_small_numbers (spec.steady_vector plan.now) ≡ false)) }
{
    let own_level = number_at(levels, number);
    if own_level == level {
        set_class_row(alloc, plan, jobs, level, number)
    } else {
        Ok(true)
    }
}

/// Computes the rows of the classes of this level, and stores them in `jobs`. A row is the list of
/// the weights of a class. Stops and returns `false` at the first row with a weight above
/// `MAX_WEIGHT`.
fn set_level_rows(
    alloc: Global,
    plan: &Plan,
    levels: &[u64],
    jobs: &mut Vector,
    level: u64,
) -> Result<bool, AllocError>
    requires free { NoCircle plan.now }
    requires levels { levels.now ≡ spec.steady_levels plan.now }
    requires computed { IsComputedUpTo plan.now jobs.old level 0 }
    ensures computed { IfOk result
        (λ small. OnTrue small (IsComputedUpTo plan.now jobs.new (level + 1) 0)) }
    ensures heavy { IfOk result
        (λ small. OnFalse small (has_small_numbers (spec.steady_vector plan.now) ≡ false)) }
{
    for number in 0..plan.classes().len() {
        let is_small = set_row_of_level(alloc, plan, levels, jobs, level, number)?;
        if !is_small {
            return Ok(false);
        }
    }
    Ok(true)
}

/// Creates a vector with an empty list of weights for each class, and without weights for workers
/// and clients.
fn no_jobs(alloc: Global, plan: &Plan) -> Result<Vector, AllocError>
    ensures { IfOk result (λ jobs. IsComputedUpTo plan.now jobs 0 0) }
{
    let mut classes = Vec::with_capacity(alloc, plan.classes().len())?;
    for _class in plan.classes() {
        classes.push(Vec::new(alloc))?;
    }
    Ok(Vector {
        workers: Vec::new(alloc),
        classes,
        clients: Vec::new(alloc),
    })
}

/// Returns a vector with the weights of all classes, and without weights for workers and clients.
/// The weights are computed from the lowest level to the highest. Returns `None` if one of them is
/// above `MAX_WEIGHT`.
pub(crate) fn jobs_of(
    alloc: Global,
    plan: &Plan,
    levels: &[u64],
) -> Result<Option<Vector>, AllocError>
    requires free { NoCircle plan.now }
    requires levels { levels.now ≡ spec.steady_levels plan.now }
    ensures computed { IfOk result
        (λ found. IfSome found (λ jobs. IsComputedUpTo plan.now jobs (length plan.now.classes) 0)) }
    ensures heavy { IfOk result
        (λ found. IfNone found (has_small_numbers (spec.steady_vector plan.now) ≡ false)) }
{
    let mut jobs = no_jobs(alloc, plan)?;
    for level in 0..plan.classes().len() {
        let is_small = set_level_rows(alloc, plan, levels, &mut jobs, level as u64)?;
        if !is_small {
            return Ok(None);
        }
    }
    Ok(Some(jobs))
}

/// Returns the list of weights of each client kind. `jobs` has the weights of all classes.
pub(crate) fn clients_of(
    alloc: Global,
    plan: &Plan,
    jobs: &Vector,
) -> Result<Vec<Vec<u64>>, AllocError>
    requires small { JobsAreSmall jobs.now }
    ensures { IfOk result (λ rows.
        map (λ row. row.items) rows.items
        ≡ map (spec.client_row plan.now jobs.now) plan.now.clients) }
{
    let mut rows = Vec::with_capacity(alloc, plan.clients().len())?;
    for client in plan.clients() {
        rows.push(client_row(alloc, plan, jobs, client)?)?;
    }
    Ok(rows)
}
