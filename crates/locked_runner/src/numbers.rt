//! The numbers of jobs, units and events of a complete run.

ghost use Rattle.std.specs.Prelude.{◌≡◌, ◌*◌, ℕ, suc, IfOk, slice_index, sum_by};
ghost use Rattle.locked_runner.specs.Complete as complete;
ghost use Rattle.locked_runner.specs.RunNumbers as spec;
ghost use Rattle.locked_runner.specs.RunNumbers.{capped};

use crate::rounds::{events_of_client, rounds_of_client};
use job_bodies::{Action, Class, Client, Plan};
use std::alloc::{AllocError, Global};
use weights::Ranks;

/// The numbers of jobs and units of work of a complete run, and an upper bound of the number of its
/// events. A number above `u64::MAX` is stored as `u64::MAX`.
#[derive(Clone, Copy)]
pub struct RunNumbers {
    /// The number of jobs that clients and jobs submit.
    pub jobs: u64,
    /// The units of work of clients and jobs.
    pub units: u64,
    /// An upper bound of the number of events. For each job, the bound includes an event that takes
    /// the job from the queue. A job that starts on a new thread has no such event, so the number
    /// of events can be below the bound.
    pub events: u64,
}

/// Returns the numbers of a run of the plan. Each repeating client performs its body `rounds`
/// times. With 0 rounds, a repeating client contributes nothing.
///
/// The jobs that clients submit are generation 0, the jobs that these jobs submit are generation 1,
/// and so on. The numbers include all generations up to the greatest level of a class in `ranks`.
/// In a valid certificate, the level of a class is above the level of each class that it submits.
/// No job is then in a later generation.
///
/// # Errors
///
/// Returns `AllocError` if there is not enough memory for the numbers of the classes.
pub fn run_numbers(
    alloc: Global,
    plan: &Plan,
    ranks: &Ranks,
    rounds: u64,
) -> Result<RunNumbers, AllocError>
    ensures jobs { IfOk result
        (λ numbers. numbers.jobs ≡ capped (spec.jobs plan.now ranks.now rounds)) }
    ensures units { IfOk result
        (λ numbers. numbers.units ≡ capped (spec.units plan.now ranks.now rounds)) }
    ensures events { IfOk result
        (λ numbers. numbers.events ≡ capped (spec.most_events plan.now ranks.now rounds)) }
{
    let jobs = by_jobs(alloc, plan, ranks, rounds, Measure::Jobs)?;
    let units = by_jobs(alloc, plan, ranks, rounds, Measure::Units)?;
    let events = by_jobs(alloc, plan, ranks, rounds, Measure::Events)?;
    Ok(RunNumbers {
        jobs,
        units: units.saturating_add(units_of_all(plan, rounds)),
        events: events.saturating_add(events_of_all(plan, rounds)),
    })
}

/// A quantity that is summed over the jobs of a run: the number of jobs, of units of work or of
/// events.
#[derive(Clone, Copy)]
enum Measure {
    Jobs,
    Units,
    Events,
}

/// Returns the quantity of one job of the class, without the jobs that this job submits. `measure`
/// selects the quantity. The events of a job are its actions, a take from the queue and its end.
fn own_quantity(measure: Measure, class: &Class) -> u64
    ensures { result ≡ capped (spec.own_quantity measure class.now) }
{
    match measure {
        Measure::Jobs => 1,
        Measure::Units => units_in(&class.body),
        Measure::Events => (class.body.len() as u64).saturating_add(2),
    }
}

/// Returns the quantity that `measure` selects, summed over all jobs of a run. These are the jobs
/// that clients submit in all their rounds, and the jobs that those jobs submit, directly or
/// through other jobs.
fn by_jobs(
    alloc: Global,
    plan: &Plan,
    ranks: &Ranks,
    rounds: u64,
    measure: Measure,
) -> Result<u64, AllocError>
    ensures { IfOk result
        (λ total. total ≡ capped (spec.by_jobs plan.now ranks.now rounds (spec.own_quantity measure))) }
{
    let numbers = total_quantity(alloc, plan, ranks, measure)?;
    Ok(submitted_by_all(plan, rounds, &numbers))
}

/// Returns a quantity summed over all jobs of a run. `numbers` has, for each class, the quantity of
/// one job of the class together with all jobs that it submits, directly or through other jobs.
fn submitted_by_all(plan: &Plan, rounds: u64, numbers: &[u64]) -> u64
    ensures { (f : ℕ → ℕ)
        → spec.AreCapped plan.now f numbers.now
        → result ≡ capped (sum_by (spec.submitted_by rounds f) plan.now.clients) }
{
    let mut total = 0u64;
    for client in plan.clients() {
        total = total.saturating_add(submitted_by(client, rounds, numbers));
    }
    total
}

fn submitted_by(client: &Client, rounds: u64, numbers: &[u64]) -> u64
    ensures { result ≡ capped (spec.submitted_by rounds (slice_index numbers.now) client.now) }
{
    in_all_rounds(client, rounds, submitted(&client.body, numbers))
}

/// Returns the number of units of work that the clients perform in all their rounds. The work of
/// jobs is not included.
fn units_of_all(plan: &Plan, rounds: u64) -> u64
    ensures { result ≡ capped (sum_by (spec.units_of_clients rounds) plan.now.clients) }
{
    let mut total = 0u64;
    for client in plan.clients() {
        total = total.saturating_add(units_of_clients(client, rounds));
    }
    total
}

fn units_of_clients(client: &Client, rounds: u64) -> u64
    ensures { result ≡ capped (spec.units_of_clients rounds client.now) }
{
    in_all_rounds(client, rounds, units_in(&client.body))
}

/// Returns the number of events that the clients perform in all their rounds. The events of jobs
/// are not included.
fn events_of_all(plan: &Plan, rounds: u64) -> u64
    ensures { result ≡ capped (sum_by (spec.events_of_clients rounds) plan.now.clients) }
{
    let mut total = 0u64;
    for client in plan.clients() {
        total = total.saturating_add(client.count.saturating_mul(events_within(client, rounds)));
    }
    total
}

/// Returns a quantity summed over all clients of this kind and all their rounds. `in_one` is the
/// quantity of one client in one round.
fn in_all_rounds(client: &Client, rounds: u64, in_one: u64) -> u64
    ensures { (n : ℕ)
        → in_one ≡ capped n
        → result ≡ capped (client.now.count * (complete.rounds_of rounds client.now * n)) }
{
    let of_one = rounds_of_client(client, rounds).saturating_mul(in_one);
    client.count.saturating_mul(of_one)
}

/// Returns the number of events of one client of this kind in all its rounds, or `u64::MAX` if the
/// number is larger.
fn events_within(client: &Client, rounds: u64) -> u64
    ensures { result ≡ capped (complete.events_of_client rounds client.now) }
{
    events_of_client(client, rounds).unwrap_or(u64::MAX)
}

/// Returns the number of units of work that the body declares.
fn units_in(body: &[Action]) -> u64
    ensures { result ≡ capped (spec.units_in body.now) }
{
    let mut total = 0u64;
    for action in body {
        if let Action::Work(units) = action {
            total = total.saturating_add(u64::from(*units));
        }
    }
    total
}

/// Returns the sum of the quantities of the jobs that the body submits. `numbers` has, for each
/// class, the quantity of one job of the class. A class without a number adds 0.
fn submitted(body: &[Action], numbers: &[u64]) -> u64
    ensures { result ≡ capped (spec.submitted (slice_index numbers.now) body.now) }
{
    let mut total = 0u64;
    for action in body {
        if let Action::Submit(class) = action {
            total = total.saturating_add(numbers.get(*class).copied().unwrap_or(0));
        }
    }
    total
}

/// Returns, for each class, the total quantity of one job of the class. The total includes the job
/// itself and all jobs that it submits, directly or through other jobs. `measure` selects the
/// quantity.
fn total_quantity(
    alloc: Global,
    plan: &Plan,
    ranks: &Ranks,
    measure: Measure,
) -> Result<Vec<u64>, AllocError>
    ensures { IfOk result (λ numbers.
        spec.AreCapped plan.now (spec.total_quantity plan.now ranks.now (spec.own_quantity measure)) numbers.items) }
{
    let mut numbers = add_generation(alloc, plan, measure, &[])?;
    for generation in 0..greatest(&ranks.levels) {
        let next = add_generation(alloc, plan, measure, &numbers)?;
        if next == numbers {
            return Ok(numbers);
        }
        numbers = next;
    }
    Ok(numbers)
}

fn greatest(levels: &[u64]) -> u64
    ensures { result ≡ spec.greatest levels.now }
{
    let mut greatest = 0;
    for level in levels {
        if *level > greatest {
            greatest = *level;
        }
    }
    greatest
}

/// Returns, for each class, the quantity of one job of the class, plus the quantities of the jobs
/// that its body submits. `measure` selects the quantity. `numbers` has, for each class, the
/// quantity of one submitted job of the class. If this quantity includes n generations of jobs, the
/// result includes n + 1. If `numbers` is empty, the result includes no submitted jobs.
fn add_generation(
    alloc: Global,
    plan: &Plan,
    measure: Measure,
    numbers: &[u64],
) -> Result<Vec<u64>, AllocError>
    ensures { IfOk result (λ next.
        (n : ℕ)
        → spec.AreQuantities plan.now (spec.own_quantity measure) n numbers.now
        → spec.AreQuantities plan.now (spec.own_quantity measure) (suc n) next.items) }
{
    let mut next = Vec::with_capacity(alloc, plan.classes().len())?;
    for class in plan.classes() {
        next.push(own_quantity(measure, class).saturating_add(submitted(&class.body, numbers)))?;
    }
    Ok(next)
}
