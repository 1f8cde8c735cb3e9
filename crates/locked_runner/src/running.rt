//! A run of a certified plan on threads.

ghost use Rattle.std.specs.Prelude.{◌≡◌, IfOk, IfErr, false};
ghost use Rattle.locked_runner.specs.Run.{IsRun, Makes, Works, IsLengthOfLegal};
ghost use Rattle.locked_runner.specs.RunNumbers.{jobs, units};
ghost use Rattle.locked_runner.specs.Limits.{is_too_large};
ghost use Rattle.locked_runner.specs.Faults.{IsFaultOf};

use crate::limits::exceeds_limits;
use crate::starting::run_threads;
use crate::{Gate, RunFault, RunNumbers, RunReport, check_run, run_numbers};
use cert_check::Certified;
use job_bodies::Plan;
use std::alloc::Global;
use std::sync::Wait;
use std::thread::Threads;
use support::number::{MEMORY, RUN_TOO_LARGE};
use weights::Ranks;

/// Runs a certified plan. There is one thread for each client. A pool has as many threads as its
/// core size in these cases:
///
/// - The pool has an unbounded queue, and its core threads never time out.
/// - The pool has no maximum.
///
/// Any other pool has as many threads as its maximum. The threads perform the events of the plan's
/// machine, and the gate does the declared work.
///
/// A client of a repeating kind performs its body `rounds` times, and any other client performs it
/// once. `rounds` should be at least 1. With 0 rounds, a repeating client performs no event. If its
/// body is not empty, the run is then not complete, and the result is a fault.
///
/// # Errors
///
/// Returns a fault with one of these numbers:
///
/// - 40: the run exceeds a limit, and no thread was started. A plan with a pool that may reject
///   jobs exceeds a limit. The other limits are 64 clients, 64 threads of all pools together, and
///   1,000,000 events by an upper bound.
/// - 20: memory ran out, or a thread could not be started.
/// - 43: the gate failed.
/// - 41 or 42: the results of the threads are not a complete run.
pub fn run<R: Threads + Wait + Sync, G: Gate>(
    rt: &R,
    alloc: Global,
    certified: &Certified,
    rounds: u64,
    gate: &G,
) -> Result<RunReport, RunFault>
    ensures run { IfOk result
        (λ report. IsRun certified.now.plan rounds report.history report.receipts) }
    ensures jobs { IfOk result
        (λ report. report.jobs ≡ jobs certified.now.plan certified.now.cert.ranks rounds) }
    ensures made { IfOk result (λ report. Makes certified.now.plan report.history report.jobs) }
    ensures units { IfOk result
        (λ report. report.units ≡ units certified.now.plan certified.now.cert.ranks rounds) }
    ensures worked { IfOk result (λ report. Works certified.now.plan report.history report.units) }
    ensures none_refused { IfOk result (λ report. report.refused ≡ 0) }
    ensures within { IfOk result
        (λ _. is_too_large certified.now.plan certified.now.cert.ranks rounds ≡ false) }
    ensures fault { IfErr result
        (IsFaultOf (is_too_large certified.now.plan certified.now.cert.ranks rounds)) }
    ensures events { IfErr result (λ fault. IsLengthOfLegal certified.now.plan fault.events) }
{
    let numbers = numbers_within(alloc, certified.plan(), &certified.cert().ranks, rounds)?;
    let Ok(results) = run_threads(rt, alloc, certified, rounds, gate) else {
        return Err(RunFault::at_start(MEMORY));
    };
    check_run(alloc, certified, rounds, numbers, results)
}

/// Returns the numbers of jobs and units of work of the run, and the upper bound of the number of
/// its events.
///
/// # Errors
///
/// Returns fault 40 if the run exceeds a limit, and 20 if there is not enough memory.
fn numbers_within(
    alloc: Global,
    plan: &Plan,
    ranks: &Ranks,
    rounds: u64,
) -> Result<RunNumbers, RunFault>
    ensures jobs { IfOk result (λ numbers. numbers.jobs ≡ jobs plan.now ranks.now rounds) }
    ensures units { IfOk result (λ numbers. numbers.units ≡ units plan.now ranks.now rounds) }
    ensures within { IfOk result (λ _. is_too_large plan.now ranks.now rounds ≡ false) }
    ensures fault { IfErr result (IsFaultOf (is_too_large plan.now ranks.now rounds)) }
    ensures events { IfErr result (λ fault. IsLengthOfLegal plan.now fault.events) }
{
    let Ok(numbers) = run_numbers(alloc, plan, ranks, rounds) else {
        return Err(RunFault::at_start(MEMORY));
    };
    if exceeds_limits(plan, numbers.events) {
        return Err(RunFault::at_start(RUN_TOO_LARGE));
    }
    Ok(numbers)
}
