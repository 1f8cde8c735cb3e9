//! The check that the results of a run's threads form a complete run.

ghost use Rattle.std.specs.Prelude.{◌≡◌, ◌≢◌, ◌↔◌, IfOk, IfErr, IfSome, IsTrue, None, false, length, take};
ghost use Rattle.std.specs.Option.{IfNone};
ghost use Rattle.locked_runner.specs.HeldWorld.{IsReachedBy};
ghost use Rattle.locked_runner.specs.Owner as owner;
ghost use Rattle.locked_runner.specs.Receipts.{AreListsOf};
ghost use Rattle.locked_runner.specs.Replayed.{IsReplayedAs};
ghost use Rattle.locked_runner.specs.Run.{IsRun, Makes, Works, IsLegalPrefix, IsLegalPart, IsAnswerTo};

use crate::completeness::is_complete;
use crate::numbers::RunNumbers;
use crate::owner::{kinds_of, lists_of};
use crate::receipts::{each_once, lists_fit};
use crate::replay::{Replay, equals_count, replay_history};
use crate::{RunFault, RunReport, ThreadResults, ViewedWorld, reached_worlds_refuse_nothing};
use cert_check::Certified;
use job_bodies::Plan;
use std::alloc::{AllocError, Global};
use support::number::{MEMORY, MIXED, STRANGE};

/// Checks that the results of the threads form a complete run of the plan, and returns the report
/// of the run. `rounds` is the number of rounds. `numbers` has the numbers of jobs and units of
/// work that the run must have.
///
/// # Errors
///
/// Returns the first of these faults that applies:
///
/// - 20 if memory runs out during the check;
/// - the fault that a thread reported;
/// - 41 or 42 if the results do not form such a run (see [`RunFault`]). If both apply, the fault is
///   41.
///
/// The field `events` of the fault is the number of events that were replayed. If the fault is not
/// 20, all events before the first impossible event were replayed.
pub fn check_run(
    alloc: Global,
    certified: &Certified,
    rounds: u64,
    numbers: RunNumbers,
    results: ThreadResults,
) -> Result<RunReport, RunFault>
    ensures run { IfOk result (λ _. IsRun certified.now.plan rounds results.history results.receipts) }
    ensures made { IfOk result (λ _. Makes certified.now.plan results.history numbers.jobs) }
    ensures worked { IfOk result (λ _. Works certified.now.plan results.history numbers.units) }
    ensures report { IfOk result (λ report.
        report
        ≡ record {
          jobs = numbers.jobs;
          units = numbers.units;
          refused = 0;
          history = results.history;
          receipts = results.receipts;
        }) }
    ensures no_fault { IfOk result (λ _. results.fault ≡ None) }
    ensures events { IfErr result
        (λ fault. IsLegalPrefix certified.now.plan results.history fault.events) }
    ensures replayed { IfErr result
        (λ fault. fault.number ≢ MEMORY → IsLegalPart certified.now.plan results.history fault.events) }
    ensures fault { IfErr result (λ fault.
        fault.number ≢ MEMORY
        → IsAnswerTo certified.now.plan rounds numbers.jobs numbers.units results.history results.receipts
        results.fault fault) }
{
    let Ok(replay) = replay_history(alloc, certified.plan(), &results.history) else {
        return Err(RunFault::at_start(MEMORY));
    };
    match fault_of(alloc, certified.plan(), rounds, numbers, &results, &replay) {
        Ok(None) => Ok(report(certified, numbers, &replay.world, results)),
        Ok(Some(fault)) => Err(fault),
        Err(AllocError) => Err(RunFault {
            number: MEMORY,
            events: replay.events() as u64,
        }),
    }
}

/// Returns the report of a run. `world` must be the world after the history in `results`.
fn report(
    certified: &Certified,
    numbers: RunNumbers,
    world: &ViewedWorld,
    results: ThreadResults,
) -> RunReport
    requires { IsReachedBy certified.now.plan results.history world.now }
    ensures { result
        ≡ record {
          jobs = numbers.jobs;
          units = numbers.units;
          refused = 0;
          history = results.history;
          receipts = results.receipts;
        } }
{
    reached_worlds_refuse_nothing(certified, world);
    let refused = world.world().refusals();
    RunReport {
        jobs: numbers.jobs,
        units: numbers.units,
        refused,
        history: results.history,
        receipts: results.receipts,
    }
}

/// Returns the fault of a run, or `None` if the results of its threads form a complete run.
/// `replay` is the replay of the history up to the first impossible event.
///
/// # Errors
///
/// Returns `AllocError` if memory ran out in the replay or runs out here.
fn fault_of(
    alloc: Global,
    plan: &Plan,
    rounds: u64,
    numbers: RunNumbers,
    results: &ThreadResults,
    replay: &Replay,
) -> Result<Option<RunFault>, AllocError>
    requires replayed { IsReplayedAs plan.now (take (length replay.now.pools.items) results.now.history)
        replay.now.world replay.now.pools.items replay.now.units }
    requires part { replay.now.ended_for_memory ≡ false
        → IsLegalPart plan.now results.now.history (length replay.now.pools.items) }
    ensures reached { IfOk result
        (λ found. IfNone found (IsReachedBy plan.now results.now.history replay.now.world)) }
    ensures run { IfOk result
        (λ found. IfNone found (IsRun plan.now rounds results.now.history results.now.receipts)) }
    ensures made { IfOk result
        (λ found. IfNone found (Makes plan.now results.now.history numbers.jobs)) }
    ensures worked { IfOk result
        (λ found. IfNone found (Works plan.now results.now.history numbers.units)) }
    ensures no_fault { IfOk result (λ found. IfNone found (results.now.fault ≡ None)) }
    ensures part { IfOk result
        (λ found. IfSome found (λ fault. IsLegalPart plan.now results.now.history fault.events)) }
    ensures fault { IfOk result (λ found.
        IfSome found
        (IsAnswerTo plan.now rounds numbers.jobs numbers.units results.now.history results.now.receipts
        results.now.fault)) }
{
    if replay.ended_for_memory {
        return Err(AllocError);
    }
    let events = replay.events() as u64;
    if let Some(cause) = results.fault {
        return Ok(Some(RunFault {
            number: cause.number(),
            events,
        }));
    }
    let history = &results.history[..replay.events()];
    let kinds = kinds_of(alloc, plan)?;
    let of_lists = lists_of(alloc, plan, &kinds)?;
    if !lists_fit(plan, history, &replay.pools, &of_lists, &results.receipts) {
        return Ok(Some(RunFault {
            number: STRANGE,
            events,
        }));
    }
    if !is_run(alloc, plan, &kinds, rounds, numbers, results, replay)? {
        return Ok(Some(RunFault {
            number: MIXED,
            events,
        }));
    }
    Ok(None)
}

/// Returns `true` if these conditions hold:
///
/// - The history was replayed to its end and is complete.
/// - The history has as many jobs and as many units of work as `numbers` says.
/// - The lists have exactly one receipt for each event.
///
/// `kinds` has, for each client, the index of its client kind. The caller must have checked that
/// each list has only receipts of its own client or pool.
///
/// # Errors
///
/// Returns `AllocError` if memory runs out.
fn is_run(
    alloc: Global,
    plan: &Plan,
    kinds: &[usize],
    rounds: u64,
    numbers: RunNumbers,
    results: &ThreadResults,
    replay: &Replay,
) -> Result<bool, AllocError>
    requires kinds { kinds.now ≡ owner.kinds_of plan.now }
    requires replayed { IsReplayedAs plan.now (take (length replay.now.pools.items) results.now.history)
        replay.now.world replay.now.pools.items replay.now.units }
    requires part { IsLegalPart plan.now results.now.history (length replay.now.pools.items) }
    requires owner_lists { AreListsOf plan.now (take (length replay.now.pools.items) results.now.history)
        (owner.lists_of plan.now) results.now.receipts }
    ensures reached { IfOk result
        (λ is_run. IsTrue is_run → IsReachedBy plan.now results.now.history replay.now.world) }
    ensures run { IfOk result (λ is_run.
        IsTrue is_run
        ↔ (IsRun plan.now rounds results.now.history results.now.receipts
        × Makes plan.now results.now.history numbers.jobs
        × Works plan.now results.now.history numbers.units)) }
{
    if replay.events() < results.history.len() {
        return Ok(false);
    }
    let world = replay.world.world();
    if world.made() as u64 != numbers.jobs {
        return Ok(false);
    }
    if !equals_count(replay.units, numbers.units) {
        return Ok(false);
    }
    if !is_complete(alloc, plan, kinds, world, rounds, &results.history)? {
        return Ok(false);
    }
    each_once(alloc, results.history.len(), &results.receipts)
}
