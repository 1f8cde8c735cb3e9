//! The check of the receipts of all threads. Each event of the history must have exactly one
//! receipt, in a list of the event's owner.

ghost use Rattle.std.specs.Prelude.{◌≡◌, ◌<◌, ◌+◌, ◌==◌, ◌↔◌, ℕ, IsTrue, IfOk, Some, length, map, min, slice_index, count_by, if◌then◌else◌};
ghost use Rattle.locked_runner.specs.Owner.{ArePoolsOf};
ghost use Rattle.locked_runner.specs.Run.{IsLegal};
ghost use Rattle.locked_runner.specs.Receipts.{IsReceiptOf, AreReceiptsOf, AreListsOf, places_of};

use crate::CompactReceipt;
use crate::owner::{Owner, owner_by};
use held_machines::Receipt;
use interleaving::Event;
use job_bodies::Plan;
use std::alloc::{AllocError, Global};

/// Checks the lists of receipts against the history. Returns `true` if these conditions hold:
///
/// - There is one list of receipts for each entry of `of_lists`. This entry is the owner of the
///   list.
/// - The receipts of each list are in ascending order.
/// - For a receipt with the number n, event n of the history is the receipt's event.
/// - This event belongs to the owner of the list.
///
/// `pools` has, for each event of the history, the pool of the job that performed the event, or 0
/// if no job performed it.
pub(crate) fn lists_fit(
    plan: &Plan,
    history: &[Event],
    pools: &[u8],
    of_lists: &[Owner],
    lists: &[Vec<CompactReceipt>],
) -> bool
    requires legal { IsLegal plan.now history.now }
    requires pools { ArePoolsOf plan.now history.now pools.now }
    ensures { IsTrue result
        ↔ AreListsOf plan.now history.now of_lists.now (map (λ list. list.items) lists.now) }
{
    if of_lists.len() != lists.len() {
        return false;
    }
    for at in 0..lists.len() {
        if !list_fits(plan, history, pools, of_lists[at], &lists[at]) {
            return false;
        }
    }
    true
}

fn list_fits(
    plan: &Plan,
    history: &[Event],
    pools: &[u8],
    owner: Owner,
    list: &[CompactReceipt],
) -> bool
    requires legal { IsLegal plan.now history.now }
    requires pools { ArePoolsOf plan.now history.now pools.now }
    ensures { IsTrue result ↔ AreReceiptsOf plan.now history.now owner 0 list.now }
{
    let mut low = 0;
    for kept in list {
        let receipt = kept.receipt();
        if receipt.number < low || !receipt_fits(plan, history, pools, owner, receipt) {
            return false;
        }
        low = receipt.number + 1;
    }
    true
}

/// Returns `true` if two conditions hold for the receipt. Let n be the number of the receipt:
///
/// - Event n of the history is the receipt's event.
/// - This event belongs to the owner.
///
/// `pools` is as for [`lists_fit`].
fn receipt_fits(
    _plan: &Plan,
    history: &[Event],
    pools: &[u8],
    owner: Owner,
    receipt: Receipt<Event>,
) -> bool
    requires legal { IsLegal _plan.now history.now }
    requires pools { ArePoolsOf _plan.now history.now pools.now }
    ensures inside { IsTrue result → receipt.number < length history.now }
    ensures fits { IsTrue result ↔ IsReceiptOf _plan.now history.now owner receipt }
{
    let number = receipt.number as usize;
    let Some(event) = history.get(number) else {
        return false;
    };
    let Some(pool) = pools.get(number) else {
        return false;
    };
    is_same_event(*event, receipt.event) && is_owned_by(owner_by(*event, *pool), owner)
}

fn is_same_event(a: Event, b: Event) -> bool
    ensures { IsTrue result ↔ (a ≡ b) }
{
    match (a, b) {
        (Event::Client(a), Event::Client(b)) => a == b,
        (Event::Job(a), Event::Job(b)) => a == b,
        (Event::Take(a), Event::Take(b)) => a == b,
        (Event::Retire(a), Event::Retire(b)) => a == b,
        _ => false,
    }
}

fn is_owned_by(found: Option<Owner>, owner: Owner) -> bool
    ensures { IsTrue result ↔ (found ≡ Some owner) }
{
    match (found, owner) {
        (Some(Owner::Client(a)), Owner::Client(b)) => a == b,
        (Some(Owner::Pool(a)), Owner::Pool(b)) => a == b,
        _ => false,
    }
}

/// Returns `true` if each number from 0 to `length - 1` is the number of exactly one receipt in the
/// lists.
///
/// # Errors
///
/// Returns `AllocError` if there is not enough memory for one byte for each number.
pub(crate) fn each_once(
    alloc: Global,
    length: usize,
    lists: &[Vec<CompactReceipt>],
) -> Result<bool, AllocError>
    ensures { IfOk result (λ once.
        IsTrue once
        ↔ ((k : ℕ) → k < length → places_of k (map (λ list. list.items) lists.now) ≡ 1)) }
{
    let mut marks = vec![in alloc; 0u8; length]?;
    for list in lists {
        mark_all(&mut marks, list);
    }
    Ok(all_are_one(&marks))
}

/// Counts the receipts of the list by their numbers. A receipt with the number k adds 1 to
/// `marks[k]`. Ignores a receipt if `marks` has no such index. A mark of 255 does not change.
fn mark_all(marks: &mut [u8], list: &[CompactReceipt])
    ensures len { length marks.new ≡ length marks.old }
    ensures marks { (k : ℕ)
        → k < length marks.old
        → slice_index marks.new k
        ≡ min (slice_index marks.old k + count_by (λ r. r.number == k) list.now) 255 }
{
    for kept in list {
        mark(marks, kept.receipt().number as usize);
    }
}

fn mark(marks: &mut [u8], number: usize)
    ensures len { length marks.new ≡ length marks.old }
    ensures marks { (k : ℕ)
        → k < length marks.old
        → slice_index marks.new k
        ≡ min (slice_index marks.old k + (if number == k then 1 else 0)) 255 }
{
    if number < marks.len() {
        marks[number] = marks[number].saturating_add(1);
    }
}

fn all_are_one(marks: &[u8]) -> bool
    ensures { IsTrue result ↔ ((k : ℕ) → k < length marks.now → slice_index marks.now k ≡ 1) }
{
    for at in 0..marks.len() {
        if marks[at] != 1 {
            return false;
        }
    }
    true
}
