//! Parsing of a whole plan.

ghost use Rattle.std.specs.Prelude.{◌≡◌, ◌≢◌, List, IfOk, IfErr, Ok, Err};
ghost use Rattle.support.specs.Results.{Gives};
ghost use Rattle.job_bodies.specs.Checks.{at_text};
ghost use Rattle.job_bodies.specs.Build.{plan_of_lists};
ghost use Rattle.job_bodies.specs.Plan as plans;
ghost use Rattle.plan_text.specs.EffectivePlan.{effective_plan};
ghost use Rattle.plan_text.specs.PlanOf as spec;

use crate::bodies::{classes_of, clients_of};
use crate::checks::{check_classes, check_clients, check_pools};
use crate::document::document_of;
use crate::entries::{ClassEntry, ClientEntry, Entries, entries_of};
use crate::fault::TextError;
use crate::names::Names;
use job_bodies::{Class, Client, Plan, PlanFault, Pool};
use std::alloc::Global;
use support::ReadError;
use support::number::MEMORY;

/// Parses the bytes of a plan.
///
/// The `max` and the `queue` of a pool are each an integer or the string `unbounded`:
///
/// - If `queue` is an integer, it is the capacity of the queue, and `max` is the maximum.
///   `max = "unbounded"` is then out of range.
/// - If `queue = "unbounded"`, the queue is unbounded. The parsed pool has a `queue` of 1,000,000,
///   which has no effect. If `max` is an integer, it must be in range.
///
/// The maximum of a pool with an unbounded queue depends on `core_timeout`:
///
/// - If `core_timeout = true`, the maximum is `max`, or [`MAX_THREADS`] for `max = "unbounded"`.
/// - Otherwise `max` has no effect, and the maximum is the core size.
///
/// [`MAX_THREADS`]: job_bodies::MAX_THREADS
///
/// # Errors
///
/// Returns the first fault of the bytes. If memory runs out, returns a fault with the number
/// [`MEMORY`], which says nothing about the bytes.
pub fn read_plan(alloc: Global, bytes: &[u8]) -> Result<Plan, PlanFault>
    ensures plan { IfOk result (λ plan. spec.plan_of bytes.now ≡ Ok plan) }
    ensures effective { IfOk result (λ plan. effective_plan plan ≡ plan) }
    ensures fault { IfErr result
        (λ fault. fault ≢ at_text MEMORY → spec.plan_of bytes.now ≡ Err fault) }
{
    match plan_of(alloc, bytes) {
        Ok(plan) => Ok(plan),
        Err(ReadError::Memory) => Err(PlanFault::at_text(MEMORY)),
        Err(ReadError::Fault(fault)) => Err(fault),
    }
}

/// Parses the bytes of a plan, and checks all rules of well-formed plans. Creates the plan without
/// [`Plan::build`], because `build` would check these rules again.
#[tactic(auto, unfolding(crate::specs::PlanOf::plan_of))]
fn plan_of(alloc: Global, bytes: &[u8]) -> Result<Plan, TextError>
    ensures { Gives (λ plan. plan) result (spec.plan_of bytes.now) }
{
    let document = document_of(alloc, bytes)?;
    let Entries {
        pools,
        classes,
        clients,
    } = entries_of(alloc, &document)?;
    let bodies = bodies_of(alloc, &pools, classes, &clients)?;
    Ok(Plan::of_well_formed(pools, bodies.classes, bodies.clients))
}

/// The classes and client kinds of a plan.
#[derive(Drop)]
struct Bodies {
    classes: Vec<Class>,
    clients: Vec<Client>,
}

fn bodies_of<'p, 'd: 'p>(
    alloc: Global,
    pools: &'p [Pool],
    classes: Vec<ClassEntry<'d>>,
    clients: &[ClientEntry<'d>],
) -> Result<Bodies, TextError>
    ensures { Gives (λ bodies. plan_of_lists pools.now bodies.classes.items bodies.clients.items) result
        (spec.plan_of_entries
        (record { pools = pools.now; classes = classes.entry.items; clients = clients.now })) }
{
    let names = names_of(alloc, pools, &classes, clients)?;
    named_bodies(alloc, &names.pools, &names.classes, classes, clients)
}

/// The names of the pools and of the classes of a plan.
#[derive(Drop)]
struct PlanNames<'p> {
    pools: Names<'p>,
    classes: Names<'p>,
}

/// Checks the names and numbers of a plan, and returns the names of its pools and classes.
#[tactic(auto, unfolding(crate::specs::PlanOf::names_of))]
fn names_of<'p>(
    alloc: Global,
    pools: &'p [Pool],
    classes: &[ClassEntry<'p>],
    clients: &[ClientEntry<'p>],
) -> Result<PlanNames<'p>, TextError>
    ensures { Gives (λ names. (names.pools, names.classes)) result
        (spec.names_of
        (record { pools = pools.now; classes = classes.now; clients = clients.now })) }
{
    let pools = check_pools(alloc, pools)?;
    let classes = check_classes(alloc, &pools, classes)?;
    check_clients(alloc, clients)?;
    Ok(PlanNames { pools, classes })
}

fn named_bodies<'p, 'd: 'p>(
    alloc: Global,
    pool_names: &Names<'p>,
    class_names: &Names<'p>,
    classes: Vec<ClassEntry<'d>>,
    clients: &[ClientEntry<'d>],
) -> Result<Bodies, TextError>
    ensures { (pools : List plans.Pool)
        → Gives (λ bodies. plan_of_lists pools bodies.classes.items bodies.clients.items) result
        (spec.plan_of_named pool_names.now class_names.now
        (record { pools = pools; classes = classes.entry.items; clients = clients.now })) }
{
    let classes = classes_of(alloc, pool_names, class_names, classes)?;
    let clients = clients_of(alloc, class_names, clients)?;
    Ok(Bodies { classes, clients })
}
