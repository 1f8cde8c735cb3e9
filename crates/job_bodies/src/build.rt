//! The checks of the lists of a plan. Faults are reported in the order of these checks.

ghost use Rattle.std.specs.Prelude.{◌≡◌, List, length, map, take};
ghost use Rattle.support.specs.Reading.{check_each};
ghost use Rattle.job_bodies.specs.declared.fault.Part.TheVariants as part;
ghost use Rattle.job_bodies.specs.Plan as spec;
ghost use Rattle.job_bodies.specs.Checks.{check_pool, check_class, check_client, check_length, check_body};
ghost use Rattle.job_bodies.specs.Build.{plan_of_lists, check_counts, check_lengths, check_entries, check_bodies};

use crate::checks::{check_body, check_class, check_client, check_length, check_pool};
use crate::fault::ensure;
use crate::limits::{MAX_CLASSES, MAX_CLIENT_KINDS, MAX_POOLS};
use crate::{Class, Client, Part, PlanFault, Pool};
use support::number::TOO_MANY;

/// Checks that the lists of pools, classes and client kinds do not have more entries than a plan
/// may have.
pub(crate) fn check_counts(
    pools: &[Pool],
    classes: &[Class],
    clients: &[Client],
) -> Result<(), PlanFault>
    ensures { result ≡ check_counts (plan_of_lists pools.now classes.now clients.now) }
{
    let few_pools = pools.len() <= MAX_POOLS;
    ensure(few_pools, PlanFault::at_text(TOO_MANY))?;
    let few_classes = classes.len() <= MAX_CLASSES;
    ensure(few_classes, PlanFault::at_text(TOO_MANY))?;
    let few_clients = clients.len() <= MAX_CLIENT_KINDS;
    ensure(few_clients, PlanFault::at_text(TOO_MANY))
}

#[tactic(auto, using(crate::proofs::Loops::check_each_turn))]
fn check_class_lengths(classes: &[Class]) -> Result<(), PlanFault>
    ensures { result
        ≡ check_each (λ index class. check_length part.Class index class.body) 0 classes.now }
{
    for (index, class) in classes.iter().enumerate() {
        check_length(Part::Class, index, &class.body)?;
    }
    Ok(())
}

#[tactic(auto, using(crate::proofs::Loops::check_each_turn))]
fn check_client_lengths(clients: &[Client]) -> Result<(), PlanFault>
    ensures { result
        ≡ check_each (λ index client. check_length part.Client index client.body) 0 clients.now }
{
    for (index, client) in clients.iter().enumerate() {
        check_length(Part::Client, index, &client.body)?;
    }
    Ok(())
}

/// Checks that each body has at most the maximum number of actions.
pub(crate) fn check_lengths(classes: &[Class], clients: &[Client]) -> Result<(), PlanFault>
    ensures { (pools : List spec.Pool)
        → result ≡ check_lengths (plan_of_lists pools classes.now clients.now) }
{
    check_class_lengths(classes)?;
    check_client_lengths(clients)
}

#[tactic(auto, using(crate::proofs::Loops::check_each_turn))]
fn check_pools(pools: &[Pool]) -> Result<(), PlanFault>
    ensures { let names = map (λ pool. pool.name) pools.now in
        result ≡ check_each (λ index. check_pool (take index names) index) 0 pools.now }
{
    for index in 0..pools.len() {
        check_pool(pools, index)?;
    }
    Ok(())
}

#[tactic(auto, using(crate::proofs::Loops::check_each_turn))]
fn check_classes(pools: usize, classes: &[Class]) -> Result<(), PlanFault>
    ensures { let names = map (λ class. class.name) classes.now in
        result ≡ check_each (λ index. check_class pools (take index names) index) 0 classes.now }
{
    for index in 0..classes.len() {
        check_class(pools, classes, index)?;
    }
    Ok(())
}

#[tactic(auto, using(crate::proofs::Loops::check_each_turn))]
fn check_clients(clients: &[Client]) -> Result<(), PlanFault>
    ensures { let names = map (λ client. client.name) clients.now in
        result ≡ check_each (λ index. check_client (take index names) index) 0 clients.now }
{
    for index in 0..clients.len() {
        check_client(clients, index)?;
    }
    Ok(())
}

/// Checks the names and the numbers of each pool, then of each class, and then of each client kind.
pub(crate) fn check_entries(
    pools: &[Pool],
    classes: &[Class],
    clients: &[Client],
) -> Result<(), PlanFault>
    ensures { result ≡ check_entries (plan_of_lists pools.now classes.now clients.now) }
{
    check_pools(pools)?;
    check_classes(pools.len(), classes)?;
    check_clients(clients)
}

#[tactic(auto, using(crate::proofs::Loops::check_each_turn))]
fn check_class_bodies(classes: &[Class]) -> Result<(), PlanFault>
    ensures { let count = length classes.now in
        result ≡ check_each (λ index class. check_body count part.Class index class.body) 0 classes.now }
{
    for (index, class) in classes.iter().enumerate() {
        check_body(classes.len(), Part::Class, index, &class.body)?;
    }
    Ok(())
}

#[tactic(auto, using(crate::proofs::Loops::check_each_turn))]
fn check_client_bodies(classes: usize, clients: &[Client]) -> Result<(), PlanFault>
    ensures { result
        ≡ check_each (λ index client. check_body classes part.Client index client.body) 0
        clients.now }
{
    for (index, client) in clients.iter().enumerate() {
        check_body(classes, Part::Client, index, &client.body)?;
    }
    Ok(())
}

/// Checks each action in the body of each class, and then each action in the body of each client
/// kind.
pub(crate) fn check_bodies(classes: &[Class], clients: &[Client]) -> Result<(), PlanFault>
    ensures { (pools : List spec.Pool)
        → result ≡ check_bodies (plan_of_lists pools classes.now clients.now) }
{
    check_class_bodies(classes)?;
    check_client_bodies(classes.len(), clients)
}
