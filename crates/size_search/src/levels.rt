//! The levels, ranks and reaches of the steady certificate. The level of a class is above the
//! levels of the classes that it submits.

ghost use Rattle.std.specs.Prelude.{◌≡◌, ◌+◌, IfOk, length, slice_index};
ghost use Rattle.job_bodies.specs.WellFormed.{IsWellFormed};
ghost use Rattle.size_search.specs.Steady as spec;

use crate::job_graphs::{submit_graph, wait_graph};
use job_bodies::Plan;
use std::alloc::{AllocError, Global};

/// Returns the number at index `place`, or 0 if the list has no such index.
pub(crate) fn number_at(numbers: &[u64], place: usize) -> u64
    ensures { result ≡ slice_index numbers.now place }
{
    if place < numbers.len() {
        numbers[place]
    } else {
        0
    }
}

/// Returns the level of each class in the steady certificate: 0 if the class submits no class, and
/// otherwise 1 more than the greatest level of the classes that it submits. The result is
/// meaningful only if no class submits itself, directly or through other classes.
pub(crate) fn steady_levels(alloc: Global, plan: &Plan) -> Result<Vec<u64>, AllocError>
    ensures levels { IfOk result (λ levels. levels.items ≡ spec.steady_levels plan.now) }
    ensures well_formed { IsWellFormed plan.now }
{
    let graph = submit_graph(alloc, plan)?;
    graph.levels(alloc)
}

/// Returns the reach of each class, and then the rank of each pool, in the steady certificate. If
/// the core threads of some pool may time out, these numbers are the levels of the nodes of the
/// graph of waits (see [`levels_of_waits`]). Otherwise they are all 0.
pub(crate) fn wait_levels(alloc: Global, plan: &Plan) -> Result<Vec<u64>, AllocError>
    ensures levels { IfOk result (λ levels. levels.items ≡ spec.wait_levels plan.now) }
    ensures well_formed { IsWellFormed plan.now }
{
    if has_core_timeouts(plan) {
        levels_of_waits(alloc, plan)
    } else {
        vec![in alloc; 0; plan.classes().len() + plan.pools().len()]
    }
}

/// Returns whether the core threads of some pool may time out.
fn has_core_timeouts(plan: &Plan) -> bool
    ensures has { result ≡ spec.has_core_timeouts plan.now }
    ensures well_formed { IsWellFormed plan.now }
{
    plan.pools().iter().any(|pool| pool.core_timeout)
}

/// Returns the level of each node of the graph of waits (see [`wait_graph`]), with every class
/// marked. The level of a node is 0 if it has no successors, and otherwise 1 more than the greatest
/// level of its successors.
fn levels_of_waits(alloc: Global, plan: &Plan) -> Result<Vec<u64>, AllocError>
    requires { IsWellFormed plan.now }
    ensures { IfOk result (λ levels. levels.items ≡ spec.levels_of_waits plan.now) }
{
    let marks = vec![in alloc; true; plan.classes().len()]?;
    let graph = wait_graph(alloc, plan, &marks)?;
    graph.levels(alloc)
}
