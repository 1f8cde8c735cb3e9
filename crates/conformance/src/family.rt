//! The classes and client kinds of a plan that a label of a recording may refer to.

ghost use Rattle.std.specs.Prelude.{◌≡◌, ◌↔◌, false, nat_le, slice_get, IsTrue, IfOk};
ghost use Rattle.std.specs.Option.{option_map_or};
ghost use Rattle.job_bodies.specs.Plan.{pool_at, class_at};
ghost use Rattle.conformance.specs.Family as spec;

use job_bodies::Plan;
use std::alloc::{AllocError, Global};
use support::number_of;

/// Returns true if a class or a client kind with the name `name` belongs to the family of `label`.
/// The label is the name of a class or client kind in a recording. The result is true exactly if
/// `name` is one of these:
///
/// - the label itself;
/// - the label, `_` and a decimal number from 2 to 1,000,000,000 without leading zeros.
///
/// For example, `query`, `query_2` and `query_17` are of the family of `query`.
#[tactic(auto, unfolding(crate::specs::Family::is_of_family))]
pub fn is_of_family(label: &str, name: &str) -> bool
    ensures value { result ≡ spec.is_of_family label.now name.now }
    ensures names { IsTrue result ↔ spec.IsOfFamily label.now name.now }
{
    match name.as_bytes().strip_prefix(label.as_bytes()) {
        Some(end) => is_family_end(end),
        None => false,
    }
}

fn is_family_end(end: &[u8]) -> bool
    ensures { result ≡ spec.is_family_end end.now }
{
    match end.split_first() {
        Some((byte, digits)) => *byte == b'_' && is_from_two(number_of(digits)),
        None => true,
    }
}

fn is_from_two(number: Option<usize>) -> bool
    ensures { result ≡ option_map_or (nat_le 2) number false }
{
    match number {
        Some(number) => number >= 2,
        None => false,
    }
}

/// Returns the numbers of the classes that jobs of this label in this pool may belong to, in
/// ascending order.
///
/// # Errors
///
/// Returns [`AllocError`] if memory runs out.
#[tactic(auto, unfolding(crate::specs::Family::class_family))]
pub fn class_family(
    alloc: Global,
    plan: &Plan,
    label: &str,
    pool: &str,
) -> Result<Vec<usize>, AllocError>
    ensures { IfOk result (λ family. family.items ≡ spec.class_family plan.now label.now pool.now) }
{
    (0..plan.classes().len())
        .filter(|class| is_class_in_family(plan, label, pool, *class))
        .collect(alloc)
}

/// Returns the first class of the plan that jobs of this label in this pool may belong to, or
/// `None` if there is none. Does not allocate.
pub fn first_class(plan: &Plan, label: &str, pool: &str) -> Option<usize>
    ensures { result ≡ slice_get (spec.class_family plan.now label.now pool.now) 0 }
{
    for class in 0..plan.classes().len() {
        if is_class_in_family(plan, label, pool, class) {
            return Some(class);
        }
    }
    None
}

pub(crate) fn is_class_in_family(plan: &Plan, label: &str, pool: &str, class: usize) -> bool
    ensures { result ≡ spec.is_class_in_family plan.now label.now pool.now class }
{
    is_of_family(label, plan.class_name(class)) && pool_of_class(plan, class) == pool
}

/// Returns the name of the pool that runs the jobs of the class. If the plan has no class with this
/// number, returns the name of the first pool, or an empty name if there is no pool.
fn pool_of_class(plan: &Plan, class: usize) -> &str
    ensures { result.now ≡ (pool_at plan.now (class_at plan.now class).pool).name }
{
    plan.pool_name(plan.class_at(class).map_or(0, |class| class.pool))
}

/// Returns the numbers of the client kinds that rounds of this label may belong to, in ascending
/// order.
///
/// # Errors
///
/// Returns [`AllocError`] if memory runs out.
#[tactic(auto, unfolding(crate::specs::Family::client_family))]
pub fn client_family(alloc: Global, plan: &Plan, label: &str) -> Result<Vec<usize>, AllocError>
    ensures { IfOk result (λ family. family.items ≡ spec.client_family plan.now label.now) }
{
    (0..plan.clients().len())
        .filter(|client| is_client_in_family(plan, label, *client))
        .collect(alloc)
}

/// Returns the first client kind of the plan that rounds of this label may belong to, or `None` if
/// there is none. Does not allocate.
pub fn first_client(plan: &Plan, label: &str) -> Option<usize>
    ensures { result ≡ slice_get (spec.client_family plan.now label.now) 0 }
{
    for client in 0..plan.clients().len() {
        if is_client_in_family(plan, label, client) {
            return Some(client);
        }
    }
    None
}

pub(crate) fn is_client_in_family(plan: &Plan, label: &str, client: usize) -> bool
    ensures { result ≡ spec.is_client_in_family plan.now label.now client }
{
    is_of_family(label, plan.client_name(client))
}
