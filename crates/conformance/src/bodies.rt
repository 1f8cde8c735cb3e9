//! The bodies of a plan, by the numbers of their classes and client kinds.

ghost use Rattle.std.specs.Prelude.{◌≡◌, ◌≤◌, length};
ghost use Rattle.job_bodies.specs.declared.limits.TheConstants.{MAX_ACTIONS};
ghost use Rattle.conformance.specs.FamilyMatch as spec;

use job_bodies::{Action, Plan};

/// Returns the body of a class, or an empty body if there is no such class.
pub(crate) fn class_body(plan: &Plan, class: usize) -> &[Action]
    ensures value { result.now ≡ spec.class_body plan.now class }
    ensures short { length result.now ≤ MAX_ACTIONS }
{
    match plan.classes().get(class) {
        Some(class) => class.body.as_slice(),
        None => &[],
    }
}

/// Returns the body of a client kind, or an empty body if there is no such kind.
pub(crate) fn client_body(plan: &Plan, client: usize) -> &[Action]
    ensures value { result.now ≡ spec.client_body plan.now client }
    ensures short { length result.now ≤ MAX_ACTIONS }
{
    match plan.clients().get(client) {
        Some(client) => client.body.as_slice(),
        None => &[],
    }
}
