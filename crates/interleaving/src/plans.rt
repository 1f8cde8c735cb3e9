//! Look-ups in a plan.

ghost use Rattle.std.specs.Prelude.{◌≡◌, slice_index_or};
ghost use Rattle.job_bodies.specs.Plan.{no_class, no_client, pool_at};
ghost use Rattle.pool_machine.specs.State.{pool_of};

use job_bodies::{Action, Class, Client, Plan};

/// Returns the number of the pool that runs the jobs of this class, or 0 if there is no such class.
pub(crate) fn pool_of(plan: &Plan, class: usize) -> usize
    ensures { result ≡ pool_of plan.now class }
{
    plan.class_at(class).map_or(0, |class| class.pool)
}

/// Returns whether the pool with this number may reject jobs. Returns `false` if there is no such
/// pool.
pub(crate) fn may_reject(plan: &Plan, pool: usize) -> bool
    ensures { result ≡ (pool_at plan.now pool).may_reject }
{
    plan.pool_at(pool).is_some_and(|pool| pool.may_reject)
}

/// Returns the body of the class with this number, or an empty body if there is no such class.
pub(crate) fn body_of_class(classes: &[Class], class: usize) -> &[Action]
    ensures { result.now ≡ (slice_index_or classes.now class no_class).body }
{
    match classes.get(class) {
        Some(class) => &class.body,
        None => &[],
    }
}

/// Returns the body of the client kind with this number, or an empty body if there is no such kind.
pub(crate) fn body_of_kind(kinds: &[Client], kind: usize) -> &[Action]
    ensures { result.now ≡ (slice_index_or kinds.now kind no_client).body }
{
    match kinds.get(kind) {
        Some(kind) => &kind.body,
        None => &[],
    }
}
