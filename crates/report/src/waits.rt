//! The waits between pools. A pool P waits for a pool Q if a job of P gets a job of Q.

ghost use Rattle.std.specs.Prelude.{◌≡◌, option_map};
ghost use Rattle.std.specs.List.{list_any};
ghost use Rattle.report.specs.Waits as spec;

use job_bodies::{Action, Class, Plan};

/// Returns whether some job of the first pool gets a job of the second pool. `pool` is the number
/// of the first pool, and `other` is the number of the second pool. The two can be the same pool.
pub fn waits_for(plan: &Plan, pool: usize, other: usize) -> bool
    ensures { result ≡ spec.waits_for plan.now pool other }
{
    plan.classes()
        .iter()
        .any(|class| class_waits_for(plan, pool, other, class))
}

fn class_waits_for(plan: &Plan, pool: usize, other: usize, class: &Class) -> bool
    ensures { result ≡ spec.class_waits_for plan.now pool other class.now }
{
    class.pool == pool && gets_any_of(plan, &class.body, other)
}

fn gets_any_of(plan: &Plan, body: &[Action], pool: usize) -> bool
    ensures { result ≡ list_any (spec.gets_of plan.now body.now pool) body.now }
{
    body.iter().any(|action| gets_of(plan, body, pool, *action))
}

fn gets_of(plan: &Plan, body: &[Action], pool: usize, action: Action) -> bool
    ensures { result ≡ spec.gets_of plan.now body.now pool action }
{
    match action {
        Action::Get(submit) => submits_to(plan, pool, body.get(submit).copied()),
        Action::Work(_) | Action::Submit(_) => false,
    }
}

fn submits_to(plan: &Plan, pool: usize, action: Option<Action>) -> bool
    ensures { result ≡ spec.submits_to plan.now pool action }
{
    match action {
        Some(Action::Submit(class)) => is_of_pool(pool, plan.classes().get(class)),
        Some(Action::Work(_) | Action::Get(_)) | None => false,
    }
}

fn is_of_pool(pool: usize, class: Option<&Class>) -> bool
    ensures { result ≡ spec.is_of_pool pool (option_map (λ class. class.now) class.entry) }
{
    match class {
        Some(class) => class.pool == pool,
        None => false,
    }
}
