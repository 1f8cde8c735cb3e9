//! Annotations about sizes: one for each size to change, or one with the reason if no sizes were
//! found. In these functions, `rule` is the kind of the annotations, for example [`Rule::NotSafe`].
//! `declared` is a pool of the plan, and `fit` is the same pool with the sizes that were found.

ghost use Rattle.std.specs.Prelude.{◌≡◌, IfOk, decimal, option_map, string_bytes};
ghost use Rattle.report.specs.Annotations.{Adds};
ghost use Rattle.report.specs.Remarks as spec;

use crate::annotation::{Annotation, Rule};
use crate::annotations::push;
use crate::cause_lines::push_cause_words;
use crate::json_places::{cause_place, pool_places_at};
use crate::size_lines::{has_useless_max, push_max_size};
use diagnostics::{PlanPlaces, PoolPlaces};
use job_bodies::{Plan, Pool};
use plan_text::TextPlace;
use size_search::{NoSizes, SizesFound};
use std::alloc::{AllocError, Global};

/// Appends an annotation for each size that changes. If no sizes were found, appends one annotation
/// with the reason.
pub(crate) fn push_sizes_found(
    alloc: Global,
    found: &mut Vec<Annotation>,
    rule: Rule,
    places: &PlanPlaces,
    plan: &Plan,
    sizes: &SizesFound,
) -> Result<(), AllocError>
    ensures { Adds result found.old.items found.new.items
        (spec.sizes_remarks rule places.now plan.now sizes.now) }
{
    match sizes {
        SizesFound::Found { plan: fit, .. } => {
            push_changes(alloc, found, rule, places, plan, fit.pools())
        }
        SizesFound::NotFound(cause) => push_cause(alloc, found, rule, places, plan, *cause),
    }
}

// ---- sizes to change

fn push_changes(
    alloc: Global,
    found: &mut Vec<Annotation>,
    rule: Rule,
    places: &PlanPlaces,
    plan: &Plan,
    fitted: &[Pool],
) -> Result<(), AllocError>
    ensures { Adds result found.old.items found.new.items
        (spec.changes_remarks rule places.now plan.now fitted.now) }
{
    for (number, fit) in fitted.iter().enumerate() {
        push_fitted(alloc, found, rule, places, plan, number, fit)?;
    }
    Ok(())
}

fn push_fitted(
    alloc: Global,
    found: &mut Vec<Annotation>,
    rule: Rule,
    places: &PlanPlaces,
    plan: &Plan,
    number: usize,
    fit: &Pool,
) -> Result<(), AllocError>
    ensures { Adds result found.old.items found.new.items
        (spec.fitted_remarks rule places.now plan.now (number, fit.now)) }
{
    let places = pool_places_at(&places.pools, number);
    push_declared(alloc, found, rule, places, plan.pools().get(number), fit)
}

fn push_declared(
    alloc: Global,
    found: &mut Vec<Annotation>,
    rule: Rule,
    places: PoolPlaces,
    declared: Option<&Pool>,
    fit: &Pool,
) -> Result<(), AllocError>
    ensures { Adds result found.old.items found.new.items (spec.declared_remarks
        rule places (option_map (λ declared. declared.now) declared.entry) fit.now) }
{
    match declared {
        Some(declared) => push_pool(alloc, found, rule, places, declared, fit),
        None => Ok(()),
    }
}

fn push_pool(
    alloc: Global,
    found: &mut Vec<Annotation>,
    rule: Rule,
    places: PoolPlaces,
    declared: &Pool,
    fit: &Pool,
) -> Result<(), AllocError>
    ensures { Adds result found.old.items found.new.items
        (spec.pool_remarks rule places declared.now fit.now) }
{
    let pool = declared.name.as_str();
    let core = (declared.core, fit.core);
    push_change(alloc, found, rule, places.core, pool, "core", core)?;
    push_limits(alloc, found, rule, places, declared, fit)
}

/// Appends the annotations for changes of the pool's maximum and queue capacity.
fn push_limits(
    alloc: Global,
    found: &mut Vec<Annotation>,
    rule: Rule,
    places: PoolPlaces,
    declared: &Pool,
    fit: &Pool,
) -> Result<(), AllocError>
    ensures { Adds result found.old.items found.new.items
        (spec.limit_remarks rule places declared.now fit.now) }
{
    push_max(alloc, found, rule, places.max, declared, fit)?;
    push_queue(alloc, found, rule, places.queue, declared, fit)
}

/// Appends an annotation if the pool's maximum changes and has an effect.
fn push_max(
    alloc: Global,
    found: &mut Vec<Annotation>,
    rule: Rule,
    place: Option<TextPlace>,
    declared: &Pool,
    fit: &Pool,
) -> Result<(), AllocError>
    ensures { Adds result found.old.items found.new.items
        (spec.max_remarks rule place declared.now fit.now) }
{
    if has_useless_max(fit) || declared.max == fit.max {
        return Ok(());
    }
    let words = max_words(alloc, declared, fit)?;
    push(alloc, found, rule, &words, place)
}

/// Appends an annotation if the capacity of the pool's queue changes. Appends nothing if the queue
/// is unbounded, because the capacity then has no effect.
fn push_queue(
    alloc: Global,
    found: &mut Vec<Annotation>,
    rule: Rule,
    place: Option<TextPlace>,
    declared: &Pool,
    fit: &Pool,
) -> Result<(), AllocError>
    ensures { Adds result found.old.items found.new.items
        (spec.queue_remarks rule place declared.now fit.now) }
{
    if fit.unbounded {
        return Ok(());
    }
    let pool = declared.name.as_str();
    let queue = (declared.queue, fit.queue);
    push_change(alloc, found, rule, place, pool, "queue", queue)
}

/// Appends an annotation if a size of the pool changes. `key` is the name of the size, such as
/// `core`. The first element of `size` is the declared value, and the second element is the value
/// that was found.
fn push_change(
    alloc: Global,
    found: &mut Vec<Annotation>,
    rule: Rule,
    place: Option<TextPlace>,
    pool: &str,
    key: &str,
    size: (u64, u64),
) -> Result<(), AllocError>
    ensures { Adds result found.old.items found.new.items
        (spec.change_remarks rule place pool.now key.now size) }
{
    if size.0 == size.1 {
        return Ok(());
    }
    let words = change_words(alloc, pool, key, size)?;
    push(alloc, found, rule, &words, place)
}

fn max_words(alloc: Global, declared: &Pool, fit: &Pool) -> Result<String, AllocError>
    ensures { IfOk result (λ words. string_bytes words ≡ spec.max_words declared.now fit.now) }
{
    let mut words = String::new(alloc);
    let pool = declared.name.as_str();
    write!(words, "pool {pool}: max ")?;
    push_max_size(&mut words, declared)?;
    words.push_str(" -> ")?;
    push_max_size(&mut words, fit)?;
    Ok(words)
}

fn change_words(
    alloc: Global,
    pool: &str,
    key: &str,
    size: (u64, u64),
) -> Result<String, AllocError>
    ensures { IfOk result (λ words. string_bytes words
        ≡ spec.change_words pool.now key.now (decimal size.0) (decimal size.1)) }
{
    let declared = size.0;
    let fit = size.1;
    format!(in alloc; "pool {pool}: {key} {declared} -> {fit}")
}

// ---- the cause

fn push_cause(
    alloc: Global,
    found: &mut Vec<Annotation>,
    rule: Rule,
    places: &PlanPlaces,
    plan: &Plan,
    cause: NoSizes,
) -> Result<(), AllocError>
    ensures { Adds result found.old.items found.new.items
        (spec.cause_remarks rule places.now plan.now cause) }
{
    let mut words = String::new(alloc);
    push_cause_words(&mut words, plan, cause)?;
    push(alloc, found, rule, &words, cause_place(places, cause))
}
