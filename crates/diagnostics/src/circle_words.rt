//! The message for a class that submits itself.

ghost use Rattle.std.specs.Prelude.{◌≡◌, ◌<◌, IfOk, IsTrue, length, string_bytes};
ghost use Rattle.support.specs.Pushed.{Pushes};
ghost use Rattle.diagnostics.specs.Circles as spec;

use crate::circles::classes_between;
use job_bodies::{Action, Plan};
use std::alloc::{AllocError, Global};

/// Returns the message that a class submits itself. If the class submits itself through other
/// classes, the message lists the submits, as in
/// `class a submits itself: a submits b, b submits a`.
pub(crate) fn words_of_circle(
    alloc: Global,
    plan: &Plan,
    class: usize,
) -> Result<String, AllocError>
    ensures { IfOk result (λ words. spec.ReportsCircle plan.now class (string_bytes words)) }
{
    let between = classes_between(alloc, plan, class)?;
    let circle = checked_circle(plan, class, &between);
    let words = words_through(alloc, plan, class, circle)?;
    Ok(words)
}

/// Returns `between` if the class submits itself through these classes, in this order. Otherwise
/// returns an empty list. So a message lists only submits that the plan has.
fn checked_circle<'a>(plan: &Plan, class: usize, between: &'a [usize]) -> &'a [usize]
    ensures { 0 < length result.now → IsTrue (spec.submits_through plan.now class result.now class) }
{
    if submits_through(plan, class, between, class) {
        between
    } else {
        &[]
    }
}

/// Returns the message that a class submits itself. If `between` is not empty, the message also
/// lists the submits that lead from the class through the classes in `between` back to the class.
fn words_through(
    alloc: Global,
    plan: &Plan,
    class: usize,
    between: &[usize],
) -> Result<String, AllocError>
    ensures { IfOk result
        (λ words. string_bytes words ≡ spec.circle_words plan.now class between.now) }
{
    let mut words = String::new(alloc);
    push_itself(&mut words, plan.class_name(class))?;
    push_circle(&mut words, plan, class, between)?;
    Ok(words)
}

fn push_itself(words: &mut String, name: &str) -> Result<(), AllocError>
    ensures { Pushes result words.old words.new (spec.itself_words name.now) }
{
    write!(words, "class {name} submits itself")
}

/// Appends a colon and the submits of a circle, such as `: a submits b, b submits a`. The circle
/// leads from the class through the classes in `between` back to the class. Appends nothing if
/// `between` is empty.
fn push_circle(
    words: &mut String,
    plan: &Plan,
    class: usize,
    between: &[usize],
) -> Result<(), AllocError>
    ensures { Pushes result words.old words.new (spec.circle_part plan.now class between.now) }
{
    if between.is_empty() {
        return Ok(());
    }
    words.push_str(": ")?;
    push_steps(words, plan, class, between, class)
}

/// Appends the submits from each class to the next one, such as `a submits b, b submits c`. The
/// first class is `from`, the next ones are in `between`, and the last one is `to`.
fn push_steps(
    words: &mut String,
    plan: &Plan,
    mut from: usize,
    mut between: &[usize],
    to: usize,
) -> Result<(), AllocError>
    ensures { Pushes result words.old words.new (spec.steps_words plan.now from between.now to) }
{
    while let Some((next, rest)) = between.split_first() {
        push_step_before(words, plan, from, *next)?;
        from = *next;
        between = rest;
    }
    push_step(words, plan, from, to)
}

fn push_step_before(
    words: &mut String,
    plan: &Plan,
    from: usize,
    to: usize,
) -> Result<(), AllocError>
    ensures { Pushes result words.old words.new (spec.step_before plan.now from to) }
{
    push_step(words, plan, from, to)?;
    words.push_str(", ")
}

fn push_step(words: &mut String, plan: &Plan, from: usize, to: usize) -> Result<(), AllocError>
    ensures { Pushes result words.old words.new (spec.step_words plan.now from to) }
{
    words.push_str(plan.class_name(from))?;
    words.push_str(" submits ")?;
    words.push_str(plan.class_name(to))
}

/// Returns whether each class of a chain submits the next one directly. The chain is the class
/// `from`, then the classes in `between`, and then the class `to`.
fn submits_through(plan: &Plan, mut from: usize, mut between: &[usize], to: usize) -> bool
    ensures { result ≡ spec.submits_through plan.now from between.now to }
{
    while let Some((next, rest)) = between.split_first() {
        if !submits_class(plan, from, *next) {
            return false;
        }
        from = *next;
        between = rest;
    }
    submits_class(plan, from, to)
}

/// Returns whether the body of the class `from` submits the class `to`.
fn submits_class(plan: &Plan, from: usize, to: usize) -> bool
    ensures { result ≡ spec.submits_class plan.now from to }
{
    match plan.class_at(from) {
        Some(class) => class.body.iter().any(|action| is_submit_of(to, *action)),
        None => false,
    }
}

fn is_submit_of(class: usize, action: Action) -> bool
    ensures { result ≡ spec.is_submit_of class action }
{
    match action {
        Action::Submit(submitted) => submitted == class,
        Action::Work(_) | Action::Get(_) => false,
    }
}
