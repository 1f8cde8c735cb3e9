//! Narrowing of a path: each job keeps at most one of the classes that it may belong to.

ghost use Rattle.std.specs.Prelude.{◌≡◌, Some, Contains, IfOk, IfSome};
ghost use Rattle.std.specs.Option.{option_to_list};
ghost use Rattle.conformance.specs.Path as path;
ghost use Rattle.conformance.specs.Narrowing.{IsNarrowerStep, IsNarrower};

use crate::step::PathStep;
use job_bodies::Action;
use std::alloc::{AllocError, Global};

/// A rule that picks a class for each job in a path that is matched against a body. It picks only a
/// class that the job may belong to and that the body submits. If it finds none, it picks none.
#[derive(Clone, Copy)]
pub(crate) enum Pick {
    /// The first of the job's classes that the body submits.
    First,
    /// The last of the job's classes that the body submits.
    Last,
    /// The class of the next fitting submit of the body. A submit fits if it submits one of the
    /// job's classes. The search for the path's first job starts at the start of the body. For each
    /// later job, the search continues after the submit that was found last.
    InOrder,
}

/// Narrows the path: each job keeps only the class that the rule `pick` picks. If the rule picks no
/// class for a job, the job has no classes in the result.
///
/// # Errors
///
/// Returns [`AllocError`] if memory runs out.
pub(crate) fn narrowed(
    alloc: Global,
    body: &[Action],
    path: &[PathStep],
    pick: Pick,
) -> Result<Vec<PathStep>, AllocError>
    ensures { IfOk result (λ fewer. IsNarrower fewer.items path.now) }
{
    let mut fewer = Vec::with_capacity(alloc, path.len())?;
    let mut from = 0;
    for step in path {
        let narrower = narrowed_step(alloc, body, &mut from, step, pick)?;
        fewer.push(narrower)?;
    }
    Ok(fewer)
}

/// Narrows one step of a path. A submit keeps only the class that `pick` picks, or no class if the
/// rule picks none. A get is unchanged. [`Pick::InOrder`] searches the body from index `from`, and
/// moves `from` past the submit that it finds.
fn narrowed_step(
    alloc: Global,
    body: &[Action],
    from: &mut usize,
    step: &PathStep,
    pick: Pick,
) -> Result<PathStep, AllocError>
    ensures { IfOk result (λ narrower. IsNarrowerStep narrower step.now) }
{
    match step {
        PathStep::Submits(classes) => {
            let picked = picked_class(body, from, classes, pick);
            let fewer = one_class(alloc, picked)?;
            Ok(PathStep::Submits(fewer))
        }
        PathStep::Gets(job) => Ok(PathStep::Gets(*job)),
    }
}

/// Returns a list with only the picked class, or an empty list if no class was picked.
fn one_class(alloc: Global, picked: Option<usize>) -> Result<Vec<usize>, AllocError>
    ensures { IfOk result (λ fewer. fewer.items ≡ option_to_list picked) }
{
    let mut fewer = Vec::new(alloc);
    if let Some(class) = picked {
        fewer.push(class)?;
    }
    Ok(fewer)
}

/// Returns the class that the rule `pick` picks for a job, or `None` if the rule picks none.
/// `classes` has the classes of the job. [`Pick::InOrder`] searches the body from index `from`, and
/// moves `from` past the submit that it finds. The other rules do not use `from`.
fn picked_class(body: &[Action], from: &mut usize, classes: &[usize], pick: Pick) -> Option<usize>
    ensures { IfSome result (λ class. Contains classes.now class) }
{
    match pick {
        Pick::First => first_class(body, classes),
        Pick::Last => last_class(body, classes),
        Pick::InOrder => next_class(body, from, classes),
    }
}

/// Returns the first class in `classes` that the body submits, or `None` if the body submits none
/// of the classes.
fn first_class(body: &[Action], classes: &[usize]) -> Option<usize>
    ensures { IfSome result (λ class. Contains classes.now class) }
{
    for class in classes {
        if has_submit_of(body, *class) {
            return Some(*class);
        }
    }
    None
}

/// Returns the last class in `classes` that the body submits, or `None` if the body submits none of
/// the classes.
fn last_class(body: &[Action], classes: &[usize]) -> Option<usize>
    ensures { IfSome result (λ class. Contains classes.now class) }
{
    let mut last = None;
    for class in classes {
        if has_submit_of(body, *class) {
            last = Some(*class);
        }
    }
    last
}

/// Searches the body for a submit of one of the classes. The search starts at index `from`. Returns
/// the class of the first such submit, and moves `from` past this submit. Returns `None` if there
/// is no such submit.
fn next_class(body: &[Action], from: &mut usize, classes: &[usize]) -> Option<usize>
    ensures { IfSome result (λ class. Contains classes.now class) }
{
    for index in *from..body.len() {
        if let Action::Submit(class) = body[index] {
            if classes.contains(&class) {
                *from = index + 1;
                return Some(class);
            }
        }
    }
    None
}

/// Returns true if the body submits jobs of the class.
fn has_submit_of(body: &[Action], class: usize) -> bool
    ensures { result ≡ path.has_submit_of body.now class }
{
    body.iter().any(|action| is_submit_of(class, *action))
}

fn is_submit_of(class: usize, action: Action) -> bool
    ensures { result ≡ path.is_submit_of class (Some action) }
{
    match action {
        Action::Submit(other) => other == class,
        Action::Work(_) | Action::Get(_) => false,
    }
}
