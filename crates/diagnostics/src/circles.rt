//! The search for a circle of submits that leads from a class back to itself.

use job_bodies::{Action, Plan};
use std::alloc::{AllocError, Global};

/// A breadth-first search for a shortest circle of submits. A circle of submits leads from a class,
/// possibly through other classes, back to the same class.
#[derive(Drop)]
struct CircleSearch {
    /// For each class C, the class in whose body the search first found a submit of C, or `None` if
    /// the search has found no submit of C.
    submitters: Vec<Option<usize>>,
    /// The classes that were found, in the order in which they were found.
    found: Vec<usize>,
}

impl CircleSearch {
    fn new(alloc: Global, plan: &Plan) -> Result<CircleSearch, AllocError> {
        Ok(CircleSearch {
            submitters: vec![in alloc; None; plan.classes().len()]?,
            found: Vec::new(alloc),
        })
    }

    /// Adds a class to the search, with `submitter` as the class that submits it. Changes nothing
    /// if the search has already found the class.
    fn add(&mut self, class: usize, submitter: usize) -> Result<(), AllocError> {
        if let Some(entry) = self.submitters.get_mut(class)
            && entry.is_none()
        {
            *entry = Some(submitter);
            self.found.push(class)?;
        }
        Ok(())
    }

    /// Adds the classes that the body of the class submits.
    fn add_body(&mut self, plan: &Plan, class: usize) -> Result<(), AllocError> {
        if let Some(submitter) = plan.class_at(class) {
            for action in &submitter.body {
                if let Action::Submit(submitted) = *action {
                    self.add(submitted, class)?;
                }
            }
        }
        Ok(())
    }

    /// Adds all classes that the class submits, directly or through other classes.
    fn add_all(&mut self, plan: &Plan, class: usize) -> Result<(), AllocError> {
        self.add_body(plan, class)?;
        for position in 0..plan.classes().len() {
            if let Some(next) = self.found.get(position).copied() {
                self.add_body(plan, next)?;
            }
        }
        Ok(())
    }

    /// Returns the class in whose body the search first found a submit of `class`. Returns `None`
    /// if the search has found no such submit.
    fn submitter_of(&self, class: usize) -> Option<usize> {
        self.submitters.get(class).copied().flatten()
    }
}

/// Returns the other classes on a shortest circle of submits from the class back to itself, in
/// order. The list is empty if the class submits itself directly, or does not submit itself.
pub(crate) fn classes_between(
    alloc: Global,
    plan: &Plan,
    class: usize,
) -> Result<Vec<usize>, AllocError> {
    let mut search = CircleSearch::new(alloc, plan)?;
    search.add_all(plan, class)?;
    let mut between = Vec::new(alloc);
    push_submitters(&mut between, &search, plan, class)?;
    between.reverse();
    Ok(between)
}

/// Appends the classes through which the class submits itself, in reverse order. The first of them
/// submits `class`, and each later one submits the one before it.
fn push_submitters(
    between: &mut Vec<usize>,
    search: &CircleSearch,
    plan: &Plan,
    class: usize,
) -> Result<(), AllocError> {
    let mut last = class;
    for _step in 0..plan.classes().len() {
        match search.submitter_of(last) {
            Some(submitter) if submitter != class => {
                between.push(submitter)?;
                last = submitter;
            }
            _ => break,
        }
    }
    Ok(())
}
