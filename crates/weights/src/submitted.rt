//! The classes that clients submit, directly or through other jobs.

use job_bodies::{Action, Plan};
use std::alloc::{AllocError, Global};

/// Returns, for each class, whether clients submit it, directly or through other jobs. In `order`,
/// each class must come after all classes that it submits.
pub(crate) fn submitted_classes(
    alloc: Global,
    plan: &Plan,
    order: &[usize],
) -> Result<Vec<bool>, AllocError> {
    let mut submitted = vec![in alloc; false; plan.classes().len()]?;
    for client in plan.clients() {
        add_submits(&mut submitted, &client.body);
    }
    for number in order.iter().rev() {
        if submitted.get(*number).copied().unwrap_or(false) {
            if let Some(class) = plan.class_at(*number) {
                add_submits(&mut submitted, &class.body);
            }
        }
    }
    Ok(submitted)
}

/// Marks in `submitted` the classes that the body submits.
fn add_submits(submitted: &mut [bool], body: &[Action]) {
    for action in body {
        if let Action::Submit(class) = action {
            if let Some(submitted) = submitted.get_mut(*class) {
                *submitted = true;
            }
        }
    }
}
