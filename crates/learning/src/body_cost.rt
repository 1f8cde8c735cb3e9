//! The cost of a body. If the same paths match several bodies, the body with the lowest cost is
//! chosen.

use job_bodies::Action;

/// Returns true if `body` costs less than `other`. Also returns true if both cost the same and
/// `body` has fewer actions.
///
/// The cost of a body is the sum of [`peak_of`] over the classes that it submits. For a class, this
/// is the maximum number of jobs of the class that are open at the same time.
pub(crate) fn is_preferred(body: &[Action], other: &[Action]) -> bool {
    let peaks = sum_of_peaks(body);
    let other_peaks = sum_of_peaks(other);
    peaks < other_peaks || (peaks == other_peaks && body.len() < other.len())
}

fn sum_of_peaks(body: &[Action]) -> usize {
    let mut sum: usize = 0;
    for (position, action) in body.iter().enumerate() {
        if let Action::Submit(class) = *action {
            if is_first_submit(body, position, class) {
                sum = sum.saturating_add(peak_of(body, class));
            }
        }
    }
    sum
}

/// Returns true if no action before this index submits a job of the class.
fn is_first_submit(body: &[Action], position: usize, class: usize) -> bool {
    !body
        .iter()
        .take(position)
        .any(|action| submits(action, class))
}

/// Returns the maximum number of jobs of the class that are open in the body at the same time. A
/// job is open from its submit to its get.
fn peak_of(body: &[Action], class: usize) -> usize {
    let mut open: usize = 0;
    let mut peak: usize = 0;
    for action in body {
        if submits(action, class) {
            open = open.saturating_add(1);
            peak = peak.max(open);
        } else if gets_class(body, action, class) {
            open = open.saturating_sub(1);
        }
    }
    peak
}

fn submits(action: &Action, class: usize) -> bool {
    matches!(action, Action::Submit(submitted) if *submitted == class)
}

fn gets_class(body: &[Action], action: &Action, class: usize) -> bool {
    match action {
        Action::Get(submit) => match body.get(*submit) {
            Some(action) => submits(action, class),
            None => false,
        },
        Action::Work(_) | Action::Submit(_) => false,
    }
}
