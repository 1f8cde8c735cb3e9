//! The reaches of classes. A certificate gives a rank to each pool and a reach to each class. These
//! numbers decide which gets are counted. A counted get can block a thread that other jobs need.
//!
//! A job depends on its own pool, and on the pools of all jobs that it gets, directly or through
//! other jobs. The reach of a class is the greatest rank of the pools on which its jobs depend.

ghost use Rattle.std.specs.Prelude.{◌≡◌, IfOk, length, vec_len};

use crate::numbers::{number_at, put_at};
use crate::{Levels, submitted_class};
use job_bodies::{Action, Class, Plan};
use std::alloc::{AllocError, Global};

/// Returns the reach of each class, given the ranks of the pools. A job depends on its own pool,
/// and on the pools of all jobs that it gets, directly or through other jobs. The reach of a class
/// is the greatest rank of the pools on which its jobs depend.
///
/// # Errors
///
/// Returns [`AllocError`] if memory runs out.
pub fn reach(
    alloc: Global,
    plan: &Plan,
    levels: &Levels,
    ranks: &[u64],
) -> Result<Vec<u64>, AllocError>
    ensures { IfOk result (λ reach. vec_len reach ≡ length plan.now.classes) }
{
    let mut reach = vec![in alloc; 0; plan.classes().len()]?;
    for number in &levels.order {
        if let Some(class) = plan.class_at(*number) {
            let reached = reach_of(&reach, ranks, class);
            put_at(&mut reach, *number, reached);
        }
    }
    Ok(reach)
}

/// Returns the reach of the class. `reach` must have the reach of each class whose jobs this class
/// gets.
fn reach_of(reach: &[u64], ranks: &[u64], class: &Class) -> u64 {
    let mut reached = number_at(ranks, class.pool);
    for action in &class.body {
        if let Action::Get(submit) = action {
            reached = reached.max(number_at(reach, submitted_class(&class.body, *submit)));
        }
    }
    reached
}
