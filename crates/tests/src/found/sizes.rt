//! The sizes that the search finds for a plan, in the lines that `fit` writes.

use job_bodies::Plan;
use plan_text::read_plan;
use report::{push_no_sizes, push_sizes};
use size_search::{SizesFound, search_sizes};
use std::alloc::{AllocError, Global};

/// Searches for sizes for the plan with this text. Returns the sizes that the search finds, as
/// lines, or the reason why it finds none. If the text is not a plan, returns the fault of the
/// text.
pub fn answer(alloc: Global, text: &str) -> Result<String, AllocError> {
    let mut lines = String::new(alloc);
    match read_plan(alloc, text.as_bytes()) {
        Ok(plan) => push_found(alloc, &mut lines, &plan)?,
        Err(fault) => writeln!(lines, "{fault}")?,
    }
    Ok(lines)
}

// Appends the lines of the sizes, or of the reason why there are none. Unlike the command `fit`,
// this function does not search for a certificate first.
fn push_found(alloc: Global, text: &mut String, plan: &Plan) -> Result<(), AllocError> {
    match search_sizes(alloc, plan, None)? {
        SizesFound::Found { plan: fit, .. } => {
            let _changes = push_sizes(text, plan, &fit)?;
            Ok(())
        }
        SizesFound::NotFound(cause) => push_no_sizes(text, plan, cause),
    }
}
