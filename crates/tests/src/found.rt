//! The answers of the search for sizes.

mod sizes;

use std::alloc::{AllocError, Global};

/// Searches for sizes for the plan with this text. Returns the sizes that the search finds, as
/// lines, or the reason why it finds none.
pub fn sizes_for(alloc: Global, plan: &[u8]) -> Result<String, AllocError> {
    let plan = String::from_utf8_lossy(alloc, plan)?;
    let lines = sizes::answer(alloc, plan.as_str())?;
    String::from_str(alloc, lines.as_str().trim_end())
}
