//! The classes that clients submit, directly or through other jobs.

ghost use Rattle.std.specs.Prelude.{IfOk};
ghost use Rattle.size_search.specs.ByClients.{MarksSubmitted, MarksRepeated};
ghost use Rattle.size_search.specs.JobGraphs as spec;
ghost use Rattle.size_search.specs.Marks.{MarksReached};

use crate::job_graphs::{client_submits, submit_graph};
use job_bodies::Plan;
use std::alloc::{AllocError, Global};

/// Returns, for each class, whether clients submit it, directly or through other jobs.
///
/// # Errors
///
/// Returns [`AllocError`] if memory runs out.
pub fn submitted_by_clients(alloc: Global, plan: &Plan) -> Result<Vec<bool>, AllocError>
    ensures { IfOk result (λ marks. MarksSubmitted plan.now marks.items) }
{
    submitted_classes(alloc, plan, false)
}

/// Returns, for each class, whether repeating clients submit it, directly or through other jobs.
///
/// # Errors
///
/// Returns [`AllocError`] if memory runs out.
pub fn submitted_repeatedly(alloc: Global, plan: &Plan) -> Result<Vec<bool>, AllocError>
    ensures { IfOk result (λ marks. MarksRepeated plan.now marks.items) }
{
    submitted_classes(alloc, plan, true)
}

/// Returns, for each class, whether clients submit it, directly or through other jobs. If
/// `repeating` is `true`, only repeating clients count.
fn submitted_classes(alloc: Global, plan: &Plan, repeating: bool) -> Result<Vec<bool>, AllocError>
    ensures { IfOk result (λ marks.
        MarksReached (spec.submit_graph plan.now) (spec.client_submits plan.now repeating) marks.items) }
{
    let first = client_submits(alloc, plan, repeating)?;
    let graph = submit_graph(alloc, plan)?;
    graph.reached_from(alloc, &first)
}
