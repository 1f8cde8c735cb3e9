//! A writer of the text of a plan.

ghost use Rattle.std.specs.Prelude.{◌≡◌, ◌≤◌, false, length, IfOk, Ok, string_bytes};
ghost use Rattle.std.specs.List.{list_any};
ghost use Rattle.job_bodies.specs.declared.limits.TheConstants.{MAX_PLAN_BYTES};
ghost use Rattle.plan_text.specs.EffectivePlan.{effective_plan};
ghost use Rattle.plan_text.specs.PlanDocument.{IsPlanText};
ghost use Rattle.plan_text.specs.PlanOf.{plan_of};

use crate::plan_values::plan_document;
use job_bodies::Plan;
use std::alloc::{AllocError, Global};

/// Writes a plan as TOML.
///
/// If the text has at most [`MAX_PLAN_BYTES`](job_bodies::MAX_PLAN_BYTES) bytes,
/// [`read_plan`](crate::read_plan) can parse it. The parsed plan then equals `plan`, except for
/// sizes that have no effect. These are sizes of pools with an unbounded queue:
///
/// - The parsed `queue` is 1,000,000.
/// - If the core threads of the pool never time out, the parsed maximum is the core size.
///
/// An unbounded queue is written as `queue = "unbounded"`. The maximum of a pool is written as
/// `max = "unbounded"` if the queue is unbounded, core threads may time out, and the maximum is
/// [`MAX_THREADS`](job_bodies::MAX_THREADS). Otherwise the maximum is written as a number.
///
/// A submit fills a slot if the body has a get of this submit. The name of the slot is `s` followed
/// by the position of the submit in its body, such as `s2`. Other submits fill no slot.
///
/// # Errors
///
/// Returns [`AllocError`] if memory runs out.
pub fn write_plan(alloc: Global, plan: &Plan) -> Result<String, AllocError>
    ensures document { IfOk result (λ text. IsPlanText plan.now (string_bytes text)) }
    ensures reads_back { IfOk result (λ text.
        length (string_bytes text) ≤ MAX_PLAN_BYTES
        → plan_of (string_bytes text) ≡ Ok (effective_plan plan.now)) }
    ensures bounded_reads_back { IfOk result (λ text.
        list_any (λ pool. pool.unbounded) plan.now.pools ≡ false
        → length (string_bytes text) ≤ MAX_PLAN_BYTES
        → plan_of (string_bytes text) ≡ Ok plan.now) }
{
    let document = plan_document(alloc, plan)?;
    match toml::table_to_string(alloc, &document) {
        Ok(text) => Ok(text),
        Err(_) => Err(AllocError),
    }
}
