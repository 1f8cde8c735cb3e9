//! The JSON answer about a plan.

ghost use Rattle.std.specs.Prelude.{◌≡◌, IfOk};
ghost use Rattle.serde_json.specs.View.{view};
ghost use Rattle.report.specs.Json as spec;

use crate::PlanFinding;
use crate::json_answers::{FORMAT, word_of};
use crate::json_object::Object;
use crate::json_plan::plan_value;
use crate::json_pools::pools_value;
use crate::json_sizes::sizes_value;
use crate::json_values::empty_list;
use crate::json_warnings::warnings_value;
use crate::json_witness::witness_value;
use crate::version::VERSION;
use diagnostics::{PlanPlaces, Warning};
use job_bodies::Plan;
use serde_json::{Value, json};
use std::alloc::{AllocError, Global};

/// Creates the JSON object of the answer about a plan. `file` is the name of the plan's file, and
/// `text` is the text from which the plan was read.
pub(crate) fn finding_value(
    alloc: Global,
    file: &str,
    text: &[u8],
    places: &PlanPlaces,
    plan: &Plan,
    finding: &PlanFinding,
    warnings: &[Warning],
) -> Result<Value, AllocError>
    ensures { IfOk result (λ value. view value ≡ spec.finding_data
        file.now text.now places.now plan.now finding.now warnings.now) }
{
    Object::new(alloc)
        .text("answer", word_of(finding))
        .part("assumptions", assumptions_value(alloc, finding))
        .value("faults", empty_list(alloc))
        .text("file", file)
        .value("format", Value::from(FORMAT))
        .value("omitted", Value::from(0u8))
        .part("plan", plan_value(alloc, text, places, plan))
        .part("pools", pools_of(alloc, plan, finding))
        .part("sizes", sizes_of(alloc, places, plan, finding))
        .text("version", VERSION)
        .part("warnings", warnings_value(alloc, warnings))
        .part("witness", witness_of(alloc, places, plan, finding))
        .done()
}

/// Returns a JSON list of the assumptions on which the answer SAFE depends. The list is empty if
/// the answer is not SAFE.
fn assumptions_value(alloc: Global, finding: &PlanFinding) -> Result<Value, AllocError>
    ensures { IfOk result (λ value. view value ≡ spec.assumptions_data finding.now) }
{
    match finding {
        PlanFinding::Safe(_, _) => safe_assumptions(alloc),
        PlanFinding::NotSafe(_, _) | PlanFinding::NotDecided(_) => Ok(empty_list(alloc)),
    }
}

#[tactic(auto, unfolding(crate::specs::Json::safe_assumptions))]
fn safe_assumptions(alloc: Global) -> Result<Value, AllocError>
    ensures { IfOk result (λ value. view value ≡ spec.safe_assumptions) }
{
    json!(in alloc; [
        "The service does what the plan says: these pools, these submitters, these bodies. A job may skip any submit together with its get. `sizing conform` compares a recorded test run with the plan.",
        "The executors have the sizes of the plan. `PlanCheck` compares them when the service starts.",
        "Each `work` of a job returns, whatever other jobs and clients do.",
        "No timed get expires, no future is cancelled, and no exception leaves a body with an open future, except with permits."
    ])
}

fn pools_of(alloc: Global, plan: &Plan, finding: &PlanFinding) -> Result<Value, AllocError>
    ensures { IfOk result (λ value. view value ≡ spec.pools_of plan.now finding.now) }
{
    match finding {
        PlanFinding::Safe(cert, rejections) => pools_value(alloc, plan, &cert.pools, rejections),
        PlanFinding::NotSafe(_, _) | PlanFinding::NotDecided(_) => {
            pools_value(alloc, plan, &[], &[])
        }
    }
}

fn sizes_of(
    alloc: Global,
    places: &PlanPlaces,
    plan: &Plan,
    finding: &PlanFinding,
) -> Result<Value, AllocError>
    ensures { IfOk result (λ value. view value ≡ spec.sizes_of places.now plan.now finding.now) }
{
    match finding {
        PlanFinding::Safe(_, _) => Ok(Value::Null),
        PlanFinding::NotSafe(_, sizes) | PlanFinding::NotDecided(sizes) => {
            sizes_value(alloc, places, plan, sizes)
        }
    }
}

fn witness_of(
    alloc: Global,
    places: &PlanPlaces,
    plan: &Plan,
    finding: &PlanFinding,
) -> Result<Value, AllocError>
    ensures { IfOk result (λ value. view value ≡ spec.witness_of places.now plan.now finding.now) }
{
    match finding {
        PlanFinding::NotSafe(witness, _) => witness_value(alloc, plan, places, witness),
        PlanFinding::Safe(_, _) | PlanFinding::NotDecided(_) => Ok(Value::Null),
    }
}
