//! The answer of `ask` as a JSON object on one line.
//!
//! Every answer has the same members; `docs/GUIDE.md` describes them.

ghost use Rattle.std.specs.Prelude.{◌≡◌, IfOk, string_bytes};
ghost use Rattle.serde_json.specs.View.{view as data_of};
ghost use Rattle.report.specs.Json as spec;
ghost use Rattle.report.specs.JsonLine.{IsLineOf};

use crate::PlanFinding;
use crate::json_faults::{faults_value, single_fault};
use crate::json_findings::finding_value;
use crate::json_line::line_of;
use crate::json_object::Object;
use crate::json_plan::text_only_value;
use crate::json_values::empty_list;
use crate::version::VERSION;
use diagnostics::{Faults, PlanPlaces, Warning};
use job_bodies::Plan;
use serde_json::Value;
use std::alloc::{AllocError, Global};

/// The version of the JSON format, which each answer states as its member `format`.
pub(crate) const FORMAT: u8 = 1;

/// Returns the JSON text of an answer: the finding about a plan, and the plan's warnings. `file` is
/// the name of the plan's file, and `text` is the content of this file. `places` says where in
/// `text` each entry of the plan is.
///
/// # Errors
///
/// Returns [`AllocError`] if memory runs out.
pub fn finding_json(
    alloc: Global,
    file: &str,
    text: &[u8],
    places: &PlanPlaces,
    plan: &Plan,
    finding: &PlanFinding,
    warnings: &[Warning],
) -> Result<String, AllocError>
    ensures { IfOk result (λ line. spec.ReportsFinding
        file.now text.now places.now plan.now finding.now warnings.now (string_bytes line)) }
{
    let value = finding_value(alloc, file, text, places, plan, finding, warnings)?;
    line_of(alloc, &value)
}

/// Returns the JSON text of the faults of a plan's text. `file` is the name of the plan's file, and
/// `text` is the content of this file.
///
/// # Errors
///
/// Returns [`AllocError`] if memory runs out.
pub fn faults_json(
    alloc: Global,
    file: &str,
    text: &[u8],
    faults: &Faults,
) -> Result<String, AllocError>
    ensures { IfOk result
        (λ line. spec.ReportsFaults file.now text.now faults.now (string_bytes line)) }
{
    let fault_list = faults_value(alloc, faults)?;
    faulty_line(alloc, file, text, fault_list, faults.omitted)
}

/// Returns the JSON text of a fault that has no place in the plan's text. `number` is the number of
/// the fault, and `words` is its message. `file` is the name of the plan's file, and `text` is the
/// content of this file.
///
/// # Errors
///
/// Returns [`AllocError`] if memory runs out.
pub fn fault_json(
    alloc: Global,
    file: &str,
    text: &[u8],
    number: u8,
    words: &str,
) -> Result<String, AllocError>
    ensures { IfOk result
        (λ line. spec.ReportsFault file.now text.now number words.now (string_bytes line)) }
{
    let fault_list = single_fault(alloc, number, words)?;
    faulty_line(alloc, file, text, fault_list, 0)
}

/// Returns the name of the answer, such as `NOT SAFE`.
pub(crate) fn word_of(finding: &PlanFinding) -> &'static str
    ensures { result.now ≡ spec.word_of finding.now }
{
    match finding {
        PlanFinding::Safe(_, _) => "SAFE",
        PlanFinding::NotSafe(_, _) => "NOT SAFE",
        PlanFinding::NotDecided(_) => "NOT DECIDED",
    }
}

/// Returns the JSON text of the answer `FAULTS`. The parameters are those of [`faulty_value`].
fn faulty_line(
    alloc: Global,
    file: &str,
    text: &[u8],
    faults: Value,
    omitted: usize,
) -> Result<String, AllocError>
    ensures { IfOk result (λ line. IsLineOf
        (spec.faulty_data file.now text.now (data_of faults) omitted) (string_bytes line)) }
{
    let value = faulty_value(alloc, file, text, faults, omitted)?;
    line_of(alloc, &value)
}

/// Creates the JSON object of the answer `FAULTS`. `faults` is the list of reported faults.
/// `omitted` is the number of faults that are not in this list. `file` is the name of the plan's
/// file, and `text` is the content of this file.
fn faulty_value(
    alloc: Global,
    file: &str,
    text: &[u8],
    faults: Value,
    omitted: usize,
) -> Result<Value, AllocError>
    ensures { IfOk result (λ value.
        data_of value ≡ spec.faulty_data file.now text.now (data_of faults) omitted) }
{
    Object::new(alloc)
        .text("answer", "FAULTS")
        .value("assumptions", empty_list(alloc))
        .value("faults", faults)
        .text("file", file)
        .value("format", Value::from(FORMAT))
        .value("omitted", Value::from(omitted))
        .part("plan", text_only_value(alloc, text))
        .value("pools", empty_list(alloc))
        .value("sizes", Value::Null)
        .text("version", VERSION)
        .value("warnings", empty_list(alloc))
        .value("witness", Value::Null)
        .done()
}
