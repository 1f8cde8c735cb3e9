//! Faults as JSON. Each fault has its number, its place and a message. A fault about a number that
//! is out of range also has the range of the allowed numbers.

ghost use Rattle.std.specs.Prelude.{◌≡◌, ◌∷◌, ◌++◌, IfOk, OnOk, map};
ghost use Rattle.serde_json.specs.Data.{array};
ghost use Rattle.serde_json.specs.View.{view, items_of};
ghost use Rattle.report.specs.JsonFaults as spec;

use crate::json_object::Object;
use crate::json_places::{column_value, line_value};
use crate::json_values::push_value;
use diagnostics::{Diagnostic, Faults, NumberRange};
use plan_text::TextPlace;
use serde_json::{Value, json};
use std::alloc::{AllocError, Global};

/// Converts the faults of a plan's text to a JSON list. The list does not have the faults that are
/// only counted in `faults.omitted`.
pub(crate) fn faults_value(alloc: Global, faults: &Faults) -> Result<Value, AllocError>
    ensures { IfOk result (λ value. view value ≡ spec.faults_data faults.now) }
{
    let first = diagnostic_value(alloc, &faults.first)?;
    faults_from(alloc, first, &faults.others)
}

/// Creates a JSON list of one fault, which has no place in the plan's text. `number` is the number
/// of the fault, and `words` is its message.
pub(crate) fn single_fault(alloc: Global, number: u8, words: &str) -> Result<Value, AllocError>
    ensures { IfOk result (λ value. view value ≡ spec.single_fault_data number words.now) }
{
    let fault = fault_value(alloc, None, number, None, words)?;
    faults_from(alloc, fault, &[])
}

/// Creates a JSON list of faults. The first element is `first`, which is already a JSON value, and
/// the others are converted from `others`.
fn faults_from(alloc: Global, first: Value, others: &[Diagnostic]) -> Result<Value, AllocError>
    ensures { IfOk result (λ value. view value
        ≡ array (items_of (view first ∷ map spec.diagnostic_data others.now))) }
{
    let mut values = Vec::new(alloc);
    values.push(first)?;
    push_others(alloc, &mut values, others)?;
    Ok(Value::from(values))
}

fn push_others(
    alloc: Global,
    values: &mut Vec<Value>,
    others: &[Diagnostic],
) -> Result<(), AllocError>
    ensures { OnOk result (map view values.new.items
        ≡ map view values.old.items ++ map spec.diagnostic_data others.now) }
{
    for diagnostic in others {
        push_value(values, diagnostic_value(alloc, diagnostic))?;
    }
    Ok(())
}

fn diagnostic_value(alloc: Global, diagnostic: &Diagnostic) -> Result<Value, AllocError>
    ensures { IfOk result (λ value. view value ≡ spec.diagnostic_data diagnostic.now) }
{
    let place = Some(diagnostic.place);
    fault_value(
        alloc,
        place,
        diagnostic.fault.number,
        diagnostic.range,
        &diagnostic.what,
    )
}

/// Converts a range of numbers to a JSON list of its lowest and its highest number. The value is
/// null if `range` is `None`.
fn range_value(alloc: Global, range: Option<NumberRange>) -> Result<Value, AllocError>
    ensures { IfOk result (λ value. view value ≡ spec.range_data range) }
{
    match range {
        Some(range) => json!(in alloc; [range.low, range.high]),
        None => Ok(Value::Null),
    }
}

#[tactic(auto, unfolding(crate::specs::JsonFaults::fault_data))]
fn fault_value(
    alloc: Global,
    place: Option<TextPlace>,
    number: u8,
    range: Option<NumberRange>,
    words: &str,
) -> Result<Value, AllocError>
    ensures { IfOk result
        (λ value. view value ≡ spec.fault_data place number (spec.range_data range) words.now) }
{
    Object::new(alloc)
        .value("column", column_value(place))
        .value("fault", Value::from(number))
        .value("line", line_value(place))
        .part("range", range_value(alloc, range))
        .text("text", words)
        .done()
}
