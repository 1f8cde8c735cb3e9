//! The answer of `ask` as a SARIF 2.1.0 log, which code scanning tools read.

ghost use Rattle.std.specs.Prelude.{◌≡◌, IfOk, OnOk, map, string_bytes};
ghost use Rattle.serde_json.specs.View.{view};
ghost use Rattle.report.specs.Annotations.{remarks_in, remark_of};
ghost use Rattle.report.specs.JsonLine.{IsLineOf};
ghost use Rattle.report.specs.Remarks.{fault_remarks, single_fault};
ghost use Rattle.report.specs.Sarif as spec;

use crate::PlanFinding;
use crate::annotation::{Annotation, Rule, rule_name};
use crate::annotations::{annotations_of, fault_annotations, single_fault};
use crate::json_line::line_of;
use crate::json_object::Object;
use crate::json_values::{push_value, single_list};
use crate::uri::uri_of;
use crate::version::VERSION;
use diagnostics::{Faults, PlanPlaces, Warning, is_note};
use job_bodies::Plan;
use plan_text::TextPlace;
use serde_json::Value;
use std::alloc::{AllocError, Global};

/// Returns a SARIF log on one line, with the finding about a plan and the plan's warnings. `file`
/// is the name of the plan's file.
///
/// # Errors
///
/// Returns [`AllocError`] if memory runs out.
pub fn finding_sarif(
    alloc: Global,
    file: &str,
    places: &PlanPlaces,
    plan: &Plan,
    finding: &PlanFinding,
    warnings: &[Warning],
) -> Result<String, AllocError>
    ensures { IfOk result (λ text. spec.ReportsFinding
        file.now places.now plan.now finding.now warnings.now (string_bytes text)) }
{
    let annotations = annotations_of(alloc, places, plan, finding, warnings)?;
    log_of(alloc, file, &annotations)
}

/// Returns a SARIF log on one line, with the faults of a plan's text. `file` is the name of the
/// plan's file.
///
/// # Errors
///
/// Returns [`AllocError`] if memory runs out.
pub fn faults_sarif(alloc: Global, file: &str, faults: &Faults) -> Result<String, AllocError>
    ensures { IfOk result (λ text.
        IsLineOf (spec.sarif_data file.now (fault_remarks faults.now)) (string_bytes text)) }
{
    let annotations = fault_annotations(alloc, faults)?;
    log_of(alloc, file, &annotations)
}

/// Returns a SARIF log on one line, with a fault that has no place in the plan's text. `number` is
/// the number of the fault, and `words` is its message. `file` is the name of the plan's file.
///
/// # Errors
///
/// Returns [`AllocError`] if memory runs out.
pub fn fault_sarif(alloc: Global, file: &str, number: u8, words: &str) -> Result<String, AllocError>
    ensures { IfOk result (λ text.
        IsLineOf (spec.sarif_data file.now (single_fault number words.now)) (string_bytes text)) }
{
    let annotations = single_fault(alloc, number, words)?;
    log_of(alloc, file, &annotations)
}

fn log_of(alloc: Global, file: &str, annotations: &[Annotation]) -> Result<String, AllocError>
    ensures { IfOk result (λ text.
        IsLineOf (spec.sarif_data file.now (remarks_in annotations.now)) (string_bytes text)) }
{
    let value = sarif_value(alloc, file, annotations)?;
    line_of(alloc, &value)
}

/// Creates the SARIF log with these annotations of the file.
#[tactic(auto, unfolding(crate::specs::Sarif::log_data))]
fn sarif_value(alloc: Global, file: &str, annotations: &[Annotation]) -> Result<Value, AllocError>
    ensures { IfOk result
        (λ value. view value ≡ spec.sarif_data file.now (remarks_in annotations.now)) }
{
    let tool = Object::new(alloc)
        .part("driver", driver_value(alloc, annotations))
        .done();
    let run = Object::new(alloc)
        .part("results", results_value(alloc, file, annotations))
        .part("tool", tool)
        .done();
    Object::new(alloc)
        .text("$schema", "https://json.schemastore.org/sarif-2.1.0.json")
        .part("runs", single_list(alloc, run))
        .text("version", "2.1.0")
        .done()
}

#[tactic(auto, unfolding(crate::specs::Sarif::driver_data))]
fn driver_value(alloc: Global, annotations: &[Annotation]) -> Result<Value, AllocError>
    ensures { IfOk result (λ value.
        view value ≡ spec.driver_data (spec.rules_data (remarks_in annotations.now))) }
{
    Object::new(alloc)
        .text("name", "sizing")
        .part("rules", rules_value(alloc, annotations))
        .text("version", VERSION)
        .done()
}

// ---- results

fn results_value(alloc: Global, file: &str, annotations: &[Annotation]) -> Result<Value, AllocError>
    ensures { IfOk result
        (λ value. view value ≡ spec.results_data file.now (remarks_in annotations.now)) }
{
    let mut values = Vec::with_capacity(alloc, annotations.len())?;
    for annotation in annotations {
        push_value(&mut values, result_value(alloc, file, annotation))?;
    }
    Ok(Value::Array(values))
}

#[tactic(auto, unfolding(crate::specs::Sarif::location_data, crate::specs::Sarif::message_data, crate::specs::Sarif::result_data))]
fn result_value(alloc: Global, file: &str, annotation: &Annotation) -> Result<Value, AllocError>
    ensures { IfOk result
        (λ value. view value ≡ spec.result_data file.now (remark_of annotation.now)) }
{
    let rule = rule_name(alloc, annotation.rule)?;
    let location = Object::new(alloc)
        .part(
            "physicalLocation",
            physical_value(alloc, file, annotation.place),
        )
        .done();
    let message = Object::new(alloc).text("text", &annotation.message).done();
    Object::new(alloc)
        .text("level", level_word(annotation.rule))
        .part("locations", single_list(alloc, location))
        .part("message", message)
        .value("ruleId", Value::String(rule))
        .done()
}

fn level_word(rule: Rule) -> &'static str
    ensures { result.now ≡ spec.level_word rule }
{
    match rule {
        Rule::Fault(_) | Rule::MoreFaults | Rule::NotSafe => "error",
        Rule::Warning(lint) if is_note(lint) => "note",
        Rule::Warning(_) | Rule::NotDecided => "warning",
        Rule::Safe => "note",
    }
}

/// Creates the SARIF object of a location: the file and, if `place` is known, the place in it.
#[tactic(auto, unfolding(crate::specs::Sarif::whole_file, crate::specs::Sarif::part_of_file, crate::specs::Sarif::region_data))]
fn physical_value(alloc: Global, file: &str, place: Option<TextPlace>) -> Result<Value, AllocError>
    ensures { IfOk result (λ value. view value ≡ spec.physical_data file.now place) }
{
    let object = Object::new(alloc).part("artifactLocation", file_value(alloc, file));
    let Some(place) = place else {
        return object.done();
    };
    let region = Object::new(alloc)
        .value("startColumn", Value::from(place.column))
        .value("startLine", Value::from(place.line))
        .done();
    object.part("region", region).done()
}

#[tactic(auto, unfolding(crate::specs::Sarif::file_data))]
fn file_value(alloc: Global, file: &str) -> Result<Value, AllocError>
    ensures { IfOk result (λ value. view value ≡ spec.file_data file.now) }
{
    let uri = uri_of(alloc, file)?;
    Object::new(alloc).value("uri", Value::String(uri)).done()
}

// ---- rules

/// Creates the SARIF list of rules. Each rule of the annotations occurs once.
fn rules_value(alloc: Global, annotations: &[Annotation]) -> Result<Value, AllocError>
    ensures { IfOk result (λ value. view value ≡ spec.rules_data (remarks_in annotations.now)) }
{
    let names = rule_names(alloc, annotations)?;
    names_value(alloc, &names)
}

fn names_value(alloc: Global, names: &[String]) -> Result<Value, AllocError>
    ensures { IfOk result
        (λ value. view value ≡ spec.names_data (map string_bytes names.now)) }
{
    let mut values = Vec::with_capacity(alloc, names.len())?;
    for name in names {
        push_value(&mut values, rule_value(alloc, name))?;
    }
    Ok(Value::Array(values))
}

#[tactic(auto, unfolding(crate::specs::Sarif::rule_data))]
fn rule_value(alloc: Global, name: &str) -> Result<Value, AllocError>
    ensures { IfOk result (λ value. view value ≡ spec.rule_data name.now) }
{
    Object::new(alloc).text("id", name).done()
}

/// Returns the names of the annotations' rules, each once, in the order in which they first occur.
fn rule_names(alloc: Global, mut annotations: &[Annotation]) -> Result<Vec<String>, AllocError>
    ensures { IfOk result
        (λ names. map string_bytes names.items ≡ spec.rule_names (remarks_in annotations.now)) }
{
    let mut names = Vec::new(alloc);
    while let Some((annotation, rest)) = annotations.split_first() {
        push_new(&mut names, rule_name(alloc, annotation.rule)?)?;
        annotations = rest;
    }
    Ok(names)
}

/// Appends the name unless the list has it.
fn push_new(names: &mut Vec<String>, name: String) -> Result<(), AllocError>
    ensures { OnOk result
        (map string_bytes names.new.items ≡ spec.with_name (map string_bytes names.old.items) (string_bytes name)) }
{
    if has_name(names, &name) {
        return Ok(());
    }
    names.push(name)?;
    Ok(())
}

fn has_name(mut names: &[String], name: &str) -> bool
    ensures { result ≡ spec.has_name (map string_bytes names.now) name.now }
{
    while let Some((each, rest)) = names.split_first() {
        if each.as_str() == name {
            return true;
        }
        names = rest;
    }
    false
}
