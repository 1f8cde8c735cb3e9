//! The answer of `ask` as workflow commands. GitHub Actions shows the messages of these commands at
//! lines of the plan's file.

ghost use Rattle.std.specs.Prelude.{◌≡◌, IfOk, string_bytes};
ghost use Rattle.support.specs.Pushed.{Pushes};
ghost use Rattle.report.specs.Annotations.{remarks_in, remark_of};
ghost use Rattle.report.specs.Remarks.{fault_remarks, single_fault};
ghost use Rattle.report.specs.Github as spec;

use crate::PlanFinding;
use crate::annotation::{Annotation, Rule, push_rule_name};
use crate::annotations::{annotations_of, fault_annotations, single_fault};
use diagnostics::{Faults, PlanPlaces, Warning, is_note};
use job_bodies::Plan;
use plan_text::TextPlace;
use std::alloc::{AllocError, Global};

/// Returns the GitHub workflow commands for the finding about a plan, and for the plan's warnings.
/// `file` is the name of the plan's file.
///
/// # Errors
///
/// Returns [`AllocError`] if memory runs out.
pub fn finding_github(
    alloc: Global,
    file: &str,
    places: &PlanPlaces,
    plan: &Plan,
    finding: &PlanFinding,
    warnings: &[Warning],
) -> Result<String, AllocError>
    ensures { IfOk result (λ text. spec.ReportsFinding
        file.now places.now plan.now finding.now warnings.now (string_bytes text)) }
{
    let annotations = annotations_of(alloc, places, plan, finding, warnings)?;
    commands(alloc, file, &annotations)
}

/// Returns the GitHub workflow commands for the faults of a plan's text. `file` is the name of the
/// plan's file.
///
/// # Errors
///
/// Returns [`AllocError`] if memory runs out.
pub fn faults_github(alloc: Global, file: &str, faults: &Faults) -> Result<String, AllocError>
    ensures { IfOk result
        (λ text. string_bytes text ≡ spec.github_text file.now (fault_remarks faults.now)) }
{
    let annotations = fault_annotations(alloc, faults)?;
    commands(alloc, file, &annotations)
}

/// Returns the GitHub workflow command for a fault that has no place in the plan's text. `number`
/// is the number of the fault, and `words` is its message. `file` is the name of the plan's file.
///
/// # Errors
///
/// Returns [`AllocError`] if memory runs out.
pub fn fault_github(
    alloc: Global,
    file: &str,
    number: u8,
    words: &str,
) -> Result<String, AllocError>
    ensures { IfOk result (λ text.
        string_bytes text ≡ spec.github_text file.now (single_fault number words.now)) }
{
    let annotations = single_fault(alloc, number, words)?;
    commands(alloc, file, &annotations)
}

/// Returns a workflow command for each annotation, each on a line of its own.
fn commands(alloc: Global, file: &str, annotations: &[Annotation]) -> Result<String, AllocError>
    ensures { IfOk result (λ text.
        string_bytes text ≡ spec.github_text file.now (remarks_in annotations.now)) }
{
    let mut text = String::new(alloc);
    push_commands(&mut text, file, annotations)?;
    Ok(text)
}

/// Appends a workflow command for each annotation, each on a line of its own.
fn push_commands(
    text: &mut String,
    file: &str,
    mut annotations: &[Annotation],
) -> Result<(), AllocError>
    ensures { Pushes result text.old text.new
        (spec.github_text file.now (remarks_in annotations.now)) }
{
    while let Some((annotation, rest)) = annotations.split_first() {
        push_command(text, file, annotation)?;
        annotations = rest;
    }
    Ok(())
}

fn push_command(text: &mut String, file: &str, annotation: &Annotation) -> Result<(), AllocError>
    ensures { Pushes result text.old text.new
        (spec.command_line file.now (remark_of annotation.now)) }
{
    text.push_str("::")?;
    text.push_str(command(annotation.rule))?;
    push_properties(text, file, annotation.rule, annotation.place)?;
    text.push_str("::")?;
    push_message(text, &annotation.message)?;
    text.push('\n')
}

fn command(rule: Rule) -> &'static str
    ensures { result.now ≡ spec.command rule }
{
    match rule {
        Rule::Fault(_) | Rule::MoreFaults | Rule::NotSafe => "error",
        Rule::Warning(lint) if is_note(lint) => "notice",
        Rule::Warning(_) | Rule::NotDecided => "warning",
        Rule::Safe => "notice",
    }
}

fn push_properties(
    text: &mut String,
    file: &str,
    rule: Rule,
    place: Option<TextPlace>,
) -> Result<(), AllocError>
    ensures { Pushes result text.old text.new (spec.properties file.now rule place) }
{
    text.push_str(" file=")?;
    push_property(text, file)?;
    push_place(text, place)?;
    text.push_str(",title=")?;
    push_title(text, rule)
}

fn push_place(text: &mut String, place: Option<TextPlace>) -> Result<(), AllocError>
    ensures { Pushes result text.old text.new (spec.place_part place) }
{
    match place {
        Some(TextPlace { line, column }) => write!(text, ",line={line},col={column}"),
        None => Ok(()),
    }
}

fn push_title(text: &mut String, rule: Rule) -> Result<(), AllocError>
    ensures { Pushes result text.old text.new (spec.title rule) }
{
    match rule {
        Rule::Safe => text.push_str("SAFE"),
        Rule::NotSafe => text.push_str("NOT SAFE"),
        Rule::NotDecided => text.push_str("NOT DECIDED"),
        Rule::Fault(_) | Rule::MoreFaults | Rule::Warning(_) => push_rule_name(text, rule),
    }
}

fn push_message(text: &mut String, message: &str) -> Result<(), AllocError>
    ensures { Pushes result text.old text.new (spec.message_text message.now) }
{
    for c in message.chars() {
        push_message_char(text, c)?;
    }
    Ok(())
}

#[tactic(auto, unfolding(crate::specs::Github::message_char))]
fn push_message_char(text: &mut String, c: char) -> Result<(), AllocError>
    ensures { Pushes result text.old text.new (spec.message_char c) }
{
    match c {
        '%' => text.push_str("%25"),
        '\r' => text.push_str("%0D"),
        '\n' => text.push_str("%0A"),
        _ => text.push(c),
    }
}

fn push_property(text: &mut String, value: &str) -> Result<(), AllocError>
    ensures { Pushes result text.old text.new (spec.property_text value.now) }
{
    for c in value.chars() {
        push_property_char(text, c)?;
    }
    Ok(())
}

#[tactic(auto, unfolding(crate::specs::Github::property_char))]
fn push_property_char(text: &mut String, c: char) -> Result<(), AllocError>
    ensures { Pushes result text.old text.new (spec.property_char c) }
{
    match c {
        ':' => text.push_str("%3A"),
        ',' => text.push_str("%2C"),
        _ => push_message_char(text, c),
    }
}
