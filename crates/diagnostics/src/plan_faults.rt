//! The search for all faults of a plan's text.

ghost use Rattle.std.specs.Prelude.{◌≡◌, ◌<◌, ◌≤◌, IfOk, length, string_bytes};
ghost use Rattle.std.specs.List.{All};
ghost use Rattle.diagnostics.specs.Diagnostic.{HasSingleLine, HaveSingleLines};

use crate::collector::FaultCollector;
use crate::control_characters::one_line;
use crate::diagnostic::{Diagnostic, Faults, NumberRange};
use crate::entry::BEGINNING;
use crate::rules::rule_of;
use crate::syntax::{not_text, not_toml};
use crate::tables::document;
use job_bodies::PlanFault;
use plan_text::{Places, TextPlace};
use std::alloc::{AllocError, Global};
use toml::Table;

/// Returns the faults of a text that the plan parser rejects. The first fault is `fault`, which the
/// parser reports. Further checks find the other faults. The result lists at most 100 faults, and
/// has the number of faults that are not listed. Each message is a single line.
///
/// # Errors
///
/// Returns [`AllocError`] if memory runs out.
pub fn faults_of(alloc: Global, text: &[u8], fault: PlanFault) -> Result<Faults, AllocError>
    ensures first { IfOk result (λ faults. faults.first.fault ≡ fault) }
    ensures single_lines { IfOk result (λ faults. HaveSingleLines faults) }
    ensures within { IfOk result (λ faults. length faults.others.items ≤ 99) }
    ensures full { IfOk result
        (λ faults. 0 < faults.omitted → length faults.others.items ≡ 99) }
{
    let found = all_faults(alloc, text, fault)?;
    let first = first_of(alloc, fault, &found.first)?;
    let others = in_single_lines(alloc, &found.others)?;
    Ok(Faults {
        first,
        others,
        omitted: found.omitted,
    })
}

/// Returns the diagnostic for the fault that the plan parser reports. `found` is the diagnostic
/// that the checks found for this fault. If `found` is `None`, the message is the rule that the
/// plan violates, and the place is the beginning of the text.
fn first_of(
    alloc: Global,
    fault: PlanFault,
    found: &Option<Diagnostic>,
) -> Result<Diagnostic, AllocError>
    ensures same_fault { IfOk result (λ first. first.fault ≡ fault) }
    ensures single_line { IfOk result (λ first. HasSingleLine first) }
{
    match found {
        Some(one) => in_single_line(alloc, fault, one.place, &one.what, one.range),
        None => in_single_line(alloc, fault, BEGINNING, rule_of(fault.number), None),
    }
}

/// Returns copies of these diagnostics, with each message turned into a single line.
fn in_single_lines(alloc: Global, found: &[Diagnostic]) -> Result<Vec<Diagnostic>, AllocError>
    ensures single_lines { IfOk result (λ others. All HasSingleLine others.items) }
    ensures each { IfOk result (λ others. length others.items ≡ length found.now) }
{
    let mut others = Vec::new(alloc);
    for one in found {
        let line = in_single_line(alloc, one.fault, one.place, &one.what, one.range)?;
        others.push(line)?;
    }
    Ok(others)
}

fn in_single_line(
    alloc: Global,
    fault: PlanFault,
    place: TextPlace,
    what: &str,
    range: Option<NumberRange>,
) -> Result<Diagnostic, AllocError>
    ensures same_fault { IfOk result (λ one. one.fault ≡ fault) }
    ensures single_line { IfOk result (λ one. HasSingleLine one) }
{
    let what = one_line(alloc, what)?;
    Ok(Diagnostic {
        fault,
        place,
        what,
        range,
    })
}

/// Returns the faults that the checks find in the plan. If the text is not valid UTF-8, or is not
/// TOML, the result has only this fault. `wanted` is the fault that the plan parser reports.
fn all_faults(
    alloc: Global,
    bytes: &[u8],
    wanted: PlanFault,
) -> Result<FaultCollector, AllocError> {
    let mut collector = FaultCollector::new(alloc, wanted);
    check_bytes(&mut collector, bytes)?;
    Ok(collector)
}

fn check_bytes(collector: &mut FaultCollector, bytes: &[u8]) -> Result<(), AllocError> {
    match std::str::from_utf8(bytes) {
        Ok(text) => check_text(collector, text),
        Err(error) => {
            let diagnostic = not_text(collector.alloc, bytes, error.valid_up_to())?;
            collector.push(diagnostic)
        }
    }
}

fn check_text(collector: &mut FaultCollector, text: &str) -> Result<(), AllocError> {
    match toml::table_from_str(collector.alloc, text) {
        Ok(table) => check_table(collector, text, &table),
        Err(error) => check_error(collector, text, &error),
    }
}

fn check_table(
    collector: &mut FaultCollector,
    text: &str,
    table: &Table,
) -> Result<(), AllocError> {
    let places = Places::of(collector.alloc, text.as_bytes())?;
    document(collector, table, &places)
}

/// Reports the error of the TOML parser.
///
/// # Errors
///
/// Returns [`AllocError`] if memory runs out, here or in the TOML parser. If `error` has no place
/// in the text, memory ran out in the TOML parser.
fn check_error(
    collector: &mut FaultCollector,
    text: &str,
    error: &toml::de::Error,
) -> Result<(), AllocError> {
    let Some(span) = error.span() else {
        return Err(AllocError);
    };
    let diagnostic = not_toml(collector.alloc, text, span.start, error.message())?;
    collector.push(diagnostic)
}
