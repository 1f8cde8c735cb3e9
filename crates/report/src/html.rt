//! The answer of `ask` as an HTML page. The page is a template in which the JSON answer replaces a
//! placeholder, and shows this answer in a browser.

ghost use Rattle.std.specs.Prelude.{◌≡◌, ◌++◌, IfOk, string_bytes};
ghost use Rattle.report.specs.Html as spec;
ghost use Rattle.support.specs.Pushed.{Pushes};

use crate::page_template::{AFTER, BEFORE};
use crate::{PlanFinding, fault_json, faults_json, finding_json};
use diagnostics::{Faults, PlanPlaces, Warning};
use job_bodies::Plan;
use std::alloc::{AllocError, Global};

/// Returns the HTML page of an answer: the finding about a plan, and the plan's warnings. `file` is
/// the name of the plan's file, and `text` is the content of this file. `places` says where in
/// `text` each entry of the plan is.
///
/// # Errors
///
/// Returns [`AllocError`] if memory runs out.
pub fn finding_html(
    alloc: Global,
    file: &str,
    text: &[u8],
    places: &PlanPlaces,
    plan: &Plan,
    finding: &PlanFinding,
    warnings: &[Warning],
) -> Result<String, AllocError>
    ensures { IfOk result (λ page. spec.ReportsFinding
        file.now text.now places.now plan.now finding.now warnings.now (string_bytes page)) }
{
    let line = finding_json(alloc, file, text, places, plan, finding, warnings)?;
    page_of(alloc, &line)
}

/// Returns the HTML page of the faults of a plan's text. `file` is the name of the plan's file, and
/// `text` is the content of this file.
///
/// # Errors
///
/// Returns [`AllocError`] if memory runs out.
pub fn faults_html(
    alloc: Global,
    file: &str,
    text: &[u8],
    faults: &Faults,
) -> Result<String, AllocError>
    ensures { IfOk result
        (λ page. spec.ReportsFaults file.now text.now faults.now (string_bytes page)) }
{
    let line = faults_json(alloc, file, text, faults)?;
    page_of(alloc, &line)
}

/// Returns the HTML page of a fault that has no place in the plan's text. `number` is the number of
/// the fault, and `words` is its message. `file` is the name of the plan's file, and `text` is the
/// content of this file.
///
/// # Errors
///
/// Returns [`AllocError`] if memory runs out.
pub fn fault_html(
    alloc: Global,
    file: &str,
    text: &[u8],
    number: u8,
    words: &str,
) -> Result<String, AllocError>
    ensures { IfOk result
        (λ page. spec.ReportsFault file.now text.now number words.now (string_bytes page)) }
{
    let line = fault_json(alloc, file, text, number, words)?;
    page_of(alloc, &line)
}

/// Returns the HTML page of an answer. `json` is the JSON text of the answer, on one line.
fn page_of(alloc: Global, json: &str) -> Result<String, AllocError>
    ensures { IfOk result (λ page. string_bytes page ≡ spec.page_of json.now) }
{
    page_between(alloc, BEFORE, json, AFTER)
}

/// Returns a page that consists of the text `before`, the JSON text `json` and the text `after`, in
/// this order. The JSON text is escaped for a script element.
fn page_between(alloc: Global, before: &str, json: &str, after: &str) -> Result<String, AllocError>
    ensures { IfOk result (λ page.
        string_bytes page ≡ (before.now ++ spec.script_text json.now) ++ after.now) }
{
    let mut page = String::from_str(alloc, before)?;
    push_script_text(&mut page, json)?;
    page.push_str(after)?;
    Ok(page)
}

/// Appends a JSON text, escaped for a script element.
fn push_script_text(page: &mut String, json: &str) -> Result<(), AllocError>
    ensures { Pushes result page.old page.new (spec.script_text json.now) }
{
    for c in json.chars() {
        push_script_char(page, c)?;
    }
    Ok(())
}

/// Appends a character, escaped for a script element. `<` is replaced by an escape, so that no tag
/// begins in the text. A newline is omitted, because a JSON text has a newline only at its end.
#[tactic(auto, unfolding(crate::specs::Html::script_char))]
fn push_script_char(page: &mut String, c: char) -> Result<(), AllocError>
    ensures { Pushes result page.old page.new (spec.script_char c) }
{
    match c {
        '<' => page.push_str("\\u003c"),
        '\n' => Ok(()),
        _ => page.push(c),
    }
}
