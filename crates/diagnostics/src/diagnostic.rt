//! The faults of a plan's text, and the lines that print them.

ghost use Rattle.diagnostics.specs.Diagnostic as spec;
ghost use Rattle.support.specs.Pushed.{Pushes};

use job_bodies::PlanFault;
use plan_text::TextPlace;
use std::alloc::AllocError;

/// A range of numbers that includes both ends.
#[derive(Clone, Copy)]
pub struct NumberRange {
    pub low: u64,
    pub high: u64,
}

/// A diagnostic for one fault.
#[derive(Drop)]
pub struct Diagnostic {
    /// The number of the fault, and the entry and action that have it. Commands other than `ask`
    /// print only this.
    pub fault: PlanFault,
    /// The place of the fault in the text.
    pub place: TextPlace,
    /// A message that says what is wrong and how to fix it.
    pub what: String,
    /// The valid range, if the fault is a number that is out of range.
    pub range: Option<NumberRange>,
}

/// The faults of a plan's text.
#[derive(Drop)]
pub struct Faults {
    /// The fault that the plan parser reports.
    pub first: Diagnostic,
    /// The other faults that were found, at most 99.
    pub others: Vec<Diagnostic>,
    /// The number of faults that were found but are not listed, because at most 100 are listed.
    pub omitted: usize,
}

/// Appends a line for each fault, such as `shop.toml:17:21: class page, action 2 "get row": nothing
/// was submitted as row; did you mean rows? (fault 13)`. `file` is the name of the plan's file. If
/// faults are left out, a last line has their number, as in `... and 12 more faults`.
///
/// # Errors
///
/// Returns [`AllocError`] if memory runs out.
pub fn push_faults(text: &mut String, file: &str, faults: &Faults) -> Result<(), AllocError>
    ensures { Pushes result text.old text.new (spec.faults_text file.now faults.now) }
{
    push_diagnostic(text, file, &faults.first)?;
    push_each(text, file, &faults.others)?;
    push_omitted(text, faults.omitted)
}

fn push_each(text: &mut String, file: &str, mut diagnostic: &[Diagnostic]) -> Result<(), AllocError>
    ensures { Pushes result text.old text.new (spec.diagnostic_lines file.now diagnostic.now) }
{
    while let Some((one, rest)) = diagnostic.split_first() {
        push_diagnostic(text, file, one)?;
        diagnostic = rest;
    }
    Ok(())
}

fn push_diagnostic(text: &mut String, file: &str, diagnostic: &Diagnostic) -> Result<(), AllocError>
    ensures { Pushes result text.old text.new (spec.diagnostic_line file.now diagnostic.now) }
{
    push_line(
        text,
        file,
        diagnostic.place,
        &diagnostic.what,
        diagnostic.fault.number,
    )
}

fn push_line(
    text: &mut String,
    file: &str,
    place: TextPlace,
    what: &str,
    number: u8,
) -> Result<(), AllocError>
    ensures { Pushes result text.old text.new (spec.fault_line file.now place what.now number) }
{
    push_place(text, file, place)?;
    text.push_str(what)?;
    push_number(text, number)
}

/// Appends a place in the file, in the form `FILE:LINE:COLUMN: `.
pub(crate) fn push_place(text: &mut String, file: &str, place: TextPlace) -> Result<(), AllocError>
    ensures { Pushes result text.old text.new (spec.place_head file.now place) }
{
    let line = place.line;
    let column = place.column;
    write!(text, "{file}:{line}:{column}: ")
}

fn push_number(text: &mut String, number: u8) -> Result<(), AllocError>
    ensures { Pushes result text.old text.new (spec.number_end number) }
{
    writeln!(text, " (fault {number})")
}

fn push_omitted(text: &mut String, omitted: usize) -> Result<(), AllocError>
    ensures { Pushes result text.old text.new (spec.omitted_line omitted) }
{
    match omitted {
        0 => Ok(()),
        1 => push_count(text, omitted, "fault"),
        _ => push_count(text, omitted, "faults"),
    }
}

fn push_count(text: &mut String, omitted: usize, noun: &str) -> Result<(), AllocError>
    ensures { Pushes result text.old text.new (spec.count_line omitted noun.now) }
{
    writeln!(text, "... and {omitted} more {noun}")
}
