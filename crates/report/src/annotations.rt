//! The annotations of an answer. An annotation is a remark about the plan's file, or about a place
//! in it. If the plan's text has faults, the annotations show these faults. Otherwise they are
//! about the plan's warnings and the finding: SAFE, NOT SAFE or NOT DECIDED.

ghost use Rattle.std.specs.Prelude.{◌≡◌, ◌∷◌, ◌++◌, [], IfOk, string_bytes};
ghost use Rattle.report.specs.Annotations.{Adds, remarks_in};
ghost use Rattle.report.specs.Remarks as spec;

use crate::PlanFinding;
use crate::annotation::{Annotation, Rule};
use crate::description::describe;
use crate::json_places::pool_places_at;
use crate::safe::safe_words;
use crate::size_annotations::push_sizes_found;
use crate::unsafe_sizes::open_words;
use cert_text::Cert;
use counterexample::{Ending, Witness};
use diagnostics::{Diagnostic, Faults, PlanPlaces, Warning};
use job_bodies::Plan;
use plan_text::TextPlace;
use size_search::SizesFound;
use std::alloc::{AllocError, Global};

// ---- faults

/// Returns one annotation for each fault that `faults` lists. If `faults.omitted` is above 0, also
/// returns a last annotation with this number, such as `... and 3 more faults`.
pub(crate) fn fault_annotations(
    alloc: Global,
    faults: &Faults,
) -> Result<Vec<Annotation>, AllocError>
    ensures { IfOk result (λ found. remarks_in found.items ≡ spec.fault_remarks faults.now) }
{
    let mut found = Vec::new(alloc);
    push_fault(alloc, &mut found, &faults.first)?;
    push_faults(alloc, &mut found, &faults.others)?;
    push_omitted(alloc, &mut found, faults.omitted)?;
    Ok(found)
}

fn push_faults(
    alloc: Global,
    found: &mut Vec<Annotation>,
    mut faults: &[Diagnostic],
) -> Result<(), AllocError>
    ensures { Adds result found.old.items found.new.items (spec.each_fault faults.now) }
{
    while let Some((fault, rest)) = faults.split_first() {
        push_fault(alloc, found, fault)?;
        faults = rest;
    }
    Ok(())
}

fn push_fault(
    alloc: Global,
    found: &mut Vec<Annotation>,
    fault: &Diagnostic,
) -> Result<(), AllocError>
    ensures { Adds result found.old.items found.new.items (spec.fault_remark fault.now ∷ []) }
{
    let rule = Rule::Fault(fault.fault.number);
    push(alloc, found, rule, &fault.what, Some(fault.place))
}

/// Appends an annotation with the number of omitted faults, such as `... and 3 more faults`.
/// Appends nothing if `omitted` is 0.
fn push_omitted(
    alloc: Global,
    found: &mut Vec<Annotation>,
    omitted: usize,
) -> Result<(), AllocError>
    ensures { Adds result found.old.items found.new.items (spec.omitted_remarks omitted) }
{
    if omitted == 0 {
        return Ok(());
    }
    let words = omitted_words(alloc, omitted)?;
    push(alloc, found, Rule::MoreFaults, &words, None)
}

fn omitted_words(alloc: Global, omitted: usize) -> Result<String, AllocError>
    ensures { IfOk result (λ words. string_bytes words ≡ spec.omitted_words omitted) }
{
    match omitted {
        1 => String::from_str(alloc, "... and 1 more fault"),
        _ => format!(in alloc; "... and {omitted} more faults"),
    }
}

/// Returns a list of one annotation, for a fault without a place in the plan's text. `number` is
/// the number of the fault, and `words` is its message.
pub(crate) fn single_fault(
    alloc: Global,
    number: u8,
    words: &str,
) -> Result<Vec<Annotation>, AllocError>
    ensures { IfOk result
        (λ found. remarks_in found.items ≡ spec.single_fault number words.now) }
{
    let mut found = Vec::new(alloc);
    push(alloc, &mut found, Rule::Fault(number), words, None)?;
    Ok(found)
}

/// Appends an annotation with this rule, this place and a copy of `message`.
pub(crate) fn push(
    alloc: Global,
    found: &mut Vec<Annotation>,
    rule: Rule,
    message: &str,
    place: Option<TextPlace>,
) -> Result<(), AllocError>
    ensures { Adds result found.old.items found.new.items (spec.one rule message.now place) }
{
    let message = String::from_str(alloc, message)?;
    found.push(Annotation {
        rule,
        message,
        place,
    })?;
    Ok(())
}

// ---- findings

/// Returns one annotation for each warning, and one for the finding. If the finding is not SAFE,
/// also returns the annotations of [`push_sizes_found`]. These are one for each size to change, or
/// one with the reason if no sizes were found.
pub(crate) fn annotations_of(
    alloc: Global,
    places: &PlanPlaces,
    plan: &Plan,
    finding: &PlanFinding,
    warnings: &[Warning],
) -> Result<Vec<Annotation>, AllocError>
    ensures { IfOk result (λ found.
        spec.AreRemarks places.now plan.now finding.now warnings.now (remarks_in found.items)) }
{
    match finding {
        PlanFinding::Safe(cert, _) => safe(alloc, plan, cert, warnings),
        PlanFinding::NotSafe(witness, sizes) => {
            not_safe(alloc, places, plan, witness, sizes, warnings)
        }
        PlanFinding::NotDecided(sizes) => not_decided(alloc, places, plan, sizes, warnings),
    }
}

fn safe(
    alloc: Global,
    plan: &Plan,
    cert: &Cert,
    warnings: &[Warning],
) -> Result<Vec<Annotation>, AllocError>
    ensures { IfOk result (λ found.
        remarks_in found.items ≡ spec.warning_remarks warnings.now ++ spec.safe_remarks plan.now cert.now) }
{
    let mut found = warning_annotations(alloc, warnings)?;
    push(alloc, &mut found, Rule::Safe, safe_words(plan, cert), None)?;
    Ok(found)
}

fn not_safe(
    alloc: Global,
    places: &PlanPlaces,
    plan: &Plan,
    witness: &Witness,
    sizes: &SizesFound,
    warnings: &[Warning],
) -> Result<Vec<Annotation>, AllocError>
    ensures { IfOk result (λ found.
        spec.AreNotSafe places.now plan.now witness.now sizes.now warnings.now (remarks_in found.items)) }
{
    let description = describe(alloc, plan, witness)?;
    let mut found = warning_annotations(alloc, warnings)?;
    push_not_safe(
        alloc,
        &mut found,
        places,
        plan,
        witness,
        sizes,
        &description,
    )?;
    Ok(found)
}

fn not_decided(
    alloc: Global,
    places: &PlanPlaces,
    plan: &Plan,
    sizes: &SizesFound,
    warnings: &[Warning],
) -> Result<Vec<Annotation>, AllocError>
    ensures { IfOk result (λ found.
        remarks_in found.items
        ≡ spec.warning_remarks warnings.now ++ spec.not_decided_remarks places.now plan.now sizes.now) }
{
    let mut found = warning_annotations(alloc, warnings)?;
    push_not_decided(alloc, &mut found, places, plan, sizes)?;
    Ok(found)
}

fn warning_annotations(alloc: Global, warnings: &[Warning]) -> Result<Vec<Annotation>, AllocError>
    ensures { IfOk result (λ found. remarks_in found.items ≡ spec.warning_remarks warnings.now) }
{
    let mut found = Vec::new(alloc);
    push_warnings(alloc, &mut found, warnings)?;
    Ok(found)
}

fn push_warnings(
    alloc: Global,
    found: &mut Vec<Annotation>,
    mut warnings: &[Warning],
) -> Result<(), AllocError>
    ensures { Adds result found.old.items found.new.items (spec.warning_remarks warnings.now) }
{
    while let Some((warning, rest)) = warnings.split_first() {
        push_warning(alloc, found, warning)?;
        warnings = rest;
    }
    Ok(())
}

fn push_warning(
    alloc: Global,
    found: &mut Vec<Annotation>,
    warning: &Warning,
) -> Result<(), AllocError>
    ensures { Adds result found.old.items found.new.items (spec.warning_remark warning.now ∷ []) }
{
    let rule = Rule::Warning(warning.lint);
    push(alloc, found, rule, &warning.what, Some(warning.place))
}

/// Appends the annotations of the answer NOT SAFE. The message of the first annotation is the first
/// line of `description`, the text about the counterexample. The other annotations are those of
/// [`push_sizes_found`].
fn push_not_safe(
    alloc: Global,
    found: &mut Vec<Annotation>,
    places: &PlanPlaces,
    plan: &Plan,
    witness: &Witness,
    sizes: &SizesFound,
    description: &str,
) -> Result<(), AllocError>
    ensures { Adds result found.old.items found.new.items
        (spec.not_safe_remarks places.now plan.now witness.now sizes.now description.now) }
{
    let place = ending_place(places, &witness.ending);
    push(alloc, found, Rule::NotSafe, first_line(description), place)?;
    push_sizes_found(alloc, found, Rule::NotSafe, places, plan, sizes)
}

/// Returns the first line of a text, or an empty text if the text has no lines.
fn first_line(text: &str) -> &str
    ensures { result.now ≡ spec.first_line text.now }
{
    match text.lines().next() {
        Some(line) => line,
        None => "",
    }
}

/// Returns the place of a pool's name in the plan's text. The pool is the one that refuses the last
/// submit of the counterexample. Returns `None` if no submit is refused, or if the place is not
/// known.
fn ending_place(places: &PlanPlaces, ending: &Ending) -> Option<TextPlace>
    ensures { result ≡ spec.ending_place places.now ending.now }
{
    match ending {
        Ending::Refused(pool) => pool_places_at(&places.pools, *pool).name,
        Ending::StuckForever(_, _) | Ending::StuckNow(_) => None,
    }
}

fn push_not_decided(
    alloc: Global,
    found: &mut Vec<Annotation>,
    places: &PlanPlaces,
    plan: &Plan,
    sizes: &SizesFound,
) -> Result<(), AllocError>
    ensures { Adds result found.old.items found.new.items
        (spec.not_decided_remarks places.now plan.now sizes.now) }
{
    push(alloc, found, Rule::NotDecided, open_words(sizes), None)?;
    push_sizes_found(alloc, found, Rule::NotDecided, places, plan, sizes)
}
