//! Warnings: lints with their places and messages.

ghost use Rattle.std.specs.Prelude.{◌≡◌, IfOk, string_bytes};
ghost use Rattle.std.specs.List.{All};
ghost use Rattle.diagnostics.specs.Diagnostic.{WarnInSingleLines};
ghost use Rattle.diagnostics.specs.Lines.{HasNoNewline};
ghost use Rattle.diagnostics.specs.Lints as spec;
ghost use Rattle.diagnostics.specs.WarningWords.{IsWarningOf};

use crate::control_characters::one_line;
use crate::lint::Lint;
use crate::lints::lints_of;
use crate::warning_places::place_of;
use crate::warning_words::words_of;
use job_bodies::Plan;
use plan_text::{Places, TextPlace};
use std::alloc::{AllocError, Global};

/// A warning about a plan: a lint with its place and its message.
#[derive(Drop)]
pub struct Warning {
    /// The lint that the plan has.
    pub lint: Lint,
    /// The place in the plan's text to which the lint refers.
    pub place: TextPlace,
    /// A message that says what was found in the plan, and what this means for the program's
    /// answer, such as SAFE.
    pub what: String,
}

/// Returns a warning for each lint of the plan, in order. A lint is a part of a valid plan that is
/// probably a mistake.
///
/// - `text` is the plan's text.
/// - `needed` has, for each pool, a bound on the number of jobs in its queue at once, or `None` if
///   no bound is known.
/// - `is_safe_at_core` says whether a certificate accepts the plan that [`at_core`] returns.
///
/// Each message is a single line. If the message about a class that submits itself lists submits,
/// the plan has these submits. The contract promises nothing else about places and messages.
///
/// [`at_core`]: crate::at_core
///
/// # Errors
///
/// Returns [`AllocError`] if memory runs out.
pub fn warnings_of(
    alloc: Global,
    text: &[u8],
    plan: &Plan,
    needed: &[Option<u64>],
    is_safe_at_core: bool,
) -> Result<Vec<Warning>, AllocError>
    ensures lints { IfOk result
        (λ warnings. spec.AreLints plan.now needed.now is_safe_at_core (spec.lints_in warnings.items)) }
    ensures single_lines { IfOk result (λ warnings. WarnInSingleLines warnings.items) }
    ensures circles { IfOk result (λ warnings. All (IsWarningOf plan.now) warnings.items) }
{
    let lints = lints_of(alloc, plan, needed, is_safe_at_core)?;
    let places = Places::of(alloc, text)?;
    warnings_about(alloc, text, &places, plan, &lints)
}

/// Returns a warning for each of these lints: the lint with its place and its message.
fn warnings_about(
    alloc: Global,
    text: &[u8],
    places: &Places<'_>,
    plan: &Plan,
    lints: &[Lint],
) -> Result<Vec<Warning>, AllocError>
    ensures lints { IfOk result (λ warnings. spec.lints_in warnings.items ≡ lints.now) }
    ensures single_lines { IfOk result (λ warnings. WarnInSingleLines warnings.items) }
    ensures circles { IfOk result (λ warnings. All (IsWarningOf plan.now) warnings.items) }
{
    let mut warnings = Vec::new(alloc);
    for lint in lints {
        let warning = warning_about(alloc, text, places, plan, *lint)?;
        warnings.push(warning)?;
    }
    Ok(warnings)
}

fn warning_about(
    alloc: Global,
    text: &[u8],
    places: &Places<'_>,
    plan: &Plan,
    lint: Lint,
) -> Result<Warning, AllocError>
    ensures same_lint { IfOk result (λ warning. warning.lint ≡ lint) }
    ensures single_line { IfOk result (λ warning. HasNoNewline (string_bytes warning.what)) }
    ensures circle { IfOk result (IsWarningOf plan.now) }
{
    let place = place_of(places, plan, lint);
    let words = words_of(alloc, text, place, plan, lint)?;
    let what = one_line(alloc, &words)?;
    Ok(Warning { lint, place, what })
}
