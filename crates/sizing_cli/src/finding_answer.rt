//! The answer of `ask` about a plan, written from a finding.

ghost use Rattle.std.specs.Prelude.{◌≡◌, ◌++◌, IfOk, true, false, option_map, string_bytes};
ghost use Rattle.std.specs.List.{All};
ghost use Rattle.command_line.specs.declared.command.Form.TheVariants as forms;
ghost use Rattle.diagnostics.specs.Diagnostic.{WarnInSingleLines};
ghost use Rattle.diagnostics.specs.Lines.{HasNoNewline};
ghost use Rattle.diagnostics.specs.Lints.{AreLints, lints_in};
ghost use Rattle.diagnostics.specs.WarningWords.{IsWarningOf};
ghost use Rattle.job_bodies.specs.Plan.{Plan as PlanValue};
ghost use Rattle.report.specs.Finding.{IsFinding};
ghost use Rattle.report.specs.Places.{needed_places};
ghost use Rattle.sizing_cli.specs.Ask as spec;

use crate::Status;
use crate::answer::{Answer, Output};
use crate::ask_answer::AskOutput;
use crate::certificate::certificate_line;
use crate::lowered_plan::LoweredPlan;
use command_line::{AskOptions, Form};
use diagnostics::{Lint, Warning, has_warning, one_line, plan_places, push_warnings, warnings_of};
use job_bodies::Plan;
use plan_text::TextPlace;
use report::{
    PlanFinding, finding_github, finding_html, finding_json, finding_sarif, needed_places,
    picture_of, render,
};
use size_search::SizesFound;
use std::alloc::{AllocError, Global};

/// Returns the answer for this finding.
///
/// - `text` is the plan's text.
/// - `lowered` has the plan with lowered maximums, and a certificate that accepts this plan (see
///   [`LoweredPlan`]). `lowered` is `None` if no such certificate was found.
/// - `file` is the name that messages use for the plan's file.
/// - `is_stale` is true if a certificate was given and does not accept the plan.
pub(crate) fn answer_of(
    alloc: Global,
    options: AskOptions,
    file: &str,
    text: &[u8],
    plan: &Plan,
    finding: &PlanFinding,
    lowered: Option<&LoweredPlan>,
    is_stale: bool,
) -> Result<AskOutput, AllocError>
    requires { IsFinding plan.now finding.now }
    ensures answer { IfOk result
        (λ answer. spec.AnswersFinding options (spec.source_of file.now text.now) plan.now finding.now
        (option_map (λ lowered. lowered.now) lowered.entry) is_stale answer.output) }
    ensures leaves { IfOk result
        (λ answer. spec.IsFindingCertificate plan.now finding.now (spec.certificate_of_output answer)) }
{
    let warnings = warnings_for(alloc, text, plan, finding, lowered, is_stale)?;
    let answer = answer_with(
        alloc, options, file, text, plan, finding, lowered, is_stale, &warnings,
    )?;
    let certificate = certificate_text(alloc, finding)?;
    Ok(AskOutput {
        output: Output::of(answer),
        certificate,
    })
}

/// Returns the warnings about a plan. If `is_stale` is true, they are followed by a warning about
/// the given certificate. `lowered` has the same meaning as in [`answer_of`].
fn warnings_for(
    alloc: Global,
    text: &[u8],
    plan: &Plan,
    finding: &PlanFinding,
    lowered: Option<&LoweredPlan>,
    is_stale: bool,
) -> Result<Vec<Warning>, AllocError>
    ensures { IfOk result (λ warnings.
        spec.AreWarnings plan.now finding.now (option_map (λ lowered. lowered.now) lowered.entry) is_stale warnings.items) }
{
    let warnings = plan_warnings(alloc, text, plan, finding, lowered)?;
    let all = with_stale(alloc, warnings, is_stale)?;
    Ok(all)
}

/// Returns the warnings about a plan. `lowered` has the same meaning as in [`answer_of`].
fn plan_warnings(
    alloc: Global,
    text: &[u8],
    plan: &Plan,
    finding: &PlanFinding,
    lowered: Option<&LoweredPlan>,
) -> Result<Vec<Warning>, AllocError>
    ensures lints { IfOk result (λ warnings.
        spec.AreLintsWith plan.now finding.now (option_map (λ lowered. lowered.now) lowered.entry)
        (lints_in warnings.items)) }
    ensures single_lines { IfOk result (λ warnings. WarnInSingleLines warnings.items) }
    ensures circles { IfOk result (λ warnings. All (IsWarningOf plan.now) warnings.items) }
{
    match lowered {
        Some(lowered) => lowered_warnings(alloc, text, plan, lowered),
        None => declared_warnings(alloc, text, plan, finding),
    }
}

/// Returns the warnings about `plan` for the case that a certificate accepts the lowered plan (see
/// [`LoweredPlan`]). `lowered` has the lowered plan and this certificate.
fn lowered_warnings(
    alloc: Global,
    text: &[u8],
    plan: &Plan,
    lowered: &LoweredPlan,
) -> Result<Vec<Warning>, AllocError>
    ensures lints { IfOk result (λ warnings.
        AreLints plan.now (needed_places lowered.now.plan lowered.now.cert) true (lints_in warnings.items)) }
    ensures single_lines { IfOk result (λ warnings. WarnInSingleLines warnings.items) }
    ensures circles { IfOk result (λ warnings. All (IsWarningOf plan.now) warnings.items) }
{
    let needed = needed_places(alloc, &lowered.plan, &lowered.cert)?;
    let warnings = warnings_of(alloc, text, plan, &needed, true)?;
    Ok(warnings)
}

fn declared_warnings(
    alloc: Global,
    text: &[u8],
    plan: &Plan,
    finding: &PlanFinding,
) -> Result<Vec<Warning>, AllocError>
    ensures lints { IfOk result (λ warnings.
        AreLints plan.now (spec.needed_of plan.now finding.now) false (lints_in warnings.items)) }
    ensures single_lines { IfOk result (λ warnings. WarnInSingleLines warnings.items) }
    ensures circles { IfOk result (λ warnings. All (IsWarningOf plan.now) warnings.items) }
{
    let needed = needed_of(alloc, plan, finding)?;
    let warnings = warnings_of(alloc, text, plan, &needed, false)?;
    Ok(warnings)
}

/// Returns, for each pool, a queue capacity that a certificate proves to be enough. An element is
/// `None` if the certificate proves no such capacity for the pool. The certificate depends on the
/// finding:
///
/// - If the plan is safe, it is the certificate that shows this.
/// - Otherwise, it is the certificate that accepts the pool sizes in the finding. If the finding
///   has no sizes, the returned list is empty.
fn needed_of(
    alloc: Global,
    plan: &Plan,
    finding: &PlanFinding,
) -> Result<Vec<Option<u64>>, AllocError>
    ensures { IfOk result (λ needed. needed.items ≡ spec.needed_of plan.now finding.now) }
{
    match finding {
        PlanFinding::Safe(cert, _) => needed_places(alloc, plan, cert),
        PlanFinding::NotSafe(_, sizes) | PlanFinding::NotDecided(sizes) => {
            needed_by_sizes(alloc, sizes)
        }
    }
}

fn needed_by_sizes(alloc: Global, sizes: &SizesFound) -> Result<Vec<Option<u64>>, AllocError>
    ensures { IfOk result (λ needed. needed.items ≡ spec.needed_by_sizes sizes.now) }
{
    match sizes {
        SizesFound::Found { plan: fit, cert } => needed_places(alloc, fit, cert),
        SizesFound::NotFound(_) => Ok(Vec::new(alloc)),
    }
}

/// If `is_stale` is true, appends the warning that the given certificate does not accept the plan.
fn with_stale(
    alloc: Global,
    mut warnings: Vec<Warning>,
    is_stale: bool,
) -> Result<Vec<Warning>, AllocError>
    requires { WarnInSingleLines warnings.items }
    ensures lints { IfOk result
        (λ all. lints_in all.items ≡ lints_in warnings.items ++ spec.stale_if is_stale) }
    ensures single_lines { IfOk result (λ all. WarnInSingleLines all.items) }
    ensures circles { IfOk result (λ all.
        (plan : PlanValue) → All (IsWarningOf plan) warnings.items → All (IsWarningOf plan) all.items) }
{
    if is_stale {
        warnings.push(stale_warning(alloc)?)?;
    }
    Ok(warnings)
}

/// Returns the answer with the finding and these warnings. The status depends on the finding, the
/// warnings and `options.strict`. Only the contract uses `lowered` and `is_stale`, which have the
/// same meaning as in [`answer_of`].
fn answer_with(
    alloc: Global,
    options: AskOptions,
    file: &str,
    text: &[u8],
    plan: &Plan,
    finding: &PlanFinding,
    lowered: Option<&LoweredPlan>,
    is_stale: bool,
    warnings: &[Warning],
) -> Result<Answer, AllocError>
    requires { spec.AreWarnings plan.now finding.now (option_map (λ lowered. lowered.now) lowered) is_stale warnings.now }
    ensures { IfOk result (spec.AnswersFinding options (spec.source_of file.now text.now) plan.now finding.now
        (option_map (λ lowered. lowered.now) lowered.entry) is_stale) }
{
    let text = text_of(alloc, options.form, file, text, plan, finding, warnings)?;
    let status = status_of(options.strict, warnings, finding);
    Ok(Answer { text, status })
}

/// Returns the text of the finding and these warnings in the output format `form`. [`Form::Dot`] is
/// a picture, which shows no warnings.
fn text_of(
    alloc: Global,
    form: Form,
    file: &str,
    text: &[u8],
    plan: &Plan,
    finding: &PlanFinding,
    warnings: &[Warning],
) -> Result<String, AllocError>
    ensures { IfOk result (λ answer.
        spec.ReportsFindingIn form (spec.source_of file.now text.now) plan.now warnings.now finding.now
        (string_bytes answer)) }
{
    match form {
        Form::Words => words_of(alloc, file, plan, finding, warnings),
        Form::Dot => picture_of(alloc, plan, finding),
        Form::Json => json_of(alloc, file, text, plan, finding, warnings),
        Form::Html => page_of(alloc, file, text, plan, finding, warnings),
        Form::Github => commands_of(alloc, file, text, plan, finding, warnings),
        Form::Sarif => log_of(alloc, file, text, plan, finding, warnings),
    }
}

fn json_of(
    alloc: Global,
    file: &str,
    text: &[u8],
    plan: &Plan,
    finding: &PlanFinding,
    warnings: &[Warning],
) -> Result<String, AllocError>
    ensures { IfOk result (λ answer.
        spec.ReportsFindingIn forms.Json (spec.source_of file.now text.now) plan.now warnings.now finding.now
        (string_bytes answer)) }
{
    let places = plan_places(alloc, text, plan)?;
    let answer = finding_json(alloc, file, text, &places, plan, finding, warnings)?;
    Ok(answer)
}

fn page_of(
    alloc: Global,
    file: &str,
    text: &[u8],
    plan: &Plan,
    finding: &PlanFinding,
    warnings: &[Warning],
) -> Result<String, AllocError>
    ensures { IfOk result (λ answer.
        spec.ReportsFindingIn forms.Html (spec.source_of file.now text.now) plan.now warnings.now finding.now
        (string_bytes answer)) }
{
    let places = plan_places(alloc, text, plan)?;
    let answer = finding_html(alloc, file, text, &places, plan, finding, warnings)?;
    Ok(answer)
}

fn commands_of(
    alloc: Global,
    file: &str,
    text: &[u8],
    plan: &Plan,
    finding: &PlanFinding,
    warnings: &[Warning],
) -> Result<String, AllocError>
    ensures { IfOk result (λ answer.
        spec.ReportsFindingIn forms.Github (spec.source_of file.now text.now) plan.now warnings.now finding.now
        (string_bytes answer)) }
{
    let places = plan_places(alloc, text, plan)?;
    let answer = finding_github(alloc, file, &places, plan, finding, warnings)?;
    Ok(answer)
}

fn log_of(
    alloc: Global,
    file: &str,
    text: &[u8],
    plan: &Plan,
    finding: &PlanFinding,
    warnings: &[Warning],
) -> Result<String, AllocError>
    ensures { IfOk result (λ answer.
        spec.ReportsFindingIn forms.Sarif (spec.source_of file.now text.now) plan.now warnings.now finding.now
        (string_bytes answer)) }
{
    let places = plan_places(alloc, text, plan)?;
    let answer = finding_sarif(alloc, file, &places, plan, finding, warnings)?;
    Ok(answer)
}

fn words_of(
    alloc: Global,
    file: &str,
    plan: &Plan,
    finding: &PlanFinding,
    warnings: &[Warning],
) -> Result<String, AllocError>
    ensures { IfOk result
        (λ text. spec.ReportsFinding file.now plan.now warnings.now finding.now (string_bytes text)) }
{
    let words = render(alloc, plan, finding)?;
    let mut text = String::new(alloc);
    push_warnings(&mut text, file, warnings)?;
    text.push_str(&words)?;
    Ok(text)
}

fn status_of(strict: bool, warnings: &[Warning], finding: &PlanFinding) -> Status
    ensures { result ≡ spec.status_of strict warnings.now finding.now }
{
    match finding {
        PlanFinding::Safe(_, _) => {
            if strict && has_warning(warnings) {
                Status::Refused
            } else {
                Status::Done
            }
        }
        PlanFinding::NotSafe(_, _) => Status::Refused,
        PlanFinding::NotDecided(_) => Status::Undecided,
    }
}

/// Returns the text of the certificate that a finding is based on. Returns `None` if the finding is
/// based on no certificate, or if the text would be too long to be read back.
fn certificate_text(alloc: Global, finding: &PlanFinding) -> Result<Option<Vec<u8>>, AllocError>
    ensures { IfOk result (λ left.
        (plan : PlanValue)
        → IsFinding plan finding.now
        → spec.IsFindingCertificate plan finding.now (option_map (λ text. text.items) left)) }
{
    match finding {
        PlanFinding::Safe(cert, _) => certificate_line(alloc, cert),
        PlanFinding::NotSafe(_, _) => Ok(None),
        PlanFinding::NotDecided(_) => Ok(None),
    }
}

/// Returns the warning that the given certificate does not accept the plan.
fn stale_warning(alloc: Global) -> Result<Warning, AllocError>
    ensures lint { IfOk result (λ warning. warning.lint ≡ Lint.StaleCertificate) }
    ensures single_line { IfOk result (λ warning. HasNoNewline (string_bytes warning.what)) }
    ensures circle { IfOk result (λ warning. (plan : PlanValue) → IsWarningOf plan warning) }
{
    let what =
        "the certificate that was given does not show that these sizes are safe: write a new one with `sizing ask --certificate FILE PLAN`";
    Ok(Warning {
        lint: Lint::StaleCertificate,
        place: TextPlace { line: 1, column: 1 },
        what: one_line(alloc, what)?,
    })
}
