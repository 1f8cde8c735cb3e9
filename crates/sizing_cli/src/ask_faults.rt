//! The answers of `ask` to texts with faults.

ghost use Rattle.std.specs.Prelude.{◌≡◌, ◌++◌, IfOk, string_bytes};
ghost use Rattle.support.specs.Pushed.{Pushes};
ghost use Rattle.diagnostics.specs.Diagnostic.{faults_text};
ghost use Rattle.sizing_cli.specs.Ask as spec;

use crate::Status;
use crate::answer::{Answer, Output};
use cert_text::CertFault;
use command_line::Form;
use diagnostics::{Faults, faults_of, one_line, push_faults};
use job_bodies::PlanFault;
use report::{
    fault_github, fault_html, fault_json, fault_sarif, faults_github, faults_html, faults_json,
    faults_sarif,
};
use std::alloc::{AllocError, Global};
use support::number::{CERT_TOO_LONG, NOT_JSON, VERSION, WEIGHT_TOO_LARGE};

/// Returns the answer that reports the faults of a plan's text. `fault` is the first of these
/// faults. Messages use `file` as the name of the plan's file.
pub(crate) fn faults_answer(
    alloc: Global,
    form: Form,
    file: &str,
    text: &[u8],
    fault: PlanFault,
) -> Result<Output, AllocError>
    ensures { IfOk result (spec.AnswersFault form (spec.source_of file.now text.now) fault) }
{
    let faults = faults_of(alloc, text, fault)?;
    let text = faults_text(alloc, form, file, text, &faults)?;
    Ok(bad_text(text))
}

/// Returns the text of the faults in the output format `form`. For [`Form::Dot`], which cannot show
/// faults, the text is the same as for [`Form::Words`].
fn faults_text(
    alloc: Global,
    form: Form,
    file: &str,
    text: &[u8],
    faults: &Faults,
) -> Result<String, AllocError>
    ensures { IfOk result (λ answer.
        spec.ReportsFaultsIn form (spec.source_of file.now text.now) faults.now (string_bytes answer)) }
{
    match form {
        Form::Words | Form::Dot => faults_lines(alloc, file, faults),
        Form::Json => faults_json(alloc, file, text, faults),
        Form::Html => faults_html(alloc, file, text, faults),
        Form::Github => faults_github(alloc, file, faults),
        Form::Sarif => faults_sarif(alloc, file, faults),
    }
}

fn faults_lines(alloc: Global, file: &str, faults: &Faults) -> Result<String, AllocError>
    ensures { IfOk result (λ text. string_bytes text ≡ faults_text file.now faults.now) }
{
    let mut text = String::new(alloc);
    push_faults(&mut text, file, faults)?;
    Ok(text)
}

/// Returns an answer with this text and the status [`Status::BadText`].
fn bad_text(text: String) -> Output
    ensures { result ≡ record { text = string_bytes text; status = Status.BadText } }
{
    Output::of(Answer {
        text,
        status: Status::BadText,
    })
}

/// Returns the answer that reports this fault of a certificate's text. Messages use `file` as the
/// name of the plan's file. `text` is the content of the plan's file.
pub(crate) fn cert_fault_answer(
    alloc: Global,
    form: Form,
    file: &str,
    text: &[u8],
    fault: CertFault,
) -> Result<Output, AllocError>
    ensures { IfOk result (spec.AnswersCertFault form (spec.source_of file.now text.now) fault) }
{
    let words = one_line(alloc, words_for(fault.number))?;
    let text = cert_fault_text(alloc, form, file, text, fault.number, &words)?;
    Ok(bad_text(text))
}

/// Returns the text that reports a certificate's fault in the output format `form`. `words` is the
/// message of the fault. For [`Form::Dot`], the text is the same as for [`Form::Words`].
fn cert_fault_text(
    alloc: Global,
    form: Form,
    file: &str,
    text: &[u8],
    number: u8,
    words: &str,
) -> Result<String, AllocError>
    ensures { IfOk result (λ answer.
        spec.ReportsCertFaultIn form (spec.source_of file.now text.now) number words.now (string_bytes answer)) }
{
    match form {
        Form::Words | Form::Dot => numbered(alloc, words, number),
        Form::Json => fault_json(alloc, file, text, number, words),
        Form::Html => fault_html(alloc, file, text, number, words),
        Form::Github => fault_github(alloc, file, number, words),
        Form::Sarif => fault_sarif(alloc, file, number, words),
    }
}

/// Returns a line with the message `words` and the fault number `number`.
fn numbered(alloc: Global, words: &str, number: u8) -> Result<String, AllocError>
    ensures { IfOk result (λ text. string_bytes text ≡ words.now ++ spec.fault_number number) }
{
    let mut text = String::from_str(alloc, words)?;
    push_number(&mut text, number)?;
    Ok(text)
}

fn push_number(text: &mut String, number: u8) -> Result<(), AllocError>
    ensures { Pushes result text.old text.new (spec.fault_number number) }
{
    writeln!(text, " (fault {number})")
}

/// Returns the message for the certificate fault with this number. The message says what is wrong
/// and how to fix it.
fn words_for(number: u8) -> &'static str {
    match number {
        NOT_JSON =>
            "the certificate is not JSON: pass the file that `sizing ask --certificate FILE PLAN` wrote",
        VERSION => "the certificate has an unknown version: `version` must be 1 or 2",
        WEIGHT_TOO_LARGE => "a number in the certificate is too large: the maximum is 1000000000",
        CERT_TOO_LONG => "the certificate is too long: the maximum is 1048576 bytes",
        _ =>
            "the certificate does not fit this plan: it has a missing or unknown key, a list of the wrong length, or a number that is negative or not whole; if pools, classes, clients or bodies changed, write a new one with `sizing ask --certificate FILE PLAN`",
    }
}
