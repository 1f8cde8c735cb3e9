//! The answer of a command: its text and its status.

ghost use Rattle.std.specs.Prelude.{◌≡◌, ◌++◌, [], IfOk, string_bytes, ◌+◌, IfErr};
ghost use Rattle.support.specs.Name.{head};
ghost use Rattle.job_bodies.specs.FaultText.{fault_line};
ghost use Rattle.sizing_cli.specs.Answer as spec;
ghost use Rattle.sizing_cli.specs.Conform.{bad_recording as bad_recording_spec};
ghost use Rattle.sizing_cli.specs.Report.{limit_words, too_large};
ghost use Rattle.sizing_cli.specs.Transcript.{is_no, reply_answer};
ghost use Rattle.std.specs.Io.KnownBytes.{Appends};
ghost use Rattle.byte_streams.specs.Writing.{AppendsFront};
ghost use Rattle.support.specs.declared.number.TheConstants.{WRITE_FAILED};
ghost use Rattle.sizing_cli.specs.ServeFault.{count_of};

use crate::line_ends::line_end_hint;
use crate::{ServeFault, Status};
use byte_streams::{Sink, write_all};
use cert_text::CertFault;
use interleaving::{Outcome, Reply, push_reply};
use job_bodies::{Plan, PlanFault};
use locked_runner::{RunLimit, limit_of};
use recordings::RecordingFault;
use std::alloc::{AllocError, Global};
use std::marker::Model;
use support::{Counter, FaultHead, number};

/// The text that a command writes, and the status with which the command ends.
#[derive(Drop)]
pub struct Answer {
    pub text: String,
    pub status: Status,
}

impl Model for Answer {
    ghost Value = { spec.Answer };

    ghost view = { λ answer. record { text = string_bytes answer.text; status = answer.status } };
}

impl Answer {
    /// Returns an answer without text, with the status [`Status::Done`].
    pub fn empty(alloc: Global) -> Answer
        ensures { result ≡ record { text = []; status = Status.Done } }
    {
        Answer {
            text: String::new(alloc),
            status: Status::Done,
        }
    }

    /// Returns an answer with the text `line` and the status [`Status::Refused`].
    pub fn no(alloc: Global, line: &str) -> Result<Answer, AllocError>
        ensures { IfOk result
            (λ answer. answer ≡ record { text = line.now; status = Status.Refused }) }
    {
        Ok(Answer {
            text: String::from_str(alloc, line)?,
            status: Status::Refused,
        })
    }

    /// Appends the line with the reply to one event line. `number` is the number of the event line,
    /// counted from 1. Sets the status to [`Status::Refused`] in these cases:
    ///
    /// - A submit was refused, or the event was not possible.
    /// - The event line is a `stuck` line, and the jobs that it names wait only for each other.
    pub fn push_reply(
        &mut self,
        plan: &Plan,
        number: &Counter,
        reply: Reply,
    ) -> Result<(), AllocError>
        ensures { IfOk result
            (λ _. self.new ≡ spec.followed_by self.old (reply_answer plan.now number.now reply)) }
    {
        push_reply(&mut self.text, plan, number, reply)?;
        if is_no(reply) {
            self.status = Status::Refused;
        }
        Ok(())
    }
}

fn is_no(reply: Reply) -> bool
    ensures { result ≡ is_no reply }
{
    matches!(
        reply,
        Reply::Performed(Outcome::Refused(_)) | Reply::NotPossible | Reply::Stuck(true)
    )
}

/// Returns the answer to an input that lacks the line `%%` between the plan and the text after it.
pub fn no_separator(alloc: Global) -> Result<Answer, AllocError>
    ensures { IfOk result (λ answer. answer ≡ spec.no_separator) }
{
    fault(format!(in alloc; "{}", FaultHead(number::NO_SEPARATOR))?)
}

/// Returns the answer to an input that is too long as a whole, or whose event lines together are
/// too long.
pub fn input_too_long(alloc: Global) -> Result<Answer, AllocError>
    ensures { IfOk result (λ answer. answer ≡ spec.input_too_long) }
{
    fault(format!(in alloc; "{}", FaultHead(number::INPUT_TOO_LONG))?)
}

/// Returns the answer to a plan that is too large to run. The answer names the first limit that a
/// run of the plan would exceed.
pub fn too_large(alloc: Global, plan: &Plan) -> Result<Answer, AllocError>
    ensures { IfOk result (λ answer. answer ≡ too_large plan.now) }
{
    let words = limit_words(limit_of(plan));
    fault(format!(in alloc; "{}: {words}", FaultHead(number::RUN_TOO_LARGE))?)
}

fn limit_words(limit: RunLimit) -> &'static str
    ensures { result.now ≡ limit_words limit }
{
    match limit {
        RunLimit::Rejections => "a pool that may reject jobs",
        RunLimit::Clients => "more than 64 clients",
        RunLimit::Threads => "more than 64 threads of all pools together",
        RunLimit::Events => "more than 1000000 events",
    }
}

/// Returns the answer to event lines with a malformed line. `line` is the number of the first such
/// line, counted from 1.
pub fn bad_event(alloc: Global, line: u64) -> Result<Answer, AllocError>
    ensures { IfOk result (λ answer. answer ≡ spec.bad_event line) }
{
    fault(format!(in alloc; "{} at line {line}", FaultHead(number::BAD_EVENT))?)
}

/// Returns the answer to a recording with a malformed line. `found` has the number of this line and
/// says what is wrong with it. If the line ends with a carriage return, the answer says so.
pub fn bad_recording(
    alloc: Global,
    recording: &[u8],
    found: RecordingFault,
) -> Result<Answer, AllocError>
    ensures { IfOk result (λ answer. answer ≡ bad_recording_spec recording.now found) }
{
    let hint = line_end_hint(recording, found.line);
    fault(format!(in alloc; "{} at {found}{hint}", FaultHead(number::BAD_RECORDING))?)
}

/// Returns the answer that reports a fault of a plan's text.
pub fn plan_fault(alloc: Global, plan_fault: PlanFault) -> Result<Answer, AllocError>
    ensures { IfOk result (λ answer. answer ≡ spec.fault (fault_line plan_fault)) }
{
    fault(format!(in alloc; "{plan_fault}")?)
}

/// Returns the answer that reports a fault of a certificate's text.
pub fn cert_fault(alloc: Global, cert_fault: CertFault) -> Result<Answer, AllocError>
    ensures { IfOk result (λ answer. answer ≡ spec.fault (head cert_fault.number)) }
{
    fault(format!(in alloc; "{cert_fault}")?)
}

fn fault(mut line: String) -> Result<Answer, AllocError>
    ensures { IfOk result (λ answer. answer ≡ spec.fault (string_bytes line)) }
{
    line.push('\n')?;
    Ok(Answer {
        text: line,
        status: Status::BadText,
    })
}

/// An answer as bytes. In contrast to an [`Answer`], it can contain bytes of the input that are not
/// UTF-8.
#[derive(Drop)]
pub struct Output {
    pub bytes: Vec<u8>,
    pub status: Status,
}

impl Model for Output {
    ghost Value = { spec.Answer };

    ghost view = { λ output. record { text = output.bytes.items; status = output.status } };
}

impl Output {
    /// Converts an answer to bytes.
    pub fn of(answer: Answer) -> Output
        ensures { result ≡ answer }
    {
        Output {
            bytes: answer.text.into_bytes(),
            status: answer.status,
        }
    }
}

/// Writes an output to the sink, and returns its status.
///
/// # Errors
///
/// Fails with fault 61 if the sink fails. A prefix of the output was then written.
pub(crate) fn write_output<K: Sink>(output: &Output, sink: &mut K) -> Result<Status, ServeFault>
    ensures status { IfOk result (λ status. status ≡ output.now.status) }
    ensures written { IfOk result (λ _. Appends (K.written sink.old) (K.written sink.new) output.now.text) }
    ensures number { IfErr result (λ fault. fault.number ≡ WRITE_FAILED) }
    ensures prefix { IfErr result (λ _. AppendsFront (K.written sink.old) (K.written sink.new) output.now.text) }
    ensures failed { K.failures sink.new ≡ K.failures sink.old + count_of WRITE_FAILED result }
{
    write_all(sink, &output.bytes)?;
    Ok(output.status)
}
