//! The entry points that serve one input to any command.

ghost use Rattle.std.specs.Prelude.{IfOk, IfErr, IfSome, IsTrue, codes, option_map};
ghost use Rattle.command_line.specs.Command.{IsInRange, IsTaskInRange};
ghost use Rattle.command_line.specs.declared.command.Command.TheVariants.{OnThreads};
ghost use Rattle.sizing_cli.specs.ServeFault.{is_of_answer, is_of_search, is_of_threads};
ghost use Rattle.sizing_cli.specs.Ask.{IsAskAnswer};
ghost use Rattle.sizing_cli.specs.CommandResult.{IsAnswer, IsAnswerWith, IsTaskAnswer, WritesWithCertificate, Serves, ServesInput, stream_change};

use crate::answer::{Output, write_output};
use crate::ask_answer::{AskOutput, ask};
use crate::certify::certify;
use crate::fit::fit;
use crate::most_bytes;
use crate::named_texts::NO_FILE;
use crate::recording_commands::recording_report;
use crate::refute::refute;
use crate::review_commands::review_report;
use crate::run::run_report;
use crate::status::{ServeFault, Status};
use byte_streams::{Sink, Source, read_up_to};
use command_line::{AskInput, AskOptions, Command, Task};
use std::alloc::Global;
use std::sync::Wait;
use std::thread::Threads;

/// Reads an input, runs the command on it, and writes the answer to the sink. The whole answer is
/// computed before the first byte of it is written. The numbers in the command must be in their
/// ranges.
///
/// The call reads at most 2,097,156 bytes, or 268,435,457 bytes for a command on a recording. Each
/// read except the last takes at least one byte. For a [`Task`], the call starts threads and joins
/// them.
///
/// # Errors
///
/// Any command fails with one of these faults:
///
/// - 20 if memory runs out;
/// - 60 if the source fails during this call;
/// - 61 if the sink fails.
///
/// A [`Task`] also fails with one of these faults:
///
/// - 20 if a thread for a search or a run cannot be started;
/// - 42 or 43 if [`search`](cert_search::search) ends with that fault;
/// - 43 if [`check_on`](cert_check::check_on) ends with that fault;
/// - 42 for [`Task::Certify`] and [`Task::Fit`] if `check` does not accept the bundle that was
///   found;
/// - 41, 42 or 43 for [`Task::Run`] if [`run`](locked_runner::run) ends with that fault.
///
/// After fault 61, a prefix of the answer was written. After any other fault, nothing was written.
pub fn serve<R: Threads + Wait + Sync, S: Source, K: Sink>(
    rt: &R,
    alloc: Global,
    command: Command,
    source: &mut S,
    sink: &mut K,
) -> Result<Status, ServeFault>
    requires { IsInRange command }
    ensures { Serves command (codes "<stdin>") (stream_change S.remaining S.failures source.old source.new)
        (stream_change K.written K.failures sink.old sink.new) result }
{
    let input = read_up_to(alloc, source, most_bytes(command) + 1)?;
    let mut certificate = None;
    write_answer(rt, alloc, command, NO_FILE, &mut certificate, input, sink)
}

/// Runs the command on this input, and writes the answer to the sink. Messages use `file` as the
/// name of the plan's file.
///
/// If the command is `ask` and this call succeeds, `certificate` becomes the text of the
/// certificate that the answer is based on, with a newline at its end. `certificate` becomes `None`
/// if the answer is based on no certificate, or if the text is too long to be read back. Any other
/// command leaves `certificate` unchanged.
///
/// # Errors
///
/// Fails with the faults of [`serve`], except fault 60.
pub(crate) fn write_answer<R: Threads + Wait + Sync, K: Sink>(
    rt: &R,
    alloc: Global,
    command: Command,
    file: &str,
    certificate: &mut Option<Vec<u8>>,
    input: Vec<u8>,
    sink: &mut K,
) -> Result<Status, ServeFault>
    requires { IsInRange command }
    ensures serves { ServesInput command file.now input.items (stream_change K.written K.failures sink.old sink.new)
        result }
    ensures left { IfOk result (λ status.
        WritesWithCertificate command file.now input.items status (option_map (λ text. text.items) certificate.new)
        (K.written sink.old) (K.written sink.new)) }
{
    let output = output_of(rt, alloc, command, file, certificate, input)?;
    write_output(&output, sink)
}

/// Runs the command on this input, and returns its output. `file` and `certificate` have the same
/// meaning as in [`write_answer`].
fn output_of<R: Threads + Wait + Sync>(
    rt: &R,
    alloc: Global,
    command: Command,
    file: &str,
    certificate: &mut Option<Vec<u8>>,
    input: Vec<u8>,
) -> Result<Output, ServeFault>
    requires { IsInRange command }
    ensures answer { IfOk result (IsAnswer command file.now input.items) }
    ensures left { IfOk result (λ output.
        IsAnswerWith command file.now input.items output (option_map (λ text. text.items) certificate.new)) }
    ensures fault { IfErr result (λ fault. IsTrue (is_of_answer command fault.number)) }
{
    match command {
        Command::Sequential(review) => Ok(Output::of(review_report(alloc, review, &input)?)),
        Command::OnRecording(reading) => Ok(Output::of(recording_report(alloc, reading, &input)?)),
        Command::OnThreads(task) => output_on_threads(rt, alloc, task, file, certificate, input),
    }
}

/// Runs the task on this input, and returns its output. The task may use threads. `file` and
/// `certificate` have the same meaning as in [`write_answer`].
fn output_on_threads<R: Threads + Wait + Sync>(
    rt: &R,
    alloc: Global,
    task: Task,
    file: &str,
    certificate: &mut Option<Vec<u8>>,
    input: Vec<u8>,
) -> Result<Output, ServeFault>
    requires { IsTaskInRange task }
    ensures answer { IfOk result (IsTaskAnswer task file.now input.items) }
    ensures left { IfOk result (λ output.
        IsAnswerWith (OnThreads task) file.now input.items output (option_map (λ text. text.items) certificate.new)) }
    ensures fault { IfErr result (λ fault. IsTrue (is_of_threads task fault.number)) }
{
    match task {
        Task::Certify { workers } => certify(rt, alloc, workers, input),
        Task::Fit { sizes_form } => fit(rt, alloc, sizes_form, &input),
        Task::Run { rounds } => Ok(Output::of(run_report(rt, alloc, rounds, &input)?)),
        Task::Refute {
            states,
            refute_format,
        } => refute(rt, alloc, states, refute_format, input),
        Task::Ask { given, options } => {
            answer_question(rt, alloc, given, options, file, certificate, &input)
        }
    }
}

/// Runs `ask` and returns its output. Sets `certificate` as [`write_answer`] does.
fn answer_question<R: Threads + Wait + Sync>(
    rt: &R,
    alloc: Global,
    given: AskInput,
    options: AskOptions,
    file: &str,
    certificate: &mut Option<Vec<u8>>,
    input: &[u8],
) -> Result<Output, ServeFault>
    ensures answer { IfOk result
        (IsAskAnswer given options file.now input.now (option_map (λ text. text.items) certificate.new)) }
    ensures fault { IfErr result (λ fault. IsTrue (is_of_search fault.number)) }
{
    let AskOutput {
        output,
        certificate: found,
    } = ask(rt, alloc, given, options, file, input)?;
    *certificate = found;
    Ok(output)
}
