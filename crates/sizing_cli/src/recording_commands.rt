//! The commands on recordings, `conform` and `learn`, which need no threads.

ghost use Rattle.std.specs.Prelude.{IfOk};
ghost use Rattle.clap.specs.Words.{Text};
ghost use Rattle.command_line.specs.declared.command.Command.TheVariants.{OnRecording};
ghost use Rattle.sizing_cli.specs.CommandResult.{IsRecordingAnswer, Serves, stream_change};

use crate::answer::{Answer, Output, write_output};
use crate::conform::conform_report;
use crate::learn::learn_report;
use crate::status::{ServeFault, Status};
use byte_streams::{Sink, Source, read_up_to};
use command_line::RecordingCommand;
use job_bodies::MAX_RECORDED_BYTES;
use std::alloc::{AllocError, Global};

/// Reads an input, runs the command on it, and writes the answer to the sink. The whole answer is
/// computed before the first byte of it is written.
///
/// The call reads at most 268,435,457 bytes. It always ends, because each read except the last
/// takes at least one byte.
///
/// # Errors
///
/// - Fails with fault 20 if memory runs out.
/// - Fails with fault 60 if the source fails during this call.
/// - Fails with fault 61 if the sink fails. A prefix of the answer was then written.
///
/// After any fault other than 61, nothing was written.
pub fn serve_recording<S: Source, K: Sink>(
    alloc: Global,
    reading: RecordingCommand,
    source: &mut S,
    sink: &mut K,
) -> Result<Status, ServeFault>
    ensures { (file : Text) → Serves (OnRecording reading) file (stream_change S.remaining S.failures source.old source.new)
        (stream_change K.written K.failures sink.old sink.new) result }
{
    let input = read_up_to(alloc, source, MAX_RECORDED_BYTES + 1)?;
    let output = Output::of(recording_report(alloc, reading, &input)?);
    write_output(&output, sink)
}

/// Runs the command on an input with a recording, and returns the answer.
pub(crate) fn recording_report(
    alloc: Global,
    reading: RecordingCommand,
    input: &[u8],
) -> Result<Answer, AllocError>
    ensures { IfOk result (IsRecordingAnswer reading input.now) }
{
    match reading {
        RecordingCommand::Conform => conform_report(alloc, input),
        RecordingCommand::Learn { strict } => learn_report(alloc, strict, input),
    }
}
