//! The review commands `replay`, `check` and `explain`, which need no threads.

ghost use Rattle.std.specs.Prelude.{◌≡◌, IfOk};
ghost use Rattle.clap.specs.Words.{Text};
ghost use Rattle.command_line.specs.declared.command.Command.TheVariants.{Sequential};
ghost use Rattle.sizing_cli.specs.CommandResult.{Serves, stream_change};
ghost use Rattle.sizing_cli.specs.Report as spec;

use crate::answer::{Answer, Output, write_output};
use crate::check::check;
use crate::explain::explain;
use crate::input::read_input;
use crate::replay::replay;
use crate::status::{ServeFault, Status};
use byte_streams::{Sink, Source, read_up_to};
use command_line::ReviewCommand;
use job_bodies::{MAX_INPUT_BYTES, Plan};
use std::alloc::{AllocError, Global};
use support::ReadError;

/// Reads an input, runs the review command on it, and writes the answer to the sink. The whole
/// answer is computed before the first byte of it is written.
///
/// The call reads at most 2,097,156 bytes. It always ends, because each read except the last takes
/// at least one byte.
///
/// # Errors
///
/// - Fails with fault 20 if memory runs out.
/// - Fails with fault 60 if the source fails during this call.
/// - Fails with fault 61 if the sink fails. A prefix of the answer was then written.
///
/// After any fault other than 61, nothing was written.
pub fn serve_alone<S: Source, K: Sink>(
    alloc: Global,
    review: ReviewCommand,
    source: &mut S,
    sink: &mut K,
) -> Result<Status, ServeFault>
    ensures { (file : Text) → Serves (Sequential review) file (stream_change S.remaining S.failures source.old source.new)
        (stream_change K.written K.failures sink.old sink.new) result }
{
    let input = read_up_to(alloc, source, MAX_INPUT_BYTES + 1)?;
    let output = Output::of(review_report(alloc, review, &input)?);
    write_output(&output, sink)
}

/// Runs the review command on an input, and returns the answer.
pub(crate) fn review_report(
    alloc: Global,
    review: ReviewCommand,
    input: &[u8],
) -> Result<Answer, AllocError>
    ensures { IfOk result (λ answer. answer ≡ spec.report review input.now) }
{
    match read_input(alloc, input) {
        Ok(read) => answer_of(alloc, review, &read.plan, read.second),
        Err(ReadError::Memory) => Err(AllocError),
        Err(ReadError::Fault(answer)) => Ok(answer),
    }
}

/// Runs a review command on the two parts of a bundle, and returns the answer. `plan` is the first
/// part, after it was parsed. `second` is the text of the second part.
fn answer_of(
    alloc: Global,
    review: ReviewCommand,
    plan: &Plan,
    second: &[u8],
) -> Result<Answer, AllocError>
    ensures { IfOk result (λ answer. answer ≡ spec.answer_of review plan.now second.now) }
{
    match review {
        ReviewCommand::Replay => replay(alloc, plan, second),
        ReviewCommand::Check => check(alloc, plan, second),
        ReviewCommand::Explain => explain(alloc, plan, second),
    }
}
