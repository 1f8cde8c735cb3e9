//! The answers of the commands that use no threads.

mod ended;
mod failing;
mod words;

ghost use Rattle.std.specs.Prelude.{◌<◌};

use crate::files::Suite;
use crate::sequential::ended::{Ended, Query, serve};
use crate::sequential::failing::Case;
use crate::sequential::words::asked;
use sizing_cli::{MemorySink, MemorySource, RecordingCommand, ReviewCommand};
use std::alloc::{AllocError, Global};

/// The suite for commands that use no threads. The kinds of input are these:
///
/// - `replay`, `check`, `explain`, `conform`, `learn` and `learn strict`: the input of the command.
///   The answer is the output, with the exit status on the last line. The test then repeats the
///   command with a source and a sink that transfer a small piece in each call. If the input is
///   short, the test also repeats the command with failures: in each repetition, a different call
///   of the source or of the sink fails. The answer has a note for each unexpected result.
/// - `check and explain`: an input of both commands. The answer is the output of `check`. If the
///   output of `explain` is different, it follows in the answer.
/// - `prefixes of a replay`, `prefixes of a check` and `prefixes of an explain`: an input of the
///   command. The test runs the command on each proper prefix of the input, from the shortest to
///   the longest. The answer has the output for the empty prefix. If the output for a longer prefix
///   differs from the output before it, the answer also has this output and the length of the
///   prefix.
/// - `words`: the arguments of a command line, each followed by a newline.
pub struct SequentialCommands;

// The maximum length of a short input, in bytes.
const SHORT: usize = 250;

// The maximum length of an input that is repeated with single bytes. A longer input is repeated in
// larger pieces.
const LONG: usize = 20_000;

impl Suite for SequentialCommands {
    fn answer(&self, alloc: Global, kind: &str, input: &[u8]) -> Result<String, AllocError> {
        match kind {
            "replay" => answered(alloc, Query::ReviewCommand(ReviewCommand::Replay), input),
            "check" => answered(alloc, Query::ReviewCommand(ReviewCommand::Check), input),
            "explain" => answered(alloc, Query::ReviewCommand(ReviewCommand::Explain), input),
            "check and explain" => checked_and_explained(alloc, input),
            "prefixes of a replay" => prefixes(
                alloc,
                Query::ReviewCommand(ReviewCommand::Replay),
                input,
            ),
            "prefixes of a check" => prefixes(
                alloc,
                Query::ReviewCommand(ReviewCommand::Check),
                input,
            ),
            "prefixes of an explain" => prefixes(
                alloc,
                Query::ReviewCommand(ReviewCommand::Explain),
                input,
            ),
            "conform" => answered(
                alloc,
                Query::RecordingCommand(RecordingCommand::Conform),
                input,
            ),
            "learn" => answered(
                alloc,
                Query::RecordingCommand(RecordingCommand::Learn { strict: false }),
                input,
            ),
            "learn strict" => answered(
                alloc,
                Query::RecordingCommand(RecordingCommand::Learn { strict: true }),
                input,
            ),
            "words" => asked(alloc, input),
            _ => String::from_str(alloc, "no such kind of input"),
        }
    }
}

fn whole(alloc: Global, query: Query, input: &[u8]) -> Result<Ended, AllocError> {
    let sink = MemorySink::new(alloc);
    serve(alloc, query, &mut MemorySource::new(input), sink)
}

// Returns the result of the command if each call reads or writes at most `most` bytes.
fn in_pieces(alloc: Global, query: Query, input: &[u8], most: usize) -> Result<Ended, AllocError>
    requires { 0 < most }
{
    let mut source = MemorySource::new(input).at_most(most);
    let sink = MemorySink::new(alloc).at_most(most);
    serve(alloc, query, &mut source, sink)
}

fn answered(alloc: Global, query: Query, input: &[u8]) -> Result<String, AllocError> {
    let ended = whole(alloc, query, input)?;
    let mut answer = ended.to_text(alloc)?;
    let case = Case { input, ended };
    push_differences(alloc, query, &case, &mut answer)?;
    Ok(answer)
}

// Appends a note to the answer if the result differs in pieces or, for a short input, is unexpected
// with a source or a sink that fails.
fn push_differences(
    alloc: Global,
    query: Query,
    case: &Case<'_>,
    answer: &mut String,
) -> Result<(), AllocError> {
    let most = if case.input.len() <= LONG { 1 } else { 5_000 };
    if in_pieces(alloc, query, case.input, most)? != case.ended {
        answer.push_str(", but not in pieces")?;
    }
    if case.input.len() <= SHORT {
        case.push_differences(alloc, query, answer)?;
    }
    Ok(())
}

fn checked_and_explained(alloc: Global, input: &[u8]) -> Result<String, AllocError> {
    let mut answer = answered(alloc, Query::ReviewCommand(ReviewCommand::Check), input)?;
    let explained = answered(alloc, Query::ReviewCommand(ReviewCommand::Explain), input)?;
    if explained != answer {
        write!(answer, "\n{explained}")?;
    }
    Ok(answer)
}

fn prefixes(alloc: Global, query: Query, input: &[u8]) -> Result<String, AllocError> {
    let mut last = whole(alloc, query, &[])?;
    let mut answer = last.to_text(alloc)?;
    for length in 0..input.len() {
        let ended = whole(alloc, query, &input[..length])?;
        if ended != last {
            let shown = ended.to_text(alloc)?;
            write!(answer, "\nfrom {length} bytes:\n{shown}")?;
            last = ended;
        }
    }
    Ok(answer)
}
