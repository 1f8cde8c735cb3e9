//! Commands whose source and sink handle one byte in each call, or fail at one call.

ghost use Rattle.command_line.specs.Command.{IsInRange};

use crate::on_threads::ended::Ended;
use sizing_cli::{Command, MemorySink, MemorySource, ServeFault};
use std::alloc::{AllocError, Global};
use std::sync::Wait;
use std::thread::Threads;

const READ_FAILED: ServeFault = ServeFault { number: 60 };

const WRITE_FAILED: ServeFault = ServeFault { number: 61 };

// The maximum number of bytes that a call of a failing source or sink reads or writes.
const PIECE: usize = 250;

/// Returns the output of the command. Then repeats the command, and adds a note for each unexpected
/// result. The repetitions have these sources and sinks:
///
/// - a source and a sink that transfer one byte in each call, and
/// - a source or a sink of which one call fails.
pub fn run_with_failures<R: Threads + Wait + Sync>(
    rt: &R,
    alloc: Global,
    command: Command,
    input: &[u8],
) -> Result<String, AllocError>
    requires { IsInRange command }
{
    let ended = Ended::of_input(rt, alloc, command, input)?;
    let mut answer = ended.to_text(alloc)?;
    push_differences(rt, alloc, command, input, &ended, &mut answer)?;
    Ok(answer)
}

/// Repeats the command, and appends a note to the answer for each unexpected result. The
/// repetitions have these sources and sinks:
///
/// - A source and a sink that transfer one byte in each call. The result must be `ended`.
/// - A source or a sink of which one call fails.
pub fn push_differences<R: Threads + Wait + Sync>(
    rt: &R,
    alloc: Global,
    command: Command,
    input: &[u8],
    ended: &Ended,
    answer: &mut String,
) -> Result<(), AllocError>
    requires { IsInRange command }
{
    if in_bytes(rt, alloc, command, input)? != *ended {
        answer.push_str(", but not a byte at a time")?;
    }
    push_failing_reads(rt, alloc, command, input, ended, answer)?;
    push_failing_writes(rt, alloc, command, input, ended, answer)
}

// Returns the result of the command if each call reads or writes one byte.
fn in_bytes<R: Threads + Wait + Sync>(
    rt: &R,
    alloc: Global,
    command: Command,
    input: &[u8],
) -> Result<Ended, AllocError>
    requires { IsInRange command }
{
    let mut source = MemorySource::new(input).at_most(1);
    let sink = MemorySink::new(alloc).at_most(1);
    Ended::of_source(rt, alloc, command, &mut source, sink)
}

// Runs the command once for each call of the source, so that this call fails. Appends a note unless
// the result is fault 60 without output.
//
// The program makes one call more than those that return bytes, to find the end of the input. It
// makes no later call, so a source that would fail at a later call has no effect.
fn push_failing_reads<R: Threads + Wait + Sync>(
    rt: &R,
    alloc: Global,
    command: Command,
    input: &[u8],
    ended: &Ended,
    answer: &mut String,
) -> Result<(), AllocError>
    requires { IsInRange command }
{
    let last = input.len().div_ceil(PIECE) as u64;
    for calls in 0..=last.saturating_add(1) {
        let mut source = MemorySource::new(input).at_most(PIECE).failing_after(calls);
        let failed = Ended::of_source(rt, alloc, command, &mut source, MemorySink::new(alloc))?;
        let is_right = if calls <= last {
            failed.written.is_empty() && failed.outcome == Err(READ_FAILED)
        } else {
            failed == *ended
        };
        if !is_right {
            write!(answer, ", but not with a source that fails after {calls}")?;
        }
    }
    Ok(())
}

// Runs the command once for each call of the sink, so that this call fails. Appends a note unless
// the result is fault 61 and a prefix of the output. The program makes no call after those that
// write the output.
fn push_failing_writes<R: Threads + Wait + Sync>(
    rt: &R,
    alloc: Global,
    command: Command,
    input: &[u8],
    ended: &Ended,
    answer: &mut String,
) -> Result<(), AllocError>
    requires { IsInRange command }
{
    for calls in 0..=ended.written.len().div_ceil(PIECE) {
        let sink = MemorySink::new(alloc)
            .at_most(PIECE)
            .failing_after(calls as u64);
        let mut source = MemorySource::new(input);
        let failed = Ended::of_source(rt, alloc, command, &mut source, sink)?;
        if !is_prefix_of(&failed, ended, PIECE.saturating_mul(calls)) {
            write!(answer, ", but not with a sink that fails after {calls}")?;
        }
    }
    Ok(())
}

// Returns whether `failed` has the first `length` bytes of the output and fault 61. If the whole
// output has at most `length` bytes, returns whether `failed` equals `ended`.
fn is_prefix_of(failed: &Ended, ended: &Ended, length: usize) -> bool {
    let whole = ended.written.len();
    let outcome = if length < whole {
        Err(WRITE_FAILED)
    } else {
        ended.outcome
    };
    failed.outcome == outcome
        && failed.written.len() == length.min(whole)
        && ended.written.starts_with(&failed.written)
}
