//! Commands whose source or sink fails at one call.

ghost use Rattle.std.specs.Prelude.{◌<◌};

use crate::sequential::ended::{Ended, Query, serve};
use sizing_cli::{MemorySink, MemorySource, ServeFault, StdSink};
use std::alloc::{AllocError, Global};
use std::io;
use std::io::Write;

const READ_FAILED: ServeFault = ServeFault { number: 60 };

const WRITE_FAILED: ServeFault = ServeFault { number: 61 };

// The maximum number of bytes that a stalling writer accepts in a call, before it accepts none.
const STALLING_PIECE: usize = 60;

/// An input of a command, and the result that the command has if no call fails.
#[derive(Drop)]
pub struct Case<'a> {
    pub input: &'a [u8],
    pub ended: Ended,
}

impl Case<'_> {
    /// Repeats the command with failures. In each repetition, a different call of the source or of
    /// the sink fails. In further repetitions, the sink accepts no byte after a number of calls.
    /// Appends a note to the answer for each unexpected result.
    pub fn push_differences(
        &self,
        alloc: Global,
        query: Query,
        answer: &mut String,
    ) -> Result<(), AllocError> {
        self.push_failing_reads(alloc, query, answer, 150)?;
        self.push_failing_writes(alloc, query, answer, 40)?;
        self.push_stalling_writes(alloc, query, answer)
    }

    // Runs the command once for each call of the source, so that this call fails. Appends a note
    // unless the result is fault 60 without output.
    //
    // The program makes one call more than those that return bytes, to find the end of the input.
    // It makes no later call, so a source that would fail at a later call has no effect.
    fn push_failing_reads(
        &self,
        alloc: Global,
        query: Query,
        answer: &mut String,
        most: usize,
    ) -> Result<(), AllocError>
        requires { 0 < most }
    {
        let last = self.input.len().div_ceil(most) as u64;
        for calls in 0..=last.saturating_add(1) {
            let mut source = MemorySource::new(self.input)
                .at_most(most)
                .failing_after(calls);
            let failed = serve(alloc, query, &mut source, MemorySink::new(alloc))?;
            let is_right = if calls <= last {
                failed.written.is_empty() && failed.outcome == Err(READ_FAILED)
            } else {
                failed == self.ended
            };
            if !is_right {
                write!(
                    answer,
                    ", but not with a source of {most} that fails after {calls}"
                )?;
            }
        }
        Ok(())
    }

    // Runs the command once for each call of the sink, so that this call fails. Appends a note
    // unless the result is fault 61 and a prefix of the output. The program makes no call after
    // those that write the output.
    fn push_failing_writes(
        &self,
        alloc: Global,
        query: Query,
        answer: &mut String,
        most: usize,
    ) -> Result<(), AllocError>
        requires { 0 < most }
    {
        for calls in 0..=self.ended.written.len().div_ceil(most) {
            let sink = MemorySink::new(alloc)
                .at_most(most)
                .failing_after(calls as u64);
            let mut source = MemorySource::new(self.input);
            let failed = serve(alloc, query, &mut source, sink)?;
            if !is_prefix_of(&failed, &self.ended, most.saturating_mul(calls)) {
                write!(
                    answer,
                    ", but not with a sink of {most} that fails after {calls}"
                )?;
            }
        }
        Ok(())
    }

    // Runs the command with writers that accept no byte from some call on. Appends a note unless
    // the result is fault 61 and a prefix of the output. The sinks of the other tests must accept a
    // byte or fail, because their contract requires it.
    fn push_stalling_writes(
        &self,
        alloc: Global,
        query: Query,
        answer: &mut String,
    ) -> Result<(), AllocError> {
        for calls in 0..=self.ended.written.len().div_ceil(STALLING_PIECE) {
            let mut sink = StdSink::new(StallingSource {
                taken: Vec::new(alloc),
                calls,
            });
            let mut source = MemorySource::new(self.input);
            let outcome = query.serve(alloc, &mut source, &mut sink);
            let StallingSource { taken, calls: _ } = sink.into_inner();
            let failed = Ended {
                written: taken,
                outcome,
            };
            if !is_prefix_of(&failed, &self.ended, calls.saturating_mul(STALLING_PIECE)) {
                write!(
                    answer,
                    ", but not with a writer that takes none after {calls}"
                )?;
            }
        }
        Ok(())
    }
}

// Returns whether `failed` has the first `length` bytes of the output and fault 61. If the whole
// output has at most `length` bytes, returns whether `failed` equals `ended`.
fn is_prefix_of(failed: &Ended, ended: &Ended, length: usize) -> bool {
    let whole = ended.written.len();
    let outcome = if length < whole {
        Err(WRITE_FAILED)
    } else {
        ended.outcome
    };
    failed.outcome == outcome
        && failed.written.len() == length.min(whole)
        && ended.written.starts_with(&failed.written)
}

// A writer that accepts a piece in each of its first `calls` calls, and no byte in later calls.
#[derive(Drop)]
struct StallingSource {
    taken: Vec<u8>,
    calls: usize,
}

impl Write for StallingSource {
    fn write(&mut self, piece: &[u8]) -> io::Result<usize> {
        if self.calls == 0 {
            return Ok(0);
        }
        self.calls -= 1;
        let count = piece.len().min(STALLING_PIECE);
        self.taken.extend_from_slice(&piece[..count])?;
        Ok(count)
    }

    fn flush(&mut self) -> io::Result<()> {
        Ok(())
    }
}
