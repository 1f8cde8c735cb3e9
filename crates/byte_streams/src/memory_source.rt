//! A source of bytes in memory, for tests.
ghost use Rattle.std.specs.Prelude.{◌≡◌, ◌+◌, ◌-◌, ◌<◌, ◌^◌, ◌↔◌, min, Some, None, Ok, IsErr, IfOk, OnErr, is_ok, if◌then◌else◌, length, take, drop, ◌++◌};
ghost use Rattle.std.specs.Io.{ReadsAtMost};
ghost use Rattle.std.specs.Io.KnownBytes.{ReadConsumes};
ghost use Rattle.byte_streams.specs.ScriptedFault.{calls_after};

use crate::failures::Failures;
use crate::scripted_fault::ScriptedFault;
use crate::{IoFault, Source};

/// A source that returns the bytes of a slice in order.
#[derive(Drop)]
pub struct MemorySource<'a> {
    rest: &'a [u8],
    max_bytes: usize,
    fault: ScriptedFault,
    failures: Failures,
    ghost some: { 0 < max_bytes },
}

impl<'a> MemorySource<'a> {
    ghost use Rattle.byte_streams.specs.MemorySource.{left, max_bytes_of, calls_before_fault, failure_count};

    /// Creates a source of `bytes`. Its calls never fail. A call fills the whole slice that it is
    /// given, or only the start of the slice if fewer bytes remain.
    pub fn new(bytes: &'a [u8]) -> MemorySource<'a>
        ensures left { left result ≡ bytes.now }
        ensures max_bytes { max_bytes_of result ≡ 2 ^ 64 - 1 }
        ensures fault { calls_before_fault result ≡ None }
        ensures failures { failure_count result ≡ 0 }
    {
        MemorySource {
            rest: bytes,
            max_bytes: usize::MAX,
            fault: ScriptedFault::never(),
            failures: Failures::none(),
        }
    }

    /// Sets the maximum number of bytes that each call returns. The maximum must be at least 1.
    pub fn at_most(mut self, max_bytes: usize) -> MemorySource<'a>
        requires { 0 < max_bytes }
        ensures left { left result ≡ left self.entry }
        ensures max_bytes { max_bytes_of result ≡ max_bytes }
        ensures fault { calls_before_fault result ≡ calls_before_fault self.entry }
        ensures failures { failure_count result ≡ failure_count self.entry }
    {
        self.max_bytes = max_bytes;
        self
    }

    /// Plans one failure: the next `calls` calls are not affected, and the call after them fails.
    pub fn failing_after(mut self, calls: u64) -> MemorySource<'a>
        ensures left { left result ≡ left self.entry }
        ensures max_bytes { max_bytes_of result ≡ max_bytes_of self.entry }
        ensures fault { calls_before_fault result ≡ Some calls }
        ensures failures { failure_count result ≡ failure_count self.entry }
    {
        self.fault = ScriptedFault::after(calls);
        self
    }

    /// Returns the bytes that have not been read yet.
    pub fn remaining(&self) -> &'a [u8]
        ensures { result.now ≡ left self.now }
    {
        self.rest
    }

    /// Returns the number of failed calls, or `u64::MAX` if there are more.
    pub fn failures(&self) -> u64
        ensures { result ≡ min (failure_count self.now) (2 ^ 64 - 1) }
    {
        self.failures.seen()
    }
}

impl Source for MemorySource<'_> {
    ghost use Rattle.byte_streams.specs.MemorySource.{left, max_bytes_of, calls_before_fault, failure_count};

    ghost remaining = { λ source. Some (left source) };

    ghost failures = { failure_count };

    fn read(&mut self, piece: &mut [u8]) -> Result<usize, IoFault>
        ensures bound { ReadsAtMost result piece.new }
        ensures bytes { ReadConsumes (Some (left self.old)) (Some (left self.new)) result
            piece.new }
        ensures failed { failure_count self.new
            ≡ failure_count self.old + (if is_ok result then 0 else 1) }
        ensures count { IfOk result (λ count.
            count ≡ min (length piece.old) (min (max_bytes_of self.old) (length (left self.old)))) }
        ensures copied { IfOk result (λ count.
            piece.new ≡ take count (left self.old) ++ drop count piece.old) }
        ensures fault { IsErr result ↔ (calls_before_fault self.old ≡ Some 0) }
        ensures calls { calls_before_fault self.new ≡ calls_after (calls_before_fault self.old) }
        ensures untouched { OnErr result (piece.new ≡ piece.old) }
        ensures max_bytes { max_bytes_of self.new ≡ max_bytes_of self.old }
    {
        if self.fault.is_due() {
            self.failures.count_failure();
            return Err(IoFault);
        }
        let count = piece.len().min(self.max_bytes).min(self.rest.len());
        let (front, rest) = self.rest.split_at(count);
        piece[..count].copy_from_slice(front);
        self.rest = rest;
        Ok(count)
    }
}
