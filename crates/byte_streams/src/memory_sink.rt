//! A sink in memory, for tests.
ghost use Rattle.std.specs.Prelude.{◌≡◌, ◌+◌, ◌-◌, ◌<◌, ◌^◌, ◌++◌, min, [], Some, None, IfOk, OnErr, is_ok, if◌then◌else◌, length, take, IsErr};
ghost use Rattle.std.specs.Io.{WritesAtMost};
ghost use Rattle.std.specs.Io.KnownBytes.{WriteAppends};
ghost use Rattle.byte_streams.specs.ScriptedFault.{calls_after};

use crate::failures::Failures;
use crate::scripted_fault::ScriptedFault;
use crate::{IoFault, Sink};
use std::alloc::Global;

/// A sink that stores the written bytes in memory.
#[derive(Drop)]
pub struct MemorySink {
    bytes: Vec<u8>,
    max_bytes: usize,
    fault: ScriptedFault,
    failures: Failures,
}

impl MemorySink {
    ghost use Rattle.byte_streams.specs.MemorySink.{written_to, max_bytes_of, calls_before_fault, failure_count};

    /// Creates an empty sink. Its calls accept all bytes and fail only if memory runs out.
    pub fn new(alloc: Global) -> MemorySink
        ensures written { written_to result ≡ [] }
        ensures max_bytes { max_bytes_of result ≡ 2 ^ 64 - 1 }
        ensures fault { calls_before_fault result ≡ None }
        ensures failures { failure_count result ≡ 0 }
    {
        MemorySink {
            bytes: Vec::new(alloc),
            max_bytes: usize::MAX,
            fault: ScriptedFault::never(),
            failures: Failures::none(),
        }
    }

    /// Sets the maximum number of bytes that each call accepts. If the maximum is 0, each call that
    /// is given at least one byte fails.
    pub fn at_most(mut self, max_bytes: usize) -> MemorySink
        ensures written { written_to result ≡ written_to self }
        ensures max_bytes { max_bytes_of result ≡ max_bytes }
        ensures fault { calls_before_fault result ≡ calls_before_fault self }
        ensures failures { failure_count result ≡ failure_count self }
    {
        self.max_bytes = max_bytes;
        self
    }

    /// Plans one failure: the next `calls` calls are not affected, and the call after them fails.
    pub fn failing_after(mut self, calls: u64) -> MemorySink
        ensures written { written_to result ≡ written_to self }
        ensures max_bytes { max_bytes_of result ≡ max_bytes_of self }
        ensures fault { calls_before_fault result ≡ Some calls }
        ensures failures { failure_count result ≡ failure_count self }
    {
        self.fault = ScriptedFault::after(calls);
        self
    }

    /// Returns the bytes written so far.
    pub fn written(&self) -> &[u8]
        ensures { result.now ≡ written_to self.now }
    {
        self.bytes.as_slice()
    }

    /// Returns the number of failed calls, or `u64::MAX` if there are more.
    pub fn failures(&self) -> u64
        ensures { result ≡ min (failure_count self.now) (2 ^ 64 - 1) }
    {
        self.failures.seen()
    }
}

impl Sink for MemorySink {
    ghost use Rattle.byte_streams.specs.MemorySink.{written_to, max_bytes_of, calls_before_fault, failure_count};

    ghost written = { λ sink. Some (written_to sink) };

    ghost failures = { failure_count };

    fn write(&mut self, bytes: &[u8]) -> Result<usize, IoFault>
        ensures bound { WritesAtMost result bytes.now }
        ensures some { 0 < length bytes.now → IfOk result (λ count. 0 < count) }
        ensures bytes { WriteAppends (Some (written_to self.old)) (Some (written_to self.new))
            result bytes.now }
        ensures failed { failure_count self.new
            ≡ failure_count self.old + (if is_ok result then 0 else 1) }
        ensures count { IfOk result (λ count. count ≡ min (length bytes.now) (max_bytes_of self.old)) }
        ensures fault { calls_before_fault self.old ≡ Some 0 → IsErr result }
        ensures calls { calls_before_fault self.new ≡ calls_after (calls_before_fault self.old) }
        ensures max_bytes { max_bytes_of self.new ≡ max_bytes_of self.old }
    {
        let is_due = self.fault.is_due();
        let count = bytes.len().min(self.max_bytes);
        let takes_none = count == 0 && !bytes.is_empty();
        if is_due || takes_none || self.bytes.extend_from_slice(&bytes[..count]).is_err() {
            self.failures.count_failure();
            return Err(IoFault);
        }
        Ok(count)
    }
}
