//! A sink for any std writer.
ghost use Rattle.std.specs.Prelude.{◌≡◌, ◌<◌, IfOk, length};
ghost use Rattle.std.specs.Io.{WritesAtMost};
ghost use Rattle.std.specs.Io.KnownBytes.{WriteAppends};

use crate::failures::Failures;
use crate::std_source::TRIES;
use crate::{IoFault, Sink};
use std::io::{ErrorKind, Write};

/// A sink that writes to a writer of type `W`. If the contracts of `W` say which bytes were
/// written, the contracts of the sink say this too.
#[derive(Drop)]
pub struct StdSink<W> {
    writer: W,
    failures: Failures,
}

impl<W: Write> StdSink<W> {
    ghost use Rattle.byte_streams.specs.StdSink.{writer_of, failure_count};

    /// Creates a sink that forwards each byte to `writer`.
    pub fn new(writer: W) -> StdSink<W>
        ensures writer { writer_of result ≡ writer }
        ensures failures { failure_count result ≡ 0 }
    {
        StdSink {
            writer,
            failures: Failures::none(),
        }
    }

    /// Returns the writer without flushing it. If the writer has a buffer, the caller must flush
    /// it.
    pub fn into_inner(self) -> W
        ensures { result ≡ writer_of self }
    {
        self.writer
    }
}

impl<W: Write> Sink for StdSink<W> {
    ghost use Rattle.byte_streams.specs.StdSink.{writer_of, failure_count};

    ghost written = { λ sink. W.contents (writer_of sink) };

    ghost failures = { failure_count };

    /// Writes a prefix of `bytes` in one call of the writer. If a signal interrupts the call,
    /// repeats it, up to a million calls in total.
    ///
    /// # Errors
    ///
    /// Returns a fault in these cases:
    ///
    /// - All calls are interrupted.
    /// - A call returns an error that is not an interruption.
    /// - `bytes` is not empty, and the writer accepts none of it.
    fn write(&mut self, bytes: &[u8]) -> Result<usize, IoFault> {
        let outcome = write_retrying(&mut self.writer, bytes);
        if outcome.is_err() {
            self.failures.count_failure();
        }
        outcome
    }
}

// Writes once. If a signal interrupts the call, tries again, up to `TRIES` times in total.
fn write_retrying<W: Write>(writer: &mut W, bytes: &[u8]) -> Result<usize, IoFault>
    ensures bound { WritesAtMost result bytes.now }
    ensures some { 0 < length bytes.now → IfOk result (λ count. 0 < count) }
    ensures bytes { WriteAppends (W.contents writer.old) (W.contents writer.new) result bytes.now }
{
    for _ in 0..TRIES {
        match writer.write(bytes) {
            Ok(0) if !bytes.is_empty() => return Err(IoFault),
            Ok(count) => return Ok(count),
            Err(error) => {
                if error.kind() != ErrorKind::Interrupted {
                    return Err(IoFault);
                }
            }
        }
    }
    Err(IoFault)
}
