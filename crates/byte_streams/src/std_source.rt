//! A source for any std reader.
ghost use Rattle.std.specs.Prelude.{◌≡◌};
ghost use Rattle.std.specs.Io.{ReadsAtMost};
ghost use Rattle.std.specs.Io.KnownBytes.{ReadConsumes};

use crate::failures::Failures;
use crate::{IoFault, Source};
use std::io::{ErrorKind, Read};

/// The maximum number of attempts for one call of a std reader or writer. A call is repeated if a
/// signal interrupts it.
pub(crate) const TRIES: u32 = 1_000_000;

/// A source that reads from a reader of type `R`. If the contracts of `R` say which bytes remain,
/// the contracts of the source say this too.
#[derive(Drop)]
pub struct StdSource<R> {
    reader: R,
    failures: Failures,
}

impl<R: Read> StdSource<R> {
    ghost use Rattle.byte_streams.specs.StdSource.{reader_of, failure_count};

    /// Creates a source of the bytes that `reader` has not returned yet.
    pub fn new(reader: R) -> StdSource<R>
        ensures reader { reader_of result ≡ reader }
        ensures failures { failure_count result ≡ 0 }
    {
        StdSource {
            reader,
            failures: Failures::none(),
        }
    }

    /// Returns the reader. The source has no buffer, so the next byte of the reader is the first
    /// byte that this source has not returned.
    pub fn into_inner(self) -> R
        ensures { result ≡ reader_of self }
    {
        self.reader
    }
}

impl<R: Read> Source for StdSource<R> {
    ghost use Rattle.byte_streams.specs.StdSource.{reader_of, failure_count};

    ghost remaining = { λ source. R.remaining (reader_of source) };

    ghost failures = { failure_count };

    /// Reads the next bytes in one call of the reader. If a signal interrupts the call, repeats it,
    /// up to a million calls in total.
    ///
    /// # Errors
    ///
    /// Returns a fault if all calls are interrupted, or if a call returns an error that is not an
    /// interruption.
    fn read(&mut self, piece: &mut [u8]) -> Result<usize, IoFault> {
        let outcome = read_retrying(&mut self.reader, piece);
        if outcome.is_err() {
            self.failures.count_failure();
        }
        outcome
    }
}

// Reads once. If a signal interrupts the call, tries again, up to `TRIES` times in total.
fn read_retrying<R: Read>(reader: &mut R, piece: &mut [u8]) -> Result<usize, IoFault>
    ensures bound { ReadsAtMost result piece.new }
    ensures bytes { ReadConsumes (R.remaining reader.old) (R.remaining reader.new) result
        piece.new }
{
    for _ in 0..TRIES {
        match reader.read(piece) {
            Ok(count) => return Ok(count),
            Err(error) => {
                if error.kind() != ErrorKind::Interrupted {
                    return Err(IoFault);
                }
            }
        }
    }
    Err(IoFault)
}
