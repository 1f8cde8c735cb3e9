//! Sinks of bytes, and the function that writes a whole answer.
ghost use Rattle.std.specs.Prelude.{◌≡◌, ℕ, ◌+◌, ◌<◌, List, Option, IfOk, OnOk, OnErr, is_ok, if◌then◌else◌, length};
ghost use Rattle.std.specs.Io.{WritesAtMost};
ghost use Rattle.std.specs.Io.KnownBytes.{Appends, WriteAppends};
ghost use Rattle.byte_streams.specs.Writing.{AppendsFront};

use crate::IoFault;

/// A sink of bytes.
pub trait Sink {
    // The bytes written so far, if they are known.
    ghost written: { Self → Option (List ℕ) };

    // The number of failed calls.
    ghost failures: { Self → ℕ };

    /// Writes a prefix of `bytes`, and returns the length of this prefix. If `bytes` is not empty,
    /// the length is at least 1. A call that fails writes nothing.
    fn write(&mut self, bytes: &[u8]) -> Result<usize, IoFault>
        ensures bound { WritesAtMost result bytes.now }
        ensures some { 0 < length bytes.now → IfOk result (λ count. 0 < count) }
        ensures bytes { WriteAppends (written self.old) (written self.new) result bytes.now }
        ensures failed { failures self.new ≡ failures self.old + (if is_ok result then 0 else 1) };
}

/// Writes all of `bytes`, in as many calls as the sink needs.
///
/// # Errors
///
/// Stops at the first call that fails, and returns its fault. A prefix of `bytes` may then have
/// been written.
pub fn write_all<K: Sink>(sink: &mut K, bytes: &[u8]) -> Result<(), IoFault>
    ensures ok { OnOk result (Appends (K.written sink.old) (K.written sink.new) bytes.now) }
    ensures err { OnErr result (AppendsFront (K.written sink.old) (K.written sink.new) bytes.now) }
    ensures failed { K.failures sink.new
        ≡ K.failures sink.old + (if is_ok result then 0 else 1) }
{
    let mut rest = bytes;
    while !rest.is_empty() {
        let count = sink.write(rest)?;
        rest = &rest[count..];
    }
    Ok(())
}
