//! Sources of bytes, and the function that reads a whole input up to a limit.
ghost use Rattle.std.specs.Prelude.{◌≡◌, ℕ, ◌+◌, ◌≤◌, ◌<◌, List, Option, IfOk, IfSome, OnOk, OnErr, Some, is_ok, if◌then◌else◌, take, drop, vec_len};
ghost use Rattle.std.specs.Io.{ReadsAtMost};
ghost use Rattle.std.specs.Io.KnownBytes.{Consumes, IsAtEnd, Keeps, ReadConsumes};
ghost use Rattle.byte_streams.specs.Reading.{ConsumesAtMost, error_text, fault_count};
ghost use Rattle.byte_streams.specs.declared.reading.InputError.TheVariants.{Fault, Memory};

use crate::IoFault;
use std::alloc::{AllocError, Global};
use std::error::Error;
use std::fmt;

/// A source of bytes.
pub trait Source {
    // The bytes that later calls will return, if they are known.
    ghost remaining: { Self → Option (List ℕ) };

    // The number of failed calls.
    ghost failures: { Self → ℕ };

    /// Reads the next bytes into the start of `piece`, and returns the number of bytes that were
    /// read. If `piece` is not empty, a result of 0 means the end of the input. A call that fails
    /// consumes no bytes of the source.
    fn read(&mut self, piece: &mut [u8]) -> Result<usize, IoFault>
        ensures bound { ReadsAtMost result piece.new }
        ensures bytes { ReadConsumes (remaining self.old) (remaining self.new) result piece.new }
        ensures failed { failures self.new ≡ failures self.old + (if is_ok result then 0 else 1) };
}

/// The error of reading an input.
#[derive(Clone, Copy, Debug)]
pub enum InputError {
    /// Out of memory.
    Memory,
    /// A call of the source failed.
    Fault,
}

impl fmt::Display for InputError {
    ghost output = { λ error. Some (error_text error) };

    fn fmt<W: fmt::Write>(&self, f: &mut fmt::Formatter<W>) -> fmt::Result {
        match self {
            InputError::Memory => write!(f, "out of memory"),
            InputError::Fault => write!(f, "the input could not be read"),
        }
    }
}

impl Error for InputError {}

impl From<AllocError> for InputError {
    ghost from_gives = { λ _ error. error ≡ Memory };

    fn from(_error: AllocError) -> InputError {
        InputError::Memory
    }
}

impl From<IoFault> for InputError {
    ghost from_gives = { λ _ error. error ≡ Fault };

    fn from(_fault: IoFault) -> InputError {
        InputError::Fault
    }
}

/// The initial size of the buffer for an input, in bytes.
const INITIAL_SIZE: usize = 4096;

/// The maximum number of bytes by which the buffer for an input grows in one step. With this limit,
/// the buffer of a long input is not much longer than the input.
const MAX_GROWTH: usize = 65_536;

/// Reads to the end of the input, or until `limit` bytes were read, and returns the bytes. The
/// input ends when a call of the source returns 0.
///
/// # Errors
///
/// - Returns `Memory` if memory runs out.
/// - Returns `Fault` if a call of the source fails.
///
/// In both cases, at most `limit` bytes were read from the source.
pub fn read_up_to<S: Source>(
    alloc: Global,
    source: &mut S,
    limit: usize,
) -> Result<Vec<u8>, InputError>
    ensures within { IfOk result (λ bytes. vec_len bytes ≤ limit) }
    ensures front { IfOk result (λ bytes. IfSome (S.remaining source.old)
        (λ input. bytes.items ≡ take limit input)) }
    ensures rest { OnOk result (IfSome (S.remaining source.old)
        (λ input. S.remaining source.new ≡ Some (drop limit input))) }
    ensures at_most { ConsumesAtMost (S.remaining source.old) (S.remaining source.new) limit }
    ensures failed { S.failures source.new ≡ S.failures source.old + fault_count result }
{
    let mut bytes = Vec::new(alloc);
    let mut filled = 0;
    while filled < limit {
        grow(&mut bytes, filled, limit)?;
        let count = read_at(source, &mut bytes, filled)?;
        if count == 0 {
            break;
        }
        filled += count;
    }
    bytes.truncate(filled);
    Ok(bytes)
}

// If no space is left after the first `filled` bytes, extends `bytes` with zeros, up to `limit`
// bytes in total. The size doubles until the growth reaches its maximum, so a short input takes few
// calls and the number of zeros is proportional to the input.
fn grow(bytes: &mut Vec<u8>, filled: usize, limit: usize) -> Result<(), AllocError>
    requires filled { filled ≤ vec_len bytes.old }
    requires below { filled < limit }
    requires within { vec_len bytes.old ≤ limit }
    ensures room { IfOk result (λ _. filled < vec_len bytes.new) }
    ensures grows { vec_len bytes.old ≤ vec_len bytes.new }
    ensures within { vec_len bytes.new ≤ limit }
    ensures kept { take filled bytes.new.items ≡ take filled bytes.old.items }
{
    if filled == bytes.len() {
        let room = filled.max(INITIAL_SIZE).min(MAX_GROWTH);
        let end = filled.saturating_add(room).min(limit);
        bytes.resize(end, 0)?;
    }
    Ok(())
}

// Reads once, into the part of `bytes` after the first `filled` bytes.
fn read_at<S: Source>(source: &mut S, bytes: &mut Vec<u8>, filled: usize) -> Result<usize, IoFault>
    requires { filled < vec_len bytes.old }
    ensures kept { take filled bytes.new.items ≡ take filled bytes.old.items }
    ensures same_len { vec_len bytes.new ≡ vec_len bytes.old }
    ensures fits { IfOk result (λ count. filled + count ≤ vec_len bytes.new) }
    ensures ok { IfOk result (λ count. Consumes (S.remaining source.old) (S.remaining source.new)
        (take count (drop filled bytes.new.items))) }
    ensures end { IfOk result (λ count. count ≡ 0 → IsAtEnd (S.remaining source.new)) }
    ensures err { OnErr result (Keeps (S.remaining source.old) (S.remaining source.new)) }
    ensures failed { S.failures source.new
        ≡ S.failures source.old + (if is_ok result then 0 else 1) }
{
    source.read(&mut bytes[filled..])
}
